//! The texts of many recipes.

use std::alloc::{AllocError, Global};

/// Adds the recipe of a number and what it depends on: in a `tree` those of twice the number and of one more, in a
/// `ladder` the next two, else the next one.
fn push_recipe(text: &mut String, shape: &str, count: u64, number: u64) -> Result<(), AllocError> {
    let (first, second) = if shape == "tree" {
        (
            number.saturating_mul(2),
            number.saturating_mul(2).saturating_add(1),
        )
    } else if shape == "ladder" {
        (number.saturating_add(1), number.saturating_add(2))
    } else {
        (number.saturating_add(1), count)
    };
    write!(text, "r{number}:")?;
    if first < count {
        write!(text, " r{first}")?;
    }
    if second < count {
        write!(text, " r{second}")?;
    }
    text.push_str("\n\techo\n")
}

/// The text of the recipes of a shape with the numbers from 1 on, below that count. No clause: no theorem stands on what is measured.
pub(crate) fn recipes(alloc: Global, shape: &str, count: u64) -> Result<String, AllocError> {
    let mut text = String::new(alloc);
    for number in 1..count {
        push_recipe(&mut text, shape, count, number)?;
    }
    Ok(text)
}
