//! Forms of texts: letters that stand for parts.

use just_path_text::NoMemory;
use std::alloc::{AllocError, Global};

/// Adds what a letter of a form stands for: the part under it, else itself.
fn add(text: &mut String, letter: char, parts: &[(char, &str)]) -> Result<(), AllocError> {
    for (name, part) in parts {
        if *name == letter {
            return text.push_str(part);
        }
    }
    text.push(letter)
}

/// The text of a form.
pub(crate) fn filled(
    alloc: Global,
    form: &str,
    parts: &[(char, &str)],
) -> Result<String, NoMemory> {
    let mut text = String::new(alloc);
    for letter in form.chars() {
        add(&mut text, letter, parts)?;
    }
    Ok(text)
}

/// The text of a form in which `U` is the way up to a root, `R` the root, and `P` a path in it.
pub(crate) fn placed(
    alloc: Global,
    form: &str,
    up: &str,
    root: &str,
    path: &str,
) -> Result<String, NoMemory> {
    filled(alloc, form, &[('U', up), ('R', root), ('P', path)])
}
