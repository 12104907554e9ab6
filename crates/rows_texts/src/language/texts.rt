//! Rows on small texts, and on the prefixes of one text.

use super::text_rows::{number_of, text_of};
use just_lang_syntax::{ParseError, parse, unindent};
use just_print::display;
use rows_common::Wrong;
use serde_json::Value;
use std::alloc::Global;
use std::ops::RangeInclusive;

/// Whether a text without its indentation is the row's. No clause, as of the other functions here: no theorem stands on what
/// they answer.
pub fn agrees_unindent(alloc: Global, row: &Value) -> Result<bool, Wrong> {
    let wanted = text_of(row, "gives")?;
    let found = unindent(alloc, text_of(row, "unindent")?)?;
    Ok(found.as_str() == wanted)
}

/// Whether a range of numbers is printed as the row says. No clause: no theorem stands on what it answers.
pub fn agrees_display(alloc: Global, row: &Value) -> Result<bool, Wrong> {
    let least = number_of(row, "least")? as usize;
    let greatest = number_of(row, "greatest")? as usize;
    let wanted = text_of(row, "gives")?;
    let range = RangeInclusive::new(least, greatest);
    let found = format!(in alloc; "{}", display(&range))?;
    Ok(found.as_str() == wanted)
}

/// The line of a text's fault; 0, where it has none.
fn fault_line(alloc: Global, text: &str) -> Result<usize, Wrong> {
    match parse(alloc, text) {
        Ok(_) => Ok(0),
        Err(ParseError::NoMemory) => Err(Wrong::NoMemory),
        Err(ParseError::Fault(fault)) => Ok(fault.line),
    }
}

/// Whether each prefix of a text is read, or refused at one of its lines. No clause: no theorem stands on what it answers.
pub fn agrees_prefixes(alloc: Global, text: &str) -> Result<bool, Wrong> {
    let mut front = String::new(alloc);
    let mut lines: usize = 1;
    for c in text.chars() {
        if fault_line(alloc, front.as_str())? > lines {
            return Ok(false);
        }
        front.push(c)?;
        if c == '\n' {
            lines = lines.saturating_add(1);
        }
    }
    Ok(true)
}
