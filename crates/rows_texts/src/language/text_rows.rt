//! Rows of texts.

use super::texts::{agrees_display, agrees_prefixes, agrees_unindent};
use just_lang_syntax::{Ast, Fault, ParseError, parse};
use just_print::print;
use rows_common::Wrong;
use serde_json::Value;
use std::alloc::Global;

/// The text of a field. No clause, as of the other functions here: no theorem stands on what they answer.
pub fn text_of<'a>(row: &'a Value, field: &str) -> Result<&'a str, Wrong> {
    match row.get(field) {
        Some(Value::String(text)) => Ok(text.as_str()),
        _ => Err(Wrong::Form),
    }
}

/// The number of a field. No clause: no theorem stands on what it answers.
pub fn number_of(row: &Value, field: &str) -> Result<u64, Wrong> {
    match row.get(field) {
        Some(value) => match value.as_u64() {
            Some(number) => Ok(number),
            None => Err(Wrong::Form),
        },
        None => Err(Wrong::Form),
    }
}

/// Whether a row says that its text is one of the language.
fn is_ok(row: &Value) -> Result<bool, Wrong> {
    match row.get("ok") {
        Some(Value::Bool(flag)) => Ok(*flag),
        _ => Err(Wrong::Form),
    }
}

/// Whether a row agrees with the crates' answers. No clause: it is public to this crate's modules alone, what it answers
/// is seen by comparing with the rows, and no theorem stands on it.
pub fn agrees(alloc: Global, row: &Value) -> Result<bool, Wrong> {
    if row.get("unindent").is_some() {
        return agrees_unindent(alloc, row);
    }
    if row.get("least").is_some() {
        return agrees_display(alloc, row);
    }
    if row.get("prefixes").is_some() {
        return agrees_prefixes(alloc, text_of(row, "prefixes")?);
    }
    agrees_parse(alloc, row)
}

/// What is shown of a text that is read: its printed tree, on the lines behind the first.
fn shown_tree(alloc: Global, ast: &Ast) -> Result<String, Wrong> {
    let printed = print(alloc, ast, "    ")?;
    Ok(format!(in alloc; "ok\n{printed}")?)
}

/// What is shown of a text that is refused: the fault, on one line.
fn shown_fault(alloc: Global, fault: Fault) -> Result<String, Wrong> {
    let Fault { kind, line, column } = fault;
    Ok(format!(in alloc; "{kind:?} {line} {column}")?)
}

/// What the crates answer to a text.
fn shown(alloc: Global, text: &str) -> Result<String, Wrong> {
    match parse(alloc, text) {
        Ok(ast) => shown_tree(alloc, &ast),
        Err(ParseError::Fault(fault)) => shown_fault(alloc, fault),
        Err(ParseError::NoMemory) => Err(Wrong::NoMemory),
    }
}

/// The fault that a row says, in the same form.
fn wanted_fault(alloc: Global, row: &Value) -> Result<String, Wrong> {
    let kind = text_of(row, "kind")?;
    let line = number_of(row, "line")?;
    let column = number_of(row, "column")?;
    Ok(format!(in alloc; "{kind} {line} {column}")?)
}

/// What a row says that is answered, in the same form.
fn wanted(alloc: Global, row: &Value) -> Result<String, Wrong> {
    if is_ok(row)? {
        let printed = text_of(row, "print")?;
        Ok(format!(in alloc; "ok\n{printed}")?)
    } else {
        wanted_fault(alloc, row)
    }
}

/// Whether a row of `parse` agrees.
fn agrees_parse(alloc: Global, row: &Value) -> Result<bool, Wrong> {
    let shown = shown(alloc, text_of(row, "text")?)?;
    let wanted = wanted(alloc, row)?;
    Ok(shown.as_str() == wanted.as_str())
}
