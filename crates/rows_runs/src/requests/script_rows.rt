//! Rows of scripts.
//!
//! A row is what runs a script, a recipe's name, an extension or `-`, the lines of a body, and the script's name and text. What runs it is the line of
//! a shebang, or a command and its arguments with a blank between; a line is its number, `:` and its text, and a newline stands between two.

use super::said::{is_text, plain_text};
use just_exec_work::{BodyLine, Executor, Interpreter, Shebang};
use just_path_text::{Seq, Text};
use rows_common::{Wrong, at};
use std::alloc::Global;

/// Whether a row says the name and the text of its script. It promises nothing beyond safety.
pub(crate) fn agrees(alloc: Global, fields: &[&str]) -> Result<bool, Wrong> {
    let front = plain_text(alloc, fields, 0)?;
    let executor = executor(alloc, front.as_str())?;
    if is_named(alloc, fields, &executor)? {
        is_written(alloc, fields, &executor)
    } else {
        Ok(false)
    }
}

/// Whether a row says the name of its script.
fn is_named(alloc: Global, fields: &[&str], executor: &Executor<'_>) -> Result<bool, Wrong> {
    let (recipe, wanted) = (at(fields, 1)?, at(fields, 4)?);
    let extension = extension(at(fields, 2)?);
    let name = executor.script_filename(alloc, recipe, extension)?;
    Ok(name.as_str() == wanted)
}

/// Whether a row says the text of its script.
fn is_written(alloc: Global, fields: &[&str], executor: &Executor<'_>) -> Result<bool, Wrong> {
    let lines = lines(alloc, fields)?;
    let text = executor.script(alloc, lines.as_slice())?;
    is_text(alloc, fields, 5, text.as_str())
}

/// What runs a script.
fn executor(alloc: Global, front: &str) -> Result<Executor<'_>, Wrong> {
    match Shebang::new(front) {
        Some(shebang) => Ok(Executor::Shebang(shebang)),
        None => Ok(Executor::Command(interpreter(alloc, front)?)),
    }
}

/// A command and its arguments.
fn interpreter(alloc: Global, front: &str) -> Result<Interpreter, Wrong> {
    let (command, rest) = match front.split_once(' ') {
        Some((command, rest)) => (command, Some(rest)),
        None => (front, None),
    };
    let command = Text::from_str(alloc, command)?;
    let arguments = Seq::from(arguments(alloc, rest)?);
    Ok(Interpreter { command, arguments })
}

/// The arguments of what stands behind a command, where something does.
fn arguments(alloc: Global, rest: Option<&str>) -> Result<Vec<Text>, Wrong> {
    let mut arguments = Vec::new(alloc);
    if let Some(rest) = rest {
        for word in rest.split(' ') {
            arguments.push(Text::from_str(alloc, word)?)?;
        }
    }
    Ok(arguments)
}

/// The extension of a field.
fn extension(field: &str) -> Option<&str> {
    if field == "-" { None } else { Some(field) }
}

/// A line of a body.
fn line(alloc: Global, line: &str) -> Result<BodyLine, Wrong> {
    let Some((number, text)) = line.split_once(':') else {
        return Err(Wrong::Form);
    };
    let Ok(number) = number.parse::<usize>() else {
        return Err(Wrong::Form);
    };
    Ok(BodyLine {
        number,
        text: Text::from_str(alloc, text)?,
        quiet: false,
        forgiving: false,
        guard: false,
    })
}

/// The lines of a row's body.
fn lines(alloc: Global, fields: &[&str]) -> Result<Vec<BodyLine>, Wrong> {
    let mut lines = Vec::new(alloc);
    let text = plain_text(alloc, fields, 3)?;
    for piece in text.as_str().split('\n') {
        lines.push(line(alloc, piece)?)?;
    }
    Ok(lines)
}
