//! The key of a row.

use just_cache::{CacheKey, KeyExecutor};
use just_lang_types::{Interpreter, Modulepath};
use just_path::Utf8PathBuf;
use just_path_text::{Seq, Text};
use rows_common::{Wrong, at, text, unescaped_text};
use std::alloc::Global;

/// The key of a row.
pub(crate) fn key_of(alloc: Global, fields: &[&str]) -> Result<CacheKey, Wrong> {
    let mut key = blank(alloc);
    fill(alloc, fields, &mut key)?;
    Ok(key)
}

/// The path of a row's recipe.
pub(crate) fn path_of(alloc: Global, fields: &[&str]) -> Result<Modulepath, Wrong> {
    let components = texts(alloc, fields, 7)?;
    Ok(Modulepath { components })
}

/// A key with nothing in it.
fn blank(alloc: Global) -> CacheKey {
    CacheKey {
        body: Seq::new(alloc),
        environment: Seq::new(alloc),
        executor: KeyExecutor::Shebang {
            argument: None,
            interpreter: Text::from(String::new(alloc)),
        },
        extension: None,
        extra: None,
        inputs: None,
        positional: None,
        recipe: Modulepath {
            components: Seq::new(alloc),
        },
        working_directory: None,
    }
}

/// Fills the key of a row.
fn fill(alloc: Global, fields: &[&str], key: &mut CacheKey) -> Result<(), Wrong> {
    fill_script(alloc, fields, key)?;
    fill_texts(alloc, fields, key)?;
    fill_places(alloc, fields, key)
}

/// Fills the body, the environment, and what runs the script.
fn fill_script(alloc: Global, fields: &[&str], key: &mut CacheKey) -> Result<(), Wrong> {
    key.body = texts(alloc, fields, 0)?;
    key.environment = environment(alloc, fields)?;
    key.executor = executor(alloc, fields)?;
    Ok(())
}

/// Fills the extension, the extra text, and the words.
fn fill_texts(alloc: Global, fields: &[&str], key: &mut CacheKey) -> Result<(), Wrong> {
    key.extension = field_text(alloc, fields, 3)?;
    key.extra = field_text(alloc, fields, 4)?;
    key.positional = words(alloc, fields)?;
    Ok(())
}

/// Fills the inputs, the path and the folder.
fn fill_places(alloc: Global, fields: &[&str], key: &mut CacheKey) -> Result<(), Wrong> {
    key.inputs = inputs(alloc, fields)?;
    key.recipe = path_of(alloc, fields)?;
    key.working_directory = folder(alloc, fields)?;
    Ok(())
}

/// The text of a field, where it holds one.
fn field_text(alloc: Global, fields: &[&str], number: usize) -> Result<Option<Text>, Wrong> {
    if at(fields, number)? == "-" {
        return Ok(None);
    }
    Ok(Some(Text::from(text(alloc, fields, number)?)))
}

/// The folder of a row, where it has one.
fn folder(alloc: Global, fields: &[&str]) -> Result<Option<Utf8PathBuf>, Wrong> {
    if at(fields, 8)? == "-" {
        return Ok(None);
    }
    Ok(Some(Utf8PathBuf::from(text(alloc, fields, 8)?)))
}

/// The text of a piece.
fn text_of(alloc: Global, piece: &str) -> Result<Text, Wrong> {
    Ok(Text::from(unescaped_text(alloc, piece)?))
}

/// The text of a piece, where there is one.
fn optional_text(alloc: Global, piece: Option<&str>) -> Result<Option<Text>, Wrong> {
    match piece {
        Some(piece) => Ok(Some(text_of(alloc, piece)?)),
        None => Ok(None),
    }
}

/// What stands before a mark, and what stands behind it, where it is there.
fn halves(field: &str, mark: char) -> (&str, Option<&str>) {
    match field.split_once(mark) {
        Some((front, rest)) => (front, Some(rest)),
        None => (field, None),
    }
}

/// The texts of a list.
fn list(alloc: Global, field: &str) -> Result<Seq<Text>, Wrong> {
    let mut texts = Vec::new(alloc);
    if field != "+" {
        for piece in field.split('|') {
            texts.push(text_of(alloc, piece)?)?;
        }
    }
    Ok(Seq::from(texts))
}

/// The texts of the list in the field with that number.
fn texts(alloc: Global, fields: &[&str], number: usize) -> Result<Seq<Text>, Wrong> {
    list(alloc, at(fields, number)?)
}

/// The words of a row, or none.
fn words(alloc: Global, fields: &[&str]) -> Result<Option<Seq<Text>>, Wrong> {
    let field = at(fields, 6)?;
    if field == "-" {
        return Ok(None);
    }
    Ok(Some(list(alloc, field)?))
}

/// A name, and a text where there is one.
fn variable(alloc: Global, piece: &str) -> Result<(Text, Option<Text>), Wrong> {
    let (name, text) = halves(piece, '=');
    let name = text_of(alloc, name)?;
    let text = optional_text(alloc, text)?;
    Ok((name, text))
}

/// The variables of a row's environment.
fn environment(alloc: Global, fields: &[&str]) -> Result<Seq<(Text, Option<Text>)>, Wrong> {
    let field = at(fields, 1)?;
    let mut pairs = Vec::new(alloc);
    if field != "+" {
        for piece in field.split('|') {
            pairs.push(variable(alloc, piece)?)?;
        }
    }
    Ok(Seq::from(pairs))
}

/// A file with its digest.
fn input(alloc: Global, piece: &str) -> Result<(Text, Text), Wrong> {
    let (name, Some(digest)) = halves(piece, '=') else {
        return Err(Wrong::Form);
    };
    let name = text_of(alloc, name)?;
    let digest = text_of(alloc, digest)?;
    Ok((name, digest))
}

/// The files of a row with their digests, or none.
fn inputs(alloc: Global, fields: &[&str]) -> Result<Option<Seq<(Text, Text)>>, Wrong> {
    let field = at(fields, 5)?;
    if field == "-" {
        return Ok(None);
    }
    let mut pairs = Vec::new(alloc);
    if field != "+" {
        for piece in field.split('|') {
            pairs.push(input(alloc, piece)?)?;
        }
    }
    Ok(Some(Seq::from(pairs)))
}

/// What runs the script of a row.
fn executor(alloc: Global, fields: &[&str]) -> Result<KeyExecutor, Wrong> {
    let field = at(fields, 2)?;
    if let Some(command) = field.strip_prefix("command:") {
        return Ok(KeyExecutor::Command(interpreter(alloc, command)?));
    }
    match field.strip_prefix("shebang:") {
        Some(line) => shebang(alloc, line),
        None => Err(Wrong::Form),
    }
}

/// A command with its arguments.
fn interpreter(alloc: Global, field: &str) -> Result<Interpreter, Wrong> {
    let (command, arguments) = halves(field, '|');
    let command = text_of(alloc, command)?;
    let arguments = list(alloc, arguments.unwrap_or("+"))?;
    Ok(Interpreter { command, arguments })
}

/// An interpreter, and its argument where there is one.
fn shebang(alloc: Global, line: &str) -> Result<KeyExecutor, Wrong> {
    let (interpreter, argument) = halves(line, '|');
    let interpreter = text_of(alloc, interpreter)?;
    let argument = optional_text(alloc, argument)?;
    Ok(KeyExecutor::Shebang {
        argument,
        interpreter,
    })
}
