//! Rows of single calls.
//!
//! `call` is the name of the call or of what it prints. Names that it answers are given on a line, with blanks between them.

use super::row_fields::{flag_of, items_of, number_of, some_text, text_of, texts_of};
use just_lang_read::characters_of;
use just_path_text::Text;
use just_print_lists::{
    Element, EvaluateFormat, Evaluated, Named, alias_line, all_of, by_name, chosen_indentation,
    evaluation, has_name, in_order, is_nil, joined_line, names_of, path_text, public_by_name,
    push_blanks, push_if, push_where,
};
use rows_common::Wrong;
use serde_json::Value;
use std::alloc::Global;

/// What a call of a row gives.
pub(crate) fn printed(alloc: Global, row: &Value) -> Result<String, Wrong> {
    let call = text_of(row, "call")?;
    match call {
        "Element" => element(alloc, row),
        "alias_line" => alias(alloc, row),
        "chosen_indentation" => indentation(alloc, row),
        "evaluation" => evaluated(alloc, row),
        "is_nil" => nil(alloc, row),
        "path_text" => path(alloc, row),
        "push_blanks" => blanks(alloc, row),
        "push_if" => text_if(alloc, row),
        _ => ordered(alloc, row, call),
    }
}

/// A text in double quotes.
fn element(alloc: Global, row: &Value) -> Result<String, Wrong> {
    let letters = characters_of(alloc, text_of(row, "text")?)?;
    let element = Element {
        characters: letters.as_slice(),
    };
    Ok(format!(in alloc; "{}", element)?)
}

/// The line of an alias.
fn alias(alloc: Global, row: &Value) -> Result<String, Wrong> {
    let target = texts_of(alloc, row, "names")?;
    let name = text_of(row, "name")?;
    Ok(alias_line(alloc, name, target.as_slice())?)
}

/// What stands before the lines of bodies.
fn indentation(alloc: Global, row: &Value) -> Result<String, Wrong> {
    let given = some_text(row, "given")?;
    let set = some_text(row, "set")?;
    let text = chosen_indentation(alloc, given, set)?;
    Ok(String::from_str(alloc, text.as_str())?)
}

/// A variable of a row.
fn variable_of(alloc: Global, value: &Value) -> Result<Evaluated, Wrong> {
    let name = Text::from_str(alloc, text_of(value, "name")?)?;
    let text = Text::from_str(alloc, text_of(value, "text")?)?;
    Ok(Evaluated { name, text })
}

/// The variables of a row.
fn variables_of(alloc: Global, row: &Value) -> Result<Vec<Evaluated>, Wrong> {
    let Some(list) = row.get("variables") else {
        return Err(Wrong::Form);
    };
    let mut variables = Vec::new(alloc);
    for value in items_of(list)? {
        variables.push(variable_of(alloc, value)?)?;
    }
    Ok(variables)
}

/// Variables with their values.
fn evaluated(alloc: Global, row: &Value) -> Result<String, Wrong> {
    let variables = variables_of(alloc, row)?;
    let format = match text_of(row, "format")? {
        "just" => EvaluateFormat::Just,
        "shell" => EvaluateFormat::Shell,
        _ => return Err(Wrong::Form),
    };
    Ok(evaluation(alloc, format, variables.as_slice())?)
}

/// Whether there is no name.
fn nil(alloc: Global, row: &Value) -> Result<String, Wrong> {
    let names = texts_of(alloc, row, "names")?;
    let told = if is_nil(names.as_slice()) {
        "true"
    } else {
        "false"
    };
    Ok(String::from_str(alloc, told)?)
}

/// A path as a text.
fn path(alloc: Global, row: &Value) -> Result<String, Wrong> {
    let names = texts_of(alloc, row, "names")?;
    Ok(path_text(alloc, names.as_slice())?)
}

/// Blanks.
fn blanks(alloc: Global, row: &Value) -> Result<String, Wrong> {
    let count = number_of(row, "count")? as usize;
    let mut text = String::new(alloc);
    push_blanks(&mut text, count)?;
    Ok(text)
}

/// A text where it is wanted.
fn text_if(alloc: Global, row: &Value) -> Result<String, Wrong> {
    let wanted = flag_of(row, "wanted")?;
    let mut text = String::new(alloc);
    push_if(&mut text, wanted, text_of(row, "text")?)?;
    Ok(text)
}

/// The names of items on a line. It promises nothing beyond safety.
pub(crate) fn line_of<T: Named>(alloc: Global, items: &[&T]) -> Result<String, Wrong> {
    let names = names_of(alloc, items)?;
    Ok(joined_line(alloc, names.as_slice())?)
}

/// Those of some names that are wanted.
fn kept_names<'j>(alloc: Global, row: &Value, names: &'j [Text]) -> Result<Vec<&'j Text>, Wrong> {
    let wanted = texts_of(alloc, row, "wanted")?;
    let mut kept = Vec::new(alloc);
    for name in names {
        let is_wanted = has_name(wanted.as_slice(), name.as_str());
        push_where(&mut kept, is_wanted, name)?;
    }
    Ok(kept)
}

/// Names as a call orders or picks them.
fn picked<'j>(
    alloc: Global,
    row: &Value,
    call: &str,
    names: &'j [Text],
) -> Result<Vec<&'j Text>, Wrong> {
    match call {
        "all_of" => Ok(all_of(alloc, names)?),
        "by_name" => Ok(by_name(alloc, names)?),
        "in_order" => Ok(in_order(alloc, flag_of(row, "unsorted")?, names)?),
        "public_by_name" => Ok(public_by_name(alloc, names)?),
        "push_where" => kept_names(alloc, row, names),
        _ => Err(Wrong::Form),
    }
}

/// The names of a row on a line, as a call orders or picks them.
fn ordered(alloc: Global, row: &Value, call: &str) -> Result<String, Wrong> {
    let names = texts_of(alloc, row, "names")?;
    let found = picked(alloc, row, call, names.as_slice())?;
    line_of(alloc, found.as_slice())
}
