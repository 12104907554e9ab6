//! The fields of rows of printed texts.

use just_path_text::Text;
use rows_common::Wrong;
use serde_json::Value;
use std::alloc::Global;

/// The text of a field; none where there is no such field. It promises nothing beyond safety, as the other functions here.
pub(crate) fn some_text<'a>(row: &'a Value, field: &str) -> Result<Option<&'a str>, Wrong> {
    match row.get(field) {
        None => Ok(None),
        Some(Value::String(text)) => Ok(Some(text.as_str())),
        Some(_) => Err(Wrong::Form),
    }
}

/// The text of a field.
pub(crate) fn text_of<'a>(row: &'a Value, field: &str) -> Result<&'a str, Wrong> {
    match row.get(field) {
        Some(Value::String(text)) => Ok(text.as_str()),
        _ => Err(Wrong::Form),
    }
}

/// The text of a field, or another one where there is no such field.
pub(crate) fn text_or<'a>(row: &'a Value, field: &str, other: &'a str) -> Result<&'a str, Wrong> {
    match row.get(field) {
        None => Ok(other),
        Some(Value::String(text)) => Ok(text.as_str()),
        Some(_) => Err(Wrong::Form),
    }
}

/// The flag of a field; false where there is no such field.
pub(crate) fn flag_of(row: &Value, field: &str) -> Result<bool, Wrong> {
    match row.get(field) {
        None => Ok(false),
        Some(Value::Bool(flag)) => Ok(*flag),
        Some(_) => Err(Wrong::Form),
    }
}

/// The number of a field.
pub(crate) fn number_of(row: &Value, field: &str) -> Result<u64, Wrong> {
    match row.get(field) {
        Some(value) => match value.as_u64() {
            Some(number) => Ok(number),
            None => Err(Wrong::Form),
        },
        None => Err(Wrong::Form),
    }
}

/// The items of a list.
pub(crate) fn items_of(list: &Value) -> Result<&[Value], Wrong> {
    match list {
        Value::Array(items) => Ok(items.as_slice()),
        _ => Err(Wrong::Form),
    }
}

/// Adds the texts of a list.
fn push_texts(alloc: Global, texts: &mut Vec<Text>, list: &Value) -> Result<(), Wrong> {
    for item in items_of(list)? {
        let Some(text) = item.as_str() else {
            return Err(Wrong::Form);
        };
        texts.push(Text::from_str(alloc, text)?)?;
    }
    Ok(())
}

/// The texts of a field; none where there is no such field.
pub(crate) fn texts_of(alloc: Global, row: &Value, field: &str) -> Result<Vec<Text>, Wrong> {
    let mut texts = Vec::new(alloc);
    if let Some(list) = row.get(field) {
        push_texts(alloc, &mut texts, list)?;
    }
    Ok(texts)
}
