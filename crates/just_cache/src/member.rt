//! The values of a key's fields, as JSON.
ghost use Rattle.std.specs.Prelude.{◌≡◌, ◌++◌, IfOk, map, string_bytes};
ghost use Rattle.serde_json.specs.Data.{string};
ghost use Rattle.serde_json.specs.View.{view};
ghost use Rattle.just_cache.specs.Members.{text_or_null, texts, texts_or_null, environment, inputs, object_of_inputs, path_text};

use just_path::Utf8PathBuf;
use just_path_text::{NoMemory, Seq, Text};
use serde_json::{Map, Value};
use std::alloc::Global;

/// A text as JSON.
pub(crate) fn text_value(alloc: Global, text: &str) -> Result<Value, NoMemory>
    ensures { IfOk result (λ v. view v ≡ string text.now) }
{
    Ok(Value::String(String::from_str(alloc, text)?))
}

/// A text, or null where there is none.
pub(crate) fn text_or_null(alloc: Global, text: &Option<Text>) -> Result<Value, NoMemory>
    ensures { IfOk result (λ v. view v ≡ text_or_null text.now) }
{
    match text {
        Some(text) => text_value(alloc, text.as_str()),
        None => Ok(Value::Null),
    }
}

/// A folder, or null where there is none.
pub(crate) fn folder_or_null(alloc: Global, path: &Option<Utf8PathBuf>) -> Result<Value, NoMemory>
    ensures { IfOk result (λ v. view v ≡ text_or_null path.now) }
{
    match path {
        Some(path) => text_value(alloc, path.as_str()),
        None => Ok(Value::Null),
    }
}

/// A list of texts.
pub(crate) fn texts_value(alloc: Global, list: &[Text]) -> Result<Value, NoMemory>
    ensures { IfOk result (λ v. view v ≡ texts list.now) }
{
    let mut items = Vec::new(alloc);
    'texts: for text in list {
        items.push(text_value(alloc, text.as_str())?)?;
    }
    Ok(Value::Array(items))
}

/// A list of texts, or null where there is none.
pub(crate) fn texts_or_null(alloc: Global, list: &Option<Seq<Text>>) -> Result<Value, NoMemory>
    ensures { IfOk result (λ v. view v ≡ texts_or_null list.now) }
{
    match list {
        Some(list) => texts_value(alloc, list.as_slice()),
        None => Ok(Value::Null),
    }
}

/// The variables of an environment: each name with its text, or null where it is taken out.
pub(crate) fn environment_value(
    alloc: Global,
    pairs: &[(Text, Option<Text>)],
) -> Result<Value, NoMemory>
    ensures { IfOk result (λ v. view v ≡ environment pairs.now) }
{
    let mut members = Map::new(alloc);
    'pairs: for pair in pairs {
        let value = text_or_null(alloc, &pair.1)?;
        serde_json::put(&mut members, alloc, pair.0.as_str(), value)?;
    }
    Ok(Value::Object(members))
}

/// Files with their digests.
fn object_of_inputs(alloc: Global, pairs: &[(Text, Text)]) -> Result<Value, NoMemory>
    ensures { IfOk result (λ v. view v ≡ object_of_inputs pairs.now) }
{
    let mut members = Map::new(alloc);
    'pairs: for pair in pairs {
        let value = text_value(alloc, pair.1.as_str())?;
        serde_json::put(&mut members, alloc, pair.0.as_str(), value)?;
    }
    Ok(Value::Object(members))
}

/// Files with their digests, or null where there is none.
pub(crate) fn inputs_value(
    alloc: Global,
    files: &Option<Seq<(Text, Text)>>,
) -> Result<Value, NoMemory>
    ensures { IfOk result (λ v. view v ≡ inputs files.now) }
{
    match files {
        Some(files) => match files.as_slice() {
            [] => Ok(Value::Null),
            [_, ..] => object_of_inputs(alloc, files.as_slice()),
        },
        None => Ok(Value::Null),
    }
}

/// A module path, its names joined by `::`.
fn path_text(alloc: Global, names: &[Text]) -> Result<String, NoMemory>
    ensures { IfOk result (λ s. string_bytes s ≡ path_text names.now) }
{
    match names {
        [] => Ok(String::new(alloc)),
        [first, rest @ ..] => {
            let mut text = String::from_str(alloc, first.as_str())?;
            'rest: for name in rest {
                text.push_str("::")?;
                text.push_str(name.as_str())?;
            }
            Ok(text)
        }
    }
}

/// A module path as JSON.
pub(crate) fn path_value(alloc: Global, names: &[Text]) -> Result<Value, NoMemory>
    ensures { IfOk result (λ v. view v ≡ string (path_text names.now)) }
{
    Ok(Value::String(path_text(alloc, names)?))
}
