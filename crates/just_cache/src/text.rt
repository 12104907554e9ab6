//! The texts of a key.
ghost use Rattle.std.specs.Prelude.{◌≡◌, ◌++◌, IfOk, OnOk, None, true, false, length, codes, string_bytes};
ghost use Rattle.serde_json.specs.Data.{Data, Members, object};
ghost use Rattle.serde_json.specs.View.{view};
ghost use Rattle.serde_json.specs.Written.{compact_text, members_text, has_float};
ghost use Rattle.just_cache.specs.Members.{inputs, command_data, shebang_data, executor_data};
ghost use Rattle.just_cache.specs.Keys.{before_inputs, behind_inputs, data_with, key_text, class_text, with_inputs, TakesInputs};
ghost use Rattle.just_cache.specs.Readable.{FixesClass, FixesKey};

use super::member::{
    environment_value, folder_or_null, inputs_value, path_value, text_or_null, text_value,
    texts_or_null, texts_value,
};
use super::{CacheKey, ClassText, KeyExecutor};
use just_lang_types::Interpreter;
use just_path_text::{NoMemory, Seq, Text};
use serde_json::Value;
use std::alloc::Global;

/// The names of files with their digests.
pub type Inputs = Option<Seq<(Text, Text)>>;

/// Adds what stands before a value, and the value as JSON in its shortest form.
fn push_lent(alloc: Global, text: &mut String, front: &str, value: &Value) -> Result<(), NoMemory>
    requires { has_float (view value.now) ≡ false }
    ensures { OnOk result (string_bytes text.new ≡ string_bytes text.old ++ (front.now ++ compact_text (view value.now))) }
{
    text.push_str(front)?;
    match value {
        Value::Null => text.push_str("null")?,
        value => text.push_str(value.to_string(alloc)?.as_str())?,
    }
    Ok(())
}

/// The same of a value that isn't used any more.
fn push_value(alloc: Global, text: &mut String, front: &str, value: Value) -> Result<(), NoMemory>
    requires { has_float (view value) ≡ false }
    ensures { OnOk result (string_bytes text.new ≡
        string_bytes text.old ++ (front.now ++ compact_text (view value))) }
{
    let pushed = push_lent(alloc, text, front, &value);
    drop(value);
    pushed
}

/// Adds the member of a command that runs the script, with its arguments.
fn push_command(alloc: Global, text: &mut String, interpreter: &Interpreter) -> Result<(), NoMemory>
    ensures { OnOk result (string_bytes text.new ≡ string_bytes text.old ++ (codes ",\"executor\":" ++ compact_text (command_data interpreter.now))) }
{
    let arguments = texts_value(alloc, interpreter.arguments.as_slice())?;
    push_value(alloc, text, ",\"executor\":{\"arguments\":", arguments)?;
    let command = text_value(alloc, interpreter.command.as_str())?;
    push_value(alloc, text, ",\"command\":", command)?;
    text.push_str(",\"type\":\"command\"}")?;
    Ok(())
}

/// Adds the member of what the first line of a script names to run it.
fn push_shebang(
    alloc: Global,
    text: &mut String,
    argument: &Option<Text>,
    interpreter: &Text,
) -> Result<(), NoMemory>
    ensures { OnOk result (string_bytes text.new ≡ string_bytes text.old ++ (codes ",\"executor\":" ++ compact_text (shebang_data argument.now interpreter.now))) }
{
    let argument = text_or_null(alloc, argument)?;
    push_value(alloc, text, ",\"executor\":{\"argument\":", argument)?;
    let interpreter = text_value(alloc, interpreter.as_str())?;
    push_value(alloc, text, ",\"interpreter\":", interpreter)?;
    text.push_str(",\"type\":\"shebang\"}")?;
    Ok(())
}

/// Adds the member of what runs the script.
fn push_executor(alloc: Global, text: &mut String, executor: &KeyExecutor) -> Result<(), NoMemory>
    ensures { OnOk result (string_bytes text.new ≡ string_bytes text.old ++ (codes ",\"executor\":" ++ compact_text (executor_data executor.now))) }
{
    match executor {
        KeyExecutor::Command(interpreter) => push_command(alloc, text, interpreter),
        KeyExecutor::Shebang {
            argument,
            interpreter,
        } => push_shebang(alloc, text, argument, interpreter),
    }
}

/// Adds the members of a key before its inputs, behind a brace.
fn push_before(alloc: Global, text: &mut String, key: &CacheKey) -> Result<(), NoMemory>
    ensures { OnOk result ((following : Members) → string_bytes text.new ++ members_text true following ≡ string_bytes text.old ++ compact_text (object (before_inputs key.now following))) }
{
    let body = texts_value(alloc, key.body.as_slice())?;
    push_value(alloc, text, "{\"body\":", body)?;
    let environment = environment_value(alloc, key.environment.as_slice())?;
    push_value(alloc, text, ",\"environment\":", environment)?;
    push_executor(alloc, text, &key.executor)?;
    let extension = text_or_null(alloc, &key.extension)?;
    push_value(alloc, text, ",\"extension\":", extension)?;
    let extra = text_or_null(alloc, &key.extra)?;
    push_value(alloc, text, ",\"extra\":", extra)?;
    Ok(())
}

/// Adds the members of a key behind its inputs, and the brace behind them.
fn push_behind(alloc: Global, text: &mut String, key: &CacheKey) -> Result<(), NoMemory>
    ensures { OnOk result (string_bytes text.new ≡ string_bytes text.old ++ members_text true (behind_inputs key.now)) }
{
    let positional = texts_or_null(alloc, &key.positional)?;
    push_value(alloc, text, ",\"positional\":", positional)?;
    let recipe = path_value(alloc, key.recipe.components.as_slice())?;
    push_value(alloc, text, ",\"recipe\":", recipe)?;
    let folder = folder_or_null(alloc, &key.working_directory)?;
    push_value(alloc, text, ",\"working_directory\":", folder)?;
    text.push_str("}")?;
    Ok(())
}

/// How many bytes the texts of a list have. No clause: it is the room that they are given.
fn room_of(texts: &[Text]) -> usize {
    let mut room = 0usize;
    for text in texts {
        room = room.saturating_add(text.as_str().len());
    }
    room
}

/// Adds the name of the inputs, and answers where their value begins.
fn push_inputs_name(text: &mut String) -> Result<usize, NoMemory>
    ensures text { OnOk result (string_bytes text.new ≡ string_bytes text.old ++ codes ",\"inputs\":") }
    ensures place { IfOk result (λ at. at ≡ length (string_bytes text.old ++ codes ",\"inputs\":")) }
{
    text.push_str(",\"inputs\":")?;
    Ok(text.len())
}

/// The text of a key whose inputs have this text, and the place at which they begin.
fn text_around(alloc: Global, key: &CacheKey, inputs: &str) -> Result<(String, usize), NoMemory>
    ensures text { IfOk result (λ t. (given : Data) → compact_text given ≡ inputs.now → string_bytes t.0 ≡ compact_text (data_with given key.now)) }
    ensures place { IfOk result (λ t. TakesInputs key.now t.1) }
{
    let room = room_of(key.body.as_slice()).saturating_add(320);
    let mut text = String::with_capacity(alloc, room.saturating_add(inputs.len()))?;
    push_before(alloc, &mut text, key)?;
    let place = push_inputs_name(&mut text)?;
    text.push_str(inputs)?;
    push_behind(alloc, &mut text, key)?;
    Ok((text, place))
}

/// The text of inputs.
#[tactic(auto, using(crate::proofs::Cut::inputs_float_free))]
fn text_of_inputs(alloc: Global, files: &Inputs) -> Result<String, NoMemory>
    ensures { IfOk result (λ s. string_bytes s ≡ compact_text (inputs files.now)) }
{
    Ok(inputs_value(alloc, files)?.to_string(alloc)?)
}

/// The text of a key that has these inputs in place of its own.
///
/// ```
/// // with none: the class text of the key
/// ```
pub fn key_text_with(alloc: Global, key: &CacheKey, files: &Inputs) -> Result<String, NoMemory>
    ensures { IfOk result (λ s. string_bytes s ≡ key_text (record key.now { inputs = files.now })) }
{
    let inputs = text_of_inputs(alloc, files)?;
    Ok(text_around(alloc, key, inputs.as_str())?.0)
}

/// The class text of a key with the place of its inputs: what [`key_text_of_class`] makes other texts of.
///
/// ```
/// // of the text `{"body":[],..,"inputs":null,"positional":null,..}` the place of `null`
/// ```
pub fn class_with_place(alloc: Global, key: &CacheKey) -> Result<ClassText, NoMemory>
    ensures text { IfOk result (λ c. c.text ≡ class_text key.now) }
    ensures place { IfOk result (λ c. TakesInputs key.now c.inputs_at) }
{
    let (text, inputs_at) = text_around(alloc, key, "null")?;
    Ok(ClassText {
        text: Text::from(text),
        inputs_at,
    })
}

/// The text of a key that has these inputs, from its class text and their place in it.
///
/// ```
/// // with none: the class text
/// ```
pub fn key_text_of_class(
    alloc: Global,
    class: &str,
    inputs_at: usize,
    files: &Inputs,
) -> Result<String, NoMemory>
    requires { with_inputs class.now inputs_at None ≡ class.now }
    ensures { IfOk result (λ s. string_bytes s ≡ with_inputs class.now inputs_at files.now) }
{
    let inputs = text_of_inputs(alloc, files)?;
    let (before, rest) = class.split_at(inputs_at);
    let (_, behind) = rest.split_at("null".len());
    let size = class.len().saturating_add(inputs.len());
    let mut text = String::with_capacity(alloc, size)?;
    text.push_str(before)?;
    text.push_str(inputs.as_str())?;
    text.push_str(behind)?;
    Ok(text)
}

/// The text of a key: JSON in its shortest form, an object with the key's fields in byte order of their names. What isn't
/// there is null, and so are inputs of which there is none; of a name that comes again the last value counts.
///
/// ```
/// // begins with `{"body":[` and ends with `,"recipe":"m","working_directory":"/p"}`
/// ```
pub fn key_text(alloc: Global, key: &CacheKey) -> Result<String, NoMemory>
    ensures text { IfOk result (λ s. string_bytes s ≡ key_text key.now) }
    ensures class { IfOk result (λ s. FixesClass (string_bytes s) (class_text key.now)) }
    ensures key { IfOk result (λ s. FixesKey (string_bytes s) key.now) }
{
    key_text_with(alloc, key, &key.inputs)
}

/// The text of a key without its inputs: two cached bodies whose keys have one such text are never open at once.
///
/// ```
/// // the text of the key with `"inputs":null`
/// ```
pub fn class_text(alloc: Global, key: &CacheKey) -> Result<String, NoMemory>
    ensures { IfOk result (λ s. string_bytes s ≡ class_text key.now) }
{
    key_text_with(alloc, key, &None)
}
