//! Requests and their answers, as JSON.
ghost use Rattle.std.specs.Prelude.{◌≡◌, IfOk, option_map, option_and_then, string_bytes};
ghost use Rattle.serde_json.specs.View.{view};
ghost use Rattle.serde_json.specs.Find.{get, as_str};
ghost use Rattle.just_config.specs.Requests.{field, request_of, as_request, has_one_field, is_one_request, response_data, response_text};

use just_path_text::{NoMemory, Seq, Text};
use serde_json::{Category, Map, Value};
use std::alloc::Global;

/// What `--request` asks for: an object with the one field `environment-variable`.
#[derive(Drop)]
pub enum Request {
    /// The value of this variable of the environment.
    EnvironmentVariable(Text),
}

/// What is answered to a request: an object with the one field `environment-variable`.
#[derive(Drop)]
pub enum Response {
    /// The value of the variable, where there is one.
    EnvironmentVariable(Option<Text>),
}

/// Whether a value is an object with one field.
#[tactic(auto, using(crate::proofs::Fields::count_view))]
fn has_one_field(value: &Value) -> bool
    ensures { result ≡ has_one_field (view value.now) }
{
    match value.as_object() {
        Some(members) => members.len() == 1,
        None => false,
    }
}

/// The text of the field `environment-variable` of a value.
fn variable_in(value: &Value) -> Option<&str>
    ensures { option_map (λ s. s.now) result ≡ option_and_then as_str (get field (view value.now)) }
{
    match value.get("environment-variable") {
        Some(found) => found.as_str(),
        None => None,
    }
}

impl Request {
    /// The request of a text; none where it isn't the JSON of one.
    ///
    /// ```
    /// // of `{"environment-variable": "HOME"}`: the variable `HOME`
    /// ```
    pub fn read(alloc: Global, text: &str) -> Result<Option<Request>, NoMemory>
        ensures { IfOk result (λ r. r ≡ request_of text.now) }
    {
        match Value::from_str(alloc, text) {
            Ok(value) => Request::from_value(alloc, &value),
            Err(error) => match error.classify() {
                Category::Memory => Err(NoMemory),
                _ => Ok(None),
            },
        }
    }

    /// The request of a value.
    fn from_value(alloc: Global, value: &Value) -> Result<Option<Request>, NoMemory>
        ensures { IfOk result (λ r. r ≡ as_request (view value.now)) }
    {
        if !has_one_field(value) {
            return Ok(None);
        }
        let Some(name) = variable_in(value) else {
            return Ok(None);
        };
        let name = Text::from_str(alloc, name)?;
        Ok(Some(Request::EnvironmentVariable(name)))
    }
}

impl Response {
    /// The response as JSON.
    ///
    /// ```
    /// // of the value `/h`: `{"environment-variable":"/h"}`
    /// ```
    pub fn value(&self, alloc: Global) -> Result<Value, NoMemory>
        ensures { IfOk result (λ v. view v ≡ response_data self.now) }
    {
        let Response::EnvironmentVariable(found) = self;
        let found = match found {
            Some(text) => Value::String(String::from_str(alloc, text.as_str())?),
            None => Value::Null,
        };
        let mut members = Map::new(alloc);
        serde_json::put(&mut members, alloc, "environment-variable", found)?;
        Ok(Value::Object(members))
    }

    /// The text of the response, as JSON in its shortest form.
    ///
    /// ```
    /// // of the value `/h`: `{"environment-variable":"/h"}`
    /// ```
    #[tactic(auto, using(crate::proofs::Responses::text_so))]
    pub fn text(&self, alloc: Global) -> Result<String, NoMemory>
        ensures { IfOk result (λ s. string_bytes s ≡ response_text self.now) }
    {
        let value = self.value(alloc)?;
        let text = value.to_string(alloc)?;
        Ok(text)
    }
}

/// Whether the words of `--request` are one text that is a request.
pub(crate) fn is_one_request(alloc: Global, words: &[Text]) -> Result<bool, NoMemory>
    ensures { IfOk result (λ b. b ≡ is_one_request words.now) }
{
    match words {
        [] => Ok(false),
        [text] => Ok(Request::read(alloc, text.as_str())?.is_some()),
        [_, _, ..] => Ok(false),
    }
}
