//! The response to a request.

ghost use Rattle.std.specs.Prelude.{◌≡◌, Ok, Err, IfOk, IfErr};
ghost use Rattle.just_path_text.specs.Environ.{value_of};
ghost use Rattle.just_config.specs.declared.request.Response.TheVariants as response;
ghost use Rattle.just_config.specs.Requests.{response_text};
ghost use Rattle.just_cli_plan.specs.Own.{OrMemory};
ghost use Rattle.just_cli_texts.specs.Responses.{requested, responded};

use just_config::{ConfigError, Request, Response};
use just_exec::Error;
use just_path_text::{Environ, NoMemory, Text};
use std::alloc::Global;

/// The request of some words.
fn requested(alloc: Global, words: &[Text]) -> Result<Option<Request>, NoMemory>
    ensures { IfOk result (λ r. r ≡ requested words.now) }
{
    match words {
        [text] => Request::read(alloc, text.as_str()),
        [] | [_, _, ..] => Ok(None),
    }
}

/// The value of a variable of an environment.
fn value_of(alloc: Global, environ: &Environ, name: &str) -> Result<Option<Text>, NoMemory>
    ensures { IfOk result (λ o. o ≡ value_of name.now environ.now.pairs) }
{
    match environ.get(name) {
        Some(text) => Ok(Some(Text::from_str(alloc, text)?)),
        None => Ok(None),
    }
}

/// The text of the response about a variable of an environment.
fn about_variable(alloc: Global, environ: &Environ, name: &str) -> Result<Text, NoMemory>
    ensures { IfOk result (λ t. t
        ≡ response_text (response.EnvironmentVariable (value_of name.now environ.now.pairs))) }
{
    let found = value_of(alloc, environ, name)?;
    let text = Response::EnvironmentVariable(found).text(alloc)?;
    Ok(Text::from(text))
}

/// The text of the response to a request, over an environment.
#[tactic(auto, using(crate::proofs::ResponseLaws::responded_so, crate::proofs::ResponseLaws::unresponded))]
pub fn respond(alloc: Global, environ: &Environ, words: &[Text]) -> Result<Text, Error>
    ensures text { IfOk result (λ t. responded environ.now.pairs (requested words.now) ≡ Ok t) }
    ensures refused { IfErr result (OrMemory (λ e.
        responded environ.now.pairs (requested words.now) ≡ Err e)) }
{
    match requested(alloc, words)? {
        Some(Request::EnvironmentVariable(name)) => {
            let text = about_variable(alloc, environ, name.as_str())?;
            Ok(text)
        }
        None => Err(Error::Config(ConfigError::RequestParse)),
    }
}
