//! What is wrong with arguments.
ghost use Rattle.std.specs.Prelude.{◌≡◌, ◌++◌, IfOk, string_bytes};
ghost use Rattle.std.specs.Option.{option_copied};
ghost use Rattle.just_config.specs.Config.{is_odd, with_blanks, spaced, internal, ill_path, surplus, unexpected, is_request_refused, command_refusal, has_place, later_refusal};

use super::command::{
    is_empty_command, name_of, path_words, request_words, surplus_arguments, surplus_overrides,
};
use super::listed::listed;
use super::module_path::path_of_words;
use super::request::is_one_request;
use super::{Arguments, ConfigError, Positional, Subcommand};
use just_config_words::add_copies;
use just_lang_types::Override;
use just_path_text::{NoMemory, Seq, Text};
use std::alloc::Global;

/// Whether there is an odd number of texts.
#[tactic(auto, using(crate::proofs::ConfigSteps::odd_short))]
fn is_odd(texts: &[Text]) -> bool
    ensures { result ≡ is_odd texts.now }
{
    let mut rest = texts;
    'texts: while let [_, _, others @ ..] = rest {
        rest = others;
    }
    !rest.is_empty()
}

/// Adds texts, each with a blank in front.
fn add_with_blanks(text: &mut String, texts: &[Text]) -> Result<(), NoMemory>
    ensures { IfOk result (λ u. string_bytes text.new ≡ string_bytes text.old ++ with_blanks texts.now) }
{
    'texts: for one in texts {
        text.push(' ')?;
        text.push_str(one.as_str())?;
    }
    Ok(())
}

/// Texts with a blank between two of them.
fn spaced(alloc: Global, texts: &[Text]) -> Result<Text, NoMemory>
    ensures { IfOk result (λ t. t ≡ spaced texts.now) }
{
    match texts {
        [] => Ok(Text::from(String::new(alloc))),
        [first, others @ ..] => {
            let mut text = String::from_str(alloc, first.as_str())?;
            add_with_blanks(&mut text, others)?;
            Ok(Text::from(text))
        }
    }
}

/// What makes arguments such as words can't give.
fn internal(arguments: &Arguments) -> Option<&'static str>
    ensures { option_copied result ≡ internal arguments.now }
{
    if arguments.working_directory.is_some() && !arguments.justfile.is_some() {
        return Some("a working directory without a justfile");
    }
    if is_odd(arguments.set.as_slice()) {
        return Some("an override without a value");
    }
    match &arguments.subcommand {
        Some(subcommand) => {
            if is_empty_command(subcommand) {
                Some("an empty command")
            } else {
                None
            }
        }
        None => None,
    }
}

/// The words of a command that are to be a module path and aren't one, with blanks between.
fn ill_path(alloc: Global, subcommand: &Option<Subcommand>) -> Result<Option<Text>, NoMemory>
    ensures { IfOk result (λ t. t ≡ ill_path subcommand.now) }
{
    let Some(subcommand) = subcommand else {
        return Ok(None);
    };
    let Some(words) = path_words(subcommand) else {
        return Ok(None);
    };
    match path_of_words(alloc, words.as_slice())? {
        Some(_) => Ok(None),
        None => Ok(Some(spaced(alloc, words.as_slice())?)),
    }
}

/// Whether the command is `--request` with a text that is no request.
fn is_request_refused(alloc: Global, subcommand: &Option<Subcommand>) -> Result<bool, NoMemory>
    ensures { IfOk result (λ b. b ≡ is_request_refused subcommand.now) }
{
    let Some(subcommand) = subcommand else {
        return Ok(false);
    };
    match request_words(subcommand) {
        Some(words) => Ok(!is_one_request(alloc, words.as_slice())?),
        None => Ok(false),
    }
}

/// The error of arguments and overrides that a command of that name doesn't take; none where there are none.
fn surplus(
    alloc: Global,
    name: &str,
    arguments: &[Text],
    overrides: &[Override],
) -> Result<Option<ConfigError>, NoMemory>
    ensures { IfOk result (λ e. e ≡ surplus name.now arguments.now overrides.now) }
{
    let subcommand = Text::from_str(alloc, name)?;
    let mut copies = Vec::new(alloc);
    add_copies(&mut copies, arguments)?;
    let copies = Seq::from(copies);
    let listed = listed(alloc, overrides)?;
    Ok(match overrides {
        [] => match arguments {
            [] => None,
            [_, ..] => Some(ConfigError::SubcommandArguments {
                subcommand,
                arguments: copies,
            }),
        },
        [_, ..] => match arguments {
            [] => Some(ConfigError::SubcommandOverrides {
                subcommand,
                overrides: listed,
            }),
            [_, ..] => Some(ConfigError::SubcommandOverridesAndArguments {
                subcommand,
                overrides: listed,
                arguments: copies,
            }),
        },
    })
}

/// The error of arguments and overrides that the command doesn't take.
fn unexpected(
    alloc: Global,
    subcommand: &Option<Subcommand>,
    arguments: &[Text],
    overrides: &[Override],
) -> Result<Option<ConfigError>, NoMemory>
    ensures { IfOk result (λ e. e ≡ unexpected subcommand.now arguments.now overrides.now) }
{
    match subcommand {
        Some(subcommand) => surplus(
            alloc,
            name_of(subcommand),
            surplus_arguments(subcommand, arguments),
            surplus_overrides(subcommand, overrides),
        ),
        None => Ok(None),
    }
}

/// What is wrong with the command, these positional words and overrides.
fn command_refusal(
    alloc: Global,
    subcommand: &Option<Subcommand>,
    arguments: &[Text],
    overrides: &[Override],
) -> Result<Option<ConfigError>, NoMemory>
    ensures { IfOk result (λ e. e ≡ command_refusal subcommand.now arguments.now overrides.now) }
{
    if let Some(path) = ill_path(alloc, subcommand)? {
        return Ok(Some(ConfigError::ModulePath { path }));
    }
    if is_request_refused(alloc, subcommand)? {
        return Ok(Some(ConfigError::RequestParse));
    }
    unexpected(alloc, subcommand, arguments, overrides)
}

/// Whether the options say where the justfile is, or the working folder.
fn has_place(arguments: &Arguments) -> bool
    ensures { result ≡ has_place arguments.now }
{
    arguments.global_justfile
        || arguments.justfile.is_some()
        || arguments.working_directory.is_some()
}

/// What is wrong behind the overrides' names, with these positional words and overrides.
pub(crate) fn later_refusal(
    alloc: Global,
    arguments: &Arguments,
    positional: &Positional,
    overrides: &[Override],
) -> Result<Option<ConfigError>, NoMemory>
    ensures { IfOk result (λ e. e ≡ later_refusal arguments.now positional.now overrides.now) }
{
    if let Some(message) = internal(arguments) {
        let message = Text::from_str(alloc, message)?;
        return Ok(Some(ConfigError::Internal { message }));
    }
    if positional.search_directory.is_some() && has_place(arguments) {
        return Ok(Some(ConfigError::SearchDirConflict));
    }
    let words = positional.arguments.as_slice();
    command_refusal(alloc, &arguments.subcommand, words, overrides)
}
