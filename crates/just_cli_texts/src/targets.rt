//! What commands print of what the words behind them lead to.

ghost use Rattle.std.specs.Prelude.{◌≡◌, Ok, Err, IfOk, IfErr};
ghost use Rattle.just_print_commands.specs.Projects.{parts};
ghost use Rattle.just_cli_plan.specs.Own.{OrMemory};
ghost use Rattle.just_cli_texts.specs.Targets.{names_of, error_of_list, error_of_show, Lists, Shows, Uses};

use super::list_options::list_options;
use super::summary::borrowed;
use just_config::{Config, path_of_words};
use just_exec::Error;
use just_path_text::{NoMemory, Seq, Text};
use just_print_commands::{ListTextError, Project, ShowError, list_text, show_text, usage_text};
use std::alloc::Global;

/// The names of a module path in the words of a command; none where they are no path.
#[tactic(auto, using(crate::proofs::TargetLaws::path_named, crate::proofs::TargetLaws::path_unnamed))]
pub fn names_of(alloc: Global, words: &[Text]) -> Result<Seq<Text>, NoMemory>
    ensures { IfOk result (λ names. names ≡ names_of words.now) }
{
    match path_of_words(alloc, words)? {
        Some(names) => Ok(names),
        None => Ok(Seq::new(alloc)),
    }
}

/// The error of a listing that is refused.
fn error_of_list(refused: ListTextError) -> Error
    ensures { result ≡ error_of_list refused }
{
    match refused {
        ListTextError::Path(error) => Error::from(error),
        ListTextError::UnknownGroup(group) => Error::UnknownGroup { group },
        ListTextError::NoMemory => Error::NoMemory,
    }
}

/// The error of a command of that name which shows no recipe.
fn error_of_show(alloc: Global, name: &str, refused: ShowError) -> Error
    ensures { OrMemory (λ e. e ≡ error_of_show name.now refused) result }
{
    match refused {
        ShowError::Required => match Text::from_str(alloc, name) {
            Ok(subcommand) => Error::RecipeRequired { subcommand },
            Err(NoMemory) => Error::NoMemory,
        },
        ShowError::Path(error) => Error::from(error),
        ShowError::NoMemory => Error::NoMemory,
    }
}

/// The listing of the module that names lead to, as a configuration lists it.
pub(crate) fn list(
    alloc: Global,
    config: &Config,
    project: Project<'_, '_, '_, '_, '_, '_>,
    names: &[Text],
) -> Result<Text, Error>
    ensures listed { IfOk result (λ t. Lists config.now (parts project.entry) names.now (Ok t)) }
    ensures refused { IfErr result (OrMemory (λ e.
        Lists config.now (parts project.entry) names.now (Err e))) }
{
    let options = list_options(config);
    let text = match list_text(alloc, project, &options, names) {
        Ok(text) => text,
        Err(refused) => return Err(error_of_list(refused)),
    };
    Ok(Text::from(text))
}

/// The recipe that names lead to as its file has it.
pub(crate) fn show(
    alloc: Global,
    config: &Config,
    project: Project<'_, '_, '_, '_, '_, '_>,
    names: &[Text],
) -> Result<Text, Error>
    ensures shown { IfOk result (λ t. Shows config.now (parts project.entry) names.now (Ok t)) }
    ensures refused { IfErr result (OrMemory (λ e.
        Shows config.now (parts project.entry) names.now (Err e))) }
{
    let given = borrowed(&config.indentation);
    let text = match show_text(alloc, project, given, names) {
        Ok(text) => text,
        Err(refused) => return Err(error_of_show(alloc, "show", refused)),
    };
    Ok(Text::from(text))
}

/// How the recipe that names lead to is used.
pub(crate) fn usage(
    alloc: Global,
    project: Project<'_, '_, '_, '_, '_, '_>,
    names: &[Text],
) -> Result<Text, Error>
    ensures used { IfOk result (λ t. Uses (parts project.entry) names.now (Ok t)) }
    ensures refused { IfErr result (OrMemory (λ e. Uses (parts project.entry) names.now (Err e))) }
{
    let text = match usage_text(alloc, project, names) {
        Ok(text) => text,
        Err(refused) => return Err(error_of_show(alloc, "usage", refused)),
    };
    Ok(Text::from(text))
}
