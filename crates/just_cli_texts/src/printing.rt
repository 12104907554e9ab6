//! What commands print of a project.

ghost use Rattle.std.specs.Prelude.{◌≡◌, Some, IfOk};
ghost use Rattle.just_lang.specs.Assembled.{IsSoundlyMadeOf};
ghost use Rattle.just_print_commands.specs.Projects.{parts};
ghost use Rattle.just_cli_plan.specs.Pairs.{Answers};
ghost use Rattle.just_cli_texts.specs.Kinds.{kind_of};
ghost use Rattle.just_cli_texts.specs.Laid.{laid_by};
ghost use Rattle.just_cli_texts.specs.ListOptions.{prefix_of};
ghost use Rattle.just_cli_texts.specs.Prints.{alone, as_printed, PrintsOf, Prints};
ghost use Rattle.just_lang_types.specs.Modules.{assignments_of};
ghost use Rattle.just_print_lists.specs.NameLists.{variables_text, groups_text};
ghost use Rattle.just_cli_texts.specs.declared.kind.Kind.TheVariants.{Print as PrintKind};

use super::list_options::prefix_of;
use super::printed::Printed;
use super::summary::{dump, summary};
use super::targets::{list, names_of, show, usage};
use super::whole::whole_of;
use just_config::{Config, Subcommand};
use just_exec::Error;
use just_lang::LaidJustfile;
use just_path_text::{Environ, NoMemory, Text};
use just_print_commands::Project;
use just_print_lists::{groups, variables};
use std::alloc::Global;

/// A text, beside which nothing is told.
pub fn alone(text: Text) -> Printed
    ensures { result ≡ alone text }
{
    Printed { text, told: None }
}

/// The groups of a project.
fn groups_of(
    alloc: Global,
    config: &Config,
    project: Project<'_, '_, '_, '_, '_, '_>,
) -> Result<Text, NoMemory>
    ensures { IfOk result (λ t. t
        ≡ groups_text config.now.unsorted (prefix_of config.now) (parts project.entry).tree) }
{
    let text = groups(alloc, config.unsorted, prefix_of(config), project.tree)?;
    Ok(Text::from(text))
}

/// The names of the root's variables.
fn variables_of(alloc: Global, project: Project<'_, '_, '_, '_, '_, '_>) -> Result<Text, NoMemory>
    ensures { IfOk result (λ t. t ≡ variables_text (assignments_of (parts project.entry).root)) }
{
    let text = variables(alloc, project.root.assignments.as_slice())?;
    Ok(Text::from(text))
}

/// What is printed of what words lead to; or why nothing is printed.
pub(crate) fn alone_or(text: Result<Text, Error>) -> Result<Printed, Error>
    ensures { result ≡ as_printed text }
{
    match text {
        Ok(text) => Ok(alone(text)),
        Err(error) => Err(error),
    }
}

/// What a command prints of a project.
fn prints_of(
    alloc: Global,
    config: &Config,
    command: &Subcommand,
    project: Project<'_, '_, '_, '_, '_, '_>,
) -> Result<Printed, Error>
    requires { kind_of (Some command.now) ≡ PrintKind }
    ensures { Answers (PrintsOf config.now (Some command.now) (parts project.entry)) result }
{
    match command {
        Subcommand::Dump(_) => {
            let text = dump(alloc, config, project)?;
            Ok(alone(text))
        }
        Subcommand::Groups(_) => {
            let text = groups_of(alloc, config, project)?;
            Ok(alone(text))
        }
        Subcommand::Variables(_) => {
            let text = variables_of(alloc, project)?;
            Ok(alone(text))
        }
        Subcommand::Summary(_) => {
            let summed = summary(alloc, config, project)?;
            Ok(summed)
        }
        Subcommand::List(words) => {
            let names = names_of(alloc, words.as_slice())?;
            alone_or(list(alloc, config, project, names.as_slice()))
        }
        Subcommand::Show(words) => {
            let names = names_of(alloc, words.as_slice())?;
            alone_or(show(alloc, config, project, names.as_slice()))
        }
        Subcommand::Usage(words) => {
            let names = names_of(alloc, words.as_slice())?;
            alone_or(usage(alloc, project, names.as_slice()))
        }
        Subcommand::Choose(_)
        | Subcommand::Clean(_)
        | Subcommand::Command(_)
        | Subcommand::Edit(_)
        | Subcommand::Evaluate(_)
        | Subcommand::Fmt(_)
        | Subcommand::Init(_)
        | Subcommand::Request(_)
        | Subcommand::Vectors(_) => unreachable!(),
    }
}

/// What the command of a configuration prints of a justfile with its layout.
pub fn prints(
    alloc: Global,
    config: &Config,
    environ: &Environ,
    laid: &LaidJustfile,
) -> Result<Printed, Error>
    requires sound { IsSoundlyMadeOf environ.now.pairs laid.now.layout laid.now.justfile }
    requires kind { kind_of config.now.subcommand ≡ PrintKind }
    ensures { Answers (Prints environ.now.pairs config.now (laid_by laid.now)) result }
{
    let whole = whole_of(alloc, environ, laid)?;
    let command = match &config.subcommand {
        Some(command) => command,
        None => unreachable!(),
    };
    prints_of(alloc, config, command, whole.project())
}
