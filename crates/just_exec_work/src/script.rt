//! The command of a script.

ghost use Rattle.std.specs.Prelude.{◌≡◌, IfOk};
ghost use Rattle.std.specs.Option.{option_map};
ghost use Rattle.just_exec_work.specs.Scripts.{runner_of, program};
ghost use Rattle.just_exec_work.specs.Works.{run_of, arguments_of, runs_itself, positional_words, words_of_script, script_of, script_command};

use super::copies::{copied_changes, one_text};
use super::echo::{script_echo, shows_script};
use super::folder::{recipe_folder, script_folder};
use super::positional::positional_words;
use super::{Command, RunAttributes, Running};
use crate::Executor;
use just_host_record::{Script, Spec};
use just_lang_types::BodyLine;
use just_path_text::{NoMemory, Seq, Text};
use std::alloc::Global;

/// The program that runs a script.
fn program(alloc: Global, executor: &Executor<'_>) -> Result<Text, NoMemory>
    ensures { IfOk result (λ t. t ≡ program (runner_of executor.now)) }
{
    match executor {
        Executor::Command(interpreter) => interpreter.command.try_clone(),
        Executor::Shebang(shebang) => Text::from_str(alloc, shebang.interpreter),
    }
}

/// The arguments of the program that runs a script.
fn arguments(alloc: Global, executor: &Executor<'_>) -> Result<Seq<Text>, NoMemory>
    ensures { IfOk result (λ ts. ts ≡ arguments_of (runner_of executor.now)) }
{
    match executor {
        Executor::Command(interpreter) => interpreter.arguments.try_clone(),
        Executor::Shebang(shebang) => match shebang.argument {
            Some(argument) => one_text(alloc, argument),
            None => Ok(Seq::new(alloc)),
        },
    }
}

/// Whether a script's file is the program itself.
fn runs_itself(executor: &Executor<'_>) -> bool
    ensures { result ≡ runs_itself (runner_of executor.now) }
{
    match executor {
        Executor::Command(_) => false,
        Executor::Shebang(_) => true,
    }
}

/// The words behind the path of a script.
fn script_words(
    alloc: Global,
    run: &Running<'_>,
    attributes: &RunAttributes,
) -> Result<Seq<Text>, NoMemory>
    ensures { IfOk result (λ ts. ts ≡ words_of_script (positional_words (run_of run.now) attributes.now)) }
{
    match positional_words(alloc, run, attributes)? {
        Some(texts) => Ok(texts),
        None => Ok(Seq::new(alloc)),
    }
}

/// An extension, borrowed.
fn borrowed(extension: &Option<Text>) -> Option<&str>
    ensures { option_map (λ t. t.now) result ≡ extension.now }
{
    match extension {
        Some(extension) => Some(extension.as_str()),
        None => None,
    }
}

/// The script of a body.
fn script_of(
    alloc: Global,
    run: &Running<'_>,
    attributes: &RunAttributes,
    executor: &Executor<'_>,
    lines: &[BodyLine],
) -> Result<Script, NoMemory>
    ensures { IfOk result (λ s. s ≡ script_of (run_of run.now) attributes.now (runner_of executor.now) lines.now) }
{
    let after = script_words(alloc, run, attributes)?;
    let extension = borrowed(&attributes.extension);
    let name = executor.script_filename(alloc, run.recipe.name.as_str(), extension)?;
    let folder = script_folder(alloc, run.flags, run.settings)?;
    Ok(Script {
        folder,
        name: Text::from(name),
        text: executor.script_text(alloc, lines)?,
        run: runs_itself(executor),
        after,
    })
}

/// The child that runs a script.
fn script_child(
    alloc: Global,
    run: &Running<'_>,
    attributes: &RunAttributes,
    executor: &Executor<'_>,
    lines: &[BodyLine],
) -> Result<Spec, NoMemory>
    ensures { IfOk result (λ s. s ≡
        (script_command (run_of run.now) attributes.now (runner_of executor.now) lines.now).spec) }
{
    let program = program(alloc, executor)?;
    let arguments = arguments(alloc, executor)?;
    let changes = copied_changes(alloc, run.changes)?;
    Ok(Spec {
        program,
        arguments,
        folder: recipe_folder(alloc, run.settings, attributes, run.folder)?,
        changes,
        script: Some(script_of(alloc, run, attributes, executor, lines)?),
    })
}

/// The command of a script.
pub(crate) fn script_command(
    alloc: Global,
    run: &Running<'_>,
    attributes: &RunAttributes,
    executor: &Executor<'_>,
    lines: &[BodyLine],
) -> Result<Command, NoMemory>
    ensures { IfOk result (λ c. c ≡ script_command (run_of run.now) attributes.now (runner_of executor.now) lines.now) }
{
    let shown = shows_script(run.flags, run.recipe.quiet);
    let echo = script_echo(alloc, shown, lines)?;
    Ok(Command {
        spec: script_child(alloc, run, attributes, executor, lines)?,
        echo,
        line: None,
        forgiving: false,
        guard: false,
    })
}
