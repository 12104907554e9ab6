//! What the body of a recipe has to run.

ghost use Rattle.std.specs.Prelude.{◌≡◌, ◌≢◌, Ok, Err, IfOk, IfErr};
ghost use Rattle.just_exec_work.specs.declared.error.CommandError.{CommandError};
ghost use Rattle.just_exec_work.specs.declared.error.CommandError.TheVariants as error;
ghost use Rattle.just_exec_work.specs.declared.work.Work.TheVariants.{Script as ScriptWork};
ghost use Rattle.just_exec_work.specs.Scripts.{runner_of};
ghost use Rattle.just_exec_work.specs.Works.{run_of, work_of_lines, script_command, script_work, body_work, recipe_work};

use super::attribute::read_attributes;
use super::line::line_commands;
use super::runner::runner;
use super::script::script_command;
use super::{Command, CommandError, Executor, RunAttributes, Running, Work};
use just_lang_read::Boxed;
use just_lang_types::BodyLine;
use just_path_text::{NoMemory, Seq};
use std::alloc::Global;

/// What commands are, one for each line.
fn work_of_lines(commands: Vec<Command>) -> Work
    ensures { result ≡ work_of_lines commands.items }
{
    if commands.is_empty() {
        return Work::Empty;
    }
    Work::Lines(Seq::from(commands))
}

/// A command on the heap.
fn boxed(alloc: Global, command: Command) -> Result<Boxed<Command>, NoMemory>
    ensures { IfOk result (λ b. b ≡ command) }
{
    Ok(Boxed::new(alloc, command)?)
}

/// What the script of a body has to run that this runs.
fn work_by(
    alloc: Global,
    run: &Running<'_>,
    attributes: &RunAttributes,
    executor: Executor<'_>,
    lines: &[BodyLine],
) -> Result<Work, NoMemory>
    ensures { IfOk result (λ w. w ≡ ScriptWork
        (script_command (run_of run.now) attributes.now (runner_of executor.entry) lines.now)) }
{
    let command = script_command(alloc, run, attributes, &executor, lines)?;
    drop(executor);
    Ok(Work::Script(boxed(alloc, command)?))
}

/// The refusal of a script whose first line names no interpreter.
fn invalid_shebang(run: &Running<'_>, line: &BodyLine) -> Result<CommandError, NoMemory>
    ensures { IfOk result
        (λ e. e ≡ error.InvalidShebang (run_of run.now).recipe.name line.now.text) }
{
    Ok(CommandError::InvalidShebang {
        recipe: run.recipe.name.try_clone()?,
        shebang: line.text.try_clone()?,
    })
}

/// What the script of a body has to run.
fn script_work(
    alloc: Global,
    run: &Running<'_>,
    attributes: &RunAttributes,
    lines: &[BodyLine],
) -> Result<Work, CommandError>
    ensures work { IfOk result (λ w. script_work (run_of run.now) attributes.now lines.now ≡ Ok w) }
    ensures refused { IfErr result (λ e. e ≢ error.NoMemory → script_work (run_of run.now) attributes.now lines.now ≡ Err e) }
{
    let [first, ..] = lines else {
        return Ok(Work::Empty);
    };
    match runner(alloc, run.settings, attributes, first.text.as_str())? {
        Some(executor) => Ok(work_by(alloc, run, attributes, executor, lines)?),
        None => Err(invalid_shebang(run, first)?),
    }
}

/// What a body of these lines has to run, by how the attributes of its recipe ask for it.
fn body_work(
    alloc: Global,
    run: &Running<'_>,
    attributes: &RunAttributes,
    lines: &[BodyLine],
) -> Result<Work, CommandError>
    ensures work { IfOk result (λ w. body_work (run_of run.now) attributes.now lines.now ≡ Ok w) }
    ensures refused { IfErr result (λ e. e ≢ error.NoMemory → body_work (run_of run.now) attributes.now lines.now ≡ Err e) }
{
    if run.recipe.script {
        return script_work(alloc, run, attributes, lines);
    }
    let commands = line_commands(alloc, run, attributes, lines)?;
    Ok(work_of_lines(commands))
}

/// What a body of these lines has to run: a child of the shell for each line that isn't empty, or one for its script. A
/// script whose first line names no interpreter is refused.
pub fn recipe_work(
    alloc: Global,
    run: &Running<'_>,
    lines: &[BodyLine],
) -> Result<Work, CommandError>
    ensures work { IfOk result (λ w. recipe_work (run_of run.now) lines.now ≡ Ok w) }
    ensures refused { IfErr result (λ e. e ≢ error.NoMemory → recipe_work (run_of run.now) lines.now ≡ Err e) }
{
    let attributes = read_attributes(alloc, run.recipe)?;
    let made = body_work(alloc, run, &attributes, lines);
    drop(attributes);
    made
}
