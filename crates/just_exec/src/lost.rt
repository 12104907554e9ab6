//! The error of a script that couldn't be started or waited for, by what runs it.

ghost use Rattle.std.specs.Prelude.{◌≡◌, ◌++◌, IfOk, string_bytes};
ghost use Rattle.std.specs.Option.{option_map};
ghost use Rattle.just_exec_work.specs.Scripts.{runner_of};
ghost use Rattle.just_exec.specs.Executors.{with_blanks, spaced, runner_error, executor_error};

use super::Error;
use just_exec_work::Executor;
use just_host_record::HostFault;
use just_path_text::{NoMemory, Text};
use std::alloc::Global;

/// Adds texts, each with a blank in front.
fn add_with_blanks(text: &mut String, texts: &[Text]) -> Result<(), NoMemory>
    ensures { IfOk result (λ u. string_bytes text.new ≡ string_bytes text.old ++ with_blanks texts.now) }
{
    'texts: for one in texts {
        text.push(' ')?;
        text.push_str(one.as_str())?;
    }
    Ok(())
}

/// A program and its arguments, with a blank between two of them.
pub fn spaced(alloc: Global, program: &Text, arguments: &[Text]) -> Result<Text, NoMemory>
    ensures { IfOk result (λ t. t ≡ spaced program.now arguments.now) }
{
    let mut text = String::from_str(alloc, program.as_str())?;
    add_with_blanks(&mut text, arguments)?;
    Ok(Text::from(text))
}

/// The text of an argument, if there is one.
fn argument_text(alloc: Global, argument: Option<&str>) -> Result<Option<Text>, NoMemory>
    ensures { IfOk result (λ t. t ≡ option_map (λ a. a.now) argument.entry) }
{
    match argument {
        Some(argument) => Ok(Some(Text::from_str(alloc, argument)?)),
        None => Ok(None),
    }
}

/// The error of a recipe's script whose child the host refused for another reason than want of memory.
fn runner_error(
    alloc: Global,
    executor: &Executor<'_>,
    io: HostFault,
    recipe: &str,
) -> Result<Error, NoMemory>
    ensures { IfOk result (λ e. e ≡ runner_error (runner_of executor.now) recipe.now io) }
{
    let recipe = Text::from_str(alloc, recipe)?;
    match executor {
        Executor::Command(interpreter) => Ok(Error::Script {
            recipe,
            command: spaced(
                alloc,
                &interpreter.command,
                interpreter.arguments.as_slice(),
            )?,
            io,
        }),
        Executor::Shebang(shebang) => Ok(Error::Shebang {
            recipe,
            command: Text::from_str(alloc, shebang.interpreter)?,
            argument: argument_text(alloc, shebang.argument)?,
            io,
        }),
    }
}

/// The error of a recipe's script whose child couldn't be started or waited for: `Script` tells its command with the arguments, `Shebang` the
/// interpreter and its argument. A fault that is want of memory is told as itself.
///
/// ```
/// // of `#!/usr/bin/env python3` in the recipe `a`, where the start failed:
/// // error: recipe `a` with shebang `#!/usr/bin/env python3` execution error: failed
/// ```
pub fn executor_error(
    alloc: Global,
    executor: &Executor<'_>,
    fault: HostFault,
    recipe: &str,
) -> Result<Error, NoMemory>
    ensures { IfOk result (λ e. e ≡ executor_error (runner_of executor.now) recipe.now fault) }
{
    match fault {
        HostFault::NoMemory => Ok(Error::NoMemory),
        HostFault::Missed(_) | HostFault::Failed(_) => runner_error(alloc, executor, fault, recipe),
    }
}
