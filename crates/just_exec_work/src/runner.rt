//! What runs the script of a recipe.

ghost use Rattle.std.specs.Prelude.{◌≡◌, IfOk, option_map};
ghost use Rattle.just_exec_work.specs.Scripts.{runner_of};
ghost use Rattle.just_exec_work.specs.Shells.{script_command, runner};

use super::RunAttributes;
use super::copies::{copied_interpreter, push_texts, sh_with};
use crate::{Executor, Shebang};
use just_lang_types::{Interpreter, Settings};
use just_path_text::{NoMemory, Seq, Text};
use std::alloc::Global;

/// The command that an attribute with these texts names; where it names none, that of the setting, else `sh -eu`.
fn script_command(
    alloc: Global,
    settings: &Settings,
    texts: &[Text],
) -> Result<Interpreter, NoMemory>
    ensures { IfOk result (λ i. i ≡ script_command settings.now texts.now) }
{
    match texts {
        [command, rest @ ..] => {
            let mut arguments = Vec::new(alloc);
            push_texts(&mut arguments, rest)?;
            Ok(Interpreter {
                command: command.try_clone()?,
                arguments: Seq::from(arguments),
            })
        }
        [] => match &settings.script_interpreter {
            Some(interpreter) => copied_interpreter(interpreter),
            None => sh_with(alloc, "-eu"),
        },
    }
}

/// What runs the script of a recipe whose first line is that; none where the line names no interpreter.
pub(crate) fn runner<'l>(
    alloc: Global,
    settings: &Settings,
    attributes: &RunAttributes,
    line: &'l str,
) -> Result<Option<Executor<'l>>, NoMemory>
    ensures { IfOk result (λ e. option_map runner_of e ≡ runner settings.now attributes.now.script line.now) }
{
    match &attributes.script {
        Some(texts) => {
            let command = script_command(alloc, settings, texts.as_slice())?;
            Ok(Some(Executor::Command(command)))
        }
        None => match Shebang::new(line) {
            Some(shebang) => Ok(Some(Executor::Shebang(shebang))),
            None => Ok(None),
        },
    }
}
