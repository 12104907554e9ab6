//! The shell that runs lines.

ghost use Rattle.std.specs.Prelude.{◌≡◌, ◌∷◌, [], IfOk, codes};
ghost use Rattle.std.specs.Option.{unwrap_or};
ghost use Rattle.just_exec_work.specs.Shells.{shell};

use super::RunFlags;
use super::copies::{copied_interpreter, one_text, sh_with};
use just_lang_types::{Interpreter, Settings};
use just_path_text::{NoMemory, Seq, Text};
use std::alloc::Global;

/// A copy of the command of the words, else `sh`.
fn command(alloc: Global, asked: &Option<Text>) -> Result<Text, NoMemory>
    ensures { IfOk result (λ t. t ≡ unwrap_or asked.now (codes "sh")) }
{
    match asked {
        Some(command) => command.try_clone(),
        None => Text::from_str(alloc, "sh"),
    }
}

/// A copy of the arguments of the words, else `-cu`.
fn arguments(alloc: Global, asked: &Option<Seq<Text>>) -> Result<Seq<Text>, NoMemory>
    ensures { IfOk result (λ ts. ts ≡ unwrap_or asked.now (codes "-cu" ∷ [])) }
{
    match asked {
        Some(arguments) => arguments.try_clone(),
        None => one_text(alloc, "-cu"),
    }
}

/// The shell that runs lines: that of the words, of which each part that they lack is that of `sh -cu`; else that of the setting, else
/// `sh -cu`.
pub fn shell(alloc: Global, flags: &RunFlags, settings: &Settings) -> Result<Interpreter, NoMemory>
    ensures { IfOk result (λ i. i ≡ shell flags.now settings.now) }
{
    if flags.shell.is_some() || flags.shell_args.is_some() {
        return Ok(Interpreter {
            command: command(alloc, &flags.shell)?,
            arguments: arguments(alloc, &flags.shell_args)?,
        });
    }
    match &settings.shell {
        Some(shell) => copied_interpreter(shell),
        None => sh_with(alloc, "-cu"),
    }
}
