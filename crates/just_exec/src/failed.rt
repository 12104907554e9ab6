//! How the failures of a run are told.

ghost use Rattle.std.specs.Prelude.{◌≡◌, ◌++◌, codes, decimal};
ghost use Rattle.std.specs.Fmt.{WritesOnOk, signed_decimal};
ghost use Rattle.just_print.specs.SmallTexts.{ticked};
ghost use Rattle.just_exec.specs.Parts.{fault_text, line_text, shell_text, folder_text, script_text, behind_blank, execution_text, shebang_text, failed_text, terminated_text};

use super::parts::fault_text;
use super::sentences::{tell_part, tell_recipe};
use just_host_record::HostFault;
use just_path_text::Text;
use std::fmt;

/// Where a command stands, if that is known.
fn tell_line<W: fmt::Write>(line: &Option<usize>, f: &mut fmt::Formatter<W>) -> fmt::Result
    ensures { WritesOnOk W.write_str_gives f.old result (line_text line.now) f.new }
{
    match line {
        Some(line) => write!(f, " on line {line}"),
        None => Ok(()),
    }
}

/// A command that failed.
pub(crate) fn tell_failed<W: fmt::Write>(
    recipe: &Text,
    line: &Option<usize>,
    f: &mut fmt::Formatter<W>,
) -> fmt::Result
    ensures { WritesOnOk W.write_str_gives f.old result (failed_text recipe.now line.now) f.new }
{
    tell_recipe(recipe, " failed", f)?;
    tell_line(line, f)
}

/// A command that was ended by a signal.
pub(crate) fn tell_terminated<W: fmt::Write>(
    recipe: &Text,
    line: &Option<usize>,
    f: &mut fmt::Formatter<W>,
) -> fmt::Result
    ensures { WritesOnOk W.write_str_gives f.old result (terminated_text recipe.now line.now) f.new }
{
    tell_recipe(recipe, " was terminated", f)?;
    tell_line(line, f)
}

/// An exit code behind the sentence that it ends.
pub(crate) fn tell_code<W: fmt::Write>(code: &i32, f: &mut fmt::Formatter<W>) -> fmt::Result
    ensures { WritesOnOk W.write_str_gives f.old result (codes " with exit code " ++ signed_decimal code.now) f.new }
{
    write!(f, " with exit code {code}")
}

/// A signal behind the sentence that it ends.
pub(crate) fn tell_signal<W: fmt::Write>(signal: &i32, f: &mut fmt::Formatter<W>) -> fmt::Result
    ensures { WritesOnOk W.write_str_gives f.old result (codes " by signal " ++ signed_decimal signal.now) f.new }
{
    write!(f, " by signal {signal}")
}

/// A guard that ended with a code that it mustn't.
pub(crate) fn tell_guard<W: fmt::Write>(
    recipe: &Text,
    line: usize,
    code: &i32,
    f: &mut fmt::Formatter<W>,
) -> fmt::Result
    ensures { WritesOnOk W.write_str_gives f.old result (codes "error: guard line in recipe " ++ (ticked recipe.now ++ (codes " on line " ++ (decimal line ++ (codes " returned reserved exit code " ++ signed_decimal code.now))))) f.new }
{
    let recipe = recipe.as_str();
    write!(f, "error: guard line in recipe `{recipe}` on line {line}")?;
    write!(f, " returned reserved exit code {code}")
}

/// A refusal of a host.
fn tell_io<W: fmt::Write>(io: HostFault, f: &mut fmt::Formatter<W>) -> fmt::Result
    ensures { WritesOnOk W.write_str_gives f.old result (fault_text io) f.new }
{
    f.write_str(fault_text(io))
}

/// A shell that couldn't be started or waited for.
pub(crate) fn tell_shell<W: fmt::Write>(
    recipe: &Text,
    shell: &Text,
    io: HostFault,
    f: &mut fmt::Formatter<W>,
) -> fmt::Result
    ensures { WritesOnOk W.write_str_gives f.old result (shell_text recipe.now shell.now io) f.new }
{
    tell_part(
        recipe,
        " could not be run because of an IO error while launching the shell ",
        shell,
        ": ",
        f,
    )?;
    tell_io(io, f)
}

/// A temporary folder that couldn't be made, or its file.
pub(crate) fn tell_folder<W: fmt::Write>(
    recipe: &Text,
    io: HostFault,
    f: &mut fmt::Formatter<W>,
) -> fmt::Result
    ensures { WritesOnOk W.write_str_gives f.old result (folder_text recipe.now io) f.new }
{
    tell_recipe(
        recipe,
        " could not be run because of an IO error while trying to create a temporary directory or write a file to that directory: ",
        f,
    )?;
    tell_io(io, f)
}

/// The command of a script that couldn't be started or waited for.
pub(crate) fn tell_script<W: fmt::Write>(
    recipe: &Text,
    command: &Text,
    io: HostFault,
    f: &mut fmt::Formatter<W>,
) -> fmt::Result
    ensures { WritesOnOk W.write_str_gives f.old result (script_text recipe.now command.now io) f.new }
{
    tell_part(recipe, " with command ", command, " execution error: ", f)?;
    tell_io(io, f)
}

/// An argument behind a blank, where there is one.
fn tell_argument<W: fmt::Write>(argument: &Option<Text>, f: &mut fmt::Formatter<W>) -> fmt::Result
    ensures { WritesOnOk W.write_str_gives f.old result (behind_blank argument.now) f.new }
{
    match argument {
        Some(argument) => write!(f, " {}", argument.as_str()),
        None => Ok(()),
    }
}

/// What kept a script from being run.
fn tell_execution<W: fmt::Write>(io: HostFault, f: &mut fmt::Formatter<W>) -> fmt::Result
    ensures { WritesOnOk W.write_str_gives f.old result (execution_text io) f.new }
{
    write!(f, "` execution error: {}", fault_text(io))
}

/// A script that couldn't be started or waited for.
pub(crate) fn tell_shebang<W: fmt::Write>(
    recipe: &Text,
    command: &str,
    argument: &Option<Text>,
    io: HostFault,
    f: &mut fmt::Formatter<W>,
) -> fmt::Result
    ensures { WritesOnOk W.write_str_gives f.old result (shebang_text recipe.now command.now argument.now io) f.new }
{
    tell_recipe(recipe, " with shebang `#!", f)?;
    f.write_str(command)?;
    tell_argument(argument, f)?;
    tell_execution(io, f)
}
