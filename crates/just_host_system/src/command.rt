//! The command of a child, and what its end means.
ghost use Rattle.std.specs.Prelude.{◌≡◌, ◌++◌, ℕ, List, [], Option, Some, None, true, false, if◌then◌else◌, IfOk, OnOk};
ghost use Rattle.std.specs.Str.{bytes_eq};
ghost use Rattle.std.specs.Process.{command_program, command_args, command_arg0, command_dir, command_var, clears_env, SameProgramAndArgs, SameEnv, SameDir, exit_code, exit_signal};
ghost use Rattle.just_host_system.specs.Commands.{program_with, arguments_with, IsCommandWith, IsCommandOf, IsCommandAt, changes_path, names_shell, said_after, status_told};

use just_host_record::{Spec, Status};
use just_path_text::{NoMemory, Text};
use std::alloc::Global;
use std::os::unix::process::{CommandExt, ExitStatusExt};
use std::process::{Command, ExitStatus};

/// The program of a child whose script is in that file, if it has one.
pub(crate) fn program_with<'a>(file: &'a str, spec: &'a Spec) -> &'a str
    ensures { result.now ≡ program_with file.now spec.now spec.now.script }
{
    match &spec.script {
        Some(script) if script.run => file,
        _ => spec.program.as_str(),
    }
}

/// Adds the arguments of a child: those of a script stand behind its file, which is the program itself where the script runs itself.
pub(crate) fn add_words(command: &mut Command, file: &str, spec: &Spec) -> Result<(), NoMemory>
    ensures program { OnOk result (command_program command.new ≡ command_program command.old) }
    ensures arguments { OnOk result (command_args command.new ≡ command_args command.old ++ arguments_with file.now spec.now spec.now.script) }
    ensures folder { OnOk result (command_dir command.new ≡ command_dir command.old) }
    ensures vars { OnOk result ((name : List ℕ) → command_var command.new name ≡ command_var command.old name) }
    ensures clears { OnOk result (clears_env command.new ≡ clears_env command.old) }
{
    match &spec.script {
        None => add_arguments(command, spec.arguments.as_slice()),
        Some(script) if script.run => add_arguments(command, script.after.as_slice()),
        Some(script) => {
            add_arguments(command, spec.arguments.as_slice())?;
            command.arg(file)?;
            add_arguments(command, script.after.as_slice())
        }
    }
}

/// The command of a child that is that program, and whose script is in that file, if it has one. It inherits the streams of this process.
fn command_with(alloc: Global, program: &str, spec: &Spec, file: &str) -> Result<Command, NoMemory>
    ensures { IfOk result (IsCommandWith program.now file.now spec.now) }
{
    let mut command = Command::new(alloc, program)?;
    match fill(&mut command, file, spec) {
        Ok(()) => Ok(command),
        Err(NoMemory) => {
            drop(command);
            Err(NoMemory)
        }
    }
}

/// Adds to a new command what a child is but for its program: its arguments, its changes and its folder.
fn fill(command: &mut Command, file: &str, spec: &Spec) -> Result<(), NoMemory>
    requires arguments { command_args command.old ≡ [] }
    requires folder { command_dir command.old ≡ None }
    requires vars { (name : List ℕ) → command_var command.old name ≡ None }
    requires clears { clears_env command.old ≡ false }
    ensures { OnOk result
        (IsCommandWith (command_program command.old) file.now spec.now command.new) }
{
    add_words(command, file, spec)?;
    add_changes(command, spec.changes.as_slice())?;
    if let Some(folder) = &spec.folder {
        command.current_dir(folder.as_str())?;
    }
    Ok(())
}

/// The command of a child whose script is in that file, if it has one. It inherits the streams of this process.
pub fn command_of(alloc: Global, spec: &Spec, file: &str) -> Result<Command, NoMemory>
    ensures { IfOk result (IsCommandOf file.now spec.now) }
{
    command_with(alloc, program_with(file, spec), spec, file)
}

/// The same command, of the shell that stands at that path. The child is told the name by which it was asked for.
pub fn command_at(alloc: Global, path: &str, spec: &Spec, file: &str) -> Result<Command, NoMemory>
    requires { names_shell (program_with file.now spec.now spec.now.script) spec.now.changes ≡ true }
    ensures { IfOk result (IsCommandAt path.now file.now spec.now) }
{
    let mut command = command_with(alloc, path, spec, file)?;
    match call_by(&mut command, program_with(file, spec)) {
        Ok(()) => Ok(command),
        Err(NoMemory) => {
            drop(command);
            Err(NoMemory)
        }
    }
}

/// Lets a command tell its child that name.
fn call_by(command: &mut Command, name: &str) -> Result<(), NoMemory>
    ensures name { OnOk result (command_arg0 command.new ≡ Some name.now) }
    ensures call { OnOk result (SameProgramAndArgs command.old command.new) }
    ensures env { OnOk result (SameEnv command.old command.new) }
    ensures dir { OnOk result (SameDir command.old command.new) }
{
    command.arg0(name)?;
    Ok(())
}

/// Whether some change is one of `PATH`.
fn changes_path(changes: &[(Text, Option<Text>)]) -> bool
    ensures { result ≡ changes_path changes.now }
{
    changes.iter().any(|change| change.0.as_str() == "PATH")
}

/// Whether a child is asked for by the shell's name, and has the `PATH` of this process.
pub fn names_shell(spec: &Spec, file: &str) -> bool
    ensures { result ≡ names_shell (program_with file.now spec.now spec.now.script) spec.now.changes }
{
    let is_named = program_with(file, spec) == "sh";
    is_named && !changes_path(spec.changes.as_slice())
}

fn add_arguments(command: &mut Command, arguments: &[Text]) -> Result<(), NoMemory>
    ensures program { OnOk result (command_program command.new ≡ command_program command.old) }
    ensures arguments { OnOk result (command_args command.new ≡ command_args command.old ++ arguments.now) }
    ensures folder { OnOk result (command_dir command.new ≡ command_dir command.old) }
    ensures vars { OnOk result ((name : List ℕ) → command_var command.new name ≡ command_var command.old name) }
    ensures clears { OnOk result (clears_env command.new ≡ clears_env command.old) }
{
    for argument in arguments {
        command.arg(argument.as_str())?;
    }
    Ok(())
}

fn add_changes(command: &mut Command, changes: &[(Text, Option<Text>)]) -> Result<(), NoMemory>
    requires { clears_env command.old ≡ false }
    ensures program { OnOk result (command_program command.new ≡ command_program command.old) }
    ensures arguments { OnOk result (command_args command.new ≡ command_args command.old) }
    ensures folder { OnOk result (command_dir command.new ≡ command_dir command.old) }
    ensures vars { OnOk result ((name : List ℕ) → command_var command.new name ≡ said_after name (command_var command.old name) changes.now) }
    ensures clears { OnOk result (clears_env command.new ≡ false) }
{
    for change in changes {
        add_change(command, change)?;
    }
    Ok(())
}

fn add_change(command: &mut Command, change: &(Text, Option<Text>)) -> Result<(), NoMemory>
    requires { clears_env command.old ≡ false }
    ensures program { OnOk result (command_program command.new ≡ command_program command.old) }
    ensures arguments { OnOk result (command_args command.new ≡ command_args command.old) }
    ensures folder { OnOk result (command_dir command.new ≡ command_dir command.old) }
    ensures vars { OnOk result ((name : List ℕ) → command_var command.new name ≡ (if bytes_eq change.now.0 name then Some change.now.1 else command_var command.old name)) }
    ensures clears { OnOk result (clears_env command.new ≡ false) }
{
    match &change.1 {
        Some(value) => {
            command.env(change.0.as_str(), value.as_str())?;
        }
        None => {
            command.env_remove(change.0.as_str())?;
        }
    }
    Ok(())
}

/// How a child ended: by its code, else by its signal, else unknown.
pub fn status_of(status: &ExitStatus) -> Status
    ensures { result ≡ status_told (exit_code status.now) (exit_signal status.now) }
{
    if let Some(code) = status.code() {
        return Status::Code(code);
    }
    match status.signal() {
        Some(signal) => Status::Signal(signal),
        None => Status::Unknown,
    }
}
