//! The command of a child in a large environment, of which it is told each pair in place of inheriting it.
ghost use Rattle.std.specs.Prelude.{◌≡◌, ◌++◌, ℕ, List, [], Option, Some, None, true, if◌then◌else◌, option_map, IfOk, OnOk};
ghost use Rattle.std.specs.Str.{bytes_eq};
ghost use Rattle.std.specs.Process.{command_program, command_args, command_dir, command_var, clears_env};
ghost use Rattle.just_host_system.specs.Commands.{program_with, told_after, kept_after, IsCommandWithin};

use super::command::{add_words, program_with};
use just_host_record::Spec;
use just_path_text::{NoMemory, Text};
use std::alloc::Global;
use std::process::Command;

/// Tells a pair of the environment.
fn tell_pair(command: &mut Command, pair: &(Text, Text)) -> Result<(), NoMemory>
    requires { clears_env command.old ≡ true }
    ensures program { OnOk result (command_program command.new ≡ command_program command.old) }
    ensures arguments { OnOk result (command_args command.new ≡ command_args command.old) }
    ensures folder { OnOk result (command_dir command.new ≡ command_dir command.old) }
    ensures vars { OnOk result ((name : List ℕ) → command_var command.new name
        ≡ (if bytes_eq pair.now.0 name then Some (Some pair.now.1) else command_var command.old name)) }
    ensures clears { OnOk result (clears_env command.new ≡ true) }
{
    command.env(pair.0.as_str(), pair.1.as_str())?;
    Ok(())
}

/// Tells pairs of the environment, one after the other.
fn tell_pairs(command: &mut Command, pairs: &[(Text, Text)]) -> Result<(), NoMemory>
    requires { clears_env command.old ≡ true }
    ensures program { OnOk result (command_program command.new ≡ command_program command.old) }
    ensures arguments { OnOk result (command_args command.new ≡ command_args command.old) }
    ensures folder { OnOk result (command_dir command.new ≡ command_dir command.old) }
    ensures vars { OnOk result ((name : List ℕ) → command_var command.new name
        ≡ told_after name (command_var command.old name) pairs.now) }
    ensures clears { OnOk result (clears_env command.new ≡ true) }
{
    for pair in pairs {
        tell_pair(command, pair)?;
    }
    Ok(())
}

/// Makes a change to what was told.
fn keep_change(command: &mut Command, change: &(Text, Option<Text>)) -> Result<(), NoMemory>
    requires { clears_env command.old ≡ true }
    ensures program { OnOk result (command_program command.new ≡ command_program command.old) }
    ensures arguments { OnOk result (command_args command.new ≡ command_args command.old) }
    ensures folder { OnOk result (command_dir command.new ≡ command_dir command.old) }
    ensures vars { OnOk result ((name : List ℕ) → command_var command.new name
        ≡ (if bytes_eq change.now.0 name then option_map (λ v. Some v) change.now.1
        else command_var command.old name)) }
    ensures clears { OnOk result (clears_env command.new ≡ true) }
{
    match &change.1 {
        Some(value) => {
            command.env(change.0.as_str(), value.as_str())?;
        }
        None => {
            command.env_remove(change.0.as_str())?;
        }
    }
    Ok(())
}

/// Makes changes to what was told, one after the other.
fn keep_changes(command: &mut Command, changes: &[(Text, Option<Text>)]) -> Result<(), NoMemory>
    requires { clears_env command.old ≡ true }
    ensures program { OnOk result (command_program command.new ≡ command_program command.old) }
    ensures arguments { OnOk result (command_args command.new ≡ command_args command.old) }
    ensures folder { OnOk result (command_dir command.new ≡ command_dir command.old) }
    ensures vars { OnOk result ((name : List ℕ) → command_var command.new name
        ≡ kept_after name (command_var command.old name) changes.now) }
    ensures clears { OnOk result (clears_env command.new ≡ true) }
{
    for change in changes {
        keep_change(command, change)?;
    }
    Ok(())
}

/// Adds to a new command that inherits nothing what a child is but for its program: its arguments, the pairs of its environment, its changes and
/// its folder.
fn fill_within(
    command: &mut Command,
    pairs: &[(Text, Text)],
    file: &str,
    spec: &Spec,
) -> Result<(), NoMemory>
    requires arguments { command_args command.old ≡ [] }
    requires folder { command_dir command.old ≡ None }
    requires vars { (name : List ℕ) → command_var command.old name ≡ None }
    requires clears { clears_env command.old ≡ true }
    ensures { OnOk result
        (IsCommandWithin (command_program command.old) pairs.now file.now spec.now command.new) }
{
    add_words(command, file, spec)?;
    tell_pairs(command, pairs)?;
    keep_changes(command, spec.changes.as_slice())?;
    if let Some(folder) = &spec.folder {
        command.current_dir(folder.as_str())?;
    }
    Ok(())
}

/// The command of a child whose script is in that file, if it has one, and whose environment is these pairs with its changes. It inherits the
/// streams of this process.
pub(crate) fn command_within(
    alloc: Global,
    pairs: &[(Text, Text)],
    spec: &Spec,
    file: &str,
) -> Result<Command, NoMemory>
    ensures { IfOk result
        (IsCommandWithin (program_with file.now spec.now spec.now.script) pairs.now file.now spec.now) }
{
    let mut command = Command::new(alloc, program_with(file, spec))?;
    command.env_clear();
    match fill_within(&mut command, pairs, file, spec) {
        Ok(()) => Ok(command),
        Err(NoMemory) => {
            drop(command);
            Err(NoMemory)
        }
    }
}
