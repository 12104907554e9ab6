//! The pairs that commands print.

ghost use Rattle.std.specs.Prelude.{◌≡◌, ◌++◌, ◌∷◌, [], None, IfOk, IfErr};
ghost use Rattle.just_path.specs.Path.{text_of};
ghost use Rattle.just_env.specs.DotenvAnswers.{Answers, EndsBy, Runs, entries_of};
ghost use Rattle.just_env.specs.Commands.{command_spec, ending_error, GivesPairs, RunsCommand, RunsCommands, BeginsCommand, BeginsCommands};

use super::pairs::{Pairs, behind};
use super::{EnvError, OutputError};
use just_dotenv::{DotenvError, read};
use just_exec_work::Interpreter;
use just_host_record::{Host, HostFault, Spec, Status};
use just_path::Utf8Path;
use just_path_text::{Environ, NoMemory, Seq, Text};
use std::alloc::Global;

/// The arguments of the child of a command: those of the shell, and the command behind them.
fn command_arguments(shell: &Interpreter, command: &Text) -> Result<Seq<Text>, NoMemory>
    ensures { IfOk result (λ texts. texts ≡ shell.now.arguments ++ command.now ∷ []) }
{
    let mut arguments = shell.arguments.try_clone()?.into_vec();
    arguments.push(command.try_clone()?)?;
    Ok(Seq::from(arguments))
}

/// The child of a command that a shell runs in a folder.
pub fn command_spec(
    alloc: Global,
    shell: &Interpreter,
    folder: Utf8Path<'_>,
    command: &Text,
) -> Result<Spec, NoMemory>
    ensures { IfOk result (λ spec. spec ≡ command_spec shell.now (text_of folder.entry) command.now) }
{
    let folder = folder.to_path_buf(alloc)?;
    let program = shell.command.try_clone()?;
    let arguments = command_arguments(shell, command)?;
    Ok(Spec {
        program,
        arguments,
        folder: Some(folder),
        changes: Seq::new(alloc),
        script: None,
    })
}

/// Why the output of a child with that ending isn't read.
fn ending_error(ending: Status) -> Option<OutputError>
    ensures { result ≡ ending_error ending }
{
    match ending {
        Status::Code(code) => {
            if code == 0 {
                None
            } else {
                Some(OutputError::Code(code))
            }
        }
        Status::Signal(number) => Some(OutputError::Signal(number)),
        Status::Unknown => Some(OutputError::Unknown),
    }
}

/// The pairs of a text that a command printed in a folder.
#[tactic(auto, using(crate::proofs::Commanding::printed_pairs, crate::proofs::Commanding::printed_faulty))]
fn pairs_of_text(
    alloc: Global,
    environ: &Environ,
    folder: Utf8Path<'_>,
    command: &Text,
    ending: Status,
    text: &str,
) -> Result<Pairs, EnvError>
    requires { ending_error ending ≡ None }
    ensures pairs { Answers (GivesPairs environ.now.pairs (text_of folder.entry) command.now ending text.now) result }
    ensures unheard { IfErr result (λ e. entries_of [] e ≡ []) }
{
    match read(alloc, text, environ) {
        Ok(pairs) => Ok(pairs),
        Err(DotenvError::Line(line)) => Err(EnvError::Dotenv {
            path: folder.to_path_buf(alloc)?,
            line,
        }),
        Err(DotenvError::NoMemory) => Err(EnvError::NoMemory),
    }
}

/// The pairs of what the child of a command printed in a folder.
#[tactic(auto, using(crate::proofs::Commanding::printed_ended, crate::proofs::Commanding::printed_no_text))]
fn pairs_of_output(
    alloc: Global,
    environ: &Environ,
    folder: Utf8Path<'_>,
    command: &Text,
    ending: Status,
    output: &[u8],
) -> Result<Pairs, EnvError>
    ensures pairs { Answers (GivesPairs environ.now.pairs (text_of folder.entry) command.now ending output.now) result }
    ensures unheard { IfErr result (λ e. entries_of [] e ≡ []) }
{
    if let Some(output_error) = ending_error(ending) {
        let command = command.try_clone()?;
        return Err(EnvError::DotenvCommand {
            command,
            output_error,
        });
    }
    match str::from_utf8(output) {
        Ok(text) => pairs_of_text(alloc, environ, folder, command, ending, text),
        Err(_) => {
            let command = command.try_clone()?;
            Err(EnvError::DotenvCommand {
                command,
                output_error: OutputError::Utf8,
            })
        }
    }
}

/// The pairs that a command prints, which is run in a folder.
fn run_command<H: Host>(
    alloc: Global,
    host: &mut H,
    environ: &Environ,
    shell: &Interpreter,
    folder: Utf8Path<'_>,
    command: &Text,
) -> Result<Pairs, EnvError>
    ensures ran { Runs
        (RunsCommand environ.now.pairs shell.now (text_of folder.entry)
        (H.told host.old).world command.now)
        (BeginsCommand shell.now (text_of folder.entry) (H.told host.old).world command.now)
        (H.told host.old) (H.told host.new) result }
    ensures program { EndsBy (λ p. p ≡ shell.now.command) (H.told host.new).entries result }
{
    let spec = command_spec(alloc, shell, folder, command)?;
    let named = command.try_clone()?;
    match host.capture(&spec, &[]) {
        Ok((ending, output)) => pairs_of_output(
            alloc,
            environ,
            folder,
            command,
            ending,
            output.as_slice(),
        ),
        Err(HostFault::NoMemory) => Err(EnvError::NoMemory),
        Err(HostFault::Failed(call)) => Err(EnvError::DotenvCommand {
            command: named,
            output_error: OutputError::Io(HostFault::Failed(call)),
        }),
        Err(HostFault::Missed(miss)) => Err(EnvError::DotenvCommand {
            command: named,
            output_error: OutputError::Io(HostFault::Missed(miss)),
        }),
    }
}

/// The pairs that commands print, each of which is run in a folder behind the one before.
pub(crate) fn run_commands<H: Host>(
    alloc: Global,
    host: &mut H,
    environ: &Environ,
    shell: &Interpreter,
    folder: Utf8Path<'_>,
    commands: &[Text],
) -> Result<Pairs, EnvError>
    ensures ran { Runs
        (RunsCommands environ.now.pairs shell.now (text_of folder.entry)
        (H.told host.old).world commands.now)
        (BeginsCommands environ.now.pairs shell.now (text_of folder.entry)
        (H.told host.old).world commands.now)
        (H.told host.old) (H.told host.new) result }
    ensures program { EndsBy (λ p. p ≡ shell.now.command) (H.told host.new).entries result }
{
    let mut pairs = Seq::new(alloc);
    'commands: for command in commands {
        match run_command(alloc, host, environ, shell, folder, command) {
            Ok(more) => pairs = behind(pairs, more)?,
            Err(error) => return Err(error),
        }
    }
    Ok(pairs)
}
