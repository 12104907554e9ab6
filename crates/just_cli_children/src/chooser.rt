//! The program in which recipes are chosen.

ghost use Rattle.std.specs.Prelude.{ℕ, List, ◌≡◌, [], None, Ok, Err, IfOk, IfErr};
ghost use Rattle.std.specs.Str.Lossy.{utf8_lossy};
ghost use Rattle.just_path.specs.Path.{text_of};
ghost use Rattle.just_cli_plan.specs.Own.{OrMemory, uncaptured_by};
ghost use Rattle.just_cli_plan.specs.Pairs.{Runs, entries_of};
ghost use Rattle.just_cli_children.specs.Words.{words_in};
ghost use Rattle.just_cli_children.specs.Choosers.{arguments_text, refusal_error, default_chooser, chooser_of, words_of_code, RunsChooser, BeginsChooser};

use super::text_words::words_in;
use just_config::Config;
use just_env::command_spec;
use just_exec::{Error, spaced};
use just_exec_work::Interpreter;
use just_host_record::{Call, Host, HostFault, Status};
use just_path::Utf8Path;
use just_path_text::{NoMemory, Seq, Text};
use std::alloc::Global;

/// The chooser that is run where none is given: it shows the recipe of the line that is looked at.
fn default_chooser(alloc: Global, justfile: &str) -> Result<Text, NoMemory>
    ensures { IfOk result (λ t. t ≡ default_chooser justfile.now) }
{
    let mut text = String::from_str(
        alloc,
        "fzf --multi --preview 'just --unstable --color always --justfile \"",
    )?;
    text.push_str(justfile)?;
    text.push_str("\" --show {}'")?;
    Ok(Text::from(text))
}

/// The chooser of a configuration, for the justfile of that path.
pub fn chooser_of(alloc: Global, config: &Config, justfile: &str) -> Result<Text, NoMemory>
    ensures { IfOk result (λ t. t ≡ chooser_of config.now justfile.now) }
{
    match &config.chooser {
        Some(chooser) => chooser.try_clone(),
        None => default_chooser(alloc, justfile),
    }
}

/// Arguments with a blank between two of them.
fn arguments_text(alloc: Global, arguments: &[Text]) -> Result<Text, NoMemory>
    ensures { IfOk result (λ t. t ≡ arguments_text arguments.now) }
{
    match arguments {
        [] => Text::from_str(alloc, ""),
        [first, rest @ ..] => spaced(alloc, first, rest),
    }
}

/// The error of a chooser that isn't run to its end, whose shell is that with these arguments.
fn refusal_error(shell: Text, arguments: Text, chooser: Text, fault: HostFault) -> Error
    ensures { result ≡ refusal_error shell arguments chooser fault }
{
    match fault {
        HostFault::Failed(Call::Start) => Error::ChooserInvoke {
            shell,
            arguments,
            chooser,
            io: fault,
        },
        HostFault::Failed(Call::Write) => Error::ChooserWrite { chooser, io: fault },
        HostFault::Failed(_) | HostFault::Missed(_) => Error::ChooserRead { chooser, io: fault },
        HostFault::NoMemory => Error::NoMemory,
    }
}

/// The words of what a chooser printed.
fn words_printed(alloc: Global, printed: &[u8]) -> Result<Seq<Text>, NoMemory>
    ensures { IfOk result (λ ws. ws ≡ words_in (utf8_lossy printed.now)) }
{
    let text = String::from_utf8_lossy(alloc, printed)?;
    words_in(alloc, text.as_str())
}

/// The words that a chooser answers which ended so and printed that.
fn words_of_code(
    alloc: Global,
    chooser: Text,
    ending: Status,
    printed: &[u8],
) -> Result<Seq<Text>, Error>
    ensures words { IfOk result (λ ws. words_of_code chooser ending printed.now ≡ Ok ws) }
    ensures refused { IfErr result (OrMemory (λ e.
        words_of_code chooser ending printed.now ≡ Err e)) }
    ensures silent { IfErr result (λ e. (path : List ℕ) → entries_of path e ≡ []) }
    ensures captured { IfErr result (λ e. uncaptured_by e ≡ None) }
{
    match ending {
        Status::Code(0) => {
            let words = words_printed(alloc, printed)?;
            Ok(words)
        }
        // By this code choosing is given up.
        Status::Code(130) => Ok(Seq::new(alloc)),
        Status::Code(_) | Status::Signal(_) | Status::Unknown => Err(Error::ChooserStatus {
            chooser,
            status: ending,
        }),
    }
}

/// The words that a chooser answers, which that shell runs in a folder, and which is fed that.
pub fn choose<H: Host>(
    alloc: Global,
    host: &mut H,
    shell: &Interpreter,
    folder: Utf8Path<'_>,
    chooser: Text,
    input: &str,
) -> Result<Seq<Text>, Error>
    // Its child is run to its end once, or isn't. The record gains the child's entry, or that of the refused call; only the child may touch the files.
    ensures { Runs
        (RunsChooser shell.now (text_of folder.entry) (H.told host.old).world chooser input.now)
        (BeginsChooser shell.now (text_of folder.entry) (H.told host.old).world chooser input.now)
        (λ p. p ≡ shell.now.command)
        (H.told host.old) (H.told host.new) result }
{
    let spec = command_spec(alloc, shell, folder, &chooser)?;
    let program = shell.command.try_clone()?;
    let arguments = arguments_text(alloc, shell.arguments.as_slice())?;
    match host.capture(&spec, input.as_bytes()) {
        Ok((ending, printed)) => words_of_code(alloc, chooser, ending, printed.as_slice()),
        Err(fault) => Err(refusal_error(program, arguments, chooser, fault)),
    }
}
