//! What is told of a run over a host in memory.

ghost use Rattle.std.specs.Prelude.{◌≡◌, IfOk, map};
ghost use Rattle.just_cli_texts.specs.Prints.{alone};
ghost use Rattle.just_cli_vectors.specs.Vectors.{vectors_text};
ghost use Rattle.just_cli.specs.Printing.{IsPrinted};
ghost use Rattle.just_cli.specs.Vectors.{IsHistoryOf};

use super::failure::fail;
use super::prepare::prepare;
use super::printing::print;
use super::task::Task;
use super::{Ended, Error};
use just_cli_texts::alone;
use just_cli_vectors::{host_of, is_history, report};
use just_host::Host;
use just_path_text::{NoMemory, Seq, Text};
use just_sched::{Driven, Event, drive};
use std::alloc::Global;
use std::sync::Wait;
use std::thread::Threads;

/// The history of the run that the words ask for, by the steps of each run: from the words to the plan, and from the plan to the end of what it drives.
/// Whatever is refused counts as want of memory.
fn history_of<R: Threads + Wait + Sync, H: Host + Send + Drop>(
    rt: &R,
    alloc: Global,
    words: &[&str],
    host: H,
) -> Result<Seq<Event>, NoMemory>
    ensures { IfOk result (IsHistoryOf (map (λ x. x.now) words.now) (H.told host)) }
{
    let mut host = host;
    let mut made = Vec::new(alloc);
    let (plan, jobs) = match prepare(alloc, words, &mut made, &mut host) {
        Ok(Task::Run(plan, jobs, messages, _)) => {
            drop(messages);
            (plan, jobs)
        }
        Ok(Task::Dry(_, _, _, _) | Task::List(_, _) | Task::Other(_, _)) => return Err(NoMemory),
        Err(refused) => {
            drop(refused);
            return Err(NoMemory);
        }
    };
    match drive(rt, alloc, plan, host, jobs) {
        Ok(
            Driven {
                host,
                plan,
                history,
                verdict: _,
            },
        ) => {
            drop(host);
            drop(plan);
            Ok(history)
        }
        Err(back) => {
            drop(back);
            Err(NoMemory)
        }
    }
}

/// What is told of the run of the first of so many recipes, over a fresh host in memory whose justfile has them. Of a run that isn't one of so many bodies,
/// one behind the other, nothing is told; none is seen to be so.
fn vectors_text<R: Threads + Wait + Sync>(
    rt: &R,
    alloc: Global,
    count: u32,
) -> Result<Text, NoMemory>
    ensures { IfOk result (λ t. t ≡ vectors_text count) }
{
    let host = host_of(alloc, count)?;
    let history = history_of(rt, alloc, &["r0"], host)?;
    let events = history.as_slice();
    if !is_history(events, count) {
        return Err(NoMemory);
    }
    report(alloc, events, count)
}

/// Prints what is told of the run of so many recipes over a fresh host in memory, in the place of a run.
pub(crate) fn show_vectors<R: Threads + Wait + Sync, H: Host>(
    rt: &R,
    alloc: Global,
    host: H,
    count: u32,
    quiet: bool,
) -> Ended<H>
    ensures { IsPrinted (alone (vectors_text count)) quiet
        (H.told host) (H.told result.host) result.result }
{
    match vectors_text(rt, alloc, count) {
        Ok(text) => print(alloc, host, alone(text), quiet),
        Err(NoMemory) => fail(alloc, host, Error::NoMemory, quiet, None, Seq::new(alloc)),
    }
}
