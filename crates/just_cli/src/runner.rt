//! The top calls: words and a host become a run and its end.

ghost use Rattle.std.specs.Prelude.{[], None, map, IfOk};
ghost use Rattle.just_host_record.specs.World.{Moment};
ghost use Rattle.just_host.specs.Real.{record_of};
ghost use Rattle.just_cli.specs.Record.{Removes};
ghost use Rattle.just_cli.specs.Run.{IsEnded};
ghost use Rattle.just_cli.specs.Words.{told_with};

use super::dry::dry_run;
use super::failure::fail;
use super::other::do_other;
use super::prepare::prepare;
use super::printing::print;
use super::task::Task;
use super::{Ended, Error, Report};
use just_cli_plan::error_for;
use just_host::{Host, RealHost};
use just_path::Utf8PathBuf;
use just_path_text::{NoMemory, Seq};
use just_sched::{Driven, drive};
use just_search::remove_folders;
use std::alloc::Global;
use std::fs::File;
use std::process::{Processes, SystemProcess};
use std::rt::{Files, Runtime};
use std::sync::Wait;
use std::thread::Threads;

/// A run before its temporary folders are removed, and their paths.
fn run_made<R: Threads + Wait + Sync, H: Host + Send + Drop>(
    rt: &R,
    alloc: Global,
    words: &[&str],
    host: H,
) -> (Ended<H>, Vec<Utf8PathBuf>)
    // Whatever their removal makes of the host, the run is ended then.
    ensures { (after : Moment) → Removes result.1.items (H.told result.0.host) after
        → IsEnded (map (λ x. x.now) words.now) (H.told host) after result.0.result }
{
    let mut host = host;
    let mut made = Vec::new(alloc);
    let (plan, jobs, messages, quiet) = match prepare(alloc, words, &mut made, &mut host) {
        Ok(Task::Run(plan, jobs, messages, quiet)) => (plan, jobs, messages, quiet),
        Ok(Task::Dry(plan, _, _, quiet)) => return (dry_run(alloc, host, plan, quiet), made),
        Ok(Task::List(printed, quiet)) => return (print(alloc, host, printed, quiet), made),
        Ok(Task::Other(other, quiet)) => return (do_other(rt, alloc, host, other, quiet), made),
        Err((error, quiet)) => {
            return (fail(alloc, host, error, quiet, None, Seq::new(alloc)), made);
        }
    };
    match drive(rt, alloc, plan, host, jobs) {
        Ok(
            Driven {
                host,
                plan,
                history,
                verdict,
            },
        ) => match error_for(
            alloc,
            &plan,
            messages.as_slice(),
            history.as_slice(),
            verdict,
        ) {
            None => (
                Ended {
                    host,
                    result: Ok(Report { plan, history }),
                },
                made,
            ),
            Some(error) => (fail(alloc, host, error, quiet, Some(plan), history), made),
        },
        Err((host, _plan)) => (
            fail(alloc, host, Error::NoMemory, quiet, None, Seq::new(alloc)),
            made,
        ),
    }
}

/// Runs what the words ask for over a host: reads the words, with the variables of its environment, finds the justfile, reads its project, loads
/// the project's dotenv files, evaluates its variables, makes the plan, and drives it to its end. A justfile in markdown or on standard input is read from a
/// temporary folder, which is removed at the end, so far as it can be. A dry run tells what its plan would tell, and drives nothing. Where the words ask for no
/// run, a text is printed to standard output, a justfile is written, a cache is cleaned, or one child is run alone; the report then has a plan of no node. An
/// error is told on standard error. The words are those behind the program's name. It waits for the children.
pub fn run_with<R: Threads + Wait + Sync, H: Host + Send + Drop>(
    rt: &R,
    alloc: Global,
    words: &[&str],
    host: H,
) -> Ended<H>
    ensures { IsEnded (map (λ x. x.now) words.now)
        (H.told host) (H.told result.host) result.result }
{
    let (ended, made) = run_made(rt, alloc, words, host);
    let Ended { host, result } = ended;
    let mut host = host;
    // What isn't removed for want of memory stays, as what can't be removed does.
    let _ = remove_folders(alloc, &mut host, made.as_slice());
    Ended { host, result }
}

/// Runs what the words ask for over the files, the environment and the processes of the system, as `run_with` does over a
/// host. The only refusal is want of memory.
pub fn run<R>(rt: &R, alloc: Global, words: &[&str]) -> Result<Ended<RealHost<R>>, NoMemory>
where
    R: Runtime
        + Files<File = File>
        + Processes<Started = SystemProcess>
        + Threads
        + Wait
        + Send
        + Sync,
    R::Dir: Send,
    R::Reader: Send,
    R::A: Send,
    ensures { IfOk result (λ d. IsEnded (map (λ x. x.now) words.now)
        (told_with None []) (told_with None (record_of d.host)) d.result) }
{
    let host = RealHost::new(rt, alloc)?;
    Ok(run_with(rt, alloc, words, host))
}
