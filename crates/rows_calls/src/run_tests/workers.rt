//! Runs by workers side by side, over a gate.

use super::hosts::{memory, with_justfile};
use super::plans::plan_of;
use just_cli::{Ended, Failure, Report, run_with};
use just_host::{Entry, GateHost, Host};
use just_path_text::{NoMemory, Seq};
use just_sched::{Driven, Event, Plan, Verdict, drive};
use std::alloc::Global;
use std::num::NonZeroU64;
use std::process::Abort;
use std::sync::Wait;
use std::thread::Threads;

/// What a run left, taken apart: the host, the plan, the history and the verdict. No clause: it serves tests alone.
pub fn left<H: Host>(driven: Driven<H>) -> (H, Plan, Seq<Event>, Verdict) {
    let Driven {
        host,
        plan,
        history,
        verdict,
    } = driven;
    (host, plan, history, verdict)
}

/// The run of a plan over a host, to its end: the host behind it, the plan, its history and its verdict. The test ends where memory is wanting.
/// No clause: it serves tests alone.
pub fn run_of<R: Threads + Wait + Sync + Abort, H: Host + Send + Drop>(
    rt: &R,
    alloc: Global,
    plan: Plan,
    host: H,
    jobs: Option<NonZeroU64>,
) -> (H, Plan, Seq<Event>, Verdict) {
    match drive(rt, alloc, plan, host, jobs) {
        Ok(driven) => left(driven),
        Err(_) => panic!(rt; "no memory"),
    }
}

/// What was told is what is wanted; else the test ends there. No clause: it serves tests alone.
pub fn tells(rt: &impl Abort, told: &str, want: &str) {
    assert_eq!(rt; told, want);
}

/// How many children were started before child 0 ended.
fn started_before_the_first_end(entries: &[Entry]) -> usize {
    let mut count: usize = 0;
    for entry in entries {
        match entry {
            Entry::Started(_, _) => count = count.saturating_add(1),
            Entry::Ended(0, _) => return count,
            _ => {}
        }
    }
    count
}

/// A recipe whose priors may run side by side.
const PARALLEL: &str = "[parallel]\np: a b\n\techo p\na:\n\techo a\nb:\n\techo b\n";

/// A host in memory whose child 0 is held until child 1 was started.
fn gate(alloc: Global) -> Result<GateHost, NoMemory> {
    let host = memory(alloc)?;
    GateHost::new(host)
}

/// The same with a justfile of that text in its folder.
fn gate_with(alloc: Global, text: &str) -> Result<GateHost, NoMemory> {
    let host = with_justfile(alloc, text)?;
    GateHost::new(host)
}

/// Both children start before child 0 ends, since the gate holds child 0 until then.
#[test]
fn two_children_at_once(rt: HostRuntime) -> Result<(), NoMemory> {
    let alloc = rt.alloc();
    let plan = plan_of(&rt, alloc, PARALLEL, "p")?;
    let host = gate(alloc)?;
    let (host, _, _, verdict) = run_of(&rt, alloc, plan, host, None);
    assert_eq!(rt; verdict, Verdict::Well);
    assert!(rt; started_before_the_first_end(host.entries()) >= 2);
    Ok(())
}

/// The exit code of a run that ended so.
fn code_of(ended: &Result<Report, Failure>) -> i32 {
    match ended {
        Ok(_) => 0,
        Err(failure) => failure.code,
    }
}

/// The same by the top call, from its words to code 0: where child 1 isn't started while child 0 is held, nobody knows how
/// child 0 has ended, and the code is another.
#[test]
fn row_two_children_at_once(rt: HostRuntime) -> Result<(), NoMemory> {
    let alloc = rt.alloc();
    let host = gate_with(alloc, PARALLEL)?;
    let Ended { host, result } = run_with(&rt, alloc, &["p"], host);
    assert_eq!(rt; code_of(&result), 0);
    assert!(rt; started_before_the_first_end(host.entries()) >= 2);
    Ok(())
}
