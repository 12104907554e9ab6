//! A hundred runs of a lattice by eight workers, whose histories are checked by the rules of a legal history.

use super::histories::is_legal;
use super::hosts::memory;
use super::plans::plan_of;
use super::workers::run_of;
use just_host::Host;
use just_path_text::NoMemory;
use just_sched::{Plan, Verdict};
use std::alloc::{AllocError, Global};
use std::num::NonZeroU64;
use std::process::Abort;
use std::sync::Wait;
use std::thread::Threads;

/// A recipe of the lattice, behind a line's end: its priors are the two below it, of which the last ones have one or none.
fn add_recipe(text: &mut String, number: u32) -> Result<(), AllocError> {
    let left = number.saturating_add(15);
    let right = number.saturating_add(16);
    if right < 300 {
        write!(
            text,
            "\n[parallel]\nn{number}: n{left} n{right}\n\techo {number}"
        )
    } else if left < 300 {
        write!(text, "\n[parallel]\nn{number}: n{left}\n\techo {number}")
    } else {
        write!(text, "\nn{number}:\n\techo {number}")
    }
}

/// The first recipe of the lattice, which has the whole first row.
const FIRST: &str = "[parallel]\nall: n0 n1 n2 n3 n4 n5 n6 n7 n8 n9 n10 n11 n12 n13 n14";

/// A justfile of 300 recipes in rows of 15. The priors of each are the two below it, side by side; the first one has the whole first row.
fn lattice(alloc: Global) -> Result<String, AllocError> {
    let mut text = String::from_str(alloc, FIRST)?;
    for number in 0..300u32 {
        add_recipe(&mut text, number)?;
    }
    text.push_str("\n")?;
    Ok(text)
}

/// The plan of the lattice.
fn lattice_plan(rt: &impl Abort, alloc: Global) -> Result<Plan, NoMemory> {
    let text = lattice(alloc)?;
    plan_of(rt, alloc, text.as_str(), "all")
}

/// One run by eight workers; the plan comes back, and whether the run went well by a legal history.
fn run_by_eight<R: Threads + Wait + Sync + Abort, H: Host + Send + Drop>(
    rt: &R,
    alloc: Global,
    plan: Plan,
    host: H,
) -> Result<(Plan, bool), NoMemory> {
    let (_, plan, history, verdict) = run_of(rt, alloc, plan, host, NonZeroU64::new(8));
    let legal = is_legal(alloc, plan.nodes.as_slice(), 8, history.as_slice())?;
    Ok((plan, legal && verdict == Verdict::Well))
}

/// A hundred runs of one plan, each over a host of its own.
#[test]
fn lattice_by_eight(rt: HostRuntime) -> Result<(), NoMemory> {
    let alloc = rt.alloc();
    let mut plan = lattice_plan(&rt, alloc)?;
    for _ in 0..100u8 {
        let host = memory(alloc)?;
        let (back, fine) = run_by_eight(&rt, alloc, plan, host)?;
        plan = back;
        assert!(rt; fine);
    }
    Ok(())
}
