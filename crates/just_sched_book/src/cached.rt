//! The calls of a host that the cache of a body makes.

ghost use Rattle.std.specs.Prelude.{◌≡◌, ◌<◌, ◌^◌, ℕ, List, length, Some, true};
ghost use Rattle.just_path.specs.Path.{text_of};
ghost use Rattle.just_sched_history.specs.Cached.{is_cached, entry_of, saved_text};
ghost use Rattle.just_sched_book.specs.Gains.{Gains, GainsAndLeaves, SumGain, SumGains, LookGains, ProbeGain, SaveGains, CheckGain, KeepGain, LeavesWorld};
ghost use Rattle.just_sched_history.specs.Nodes.{cache_at};
ghost use Rattle.just_sched_history.specs.Touched.{IsLooked, IsWritten};

use just_host_record::{Call, Host, HostFault, Look};
use just_path::{Utf8Path, Utf8PathBuf};
use just_path_text::Seq;
use just_sched_history::{CachePlan, Plan, Reason, entry_path_of, text_of_entry};
use std::alloc::Global;

/// The cache of the node.
pub(crate) fn cache(plan: &Plan, node: u32) -> &CachePlan
    requires within { node < length plan.now.nodes }
    requires cached { is_cached plan.now.nodes node ≡ true }
    ensures { cache_at plan.now.nodes node ≡ Some result.now }
{
    match &plan.nodes.as_slice()[node as usize].cache {
        Some(cache) => cache.get(),
        None => unreachable!(),
    }
}

/// The sum of the file at a path, the input at that place.
fn sum_at<H: Host>(host: &mut H, path: Utf8Path<'_>, place: u32) -> Result<[u8; 32], Reason>
    ensures gains { Gains (H.told host.old) (H.told host.new)
        (SumGain (text_of path.entry) place (λ sum. sum) result) }
    ensures world { (H.told host.new).world ≡ (H.told host.old).world }
    ensures spare { H.spare host.new ≡ H.spare host.old }
{
    match host.sum(path) {
        Ok(sum) => Ok(sum),
        Err(HostFault::Missed(miss)) => Err(Reason::Input(place, miss)),
        Err(HostFault::Failed(_)) => Err(Reason::Fault(Call::Sum)),
        Err(HostFault::NoMemory) => Err(Reason::NoMemory),
    }
}

/// The sums of a cache's inputs, in their order; or the first refusal.
fn sum_all<H: Host>(
    alloc: Global,
    host: &mut H,
    paths: &[Utf8PathBuf],
) -> Result<Vec<[u8; 32]>, Reason>
    requires { length paths.now < 2 ^ 32 }
    ensures gains { Gains (H.told host.old) (H.told host.new)
        (SumGains paths.now (λ v. v.items) result) }
    ensures world { (H.told host.new).world ≡ (H.told host.old).world }
    ensures spare { H.spare host.new ≡ H.spare host.old }
{
    let mut sums = match Vec::with_capacity(alloc, paths.len()) {
        Ok(sums) => sums,
        Err(_) => return Err(Reason::NoMemory),
    };
    'paths: for at in 0..paths.len() {
        match sum_at(host, paths[at].as_path(), at as u32) {
            Ok(sum) => sums.push_reserved(sum),
            Err(reason) => return Err(reason),
        }
    }
    Ok(sums)
}

/// Looks at an entry and the outputs beside it.
fn probe<H: Host>(
    host: &mut H,
    entry: Utf8Path<'_>,
    outputs: &[Utf8PathBuf],
) -> Result<Look, Reason>
    ensures gains { GainsAndLeaves (H.told host.old) (H.told host.new)
        (ProbeGain (text_of entry.entry) outputs.now result)
        (LeavesWorld (λ seen. IsLooked (text_of entry.entry)) result) }
    ensures spare { H.spare host.new ≡ H.spare host.old }
{
    match host.probe(entry, outputs) {
        Ok(seen) => Ok(seen),
        Err(HostFault::Missed(miss)) => Err(Reason::Place(Call::Probe, miss)),
        Err(HostFault::Failed(_)) => Err(Reason::Fault(Call::Probe)),
        Err(HostFault::NoMemory) => Err(Reason::NoMemory),
    }
}

/// Looks at the entry that the sums of a cache's inputs give.
fn look_at<H: Host>(
    alloc: Global,
    host: &mut H,
    plan: &CachePlan,
    sums: &[[u8; 32]],
) -> Result<Look, Reason>
    ensures gains { GainsAndLeaves (H.told host.old) (H.told host.new)
        (ProbeGain (entry_of plan.now sums.now) plan.now.outputs result)
        (LeavesWorld (λ seen. IsLooked (entry_of plan.now sums.now)) result) }
    ensures spare { H.spare host.new ≡ H.spare host.old }
{
    match entry_path_of(alloc, plan, sums) {
        Ok(path) => probe(host, path.as_path(), plan.outputs.as_slice()),
        Err(_) => Err(Reason::NoMemory),
    }
}

/// Sums a cache's inputs, and looks at the entry of the key that they give.
pub(crate) fn look<H: Host>(
    alloc: Global,
    host: &mut H,
    plan: &CachePlan,
) -> Result<(Seq<[u8; 32]>, Look), Reason>
    ensures gains { GainsAndLeaves (H.told host.old) (H.told host.new)
        (LookGains plan.now (λ seen. seen.0) (λ seen. seen.1) result)
        (LeavesWorld (λ seen. IsLooked (entry_of plan.now seen.0)) result) }
    ensures spare { H.spare host.new ≡ H.spare host.old }
{
    let sums = match sum_all(alloc, host, plan.paths.as_slice()) {
        Ok(sums) => sums,
        Err(reason) => return Err(reason),
    };
    match look_at(alloc, host, plan, sums.as_slice()) {
        Ok(seen) => Ok((Seq::from(sums), seen)),
        Err(reason) => Err(reason),
    }
}

/// Whether each output is there.
fn check<H: Host>(host: &mut H, outputs: &[Utf8PathBuf]) -> Result<(), Reason>
    ensures gains { Gains (H.told host.old) (H.told host.new) (CheckGain outputs.now result) }
    ensures world { (H.told host.new).world ≡ (H.told host.old).world }
    ensures spare { H.spare host.new ≡ H.spare host.old }
{
    match host.check(outputs) {
        Ok(None) => Ok(()),
        Ok(Some(place)) => Err(Reason::Output(place)),
        Err(HostFault::Missed(miss)) => Err(Reason::Place(Call::Check, miss)),
        Err(HostFault::Failed(_)) => Err(Reason::Fault(Call::Check)),
        Err(HostFault::NoMemory) => Err(Reason::NoMemory),
    }
}

/// Makes an entry hold a text.
fn keep<H: Host>(host: &mut H, entry: Utf8Path<'_>, text: &str) -> Result<(), Reason>
    ensures gains { GainsAndLeaves (H.told host.old) (H.told host.new)
        (KeepGain (text_of entry.entry) result)
        (LeavesWorld (λ done. IsWritten (text_of entry.entry) text.now) result) }
    ensures spare { H.spare host.new ≡ H.spare host.old }
{
    match host.save(entry, text.as_bytes()) {
        Ok(()) => Ok(()),
        Err(HostFault::Missed(miss)) => Err(Reason::Place(Call::Save, miss)),
        Err(HostFault::Failed(_)) => Err(Reason::Fault(Call::Save)),
        Err(HostFault::NoMemory) => Err(Reason::NoMemory),
    }
}

/// Checks the outputs, and where each is there, makes the entry hold that text.
fn check_and_keep<H: Host>(
    host: &mut H,
    plan: &CachePlan,
    entry: Utf8Path<'_>,
    text: &str,
) -> Result<(), Reason>
    ensures gains { (sums : List (List ℕ)) → text_of entry.entry ≡ entry_of plan.now sums
        → GainsAndLeaves (H.told host.old) (H.told host.new)
        (SaveGains plan.now sums result)
        (LeavesWorld (λ done. IsWritten (text_of entry.entry) text.now) result) }
    ensures spare { H.spare host.new ≡ H.spare host.old }
{
    match check(host, plan.outputs.as_slice()) {
        Ok(()) => keep(host, entry, text),
        Err(reason) => Err(reason),
    }
}

/// Saves the entry of a body that ended well, where each of its outputs is there; the sums are those of its look.
pub(crate) fn save<H: Host>(
    alloc: Global,
    host: &mut H,
    plan: &CachePlan,
    sums: &[[u8; 32]],
) -> Result<(), Reason>
    ensures gains { GainsAndLeaves (H.told host.old) (H.told host.new)
        (SaveGains plan.now sums.now result)
        (LeavesWorld (λ done. IsWritten (entry_of plan.now sums.now) (saved_text plan.now)) result) }
    ensures spare { H.spare host.new ≡ H.spare host.old }
{
    let path = match entry_path_of(alloc, plan, sums) {
        Ok(path) => path,
        Err(_) => return Err(Reason::NoMemory),
    };
    let text = match text_of_entry(alloc, plan) {
        Ok(text) => text,
        Err(_) => return Err(Reason::NoMemory),
    };
    check_and_keep(host, plan, path.as_path(), text.as_str())
}
