//! From a wanted node to its priors. Nothing here takes memory.

ghost use Rattle.std.specs.Prelude.{◌≡◌, ◌+◌, ◌<◌, ◌≤◌, ◌⊎◌, ℕ, List, Bool, [], true, false, length, slice_index, Contains, vec_capacity};
ghost use Rattle.just_sched_history.specs.Nodes.{parallel_at, priors_at};
ghost use Rattle.just_sched_history.specs.Tables.{flag, InRange};
ghost use Rattle.just_sched_history.specs.Covered.{IsCovered, AreCovered};
ghost use Rattle.just_sched_history.specs.Led.{down_count, IsRaised, IsBefore, IsLed, ArePriorsLed, AreUp, AreBefore, KeepsWanted};

use super::Plan;
use super::spread::lead_all;
use crate::NumberSet;

/// Goes on along the priors of a node, where it is wanted and confirmed; all of them are wanted at once if they may go
/// together. A wanted node that isn't confirmed may be due, and so may one whose priors are finished.
pub(crate) fn lead_priors(
    plan: &Plan,
    at: usize,
    together: bool,
    finished: &[bool],
    confirmed: &[bool],
    wanted: &mut [bool],
    places: &mut [usize],
    pending: &mut Vec<u32>,
    due: &mut NumberSet,
)
    requires within { at < length plan.now.nodes }
    requires together { together ≡ true → parallel_at plan.now.nodes at ≡ true }
    requires sized { length wanted.old ≡ length plan.now.nodes }
    requires finished { length finished.now ≡ length plan.now.nodes }
    requires confirmed { length confirmed.now ≡ length plan.now.nodes }
    requires places { length places.old ≡ length plan.now.nodes }
    requires listed { AreUp wanted.old pending.old.items }
    requires before { AreBefore (priors_at plan.now.nodes) finished.now wanted.old places.old }
    requires room { length pending.old.items + down_count wanted.old ≤ vec_capacity pending.old }
    requires due { due.old.size ≡ length plan.now.nodes }
    ensures listed { AreUp wanted.new pending.new.items }
    ensures before { AreBefore (priors_at plan.now.nodes) finished.now wanted.new places.new }
    ensures led { flag wanted.old at ≡ true → flag confirmed.now at ≡ true → IsLed finished.now wanted.new together (priors_at plan.now.nodes at) }
    ensures raised { IsRaised wanted.old wanted.new pending.old.items pending.new.items }
    ensures wanted { KeepsWanted plan.now.nodes plan.now.invocations finished.now confirmed.now wanted.old wanted.new }
    ensures capacity { vec_capacity pending.new ≡ vec_capacity pending.old }
    ensures due { due.new.size ≡ due.old.size }
    ensures kept { (k : ℕ) → flag due.old.flags.items k ≡ true → flag due.new.flags.items k ≡ true }
    ensures covered { flag wanted.old at ≡ true → IsCovered plan.now.nodes due.new.flags.items finished.now confirmed.now at }
{
    if !wanted[at] {
        return;
    }
    if !confirmed[at] {
        due.insert(at);
        return;
    }
    let node = &plan.nodes.as_slice()[at];
    let place = lead_all(
        node.node.priors.as_slice(),
        together,
        places[at],
        finished,
        wanted,
        pending,
    );
    places[at] = place;
    due.insert_if(at, place == node.node.priors.len());
}

/// Leads the priors of each pending node that is confirmed, and of each that is wanted by that, till none is pending.
pub(crate) fn descend(
    plan: &Plan,
    finished: &[bool],
    confirmed: &[bool],
    wanted: &mut [bool],
    places: &mut [usize],
    pending: &mut Vec<u32>,
    due: &mut NumberSet,
)
    requires sized { length wanted.old ≡ length plan.now.nodes }
    requires finished { length finished.now ≡ length plan.now.nodes }
    requires confirmed { length confirmed.now ≡ length plan.now.nodes }
    requires places { length places.old ≡ length plan.now.nodes }
    requires listed { AreUp wanted.old pending.old.items }
    requires before { AreBefore (priors_at plan.now.nodes) finished.now wanted.old places.old }
    requires room { length pending.old.items + down_count wanted.old ≤ vec_capacity pending.old }
    requires led { ArePriorsLed (parallel_at plan.now.nodes) (priors_at plan.now.nodes) finished.now confirmed.now wanted.old pending.old.items }
    requires due { due.old.size ≡ length plan.now.nodes }
    ensures before { AreBefore (priors_at plan.now.nodes) finished.now wanted.new places.new }
    ensures led { (m : ℕ) → flag wanted.new m ≡ true → flag confirmed.now m ≡ true → IsLed finished.now wanted.new (parallel_at plan.now.nodes m) (priors_at plan.now.nodes m) }
    ensures keeps { (k : ℕ) → flag wanted.old k ≡ true → flag wanted.new k ≡ true }
    ensures wanted { KeepsWanted plan.now.nodes plan.now.invocations finished.now confirmed.now wanted.old wanted.new }
    ensures none { pending.new.items ≡ [] }
    ensures room { down_count wanted.new ≤ vec_capacity pending.new }
    ensures capacity { vec_capacity pending.new ≡ vec_capacity pending.old }
    ensures due { due.new.size ≡ due.old.size }
    ensures covered { (gone : ℕ → Bool) → AreCovered plan.now.nodes gone due.old.flags.items finished.now confirmed.now wanted.old pending.old.items → AreCovered plan.now.nodes gone due.new.flags.items finished.now confirmed.now wanted.new pending.new.items }
{
    while let Some(next) = pending.pop() {
        let at = next as usize;
        let parallel = plan.nodes.as_slice()[at].parallel;
        lead_priors(
            plan, at, parallel, finished, confirmed, wanted, places, pending, due,
        );
    }
}

/// Goes on along the priors of each node of the list that is wanted and confirmed.
pub(crate) fn spread(
    plan: &Plan,
    nodes: &[u32],
    finished: &[bool],
    confirmed: &[bool],
    wanted: &mut [bool],
    places: &mut [usize],
    pending: &mut Vec<u32>,
    due: &mut NumberSet,
)
    requires within { (j : ℕ) → j < length nodes.now → slice_index nodes.now j < length plan.now.nodes }
    requires sized { length wanted.old ≡ length plan.now.nodes }
    requires finished { length finished.now ≡ length plan.now.nodes }
    requires confirmed { length confirmed.now ≡ length plan.now.nodes }
    requires places { length places.old ≡ length plan.now.nodes }
    requires listed { AreUp wanted.old pending.old.items }
    requires before { AreBefore (priors_at plan.now.nodes) finished.now wanted.old places.old }
    requires room { length pending.old.items + down_count wanted.old ≤ vec_capacity pending.old }
    requires due { due.old.size ≡ length plan.now.nodes }
    ensures listed { AreUp wanted.new pending.new.items }
    ensures before { AreBefore (priors_at plan.now.nodes) finished.now wanted.new places.new }
    ensures led { (j : ℕ) → j < length nodes.now → flag wanted.new (slice_index nodes.now j) ≡ true → flag confirmed.now (slice_index nodes.now j) ≡ true → Contains pending.new.items (slice_index nodes.now j) ⊎ IsLed finished.now wanted.new false (priors_at plan.now.nodes (slice_index nodes.now j)) }
    ensures raised { IsRaised wanted.old wanted.new pending.old.items pending.new.items }
    ensures wanted { KeepsWanted plan.now.nodes plan.now.invocations finished.now confirmed.now wanted.old wanted.new }
    ensures capacity { vec_capacity pending.new ≡ vec_capacity pending.old }
    ensures due { due.new.size ≡ due.old.size }
    ensures kept { (k : ℕ) → flag due.old.flags.items k ≡ true → flag due.new.flags.items k ≡ true }
    ensures covered { (j : ℕ) → j < length nodes.now → flag wanted.new (slice_index nodes.now j) ≡ true → Contains pending.new.items (slice_index nodes.now j) ⊎ IsCovered plan.now.nodes due.new.flags.items finished.now confirmed.now (slice_index nodes.now j) }
{
    for node in nodes {
        lead_priors(
            plan,
            *node as usize,
            false,
            finished,
            confirmed,
            wanted,
            places,
            pending,
            due,
        );
    }
}
