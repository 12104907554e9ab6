//! How progress goes on from a node that is over well to those of whose subsequents it is the last. Nothing here takes memory.

ghost use Rattle.std.specs.Prelude.{◌≡◌, ◌+◌, ◌<◌, ◌≤◌, ◌⊎◌, ℕ, Bool, [], true, false, Some, None, IfSome, IfNone, List, length, slice_index, slice_set, Contains, vec_len, vec_capacity};
ghost use Rattle.just_sched_history.specs.declared.event.Event.{Event};
ghost use Rattle.just_sched_history.specs.Nodes.{parallel_at, priors_at, subsequents_at};
ghost use Rattle.just_sched_history.specs.Tables.{flag, FlagsAre};
ghost use Rattle.just_sched_history.specs.State.{is_over_well};
ghost use Rattle.just_sched_history.specs.Led.{IsRaised, IsLed, ArePriorsLed, AllFinished, AllWanted, KeepsWanted};
ghost use Rattle.just_sched_history.specs.Covered.{AreCoveredBy};
ghost use Rattle.just_sched_history.specs.Progress.{IsPlaced, IsClosedBut, IsTold};

use super::Plan;
use super::descent::spread;
use super::progress::Progress;
use super::spread::lead;
use crate::NumberSet;

/// Whether a flag is up.
fn is_up(flags: &[bool], at: usize) -> bool
    requires { at < length flags.now }
    ensures { result ≡ flag flags.now at }
{
    flags[at]
}

/// The node of whose subsequents the node is one, if that is over well.
fn parent_over(plan: &Plan, at: usize, over: &[bool]) -> Option<usize>
    requires within { at < length plan.now.nodes }
    requires sized { length over.now ≡ length plan.now.nodes }
    ensures parent { (m : ℕ) → Contains (subsequents_at plan.now.nodes m) at → flag over.now m ≡ true → result ≡ Some m }
    ensures over { (m : ℕ) → result ≡ Some m → flag over.now m ≡ true }
    ensures less { IfSome result (λ m. m < at) }
{
    let node = &plan.nodes.as_slice()[at];
    let Some(parent) = node.node.round else {
        return None;
    };
    let next = parent as usize;
    if !over[next] {
        return None;
    }
    Some(next)
}

impl Progress {
    /// Goes on along the subsequents of a node; whether all are finished.
    fn go_through(&mut self, plan: &Plan, at: usize) -> bool
        requires within { at < length plan.now.nodes }
        requires size { self.old.size ≡ length plan.now.nodes }
        requires placed { IsPlaced plan.now.nodes plan.now.invocations self.old }
        ensures size { self.new.size ≡ self.old.size }
        ensures same { (self.new.over ≡ self.old.over) × (self.new.finished ≡ self.old.finished) × (self.new.confirmed ≡ self.old.confirmed) }
        ensures placed { IsPlaced plan.now.nodes plan.now.invocations self.new }
        ensures led { IsLed self.new.finished.items self.new.wanted.items false (subsequents_at plan.now.nodes at) }
        ensures raised { IsRaised self.old.wanted.items self.new.wanted.items self.old.pending.items self.new.pending.items }
        ensures through { result ≡ true → (q : ℕ) → Contains (subsequents_at plan.now.nodes at) q → flag self.new.finished.items q ≡ true }
        ensures not_through { result ≡ false → (q : ℕ) × Contains (subsequents_at plan.now.nodes at) q × (flag self.new.finished.items q ≡ false) }
        ensures told { (h : List Event) → flag self.old.over.items at ≡ true → IsTold plan.now.nodes plan.now.invocations h self.old → IsTold plan.now.nodes plan.now.invocations h self.new }
    {
        let nodes = plan.nodes.as_slice();
        let list = nodes[at].node.subsequents.as_slice();
        let finished = self.finished.as_slice();
        let wanted = self.wanted.as_mut_slice();
        let place = lead(
            list,
            self.subsequents[at],
            finished,
            wanted,
            &mut self.pending,
        );
        self.subsequents[at] = place;
        place == list.len()
    }

    /// Flags a node as finished, of which all subsequents are, and goes on along each list that it stands in as a prior or
    /// an invocation.
    fn finish(&mut self, plan: &Plan, at: usize, due: &mut NumberSet)
        requires within { at < length plan.now.nodes }
        requires size { self.old.size ≡ length plan.now.nodes }
        requires placed { IsPlaced plan.now.nodes plan.now.invocations self.old }
        requires priors { ArePriorsLed (parallel_at plan.now.nodes) (priors_at plan.now.nodes) self.old.finished.items self.old.confirmed.items self.old.wanted.items self.old.pending.items }
        requires due { due.old.size ≡ length plan.now.nodes }
        ensures size { self.new.size ≡ self.old.size }
        ensures over { self.new.over ≡ self.old.over }
        ensures confirmed { self.new.confirmed ≡ self.old.confirmed }
        ensures finished { self.new.finished.items ≡ slice_set self.old.finished.items at true }
        ensures placed { IsPlaced plan.now.nodes plan.now.invocations self.new }
        ensures invocations { IsLed self.new.finished.items self.new.wanted.items false plan.now.invocations }
        ensures priors { ArePriorsLed (parallel_at plan.now.nodes) (priors_at plan.now.nodes) self.new.finished.items self.new.confirmed.items self.new.wanted.items self.new.pending.items }
        ensures raised { IsRaised self.old.wanted.items self.new.wanted.items self.old.pending.items self.new.pending.items }
        ensures wanted { KeepsWanted plan.now.nodes plan.now.invocations self.new.finished.items self.old.confirmed.items self.old.wanted.items self.new.wanted.items }
        ensures due { due.new.size ≡ due.old.size }
        ensures covered { (gone : ℕ → Bool) → AreCoveredBy plan.now.nodes gone due.old.flags.items self.old → AreCoveredBy plan.now.nodes gone due.new.flags.items self.new }
    {
        let finished = self.finished.as_mut_slice();
        finished[at] = true;
        let confirmed = self.confirmed.as_slice();
        let wanted = self.wanted.as_mut_slice();
        let place = lead(
            plan.invocations.as_slice(),
            self.invocations,
            finished,
            wanted,
            &mut self.pending,
        );
        self.invocations = place;
        let places = self.priors.as_mut_slice();
        spread(
            plan,
            self.dependents[at].as_slice(),
            finished,
            confirmed,
            wanted,
            places,
            &mut self.pending,
            due,
        );
    }

    /// Whether a node that is over well is finished by what was found of its subsequents; the node to go on with, one of
    /// whose subsequents it is.
    fn rise(&mut self, plan: &Plan, at: usize, due: &mut NumberSet) -> Option<usize>
        requires within { at < length plan.now.nodes }
        requires size { self.old.size ≡ length plan.now.nodes }
        requires placed { IsPlaced plan.now.nodes plan.now.invocations self.old }
        requires closed { IsClosedBut plan.now.nodes plan.now.invocations self.old (Some at) }
        requires due { due.old.size ≡ length plan.now.nodes }
        ensures size { self.new.size ≡ self.old.size }
        ensures less { IfSome result (λ p. p < at) }
        ensures confirmed { self.new.confirmed ≡ self.old.confirmed }
        ensures placed { IsPlaced plan.now.nodes plan.now.invocations self.new }
        ensures closed { IsClosedBut plan.now.nodes plan.now.invocations self.new result }
        ensures told { (h : List Event) → IsTold plan.now.nodes plan.now.invocations h self.old → IsTold plan.now.nodes plan.now.invocations h self.new }
        ensures due { due.new.size ≡ due.old.size }
        ensures covered { (gone : ℕ → Bool) → AreCoveredBy plan.now.nodes gone due.old.flags.items self.old → AreCoveredBy plan.now.nodes gone due.new.flags.items self.new }
    {
        if !self.go_through(plan, at) {
            return None;
        }
        let finished = self.finished.as_slice();
        if is_up(finished, at) {
            return None;
        }
        self.finish(plan, at, due);
        let over = self.over.as_slice();
        parent_over(plan, at, over)
    }

    /// The same for that node, and so on.
    pub(crate) fn climb(&mut self, plan: &Plan, from: usize, due: &mut NumberSet)
        requires within { from < length plan.now.nodes }
        requires size { self.old.size ≡ length plan.now.nodes }
        requires placed { IsPlaced plan.now.nodes plan.now.invocations self.old }
        requires closed { IsClosedBut plan.now.nodes plan.now.invocations self.old (Some from) }
        requires due { due.old.size ≡ length plan.now.nodes }
        ensures size { self.new.size ≡ self.old.size }
        ensures confirmed { self.new.confirmed ≡ self.old.confirmed }
        ensures placed { IsPlaced plan.now.nodes plan.now.invocations self.new }
        ensures closed { IsClosedBut plan.now.nodes plan.now.invocations self.new None }
        ensures told { (h : List Event) → IsTold plan.now.nodes plan.now.invocations h self.old → IsTold plan.now.nodes plan.now.invocations h self.new }
        ensures due { due.new.size ≡ due.old.size }
        ensures covered { (gone : ℕ → Bool) → AreCoveredBy plan.now.nodes gone due.old.flags.items self.old → AreCoveredBy plan.now.nodes gone due.new.flags.items self.new }
    {
        let mut next = Some(from);
        while let Some(at) = next {
            next = self.rise(plan, at, due);
        }
    }
}
