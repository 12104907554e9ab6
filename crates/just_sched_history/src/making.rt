//! The making of what is kept of a run's progress, and the noting of a node that is over well or confirmed.

ghost use Rattle.std.specs.Prelude.{◌≡◌, ◌+◌, ◌<◌, ◌≤◌, ◌⊎◌, ◌||◌, ℕ, Bool, [], true, false, Some, None, is_some, IfOk, List, length, slice_index, slice_set, map, slice_index_or, Contains, vec_len, vec_capacity};
ghost use Rattle.just_sched_history.specs.declared.event.Event.{Event};
ghost use Rattle.just_sched_history.specs.Nodes.{priors_at, prompt_at};
ghost use Rattle.just_sched_history.specs.Tables.{flag, FlagsAre};
ghost use Rattle.just_sched_history.specs.State.{is_over_well, is_confirmed, names};
ghost use Rattle.just_sched_history.specs.Covered.{AreCoveredBy};
ghost use Rattle.just_sched_history.specs.Led.{IsRaised, AllFinished, AllConfirmed, AllWanted, place_of};
ghost use Rattle.just_sched_history.specs.Progress.{IsPlaced, IsClosedBut, IsTold};

use super::Plan;
use super::descent::{descend, lead_priors};
use super::progress::Progress;
use super::spread::{lead, want_all};
use crate::NumberSet;
use just_path_text::NoMemory;
use std::alloc::Global;

/// So many flags, of which none is up.
fn down_flags(alloc: Global, count: usize) -> Result<Vec<bool>, NoMemory>
    ensures len { IfOk result (λ v. vec_len v ≡ count) }
    ensures down { IfOk result (λ v. FlagsAre v.items (λ _. false)) }
{
    Ok(vec![in alloc; false; count]?)
}

/// So many places, each of which is the first.
fn first_places(alloc: Global, count: usize) -> Result<Vec<usize>, NoMemory>
    ensures len { IfOk result (λ v. vec_len v ≡ count) }
    ensures first { IfOk result (λ v. (m : ℕ) → place_of v.items m ≡ 0) }
{
    Ok(vec![in alloc; 0; count]?)
}

/// So many empty lists.
fn empty_lists(alloc: Global, count: usize) -> Result<Vec<Vec<u32>>, NoMemory>
    ensures len { IfOk result (λ v. vec_len v ≡ count) }
    ensures empty { IfOk result (λ v. (q m : ℕ) → Contains (slice_index_or (map (λ x. x.items) v.items) q []) m → ⊥) }
{
    let mut lists = Vec::with_capacity(alloc, count)?;
    for _ in 0..count {
        lists.push(Vec::new(alloc))?;
    }
    Ok(lists)
}

/// For each node, the nodes that have it as a prior.
fn dependents_of(alloc: Global, plan: &Plan) -> Result<Vec<Vec<u32>>, NoMemory>
    ensures len { IfOk result (λ v. vec_len v ≡ length plan.now.nodes) }
    ensures whole { IfOk result (λ v. (m q : ℕ) → Contains (priors_at plan.now.nodes m) q → Contains (slice_index_or (map (λ x. x.items) v.items) q []) m) }
    ensures inside { IfOk result (λ v. (m q : ℕ) → Contains (slice_index_or (map (λ x. x.items) v.items) q []) m → m < length plan.now.nodes) }
{
    let nodes = plan.nodes.as_slice();
    let mut lists = empty_lists(alloc, nodes.len())?;
    for at in 0..nodes.len() {
        for prior in nodes[at].node.priors.as_slice() {
            lists[*prior as usize].push(at as u32)?;
        }
    }
    Ok(lists)
}

/// For each node, whether it has no prompt.
fn unprompted(alloc: Global, plan: &Plan) -> Result<Vec<bool>, NoMemory>
    ensures len { IfOk result (λ v. vec_len v ≡ length plan.now.nodes) }
    ensures flags { IfOk result (λ v. FlagsAre v.items (is_confirmed plan.now.nodes [])) }
{
    let nodes = plan.nodes.as_slice();
    let mut flags = Vec::with_capacity(alloc, nodes.len())?;
    for at in 0..nodes.len() {
        flags.push(nodes[at].prompt.is_none())?;
    }
    Ok(flags)
}

/// The nodes that have a prompt.
pub(crate) fn prompted_nodes(alloc: Global, plan: &Plan) -> Result<NumberSet, NoMemory>
    ensures size { IfOk result (λ s. s.size ≡ length plan.now.nodes) }
    ensures each { IfOk result (λ s. (m : ℕ) → m < length plan.now.nodes → is_some (prompt_at plan.now.nodes m) ≡ true → flag s.flags.items m ≡ true) }
{
    let nodes = plan.nodes.as_slice();
    let mut set = NumberSet::new(alloc, nodes.len())?;
    for at in 0..nodes.len() {
        set.insert_if(at, nodes[at].prompt.is_some());
    }
    Ok(set)
}

impl Progress {
    /// Notes that a node is over well, by which its subsequents may come next; what follows from it is left to do.
    fn enter(&mut self, plan: &Plan, node: usize)
        requires within { node < length plan.now.nodes }
        requires size { self.old.size ≡ length plan.now.nodes }
        requires placed { IsPlaced plan.now.nodes plan.now.invocations self.old }
        requires closed { IsClosedBut plan.now.nodes plan.now.invocations self.old None }
        ensures size { self.new.size ≡ self.old.size }
        ensures confirmed { self.new.confirmed ≡ self.old.confirmed }
        ensures placed { IsPlaced plan.now.nodes plan.now.invocations self.new }
        ensures closed { IsClosedBut plan.now.nodes plan.now.invocations self.new (Some node) }
        ensures finished { self.new.finished ≡ self.old.finished }
        ensures raised { IsRaised self.old.wanted.items self.new.wanted.items self.old.pending.items self.new.pending.items }
        ensures told { (h : List Event) → FlagsAre (slice_set self.old.over.items node true) (is_over_well h) → AllFinished plan.now.nodes h self.old.finished.items → AllConfirmed plan.now.nodes h self.old.confirmed.items → AllWanted plan.now.nodes plan.now.invocations h self.old.wanted.items → IsTold plan.now.nodes plan.now.invocations h self.new }
    {
        let over = self.over.as_mut_slice();
        over[node] = true;
        let at = &plan.nodes.as_slice()[node];
        if !at.parallel {
            return;
        }
        let wanted = self.wanted.as_mut_slice();
        want_all(at.node.subsequents.as_slice(), wanted, &mut self.pending);
    }

    /// Leads the priors of the pending nodes till none is pending.
    fn clear_pending(&mut self, plan: &Plan, due: &mut NumberSet)
        requires size { self.old.size ≡ length plan.now.nodes }
        requires placed { IsPlaced plan.now.nodes plan.now.invocations self.old }
        requires closed { IsClosedBut plan.now.nodes plan.now.invocations self.old None }
        requires due { due.old.size ≡ length plan.now.nodes }
        ensures size { self.new.size ≡ self.old.size }
        ensures confirmed { self.new.confirmed ≡ self.old.confirmed }
        ensures placed { IsPlaced plan.now.nodes plan.now.invocations self.new }
        ensures closed { IsClosedBut plan.now.nodes plan.now.invocations self.new None }
        ensures none { self.new.pending.items ≡ [] }
        ensures told { (h : List Event) → IsTold plan.now.nodes plan.now.invocations h self.old → IsTold plan.now.nodes plan.now.invocations h self.new }
        ensures due { due.new.size ≡ due.old.size }
        ensures covered { (gone : ℕ → Bool) → AreCoveredBy plan.now.nodes gone due.old.flags.items self.old → AreCoveredBy plan.now.nodes gone due.new.flags.items self.new }
    {
        let finished = self.finished.as_slice();
        let confirmed = self.confirmed.as_slice();
        let wanted = self.wanted.as_mut_slice();
        let places = self.priors.as_mut_slice();
        descend(
            plan,
            finished,
            confirmed,
            wanted,
            places,
            &mut self.pending,
            due,
        );
    }

    /// Notes that a node is over well, and all that follows from it.
    fn settle(&mut self, plan: &Plan, node: usize, due: &mut NumberSet)
        requires within { node < length plan.now.nodes }
        requires size { self.old.size ≡ length plan.now.nodes }
        requires placed { IsPlaced plan.now.nodes plan.now.invocations self.old }
        requires closed { IsClosedBut plan.now.nodes plan.now.invocations self.old None }
        requires due { due.old.size ≡ length plan.now.nodes }
        ensures size { self.new.size ≡ self.old.size }
        ensures confirmed { self.new.confirmed ≡ self.old.confirmed }
        ensures placed { IsPlaced plan.now.nodes plan.now.invocations self.new }
        ensures closed { IsClosedBut plan.now.nodes plan.now.invocations self.new None }
        ensures none { self.new.pending.items ≡ [] }
        ensures told { (h : List Event) → FlagsAre (slice_set self.old.over.items node true) (is_over_well h) → AllFinished plan.now.nodes h self.old.finished.items → AllConfirmed plan.now.nodes h self.old.confirmed.items → AllWanted plan.now.nodes plan.now.invocations h self.old.wanted.items → IsTold plan.now.nodes plan.now.invocations h self.new }
        ensures due { due.new.size ≡ due.old.size }
        ensures covered { (gone : ℕ → Bool) → AreCoveredBy plan.now.nodes gone due.old.flags.items self.old → AreCoveredBy plan.now.nodes gone due.new.flags.items self.new }
    {
        self.enter(plan, node);
        self.climb(plan, node, due);
        self.clear_pending(plan, due);
    }

    /// The same of a node that an event shows to be over well, if it shows one and the plan has it.
    pub(crate) fn go_on(&mut self, plan: &Plan, over: Option<u32>, due: &mut NumberSet)
        requires size { self.old.size ≡ length plan.now.nodes }
        requires placed { IsPlaced plan.now.nodes plan.now.invocations self.old }
        requires closed { IsClosedBut plan.now.nodes plan.now.invocations self.old None }
        requires due { due.old.size ≡ length plan.now.nodes }
        ensures size { self.new.size ≡ self.old.size }
        ensures confirmed { self.new.confirmed ≡ self.old.confirmed }
        ensures placed { IsPlaced plan.now.nodes plan.now.invocations self.new }
        ensures closed { IsClosedBut plan.now.nodes plan.now.invocations self.new None }
        ensures none { self.old.pending.items ≡ [] → self.new.pending.items ≡ [] }
        ensures told { (h later : List Event) → ((n : ℕ) → is_over_well later n ≡ (is_over_well h n || names over n)) → ((n : ℕ) → is_confirmed plan.now.nodes h n ≡ true → is_confirmed plan.now.nodes later n ≡ true) → IsTold plan.now.nodes plan.now.invocations h self.old → IsTold plan.now.nodes plan.now.invocations later self.new }
        ensures due { due.new.size ≡ due.old.size }
        ensures covered { (gone : ℕ → Bool) → AreCoveredBy plan.now.nodes gone due.old.flags.items self.old → AreCoveredBy plan.now.nodes gone due.new.flags.items self.new }
    {
        let Some(node) = over else {
            return;
        };
        let at = node as usize;
        if at < self.size {
            self.settle(plan, at, due);
        }
    }

    /// Notes that a node's prompt was answered by a yes, by which its priors may come next where it is wanted.
    fn confirm(&mut self, plan: &Plan, at: usize, due: &mut NumberSet)
        requires within { at < length plan.now.nodes }
        requires size { self.old.size ≡ length plan.now.nodes }
        requires placed { IsPlaced plan.now.nodes plan.now.invocations self.old }
        requires closed { IsClosedBut plan.now.nodes plan.now.invocations self.old None }
        requires due { due.old.size ≡ length plan.now.nodes }
        ensures size { self.new.size ≡ self.old.size }
        ensures confirmed { self.new.confirmed.items ≡ slice_set self.old.confirmed.items at true }
        ensures placed { IsPlaced plan.now.nodes plan.now.invocations self.new }
        ensures closed { IsClosedBut plan.now.nodes plan.now.invocations self.new None }
        ensures told { (h : List Event) → is_confirmed plan.now.nodes h at ≡ true → IsTold plan.now.nodes plan.now.invocations h self.old → IsTold plan.now.nodes plan.now.invocations h self.new }
        ensures due { due.new.size ≡ due.old.size }
        ensures covered { (gone : ℕ → Bool) → AreCoveredBy plan.now.nodes gone due.old.flags.items self.old → AreCoveredBy plan.now.nodes gone due.new.flags.items self.new }
    {
        let confirmed = self.confirmed.as_mut_slice();
        confirmed[at] = true;
        let finished = self.finished.as_slice();
        let wanted = self.wanted.as_mut_slice();
        let places = self.priors.as_mut_slice();
        lead_priors(
            plan,
            at,
            plan.nodes.as_slice()[at].parallel,
            finished,
            confirmed,
            wanted,
            places,
            &mut self.pending,
            due,
        );
    }

    /// The same of a node that an event shows to be confirmed, if it shows one and the plan has it, and all that follows from it.
    pub(crate) fn hear(&mut self, plan: &Plan, said: Option<u32>, due: &mut NumberSet)
        requires size { self.old.size ≡ length plan.now.nodes }
        requires placed { IsPlaced plan.now.nodes plan.now.invocations self.old }
        requires closed { IsClosedBut plan.now.nodes plan.now.invocations self.old None }
        requires due { due.old.size ≡ length plan.now.nodes }
        ensures size { self.new.size ≡ self.old.size }
        ensures heard { (k : ℕ) → k < length self.new.confirmed.items → (flag self.old.confirmed.items k || names said k) ≡ true → flag self.new.confirmed.items k ≡ true }
        ensures placed { IsPlaced plan.now.nodes plan.now.invocations self.new }
        ensures closed { IsClosedBut plan.now.nodes plan.now.invocations self.new None }
        ensures none { self.old.pending.items ≡ [] → self.new.pending.items ≡ [] }
        ensures told { (h : List Event) → ((n : ℕ) → names said n ≡ true → is_confirmed plan.now.nodes h n ≡ true) → IsTold plan.now.nodes plan.now.invocations h self.old → IsTold plan.now.nodes plan.now.invocations h self.new }
        ensures due { due.new.size ≡ due.old.size }
        ensures covered { (gone : ℕ → Bool) → AreCoveredBy plan.now.nodes gone due.old.flags.items self.old → AreCoveredBy plan.now.nodes gone due.new.flags.items self.new }
    {
        let Some(node) = said else {
            return;
        };
        let at = node as usize;
        if at < self.size {
            self.confirm(plan, at, due);
            self.clear_pending(plan, due);
        }
    }

    /// Nothing is over well, finished or wanted, and no list is begun.
    fn blank(alloc: Global, plan: &Plan) -> Result<Progress, NoMemory>
        ensures size { IfOk result (λ p. p.size ≡ length plan.now.nodes) }
        ensures placed { IfOk result (λ p. IsPlaced plan.now.nodes plan.now.invocations p) }
        ensures over { IfOk result (λ p. FlagsAre p.over.items (λ _. false)) }
        ensures finished { IfOk result (λ p. FlagsAre p.finished.items (λ _. false)) }
        ensures confirmed { IfOk result (λ p. FlagsAre p.confirmed.items (is_confirmed plan.now.nodes [])) }
        ensures wanted { IfOk result (λ p. FlagsAre p.wanted.items (λ _. false)) }
        ensures invoked { IfOk result (λ p. p.invocations ≡ 0) }
        ensures none { IfOk result (λ p. p.pending.items ≡ []) }
    {
        let count = plan.nodes.len();
        let over = down_flags(alloc, count)?;
        let finished = down_flags(alloc, count)?;
        let confirmed = unprompted(alloc, plan)?;
        let wanted = down_flags(alloc, count)?;
        let priors = first_places(alloc, count)?;
        let subsequents = first_places(alloc, count)?;
        let pending = Vec::with_capacity(alloc, count)?;
        let dependents = dependents_of(alloc, plan)?;
        Ok(Progress {
            over,
            finished,
            confirmed,
            wanted,
            priors,
            subsequents,
            invocations: 0,
            dependents,
            pending,
            size: count,
        })
    }

    /// What is kept of a run of which no event speaks yet.
    pub(crate) fn new(alloc: Global, plan: &Plan, due: &mut NumberSet) -> Result<Progress, NoMemory>
        requires due { due.old.size ≡ length plan.now.nodes }
        ensures size { IfOk result (λ p. p.size ≡ length plan.now.nodes) }
        ensures placed { IfOk result (λ p. IsPlaced plan.now.nodes plan.now.invocations p) }
        ensures closed { IfOk result (λ p. IsClosedBut plan.now.nodes plan.now.invocations p None) }
        ensures none { IfOk result (λ p. p.pending.items ≡ []) }
        ensures told { IfOk result (λ p. IsTold plan.now.nodes plan.now.invocations [] p) }
        ensures heard { IfOk result (λ p. FlagsAre p.confirmed.items (is_confirmed plan.now.nodes [])) }
        ensures due { due.new.size ≡ due.old.size }
        ensures covered { IfOk result (λ p. (gone : ℕ → Bool) → AreCoveredBy plan.now.nodes gone due.new.flags.items p) }
    {
        let mut progress = Progress::blank(alloc, plan)?;
        progress.invite(plan);
        progress.clear_pending(plan, due);
        Ok(progress)
    }

    /// Goes along the invocations, of which none is finished yet.
    fn invite(&mut self, plan: &Plan)
        requires size { self.old.size ≡ length plan.now.nodes }
        requires placed { IsPlaced plan.now.nodes plan.now.invocations self.old }
        requires over { FlagsAre self.old.over.items (λ _. false) }
        requires finished { FlagsAre self.old.finished.items (λ _. false) }
        requires confirmed { FlagsAre self.old.confirmed.items (is_confirmed plan.now.nodes []) }
        requires wanted { FlagsAre self.old.wanted.items (λ _. false) }
        ensures size { self.new.size ≡ self.old.size }
        ensures confirmed { self.new.confirmed ≡ self.old.confirmed }
        ensures placed { IsPlaced plan.now.nodes plan.now.invocations self.new }
        ensures closed { IsClosedBut plan.now.nodes plan.now.invocations self.new None }
        ensures raised { IsRaised self.old.wanted.items self.new.wanted.items self.old.pending.items self.new.pending.items }
        ensures told { IsTold plan.now.nodes plan.now.invocations [] self.new }
    {
        let finished = self.finished.as_slice();
        let wanted = self.wanted.as_mut_slice();
        let place = lead(
            plan.invocations.as_slice(),
            self.invocations,
            finished,
            wanted,
            &mut self.pending,
        );
        self.invocations = place;
    }
}
