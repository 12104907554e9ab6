//! The moves of a body that its cache makes: its entry is looked at, the body is skipped or begun, and the entry is saved.

ghost use Rattle.std.specs.Prelude.{◌≡◌, ◌||◌, not, true, false, ℕ, List, MatchBool};
ghost use Rattle.just_exec_work.specs.declared.work.Step.{Step};
ghost use Rattle.just_sched_history.specs.Cached.{is_cached as cached_of, is_looked_at as looked_of, is_saved as saved_of, saw_full as full_of, owes_nothing};
ghost use Rattle.just_sched_history.specs.Legal.{in_body};
ghost use Rattle.just_sched_history.specs.Moves.{GrowsBy};
ghost use Rattle.just_sched_history.specs.State.{is_open, is_running, is_begun, is_over as over_of, next_step as step_of};

use super::cached::{cache, look, save};
use super::{Book, Naming};
use just_host_record::Host;
use just_sched_history::{Event, Outcome, note};

impl<H: Host + Drop, P: Naming> Book<H, P> {
    /// Whether the node has a cache.
    fn is_cached(&self, node: u32) -> bool
        requires { is_open self.now.history.items node ≡ true }
        ensures { result ≡ cached_of P.start.plan.nodes node }
    {
        let nodes = self.plan.nodes.as_slice();
        nodes[node as usize].cache.is_some()
    }

    /// Whether the entry of the node's cache was looked at.
    fn is_looked_at(&self, node: u32) -> bool
        requires { is_open self.now.history.items node ≡ true }
        ensures { result ≡ looked_of self.now.history.items node }
    {
        self.tables.row(node).look.is_some()
    }

    /// Whether that look was full.
    fn saw_full(&self, node: u32) -> bool
        requires { is_open self.now.history.items node ≡ true }
        ensures { result ≡ full_of P.start.plan.nodes self.now.history.items node }
    {
        self.tables
            .saw_full(&self.plan, self.history.as_slice(), node)
    }

    /// Whether the entry of the node's cache was saved.
    fn is_saved(&self, node: u32) -> bool
        requires { is_open self.now.history.items node ≡ true }
        ensures { result ≡ saved_of self.now.history.items node }
    {
        self.tables.row(node).saved
    }

    /// Looks at the entry of the node's cache; false where that was refused, by which the body is done.
    fn look(&mut self, node: u32) -> bool
        requires inside { in_body self.old.history.items node ≡ true }
        requires cached { cached_of P.start.plan.nodes node ≡ true }
        requires fresh { looked_of self.old.history.items node ≡ false }
        requires unbegun { is_begun self.old.history.items node ≡ false }
        requires still { is_running self.old.history.items node ≡ false }
        ensures plan { self.new.plan ≡ self.old.plan }
        ensures jobs { self.new.jobs ≡ self.old.jobs }
        ensures grown { GrowsBy self.old.history.items self.new.history.items node }
        ensures opened { is_open self.new.history.items node ≡ true }
        ensures did { MatchBool result
            ((in_body self.new.history.items node ≡ true) × (is_begun self.new.history.items node ≡ false) × (is_running self.new.history.items node ≡ false) × (looked_of self.new.history.items node ≡ true))
            (over_of self.new.history.items node ≡ true) }
    {
        let plan = &self.plan;
        match look(self.alloc, &mut self.host, cache(plan, node)) {
            Ok((sums, seen)) => {
                note(
                    &self.plan,
                    &mut self.history,
                    &mut self.tables,
                    Event::Looked(node, sums, seen),
                );
                true
            }
            Err(reason) => {
                note(
                    &self.plan,
                    &mut self.history,
                    &mut self.tables,
                    Event::Done(node, Outcome::Failed(reason)),
                );
                false
            }
        }
    }

    /// The same where the node has a cache whose entry wasn't looked at.
    fn look_where_cached(&mut self, node: u32) -> bool
        requires inside { in_body self.old.history.items node ≡ true }
        requires unbegun { is_begun self.old.history.items node ≡ false }
        requires still { is_running self.old.history.items node ≡ false }
        ensures plan { self.new.plan ≡ self.old.plan }
        ensures jobs { self.new.jobs ≡ self.old.jobs }
        ensures grown { GrowsBy self.old.history.items self.new.history.items node }
        ensures opened { is_open self.new.history.items node ≡ true }
        ensures did { MatchBool result
            ((in_body self.new.history.items node ≡ true) × (is_begun self.new.history.items node ≡ false) × (is_running self.new.history.items node ≡ false) × ((not (cached_of P.start.plan.nodes node) || looked_of self.new.history.items node) ≡ true))
            (over_of self.new.history.items node ≡ true) }
    {
        if !self.is_cached(node) || self.is_looked_at(node) {
            return true;
        }
        self.look(node)
    }

    /// Skips the node's body.
    fn skip(&mut self, node: u32)
        requires inside { in_body self.old.history.items node ≡ true }
        requires full { full_of P.start.plan.nodes self.old.history.items node ≡ true }
        ensures plan { self.new.plan ≡ self.old.plan }
        ensures jobs { self.new.jobs ≡ self.old.jobs }
        ensures grown { GrowsBy self.old.history.items self.new.history.items node }
        ensures opened { is_open self.new.history.items node ≡ true }
        ensures over { over_of self.new.history.items node ≡ true }
    {
        note(
            &self.plan,
            &mut self.history,
            &mut self.tables,
            Event::Skipped(node),
        );
    }

    /// Begins a body that isn't begun, unless its cache lets it be skipped; false where it is over by that, or by a refusal.
    pub(crate) fn enter(&mut self, node: u32) -> bool
        requires inside { in_body self.old.history.items node ≡ true }
        requires unbegun { is_begun self.old.history.items node ≡ false }
        requires still { is_running self.old.history.items node ≡ false }
        ensures plan { self.new.plan ≡ self.old.plan }
        ensures jobs { self.new.jobs ≡ self.old.jobs }
        ensures grown { GrowsBy self.old.history.items self.new.history.items node }
        ensures opened { is_open self.new.history.items node ≡ true }
        ensures did { MatchBool result
            ((in_body self.new.history.items node ≡ true) × (is_begun self.new.history.items node ≡ true) × (is_running self.new.history.items node ≡ false))
            (over_of self.new.history.items node ≡ true) }
    {
        if !self.look_where_cached(node) {
            return false;
        }
        if self.saw_full(node) {
            self.skip(node);
            return false;
        }
        self.begin(node)
    }

    /// Saves the entry of the node's cache, behind its body's last command; false where that was refused, by which the body is done.
    fn save(&mut self, node: u32) -> bool
        requires inside { in_body self.old.history.items node ≡ true }
        requires begun { is_begun self.old.history.items node ≡ true }
        requires still { is_running self.old.history.items node ≡ false }
        requires well { step_of P.start.plan.nodes self.old.history.items node ≡ Step.Well }
        requires cached { cached_of P.start.plan.nodes node ≡ true }
        requires fresh { saved_of self.old.history.items node ≡ false }
        ensures plan { self.new.plan ≡ self.old.plan }
        ensures jobs { self.new.jobs ≡ self.old.jobs }
        ensures grown { GrowsBy self.old.history.items self.new.history.items node }
        ensures opened { is_open self.new.history.items node ≡ true }
        ensures did { MatchBool result
            ((in_body self.new.history.items node ≡ true) × (is_begun self.new.history.items node ≡ true) × (is_running self.new.history.items node ≡ false) × (step_of P.start.plan.nodes self.new.history.items node ≡ Step.Well) × (saved_of self.new.history.items node ≡ true))
            (over_of self.new.history.items node ≡ true) }
    {
        let plan = &self.plan;
        let sums = self.tables.seen_sums(self.history.as_slice(), node);
        match save(self.alloc, &mut self.host, cache(plan, node), sums) {
            Ok(()) => {
                note(
                    &self.plan,
                    &mut self.history,
                    &mut self.tables,
                    Event::Saved(node),
                );
                true
            }
            Err(reason) => {
                note(
                    &self.plan,
                    &mut self.history,
                    &mut self.tables,
                    Event::Done(node, Outcome::Failed(reason)),
                );
                false
            }
        }
    }

    /// The same where the node has a cache whose entry wasn't saved.
    fn save_where_cached(&mut self, node: u32) -> bool
        requires inside { in_body self.old.history.items node ≡ true }
        requires begun { is_begun self.old.history.items node ≡ true }
        requires still { is_running self.old.history.items node ≡ false }
        requires well { step_of P.start.plan.nodes self.old.history.items node ≡ Step.Well }
        ensures plan { self.new.plan ≡ self.old.plan }
        ensures jobs { self.new.jobs ≡ self.old.jobs }
        ensures grown { GrowsBy self.old.history.items self.new.history.items node }
        ensures opened { is_open self.new.history.items node ≡ true }
        ensures did { MatchBool result
            ((in_body self.new.history.items node ≡ true) × (is_begun self.new.history.items node ≡ true) × (is_running self.new.history.items node ≡ false) × (step_of P.start.plan.nodes self.new.history.items node ≡ Step.Well) × (owes_nothing P.start.plan.nodes self.new.history.items node ≡ true))
            (over_of self.new.history.items node ≡ true) }
    {
        if !self.is_cached(node) || self.is_saved(node) {
            return true;
        }
        self.save(node)
    }

    /// Ends a body behind its last command, where its cache has what it is owed; else the body is done by a refusal.
    pub(crate) fn end_well(&mut self, node: u32)
        requires inside { in_body self.old.history.items node ≡ true }
        requires begun { is_begun self.old.history.items node ≡ true }
        requires still { is_running self.old.history.items node ≡ false }
        requires well { step_of P.start.plan.nodes self.old.history.items node ≡ Step.Well }
        ensures plan { self.new.plan ≡ self.old.plan }
        ensures jobs { self.new.jobs ≡ self.old.jobs }
        ensures grown { GrowsBy self.old.history.items self.new.history.items node }
        ensures opened { is_open self.new.history.items node ≡ true }
        ensures over { over_of self.new.history.items node ≡ true }
    {
        if self.save_where_cached(node) {
            self.end(node, Outcome::Well);
        }
    }
}
