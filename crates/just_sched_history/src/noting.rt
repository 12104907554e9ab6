//! What a book notes in its tables, and what it reads there. Only the making of the tables takes memory.

ghost use Rattle.std.specs.Prelude.{◌≡◌, ◌&&◌, not, ◌+◌, ◌<◌, ◌≤◌, ◌++◌, ◌∷◌, [], ℕ, true, false, length, vec_len, vec_capacity, slice_index_or, IfOk, IfSome, IfNone, is_some, Some, MatchOption};
ghost use Rattle.just_sched_history.specs.Cached.{is_looked_at, seen_at, look_in, sums_in, is_full, full_in, saw_full};
ghost use Rattle.just_sched_history.specs.Classes.{KeepsClasses};
ghost use Rattle.just_sched_history.specs.Rows.{IsNoted, IsTable};
ghost use Rattle.just_sched_history.specs.Turns.{IsTurn};
ghost use Rattle.just_sched_history.specs.Running.{EachNoIsDone};
ghost use Rattle.just_sched_history.specs.State.{is_open as opened, has_taken, is_confirmed, caught_signal, IsToAsk};
ghost use Rattle.just_sched_history.specs.NodeStates.{IsState};
ghost use Rattle.just_sched_history.specs.Legal.{Run};
ghost use Rattle.just_sched_history.specs.Moves.{answer_events};
ghost use Rattle.just_sched_history.specs.Verdict.{IsVerdict};

use super::choice::{first_asked_by, first_left, is_ready, is_to_ask, turn_by};
use super::classes::{class_numbers, mark_class};
use super::flags::{confirmed_by, over_by};
use super::making::prompted_nodes;
use super::progress::Progress;
use super::row::{BLANK, Row, mark};
use super::tables::Tables;
use super::turn::Turn;
use super::verdict::verdict_by;
use super::{Event, NodeState, Outcome, Plan, Reason, Verdict};
use crate::NumberSet;
use just_host_record::{Look, Signal};
use just_path_text::NoMemory;
use std::alloc::Global;

/// Whether the body of the node with this row is open.
fn is_open(row: Row) -> bool
    ensures { result ≡ (row.taken && not row.given) }
{
    row.taken && !row.given
}

/// The sums of an event that is a look; none of another.
fn sums_in(event: &Event) -> &[[u8; 32]]
    ensures { result.now ≡ sums_in (look_in event.now) }
{
    match event {
        Event::Looked(_, sums, _) => sums.as_slice(),
        _ => &[],
    }
}

/// Whether the entry wasn't empty and each output was there.
fn is_full(seen: &Look) -> bool
    ensures { result ≡ is_full seen.now }
{
    match seen {
        Look::Full => true,
        Look::Empty | Look::OutputMissing(_) => false,
    }
}

/// Whether an event is a look that lets the node's body be skipped.
fn shows_full(plan: &Plan, node: u32, event: &Event) -> bool
    ensures { result ≡ full_in plan.now.nodes node (look_in event.now) }
{
    let _nodes = plan.nodes.len();
    match event {
        Event::Looked(_, _, seen) => is_full(seen),
        _ => false,
    }
}

impl Tables {
    /// The tables of a plan of which no event speaks yet.
    pub fn new(alloc: Global, plan: &Plan) -> Result<Tables, NoMemory>
        ensures size { IfOk result (λ t. t.size ≡ length plan.now.nodes) }
        ensures noted { IfOk result (λ t. ∥ IsNoted plan.now.nodes plan.now.invocations [] t ∥₁) }
    {
        let count = plan.nodes.len();
        let rows = vec![in alloc; BLANK; count]?;
        let mut due = NumberSet::new(alloc, count)?;
        let progress = Progress::new(alloc, plan, &mut due)?;
        let prompted = prompted_nodes(alloc, plan)?;
        let classes = class_numbers(alloc, plan)?;
        let opened = vec![in alloc; false; count]?;
        Ok(Tables {
            rows,
            progress,
            due,
            prompted,
            classes,
            opened,
            left: 0,
            size: count,
        })
    }

    /// The row of a node.
    pub fn row(&self, node: u32) -> Row
        requires { node < self.now.size }
        ensures is { result ≡ slice_index_or self.now.rows.items node result }
        ensures within { node < length self.now.rows.items }
    {
        self.rows.as_slice()[node as usize]
    }

    /// The next move. It takes no memory.
    pub fn turn(&mut self, plan: &Plan, history: &[Event]) -> Turn
        requires size { self.old.size ≡ length plan.now.nodes }
        requires noted { ∥ IsNoted plan.now.nodes plan.now.invocations history.now self.old ∥₁ }
        requires each_no { EachNoIsDone history.now }
        requires took { (n : ℕ) → has_taken history.now n ≡ true → is_confirmed plan.now.nodes history.now n ≡ true }
        ensures size { self.new.size ≡ self.old.size }
        ensures noted { ∥ IsNoted plan.now.nodes plan.now.invocations history.now self.new ∥₁ }
        ensures turn { IsTurn plan.now.nodes plan.now.invocations history.now result }
    {
        let left = first_left(history, self.rows.as_slice(), self.left);
        self.left = left;
        let progress = &self.progress;
        turn_by(
            plan,
            history,
            left,
            &mut self.due,
            progress.wanted.as_slice(),
            progress.confirmed.as_slice(),
            self.rows.as_slice(),
            progress.finished.as_slice(),
            self.classes.as_slice(),
            self.opened.as_slice(),
        )
    }

    /// The node of least number that is to be asked. It takes no memory.
    pub fn first_to_ask(&self, plan: &Plan, history: &[Event]) -> Option<u32>
        requires size { self.now.size ≡ length plan.now.nodes }
        requires noted { ∥ IsNoted plan.now.nodes plan.now.invocations history.now self.now ∥₁ }
        requires each_no { EachNoIsDone history.now }
        requires took { (n : ℕ) → has_taken history.now n ≡ true → is_confirmed plan.now.nodes history.now n ≡ true }
        ensures to_ask { IfSome result (λ n. (n < length plan.now.nodes) × IsToAsk plan.now.nodes plan.now.invocations history.now n) }
        ensures least { IfSome result (λ n. (m : ℕ) → m < n → IsToAsk plan.now.nodes plan.now.invocations history.now m → ⊥) }
        ensures none { IfNone result ((n : ℕ) → n < length plan.now.nodes → IsToAsk plan.now.nodes plan.now.invocations history.now n → ⊥) }
    {
        let progress = &self.progress;
        first_asked_by(
            plan,
            history,
            self.left,
            &self.prompted,
            progress.wanted.as_slice(),
            progress.confirmed.as_slice(),
            self.rows.as_slice(),
        )
    }

    /// The state of a node. It takes no memory.
    pub fn state(&self, plan: &Plan, history: &[Event], node: u32) -> NodeState
        requires within { node < length plan.now.nodes }
        requires size { self.now.size ≡ length plan.now.nodes }
        requires noted { ∥ IsNoted plan.now.nodes plan.now.invocations history.now self.now ∥₁ }
        requires each_no { EachNoIsDone history.now }
        ensures { IsState plan.now.nodes plan.now.invocations history.now node result }
    {
        let at = node as usize;
        let rows = self.rows.as_slice();
        let finished = self.progress.finished.as_slice();
        let confirmed = self.progress.confirmed.as_slice();
        let wanted = self.progress.wanted.as_slice();
        let row = rows[at];
        if row.reason.is_some() {
            NodeState::Failed
        } else if finished[at] {
            NodeState::Finished
        } else if row.well {
            NodeState::Over
        } else if is_open(row) {
            NodeState::Open
        } else if is_to_ask(plan, history, at, wanted, confirmed, rows) {
            NodeState::ToAsk
        } else if is_ready(plan, history, at, wanted, confirmed, rows, finished) {
            NodeState::Ready
        } else {
            NodeState::Waiting
        }
    }

    /// The sums of a node's look. It takes no memory.
    pub fn seen_sums<'a>(&self, history: &'a [Event], node: u32) -> &'a [[u8; 32]]
        requires within { node < self.now.size }
        requires table { ∥ IsTable history.now self.now.rows.items ∥₁ }
        requires looked { is_looked_at history.now node ≡ true }
        ensures { MatchOption (seen_at history.now node) ⊥ (λ seen. result.now ≡ seen.0) }
    {
        let Some(place) = self.row(node).look else {
            unreachable!()
        };
        match history.get(place) {
            Some(event) => sums_in(event),
            None => unreachable!(),
        }
    }

    /// Whether the look of a node was full. It takes no memory.
    pub fn saw_full(&self, plan: &Plan, history: &[Event], node: u32) -> bool
        requires within { node < self.now.size }
        requires table { ∥ IsTable history.now self.now.rows.items ∥₁ }
        ensures { result ≡ saw_full plan.now.nodes history.now node }
    {
        let Some(place) = self.row(node).look else {
            return false;
        };
        match history.get(place) {
            Some(event) => shows_full(plan, node, event),
            None => unreachable!(),
        }
    }

    /// How the run of a closed history went. It takes no memory.
    pub fn verdict(&self, plan: &Plan, history: &[Event], caught: Option<Signal>) -> Verdict
        requires size { self.now.size ≡ length plan.now.nodes }
        requires noted { ∥ IsNoted plan.now.nodes plan.now.invocations history.now self.now ∥₁ }
        requires closed { (n : ℕ) → n < length plan.now.nodes → opened history.now n ≡ false }
        requires caught { caught ≡ caught_signal history.now }
        ensures { (s : Run) → s.nodes ≡ plan.now.nodes → IsVerdict s history.now result }
    {
        verdict_by(
            plan,
            history,
            self.progress.finished.as_slice(),
            self.rows.as_slice(),
            caught,
        )
    }
}

/// Adds an event to a history with room for it, and notes it in the tables.
pub fn note(plan: &Plan, history: &mut Vec<Event>, tables: &mut Tables, event: Event)
    requires room { vec_len history.old < vec_capacity history.old }
    requires size { tables.old.size ≡ length plan.now.nodes }
    requires noted { ∥ IsNoted plan.now.nodes plan.now.invocations history.old.items tables.old ∥₁ }
    requires classes { KeepsClasses plan.now.nodes history.old.items event }
    ensures items { history.new.items ≡ history.old.items ++ event ∷ [] }
    ensures capacity { vec_capacity history.new ≡ vec_capacity history.old }
    ensures size { tables.new.size ≡ tables.old.size }
    ensures noted { ∥ IsNoted plan.now.nodes plan.now.invocations history.new.items tables.new ∥₁ }
{
    mark(&mut tables.rows, history.len(), &event);
    mark_class(plan, tables.classes.as_slice(), &mut tables.opened, &event);
    let over = over_by(&event);
    let said = confirmed_by(&event);
    history.push_reserved(event);
    tables.progress.go_on(plan, over, &mut tables.due);
    tables.progress.hear(plan, said, &mut tables.due);
}

/// Adds what a node's answer comes to, to a history with room for it, and notes it in the tables: that it was asked, and
/// where the answer is a no, that it is done.
pub fn note_answer(
    plan: &Plan,
    history: &mut Vec<Event>,
    tables: &mut Tables,
    node: u32,
    said: bool,
)
    requires room { vec_len history.old + length (answer_events node said) ≤ vec_capacity history.old }
    requires size { tables.old.size ≡ length plan.now.nodes }
    requires noted { ∥ IsNoted plan.now.nodes plan.now.invocations history.old.items tables.old ∥₁ }
    ensures items { history.new.items ≡ history.old.items ++ answer_events node said }
    ensures capacity { vec_capacity history.new ≡ vec_capacity history.old }
    ensures size { tables.new.size ≡ tables.old.size }
    ensures noted { ∥ IsNoted plan.now.nodes plan.now.invocations history.new.items tables.new ∥₁ }
{
    note(plan, history, tables, Event::Asked(node, said));
    if said {
        return;
    }
    let refused = Outcome::Failed(Reason::NotConfirmed);
    note(plan, history, tables, Event::Done(node, refused));
}
