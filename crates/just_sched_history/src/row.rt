//! What the events so far say of one node.

ghost use Rattle.std.specs.Prelude.{◌≡◌, ◌+◌, ◌<◌, ◌^◌, ◌&&◌, not, nat_lt, ◌++◌, ◌∷◌, [], ℕ, true, false, List, length, vec_len, slice_index_or};
ghost use Rattle.just_sched_history.specs.declared.event.Event.{Event};
ghost use Rattle.just_sched_history.specs.declared.row.Row.{Row};
ghost use Rattle.just_sched_history.specs.State.{is_of, node_of};
ghost use Rattle.just_sched_history.specs.Rows.{IsTable, IsTurned};

use super::{Event, Outcome, Reason};
use just_host_record::Status;

/// What the events so far say of one node.
#[derive(Clone, Copy)]
pub struct Row {
    pub taken: bool,
    pub given: bool,
    pub begun: bool,
    pub skipped: bool,
    pub done: bool,
    /// Whether it was skipped, or its body ended well.
    pub well: bool,
    /// How many of its commands were started.
    pub starts: usize,
    /// The place and the child of the command that it started last.
    pub started: Option<(u32, u32)>,
    /// How many of its commands have ended.
    pub ended: usize,
    /// How the command that ended last has ended.
    pub last: Option<Status>,
    /// Why it failed, if it did.
    pub reason: Option<Reason>,
    /// Where in the history its look is told.
    pub look: Option<usize>,
    pub saved: bool,
}

/// The row of a node of which no event speaks yet.
pub(crate) const BLANK: Row = Row {
    taken: false,
    given: false,
    begun: false,
    skipped: false,
    done: false,
    well: false,
    starts: 0,
    started: None,
    ended: 0,
    last: None,
    reason: None,
    look: None,
    saved: false,
};

/// The row of a node behind an event of it, which is told at that place.
pub(crate) fn turned(row: Row, node: u32, place: usize, event: &Event) -> Row
    requires own { is_of node event.now ≡ true }
    requires few { row.ended < 2 ^ 63 }
    requires few_starts { row.starts < 2 ^ 63 }
    ensures { IsTurned node place event.now row result }
{
    let mut row = row;
    match event {
        Event::Took(_) => row.taken = true,
        Event::Gave(_) => row.given = true,
        Event::Begun(_) => row.begun = true,
        Event::Skipped(_) => {
            row.skipped = true;
            row.well = true;
        }
        Event::Started(_, place, child) => {
            row.starts += 1;
            row.started = Some((*place, *child));
        }
        Event::Ended(_, _, _, status) => {
            row.ended += 1;
            row.last = Some(*status);
        }
        Event::Done(_, Outcome::Well) => {
            row.done = true;
            row.well = true;
        }
        Event::Done(_, Outcome::Failed(reason)) => {
            row.done = true;
            if row.reason.is_none() {
                row.reason = Some(*reason);
            }
        }
        Event::Looked(_, _, _) => {
            if row.look.is_none() {
                row.look = Some(place);
            }
        }
        Event::Saved(_) => row.saved = true,
        Event::Asked(_, _) | Event::Caught(_) => {}
    }
    row
}

/// Whether the node of this row runs a child.
pub fn is_running(row: Row) -> bool
    ensures { result ≡ (nat_lt row.ended row.starts && not row.done) }
{
    row.ended < row.starts && !row.done
}

/// The node that the event is one of.
pub(crate) fn node_of(event: &Event) -> Option<u32>
    ensures { result ≡ node_of event.now }
{
    match event {
        Event::Asked(node, _)
        | Event::Took(node)
        | Event::Looked(node, _, _)
        | Event::Skipped(node)
        | Event::Begun(node)
        | Event::Started(node, _, _)
        | Event::Ended(node, _, _, _)
        | Event::Saved(node)
        | Event::Done(node, _)
        | Event::Gave(node) => Some(*node),
        Event::Caught(_) => None,
    }
}

/// Notes an event, which is told at that place, in the row of its node.
pub(crate) fn mark(rows: &mut Vec<Row>, place: usize, event: &Event)
    requires few { (n : ℕ) → (d : Row) → n < length rows.old.items → (slice_index_or rows.old.items n d).ended < 2 ^ 63 }
    requires few_starts { (n : ℕ) → (d : Row) → n < length rows.old.items → (slice_index_or rows.old.items n d).starts < 2 ^ 63 }
    ensures size { vec_len rows.new ≡ vec_len rows.old }
    ensures table { (h : List Event) → length h ≡ place → IsTable h rows.old.items → IsTable (h ++ event.now ∷ []) rows.new.items }
{
    if let Some(node) = node_of(event) {
        let at = node as usize;
        if at < rows.len() {
            rows[at] = turned(rows[at], node, place, event);
        }
    }
}
