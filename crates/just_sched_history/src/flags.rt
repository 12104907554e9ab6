//! Flags of nodes, and the node that an event shows to be over well or confirmed. Nothing here takes memory.

ghost use Rattle.std.specs.Prelude.{◌≡◌, ◌||◌, ◌<◌, ℕ, true, false, length, Contains, slice_index};
ghost use Rattle.just_sched_history.specs.Tables.{flag, InRange};
ghost use Rattle.just_sched_history.specs.State.{names, answers, skips, concludes_well};

use super::{Event, Outcome};

/// The node that the event shows to be over well.
pub(crate) fn over_by(event: &Event) -> Option<u32>
    ensures { (n : ℕ) → names result n ≡ (skips n event.now || concludes_well n event.now) }
{
    match event {
        Event::Skipped(node) | Event::Done(node, Outcome::Well) => Some(*node),
        _ => None,
    }
}

/// The node whose prompt the event shows to be answered by a yes.
pub(crate) fn confirmed_by(event: &Event) -> Option<u32>
    ensures { (n : ℕ) → names result n ≡ answers true n event.now }
{
    match event {
        Event::Asked(node, true) => Some(*node),
        _ => None,
    }
}

/// Whether each node of the list is flagged.
pub(crate) fn all_flagged(nodes: &[u32], flags: &[bool]) -> bool
    requires { InRange nodes.now flags.now }
    ensures yes { result ≡ true → (q : ℕ) → Contains nodes.now q → flag flags.now q ≡ true }
    ensures not_all { result ≡ false → (j : ℕ) × (j < length nodes.now) × (flag flags.now (slice_index nodes.now j) ≡ false) }
{
    for node in nodes {
        if !flags[*node as usize] {
            return false;
        }
    }
    true
}

/// Whether each flag is up.
pub(crate) fn all_up(flags: &[bool]) -> bool
    ensures yes { result ≡ true → (k : ℕ) → k < length flags.now → flag flags.now k ≡ true }
    ensures not_all { result ≡ false → (k : ℕ) × (k < length flags.now) × (flag flags.now k ≡ false) }
{
    for flag in flags {
        if !*flag {
            return false;
        }
    }
    true
}
