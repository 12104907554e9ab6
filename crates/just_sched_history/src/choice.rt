//! Which node a book takes next, by the flags of the nodes.

ghost use Rattle.std.specs.Prelude.{◌≡◌, ◌<◌, ◌||◌, ℕ, true, false, length, IfSome, IfNone, is_some};
ghost use Rattle.just_sched_history.specs.Classes.{AreClasses, AreOpen};
ghost use Rattle.just_sched_history.specs.Nodes.{prompt_at};
ghost use Rattle.just_sched_history.specs.Rows.{IsTable};
ghost use Rattle.just_sched_history.specs.Running.{EachNoIsDone};
ghost use Rattle.just_sched_history.specs.Tables.{flag, FlagsAre, FlagsMean};
ghost use Rattle.just_sched_history.specs.Turns.{Stands, IsTurn};
ghost use Rattle.just_sched_history.specs.State.{has_taken, is_done, is_confirmed, IsFinished, IsWanted, IsToAsk, IsReady, IsDueNext};

use super::classes::is_class_open;
use super::flags::all_flagged;
use super::row::Row;
use super::turn::{Stand, Turn};
use super::{Event, Plan};
use crate::NumberSet;

/// Whether the node took a job or is done.
fn is_taken(history: &[Event], rows: &[Row], at: usize) -> bool
    requires within { at < length rows.now }
    requires table { ∥ IsTable history.now rows.now ∥₁ }
    ensures { result ≡ (has_taken history.now at || is_done history.now at) }
{
    let _events = history.len();
    let row = rows[at];
    row.taken || row.done
}

/// The first node, from a place on, that took no job and isn't done; as many as there are where there is none.
pub(crate) fn first_left(history: &[Event], rows: &[Row], from: usize) -> usize
    requires table { ∥ IsTable history.now rows.now ∥₁ }
    requires before { (m : ℕ) → m < from → (has_taken history.now m || is_done history.now m) ≡ true }
    ensures { (m : ℕ) → m < result → (has_taken history.now m || is_done history.now m) ≡ true }
{
    for at in from..rows.len() {
        if !is_taken(history, rows, at) {
            return at;
        }
    }
    rows.len()
}

/// Whether the node is to be asked, by the table and the flags of the wanted and the confirmed nodes.
pub(crate) fn is_to_ask(
    plan: &Plan,
    history: &[Event],
    at: usize,
    wanted: &[bool],
    confirmed: &[bool],
    rows: &[Row],
) -> bool
    requires within { at < length plan.now.nodes }
    requires wanted_sized { length wanted.now ≡ length plan.now.nodes }
    requires confirmed_sized { length confirmed.now ≡ length plan.now.nodes }
    requires rows_sized { length rows.now ≡ length plan.now.nodes }
    requires wanted { FlagsMean wanted.now (IsWanted plan.now.nodes plan.now.invocations history.now) }
    requires confirmed { FlagsAre confirmed.now (is_confirmed plan.now.nodes history.now) }
    requires table { ∥ IsTable history.now rows.now ∥₁ }
    requires each_no { EachNoIsDone history.now }
    ensures is { result ≡ true → IsToAsk plan.now.nodes plan.now.invocations history.now at }
    ensures not_so { result ≡ false → IsToAsk plan.now.nodes plan.now.invocations history.now at → ⊥ }
{
    let _events = history.len();
    let _nodes = plan.nodes.len();
    if !wanted[at] {
        return false;
    }
    if confirmed[at] {
        return false;
    }
    !rows[at].done
}

/// Whether the node is ready, by the table and the flags of the wanted, the confirmed and the finished nodes.
pub(crate) fn is_ready(
    plan: &Plan,
    history: &[Event],
    at: usize,
    wanted: &[bool],
    confirmed: &[bool],
    rows: &[Row],
    finished: &[bool],
) -> bool
    requires within { at < length plan.now.nodes }
    requires wanted_sized { length wanted.now ≡ length plan.now.nodes }
    requires confirmed_sized { length confirmed.now ≡ length plan.now.nodes }
    requires rows_sized { length rows.now ≡ length plan.now.nodes }
    requires finished_sized { length finished.now ≡ length plan.now.nodes }
    requires wanted { FlagsMean wanted.now (IsWanted plan.now.nodes plan.now.invocations history.now) }
    requires confirmed { FlagsAre confirmed.now (is_confirmed plan.now.nodes history.now) }
    requires table { ∥ IsTable history.now rows.now ∥₁ }
    requires finished { FlagsMean finished.now (IsFinished plan.now.nodes history.now) }
    ensures is { result ≡ true → IsReady plan.now.nodes plan.now.invocations history.now at }
    ensures not_so { result ≡ false → IsReady plan.now.nodes plan.now.invocations history.now at → ⊥ }
{
    let _events = history.len();
    if !wanted[at] || is_taken(history, rows, at) {
        return false;
    }
    if !confirmed[at] {
        return false;
    }
    let node = &plan.nodes.as_slice()[at];
    all_flagged(node.node.priors.as_slice(), finished)
}

/// How a node stands for the next move, by the table, the flags of the wanted, the confirmed and the finished nodes, and those of the
/// classes with an open body.
fn stand_of(
    plan: &Plan,
    history: &[Event],
    at: usize,
    wanted: &[bool],
    confirmed: &[bool],
    rows: &[Row],
    finished: &[bool],
    classes: &[usize],
    opened: &[bool],
) -> Stand
    requires within { at < length plan.now.nodes }
    requires wanted_sized { length wanted.now ≡ length plan.now.nodes }
    requires confirmed_sized { length confirmed.now ≡ length plan.now.nodes }
    requires rows_sized { length rows.now ≡ length plan.now.nodes }
    requires finished_sized { length finished.now ≡ length plan.now.nodes }
    requires classes_sized { length classes.now ≡ length plan.now.nodes }
    requires opened_sized { length opened.now ≡ length plan.now.nodes }
    requires wanted { FlagsMean wanted.now (IsWanted plan.now.nodes plan.now.invocations history.now) }
    requires confirmed { FlagsAre confirmed.now (is_confirmed plan.now.nodes history.now) }
    requires table { ∥ IsTable history.now rows.now ∥₁ }
    requires finished { FlagsMean finished.now (IsFinished plan.now.nodes history.now) }
    requires each_no { EachNoIsDone history.now }
    requires classes { ∥ AreClasses plan.now.nodes classes.now ∥₁ }
    requires opened { ∥ AreOpen plan.now.nodes history.now classes.now opened.now ∥₁ }
    ensures { Stands plan.now.nodes plan.now.invocations history.now at result }
{
    if is_to_ask(plan, history, at, wanted, confirmed, rows) {
        return Stand::ToAsk;
    }
    if !is_ready(plan, history, at, wanted, confirmed, rows, finished) {
        return Stand::Idle;
    }
    if is_class_open(plan, history, at, classes, opened) {
        return Stand::Waits;
    }
    Stand::Free
}

/// The next move, by the table, the flags of the wanted, the confirmed and the finished nodes, and those of the classes with an open
/// body. Its node is looked for in the set of those that may be due, from a node on before which each took a job or is done; who isn't due
/// is taken out.
pub(crate) fn turn_by(
    plan: &Plan,
    history: &[Event],
    left: usize,
    due: &mut NumberSet,
    wanted: &[bool],
    confirmed: &[bool],
    rows: &[Row],
    finished: &[bool],
    classes: &[usize],
    opened: &[bool],
) -> Turn
    requires left { (m : ℕ) → m < left → (has_taken history.now m || is_done history.now m) ≡ true }
    requires due_sized { due.old.size ≡ length plan.now.nodes }
    requires due { (m : ℕ) → flag due.old.flags.items m ≡ false → IsDueNext plan.now.nodes plan.now.invocations history.now m → ⊥ }
    requires wanted_sized { length wanted.now ≡ length plan.now.nodes }
    requires confirmed_sized { length confirmed.now ≡ length plan.now.nodes }
    requires rows_sized { length rows.now ≡ length plan.now.nodes }
    requires finished_sized { length finished.now ≡ length plan.now.nodes }
    requires classes_sized { length classes.now ≡ length plan.now.nodes }
    requires opened_sized { length opened.now ≡ length plan.now.nodes }
    requires wanted { FlagsMean wanted.now (IsWanted plan.now.nodes plan.now.invocations history.now) }
    requires confirmed { FlagsAre confirmed.now (is_confirmed plan.now.nodes history.now) }
    requires table { ∥ IsTable history.now rows.now ∥₁ }
    requires finished { FlagsMean finished.now (IsFinished plan.now.nodes history.now) }
    requires each_no { EachNoIsDone history.now }
    requires took { (n : ℕ) → has_taken history.now n ≡ true → is_confirmed plan.now.nodes history.now n ≡ true }
    requires classes { ∥ AreClasses plan.now.nodes classes.now ∥₁ }
    requires opened { ∥ AreOpen plan.now.nodes history.now classes.now opened.now ∥₁ }
    ensures due_sized { due.new.size ≡ due.old.size }
    ensures due { (m : ℕ) → flag due.new.flags.items m ≡ false → IsDueNext plan.now.nodes plan.now.invocations history.now m → ⊥ }
    ensures turn { IsTurn plan.now.nodes plan.now.invocations history.now result }
{
    let mut waits = false;
    let mut at = left;
    while let Some(next) = due.first_from(at) {
        match stand_of(
            plan, history, next, wanted, confirmed, rows, finished, classes, opened,
        ) {
            Stand::ToAsk => return Turn::Ask(next as u32),
            Stand::Free => return Turn::Take(next as u32),
            Stand::Waits => waits = true,
            Stand::Idle => due.remove(next),
        }
        at = next + 1;
    }
    if waits { Turn::Wait } else { Turn::Nothing }
}

/// The node of least number that is to be asked, among those that have a prompt, from a node on before which each took a job or is done.
pub(crate) fn first_asked_by(
    plan: &Plan,
    history: &[Event],
    left: usize,
    prompted: &NumberSet,
    wanted: &[bool],
    confirmed: &[bool],
    rows: &[Row],
) -> Option<u32>
    requires left { (m : ℕ) → m < left → (has_taken history.now m || is_done history.now m) ≡ true }
    requires prompted_sized { prompted.now.size ≡ length plan.now.nodes }
    requires prompted { (m : ℕ) → m < length plan.now.nodes → is_some (prompt_at plan.now.nodes m) ≡ true → flag prompted.now.flags.items m ≡ true }
    requires wanted_sized { length wanted.now ≡ length plan.now.nodes }
    requires confirmed_sized { length confirmed.now ≡ length plan.now.nodes }
    requires rows_sized { length rows.now ≡ length plan.now.nodes }
    requires wanted { FlagsMean wanted.now (IsWanted plan.now.nodes plan.now.invocations history.now) }
    requires confirmed { FlagsAre confirmed.now (is_confirmed plan.now.nodes history.now) }
    requires table { ∥ IsTable history.now rows.now ∥₁ }
    requires each_no { EachNoIsDone history.now }
    requires took { (n : ℕ) → has_taken history.now n ≡ true → is_confirmed plan.now.nodes history.now n ≡ true }
    ensures to_ask { IfSome result (λ n. (n < length plan.now.nodes) × IsToAsk plan.now.nodes plan.now.invocations history.now n) }
    ensures least { IfSome result (λ n. (m : ℕ) → m < n → IsToAsk plan.now.nodes plan.now.invocations history.now m → ⊥) }
    ensures none { IfNone result ((n : ℕ) → n < length plan.now.nodes → IsToAsk plan.now.nodes plan.now.invocations history.now n → ⊥) }
{
    let mut at = left;
    while let Some(next) = prompted.first_from(at) {
        if is_to_ask(plan, history, next, wanted, confirmed, rows) {
            return Some(next as u32);
        }
        at = next + 1;
    }
    None
}
