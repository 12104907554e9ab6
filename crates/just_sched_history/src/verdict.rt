//! How a run went, by one pass over the nodes. Nothing here takes memory.

ghost use Rattle.std.specs.Prelude.{◌≡◌, ◌<◌, ℕ, true, false, length, IfSome, IfNone, Option, Some, None};
ghost use Rattle.just_sched_history.specs.Rows.{IsTable};
ghost use Rattle.just_sched_history.specs.Tables.{FlagsMean};
ghost use Rattle.just_sched_history.specs.State.{is_open, caught_signal, reason_of as failure_of, IsFinished};
ghost use Rattle.just_sched_history.specs.Legal.{Run, IsComplete};
ghost use Rattle.just_sched_history.specs.Verdict.{IsVerdict, decides as decisive};

use super::flags::all_up;
use super::row::Row;
use super::{Event, Plan, Reason, Verdict};
use just_host_record::Signal;

/// The reason, if it is one that decides how the run went.
fn decisive_reason(reason: Option<Reason>) -> Option<Reason>
    ensures found { IfSome result (λ r. (reason ≡ Some r) × (decisive (Some r) ≡ true)) }
    ensures none { IfNone result (decisive reason ≡ false) }
{
    match reason {
        None | Some(Reason::Interrupted) => None,
        Some(reason) => Some(reason),
    }
}

/// The first node whose failure decides, and its reason.
fn first_decisive(plan: &Plan, history: &[Event], rows: &[Row]) -> Option<(u32, Reason)>
    requires sized { length rows.now ≡ length plan.now.nodes }
    requires table { ∥ IsTable history.now rows.now ∥₁ }
    ensures found { IfSome result (λ f. (f.0 < length plan.now.nodes) × (failure_of history.now f.0 ≡ Some f.1) × (decisive (Some f.1) ≡ true)) }
    ensures least { IfSome result (λ f. (m : ℕ) → m < f.0 → decisive (failure_of history.now m) ≡ false) }
    ensures none { IfNone result ((m : ℕ) → m < length plan.now.nodes → decisive (failure_of history.now m) ≡ false) }
{
    let _events = history.len();
    for at in 0..plan.nodes.len() {
        match decisive_reason(rows[at].reason) {
            Some(reason) => return Some((at as u32, reason)),
            None => {}
        }
    }
    None
}

/// Whether each node of a closed history is finished.
fn is_complete(plan: &Plan, history: &[Event], finished: &[bool]) -> bool
    requires sized { length finished.now ≡ length plan.now.nodes }
    requires finished { FlagsMean finished.now (IsFinished plan.now.nodes history.now) }
    requires closed { (n : ℕ) → n < length plan.now.nodes → is_open history.now n ≡ false }
    ensures is { result ≡ true → (s : Run) → s.nodes ≡ plan.now.nodes → IsComplete s history.now }
    ensures not_so { result ≡ false → (s : Run) → s.nodes ≡ plan.now.nodes → IsComplete s history.now → ⊥ }
{
    let _events = history.len();
    let _nodes = plan.nodes.len();
    all_up(finished)
}

/// How the run of a closed history went, by the flags of the finished nodes, the table and the signal.
pub(crate) fn verdict_by(
    plan: &Plan,
    history: &[Event],
    finished: &[bool],
    rows: &[Row],
    caught: Option<Signal>,
) -> Verdict
    requires finished_sized { length finished.now ≡ length plan.now.nodes }
    requires rows_sized { length rows.now ≡ length plan.now.nodes }
    requires finished { FlagsMean finished.now (IsFinished plan.now.nodes history.now) }
    requires table { ∥ IsTable history.now rows.now ∥₁ }
    requires closed { (n : ℕ) → n < length plan.now.nodes → is_open history.now n ≡ false }
    requires caught { caught ≡ caught_signal history.now }
    ensures { (s : Run) → s.nodes ≡ plan.now.nodes → IsVerdict s history.now result }
{
    match first_decisive(plan, history, rows) {
        Some((_, Reason::NoMemory)) => Verdict::NoMemory,
        Some((node, _)) => Verdict::Failed(node),
        None => match caught {
            Some(signal) => {
                if is_complete(plan, history, finished) {
                    Verdict::Well
                } else {
                    Verdict::Interrupted(signal)
                }
            }
            None => Verdict::Well,
        },
    }
}
