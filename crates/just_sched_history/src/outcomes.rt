//! How a node and its commands ended, read by going over the history. Nothing here takes memory.

ghost use Rattle.std.specs.Prelude.{◌≡◌, ◌^◌, Option, None, length};
ghost use Rattle.std.specs.List.{last_or};
ghost use Rattle.just_sched_history.specs.State.{reason_of as failure_of, statuses};

use super::{Event, Outcome, Reason};
use just_host_record::Status;

/// Why the node failed, if it did.
pub fn reason_of(history: &[Event], node: u32) -> Option<Reason>
    ensures { result ≡ failure_of history.now node }
{
    for event in history {
        if let Event::Done(n, Outcome::Failed(reason)) = event {
            if *n == node {
                return Some(*reason);
            }
        }
    }
    None
}

/// How many commands of the node have ended.
pub fn status_count(history: &[Event], node: u32) -> usize
    ensures { result ≡ length (statuses history.now node) }
{
    let mut count: usize = 0;
    for event in history {
        if let Event::Ended(n, _, _, _) = event {
            if *n == node {
                count += 1;
            }
        }
    }
    count
}

/// How the command of the node that ended last has ended.
pub fn last_status(history: &[Event], node: u32) -> Option<Status>
    ensures { result ≡ last_or None (statuses history.now node) }
{
    let mut last: Option<Status> = None;
    for event in history {
        if let Event::Ended(n, _, _, status) = event {
            if *n == node {
                last = Some(*status);
            }
        }
    }
    last
}
