//! Whether a history is that of so many bodies, one behind the other.
ghost use Rattle.std.specs.Prelude.{◌≡◌, ◌++◌, true, pos, IfSome};
ghost use Rattle.just_exec_work.specs.Steps.{is_code};
ghost use Rattle.just_sched_history.specs.State.{takes, begins, concludes_well, gives};
ghost use Rattle.just_cli_vectors.specs.Vectors.{starts_as, ends_as, are_of_body, body_events, run_events};

use just_host_record::Status;
use just_sched_history::{Event, Outcome};

/// Whether the event is that this node's body took a job.
fn is_took(number: u32, event: &Event) -> bool
    ensures { result ≡ takes number event.now }
{
    match event {
        Event::Took(node) => *node == number,
        _ => false,
    }
}

/// Whether it is that the node's body was begun.
fn is_begun(number: u32, event: &Event) -> bool
    ensures { result ≡ begins number event.now }
{
    match event {
        Event::Begun(node) => *node == number,
        _ => false,
    }
}

/// Whether it is that the node's first command was started, as the child of the same number.
fn is_started(number: u32, event: &Event) -> bool
    ensures { result ≡ starts_as number event.now }
{
    match event {
        Event::Started(node, place, child) => *node == number && *place == 0 && *child == number,
        _ => false,
    }
}

/// Whether the status is that of a child that ended well.
fn is_code_zero(status: Status) -> bool
    ensures { result ≡ is_code (pos 0) status }
{
    match status {
        Status::Code(code) => code == 0,
        Status::Signal(_) | Status::Unknown => false,
    }
}

/// Whether it is that this child ended well.
fn is_ended(number: u32, event: &Event) -> bool
    ensures { result ≡ ends_as number event.now }
{
    match event {
        Event::Ended(node, place, child, status) => {
            *node == number && *place == 0 && *child == number && is_code_zero(*status)
        }
        _ => false,
    }
}

/// Whether it is that the node's body ended well.
fn is_done(number: u32, event: &Event) -> bool
    ensures { result ≡ concludes_well number event.now }
{
    match event {
        Event::Done(node, Outcome::Well) => *node == number,
        _ => false,
    }
}

/// Whether it is that the node's body gave its job back.
fn is_gave(number: u32, event: &Event) -> bool
    ensures { result ≡ gives number event.now }
{
    match event {
        Event::Gave(node) => *node == number,
        _ => false,
    }
}

/// Whether these are the events of the body of a node.
fn are_of_body(
    number: u32,
    took: &Event,
    begun: &Event,
    started: &Event,
    ended: &Event,
    done: &Event,
    gave: &Event,
) -> bool
    ensures { result ≡ are_of_body number
        took.now begun.now started.now ended.now done.now gave.now }
{
    is_took(number, took)
        && is_begun(number, begun)
        && is_started(number, started)
        && is_ended(number, ended)
        && is_done(number, done)
        && is_gave(number, gave)
}

/// The events behind those of the body of a node, where they begin with it.
fn behind_body(history: &[Event], number: u32) -> Option<&[Event]>
    ensures { IfSome result (λ rest. history.now ≡ body_events number ++ rest.now) }
{
    match history {
        [took, begun, started, ended, done, gave, rest @ ..] => {
            if are_of_body(number, took, begun, started, ended, done, gave) {
                Some(rest)
            } else {
                None
            }
        }
        _ => None,
    }
}

/// Whether a history is that of so many bodies, one behind the other: those of the nodes from 0 on, each with one child of the same number, which
/// ended well.
pub fn is_history(history: &[Event], count: u32) -> bool
    ensures { result ≡ true → history.now ≡ run_events count }
{
    let mut rest = history;
    'bodies: for number in 0..count {
        match behind_body(rest, number) {
            Some(others) => rest = others,
            None => return false,
        }
    }
    if rest.is_empty() {
        return true;
    }
    false
}
