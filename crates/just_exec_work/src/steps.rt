//! The commands of a body, and what the body does after the statuses of those that ended. Nothing here takes memory.

ghost use Rattle.std.specs.Prelude.{◌≡◌, ◌-◌, length, slice_get};
ghost use Rattle.std.specs.Option.{option_copied};
ghost use Rattle.just_exec_work.specs.Steps.{commands_of, step_behind, start_or_well, is_code, after, EachWentOn};

use super::{Command, Step, Work};
use just_host_record::Status;

/// The command of a body at a place.
pub fn command(work: &Work, at: usize) -> Option<&Command>
    ensures { option_copied result ≡ slice_get (commands_of work.now) at }
{
    match work {
        Work::Lines(commands) => commands.as_slice().get(at),
        Work::Script(command) => { if at == 0 { Some(command.get()) } else { None } }
        Work::Empty => None,
    }
}

/// Whether the status is this code.
fn is_code(code: i32, status: Status) -> bool
    ensures { result ≡ is_code code status }
{
    match status {
        Status::Code(c) => c == code,
        Status::Signal(_) | Status::Unknown => false,
    }
}

/// The command at the place, or the end of the body.
fn start_or_well(work: &Work, at: usize) -> Step
    ensures { result ≡ start_or_well work.now at }
{
    if command(work, at).is_some() {
        Step::Start(at)
    } else {
        Step::Well
    }
}

/// The step of a body after `count` statuses, the last of which is this.
pub fn step_behind(work: &Work, count: usize, last: Option<Status>) -> Step
    ensures { result ≡ step_behind work.now count (slice_get (commands_of work.now) (count - 1)) last }
{
    match (command(work, count.saturating_sub(1)), last) {
        (Some(c), Some(status)) => {
            if c.guard && is_code(1, status) {
                Step::Well
            } else if is_code(0, status) || (c.forgiving && !c.guard) {
                start_or_well(work, count)
            } else {
                Step::Failed
            }
        }
        _ => start_or_well(work, count),
    }
}

/// What a body does after these statuses: it starts the next command; it has ended well, where none is left or a guard's code was 1; or
/// it has failed, by another ending that isn't forgiven.
pub fn after(work: &Work, statuses: &[Status]) -> Step
    requires { EachWentOn (commands_of work.now) statuses.now }
    ensures { result ≡ after work.now statuses.now }
{
    step_behind(work, statuses.len(), statuses.last().copied())
}
