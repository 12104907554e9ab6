//! How much room a run needs.

ghost use Rattle.std.specs.Prelude.{◌≡◌, IfSome};
ghost use Rattle.just_sched_history.specs.Room.{slots, total_commands};
ghost use Rattle.just_exec_work.specs.Steps.{commands_of};
ghost use Rattle.std.specs.Prelude.{length};

use super::{Plan, Work};

/// How many commands a body has.
fn size(work: &Work) -> usize
    ensures { result ≡ length (commands_of work.now) }
{
    match work {
        Work::Lines(commands) => commands.len(),
        Work::Script(_) => 1,
        Work::Empty => 0,
    }
}

#[tactic(auto, unfolding(crate::specs::Room::total_commands))]
/// How many commands the bodies have together; None where no number holds it.
pub fn command_count(plan: &Plan) -> Option<usize>
    ensures { IfSome result (λ n. n ≡ total_commands plan.now.nodes) }
{
    let mut count: usize = 0;
    for node in plan.nodes.as_slice() {
        count = count.checked_add(size(&node.work))?;
    }
    Some(count)
}

/// How many events a history can have, by the number of commands; None where no number holds it.
pub fn event_count(plan: &Plan, commands: usize) -> Option<usize>
    requires { commands ≡ total_commands plan.now.nodes }
    ensures { IfSome result (λ n. n ≡ slots plan.now.nodes) }
{
    let twice = commands.checked_mul(2)?;
    let events = twice.checked_add(8 * plan.nodes.len() + 1)?;
    Some(events)
}
