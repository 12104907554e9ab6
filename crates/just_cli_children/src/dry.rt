//! What a dry run tells.

ghost use Rattle.just_sched_history.specs.Match.{printed_entries};
ghost use Rattle.just_cli_children.specs.DryRuns.{echoed, told_of, told_of_all, Tells};
ghost use Rattle.just_exec_work.specs.Steps.{commands_of};

use super::faults::print_error;
use just_exec::Error;
use just_exec_work::{Command, Work};
use just_host_record::{Host, Stream};
use just_sched_history::{Plan, PlanNode};

/// Prints a text to standard error, unless it is empty.
fn tell_text<H: Host>(host: &mut H, text: &str) -> Result<(), Error>
    ensures { Tells (printed_entries text.now) (H.told host.old) (H.told host.new) result }
{
    if text.is_empty() {
        return Ok(());
    }
    match host.print(Stream::Err, text) {
        Ok(()) => Ok(()),
        Err(fault) => Err(print_error(fault)),
    }
}

/// Prints the echoes of commands.
fn tell_echoes<H: Host>(host: &mut H, commands: &[Command]) -> Result<(), Error>
    ensures { Tells (echoed commands.now) (H.told host.old) (H.told host.new) result }
{
    'commands: for command in commands {
        match tell_text(host, command.echo.as_str()) {
            Ok(()) => {}
            Err(error) => return Err(error),
        }
    }
    Ok(())
}

/// Prints the echoes of all commands of a body.
fn tell_work<H: Host>(host: &mut H, work: &Work) -> Result<(), Error>
    ensures { Tells (echoed (commands_of work.now)) (H.told host.old) (H.told host.new) result }
{
    match work {
        Work::Lines(commands) => tell_echoes(host, commands.as_slice()),
        Work::Script(command) => tell_text(host, command.get().echo.as_str()),
        Work::Empty => Ok(()),
    }
}

/// Prints the banner of a node and the echoes of its body.
fn tell_node<H: Host>(host: &mut H, node: &PlanNode) -> Result<(), Error>
    ensures { Tells (told_of node.now) (H.told host.old) (H.told host.new) result }
{
    match tell_text(host, node.banner.as_str()) {
        Ok(()) => tell_work(host, &node.work),
        Err(error) => Err(error),
    }
}

/// Prints to standard error what a run of a plan would whose commands all end with the code 0, and which looks at no cache: of each node in the order of their
/// numbers the banner, and the echo of each command. No child is started.
pub fn tell_plan<H: Host>(host: &mut H, plan: &Plan) -> Result<(), Error>
    ensures { Tells (told_of_all plan.now.nodes) (H.told host.old) (H.told host.new) result }
{
    'nodes: for node in plan.nodes.as_slice() {
        match tell_node(host, node) {
            Ok(()) => {}
            Err(error) => return Err(error),
        }
    }
    Ok(())
}
