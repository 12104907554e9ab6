//! A child that is run alone.

ghost use Rattle.std.specs.Prelude.{◌≡◌, None};
ghost use Rattle.just_cli_children.specs.Children.{invoke_error, start_error, status_error, ended_so, RunsAlone};

use super::child::{Child, Role};
use just_exec::Error;
use just_host_record::{Host, HostFault, Status};

/// The error of a child that wasn't started or waited for.
fn invoke_error(role: Role, io: HostFault) -> Error
    ensures { result ≡ invoke_error role io }
{
    match role {
        Role::Editor(editor) => Error::EditorInvoke { editor, io },
        Role::Command(binary, arguments) => Error::CommandInvoke {
            binary,
            arguments,
            io,
        },
    }
}

/// The error of a child that ended so.
fn status_error(role: Role, status: Status) -> Error
    ensures { result ≡ status_error role status }
{
    match role {
        Role::Editor(editor) => Error::EditorStatus { editor, status },
        Role::Command(binary, arguments) => Error::CommandStatus {
            binary,
            arguments,
            status,
        },
    }
}

/// What the ending of a child comes to: with the code 0 all is well.
fn ended_so(role: Role, status: Status) -> Result<(), Error>
    ensures { result ≡ ended_so role status }
{
    match status {
        Status::Code(0) => Ok(()),
        Status::Code(_) | Status::Signal(_) | Status::Unknown => Err(status_error(role, status)),
    }
}

/// The error of a child that wasn't started; want of memory is told as itself.
fn start_error(role: Role, fault: HostFault) -> Error
    ensures { result ≡ start_error role fault }
{
    match fault {
        HostFault::NoMemory => Error::NoMemory,
        HostFault::Missed(_) | HostFault::Failed(_) => invoke_error(role, fault),
    }
}

/// Starts a child that has no script, waits for it and settles it. It ends well with the code 0 alone.
pub fn run_alone<H: Host>(host: &mut H, child: Child) -> Result<(), Error>
    requires { child.spec.script ≡ None }
    ensures { RunsAlone child (H.told host.old) (H.told host.new) result }
{
    let Child { spec, role } = child;
    // So its end needs no memory.
    if host.room(1).is_err() {
        return Err(Error::NoMemory);
    }
    let started = match host.start(&spec) {
        Ok(started) => started,
        Err(fault) => return Err(start_error(role, fault)),
    };
    let number = H::number(&started);
    match host.settle(number, H::wait(started)) {
        Ok(status) => ended_so(role, status),
        Err(fault) => Err(invoke_error(role, fault)),
    }
}
