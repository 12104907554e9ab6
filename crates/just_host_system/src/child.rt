//! Children of this process.
ghost use Rattle.std.specs.Prelude.{◌≡◌, IfOk};
ghost use Rattle.std.specs.Option.{ForSome};
ghost use Rattle.std.specs.Process.{child_status};
ghost use Rattle.just_host_system.specs.Commands.{IsToldOf, status_waited};

use super::command::status_of;
use super::script::ScriptFile;
use just_host_record::Status;
use std::io;
use std::process::{Child, ExitStatus, SystemProcess};

/// A child of this process.
#[derive(Drop)]
pub struct RealChild {
    pub(crate) number: u32,
    pub(crate) process: Child<SystemProcess>,
    /// The file of its script, if it has one.
    pub(crate) script: Option<ScriptFile>,
}

/// A child of this process that was waited for, with the process itself and the status that the system told of it,
/// or none where waiting failed.
#[derive(Drop)]
pub struct RealDone {
    pub(crate) number: u32,
    process: Child<SystemProcess>,
    pub(crate) script: Option<ScriptFile>,
    pub(crate) status: Option<Status>,
    ghost told: { ForSome status (λ s. ∥ IsToldOf (child_status process) s ∥₁) },
}

impl RealDone {
    /// Waits for a child.
    pub(crate) fn after(child: RealChild) -> RealDone
        ensures { result.number ≡ child.number }
    {
        let RealChild {
            number,
            mut process,
            script,
        } = child;
        let status = ending(&process.wait());
        RealDone {
            number,
            process,
            script,
            status,
        }
    }
}

/// A child that was captured: the process itself, the status that the system told of it, and what it printed.
pub(crate) struct Captured {
    process: Child<SystemProcess>,
    pub(crate) status: Status,
    pub(crate) output: Vec<u8>,
    ghost told: { ∥ IsToldOf (child_status process) status ∥₁ },
}

impl Drop for Captured {
    fn drop(self) {
        let Captured {
            process: _,
            status: _,
            output: _,
        } = self;
    }
}

impl Captured {
    /// Waits for a child that printed this.
    pub(crate) fn after(child: Child<SystemProcess>, output: Vec<u8>) -> io::Result<Captured>
        ensures { IfOk result (λ e. e.output ≡ output) }
    {
        let mut process = child;
        match process.wait() {
            Ok(status) => {
                let status = status_of(&status);
                Ok(Captured {
                    process,
                    status,
                    output,
                })
            }
            Err(error) => {
                drop(process);
                Err(error)
            }
        }
    }

    /// Its status, and what it printed.
    pub(crate) fn into_parts(self) -> (Status, Vec<u8>)
        ensures status { result.0 ≡ self.status }
        ensures output { result.1 ≡ self.output }
    {
        let Captured {
            process,
            status,
            output,
        } = self;
        drop(process);
        (status, output)
    }
}

/// How a child ended of which waiting told this; none where waiting failed.
fn ending(told: &io::Result<ExitStatus>) -> Option<Status>
    ensures { result ≡ status_waited told.now }
{
    match told {
        Ok(status) => Some(status_of(status)),
        Err(_) => None,
    }
}
