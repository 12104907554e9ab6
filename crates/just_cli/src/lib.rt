//! The room of the command line, and its door: a run, from the words to the children, by the top calls and what they answer.
#![tactic(auto)]

mod choose;
mod clean;
mod commands;
mod configured;
mod dry;
mod ended;
mod failure;
mod given;
mod init;
mod init_text;
mod invoke;
mod law;
mod options;
mod other;
mod place;
mod prepare;
mod printing;
mod program;
mod replied;
mod reply;
mod runner;
mod show;
mod taken;
mod task;
mod tried;
mod vectors;

pub use ended::{Ended, Failure, Report};
pub use init_text::INIT_JUSTFILE;
pub use just_exec::Error;
pub use just_host::{Call, Host, HostFault, Look, RealHost, Signal, Status};
pub use just_path::{Miss, Utf8PathBuf};
pub use just_path_text::{NoMemory, Seq, Text};
pub use just_sched::{Event, Outcome, Plan, PlanNode, Reason};
pub use law::{
    choices_are_runs, dry_runs_plan_the_same, dry_runs_run_no_child, dry_runs_run_nothing,
    first_answers,
};
pub use program::{exit_status, no_arguments, run_arguments};
pub use runner::{run, run_with};
