//! The room of runs: workers side by side drive the book of a plan to its end.
//!
//! Plans and histories are those of `just_sched_history`, books of `just_sched_book`; all that a user of a run names is handed on here.
#![tactic(auto)]

mod crew;
mod desk;
mod driving;
mod jobs;
mod semaphore;
mod shared;
mod worker;

pub use desk::Desk;
pub use driving::drive;
pub use just_cache::{CacheKey, KeyExecutor};
pub use just_host_record::{Call, Host, HostFault, Look, Script, ScriptText, Signal, Spec, Status};
pub use just_lang_read::Boxed;
pub use just_lang_types::{Interpreter, Key, Modulepath, Node, Value};
pub use just_path::{Miss, Utf8Path, Utf8PathBuf};
pub use just_path_text::{NoMemory, Seq, Text, TryClone};
pub use just_sched_book::{
    Book, Driven, HeldBody, Named, Naming, Next, OpenBody, Seat, WaitedBody,
};
pub use just_sched_history::{
    CachePlan, Command, Event, Idle, NodeState, Outcome, Plan, PlanNode, Reason, Step, Tables,
    Verdict, Work, entry_path_of, last_status, reason_of, status_count,
};
pub use just_sched_lines::write_history;
pub use semaphore::{Guard, Semaphore};
pub use shared::Shared;
pub use worker::work;
