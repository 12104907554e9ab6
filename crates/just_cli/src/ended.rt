//! How a run ends: its host, and a report or a failure.

use super::Error;
use just_path_text::Seq;
use just_sched::{Event, Plan};

/// A host after a run, and how the run ended.
pub struct Ended<H> {
    pub host: H,
    pub result: Result<Report, Failure>,
}

/// A run that went well: its plan and its history.
#[derive(Drop)]
pub struct Report {
    pub plan: Plan,
    pub history: Seq<Event>,
}

/// A run that failed or was refused. A refusal before the plan stands has no plan and an empty history.
#[derive(Drop)]
pub struct Failure {
    pub error: Error,
    pub plan: Option<Plan>,
    pub history: Seq<Event>,
    /// The exit code.
    pub code: i32,
}
