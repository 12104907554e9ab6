//! A run that has come to its end.

use just_host_record::Host;
use just_path_text::Seq;
use just_sched_history::{Event, Plan, Verdict};

/// A run that has come to its end.
pub struct Driven<H: Host> {
    pub host: H,
    pub plan: Plan,
    pub history: Seq<Event>,
    pub verdict: Verdict,
}
