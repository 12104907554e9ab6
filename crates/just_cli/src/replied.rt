//! What a justfile answers to words without a command.

use just_cli_texts::Printed;
use just_path_text::Seq;
use just_sched::Plan;
use std::num::NonZeroU64;

/// What a justfile answers to words without a command.
#[derive(Drop)]
pub enum Replied {
    /// The listing of a module.
    List(Printed),
    /// A plan, its job limit, if it has one, and of each node whether the message of its exit code is told.
    Plan(Plan, Option<NonZeroU64>, Seq<bool>),
}
