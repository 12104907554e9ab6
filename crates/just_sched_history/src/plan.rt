//! The plan of a run.

ghost use Rattle.std.specs.Prelude.{◌≡◌, ◌^◌, ◌<◌, ◌≤◌, ℕ, length, map, All};
ghost use Rattle.just_eval_closure.specs.WellFormed.{IsWellFormed};
ghost use Rattle.just_exec_work.specs.Steps.{commands_of};

use super::PlanNode;
use just_path_text::Seq;

/// The nodes that a request runs, a node's number being its place, and those that were asked for. Each plan is well
/// formed.
#[derive(Drop)]
pub struct Plan {
    pub nodes: Seq<PlanNode>,
    pub invocations: Seq<u32>,
    pub ghost well: { ∥ IsWellFormed (map (λ x. x.node) nodes) invocations ∥₁ },
    pub ghost few: { length nodes < 2 ^ 32 },
    pub ghost short: { ∥ All (λ x. length (commands_of x.work) < 2 ^ 32) nodes ∥₁ },
}
