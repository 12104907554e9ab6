//! The room of runs: the plan of a run and its history, that is the states of its nodes, legal histories, and the tables that are kept of one.
#![tactic(auto)]

mod cache_plan;
mod choice;
mod classes;
mod climb;
mod descent;
mod entries;
mod event;
mod flags;
mod making;
mod node_state;
mod noting;
mod number_set;
mod outcomes;
mod plan;
mod plan_node;
mod progress;
mod room;
mod row;
mod spread;
mod tables;
mod turn;
mod verdict;

pub use cache_plan::CachePlan;
pub use entries::{entry_path_of, text_of_entry};
pub use event::{Event, Idle, Outcome, Reason, Verdict};
pub use just_exec_work::{Command, Step, Work};
pub use node_state::NodeState;
pub use noting::{note, note_answer};
pub use number_set::NumberSet;
pub use outcomes::{last_status, reason_of, status_count};
pub use plan::Plan;
pub use plan_node::PlanNode;
pub use progress::Progress;
pub use room::{command_count, event_count};
pub use row::{Row, is_running};
pub use tables::Tables;
pub use turn::Turn;
