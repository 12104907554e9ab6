//! The room of the command line: a justfile of so many recipes, the host in memory that has it, and what is told of its run. It runs nothing itself.
#![tactic(auto)]

mod bodies;
mod counts;
mod justfile;
mod telling;

pub use bodies::is_history;
pub use counts::count_of;
pub use justfile::host_of;
pub use telling::report;
