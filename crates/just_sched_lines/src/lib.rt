//! The room of runs: a history as text, one line for each event.
#![tactic(auto)]

mod history;
mod line;
mod names;
mod outcome;
mod pieces;

pub use history::write_history;
