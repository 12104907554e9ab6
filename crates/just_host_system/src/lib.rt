//! The room of hosts: the host of this process over the system, with its children and their scripts.
#![tactic(auto)]

mod answers;
mod capturing;
mod child;
mod command;
mod real;
mod script;
mod shell;
mod surrounding;
mod within;

pub use child::{RealChild, RealDone};
pub use real::RealHost;
