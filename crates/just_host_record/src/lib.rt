//! The room of hosts: what a run touches of the outside, the trait `Host`, with the entries of its record and the log that a host keeps them in.
#![tactic(auto)]

mod copies;
mod entry;
mod log;
mod outside;
mod script_text;
mod signal;
mod tree;

pub use copies::boxed_copy;
pub use entry::{Call, Entry, HostFault, Look, Script, Spec, Status, Stream};
pub use log::Log;
pub use outside::{Host, MAX_BYTES, MAX_SUMMED};
pub use script_text::ScriptText;
pub use signal::Signal;
pub use tree::Thing;
