//! The room of hosts: what a run touches of the outside, in memory (`MemHost`, `GateHost`) and over the system (`RealHost`). This crate hands the whole room on.
#![tactic(auto)]

mod children;
mod gate;
mod memory;
mod notes;

pub use gate::{GateChild, GateHost};
pub use just_host_memory::{Ending, Plot, Tree};
pub use just_host_record::{
    Call, Entry, Host, HostFault, Look, MAX_BYTES, MAX_SUMMED, Script, ScriptText, Signal, Spec,
    Status, Stream, Thing,
};
pub use just_host_system::{RealChild, RealDone, RealHost};
pub use just_lang_read::Boxed;
pub use just_path::{Item, Kind, Meta, Miss, PathCall, PathFault, PathHost, Utf8Path, Utf8PathBuf};
pub use just_path_text::{Environ, NoMemory, Seq, Text, TryClone};
pub use memory::{MemChild, MemDone, MemHost};
