//! The events of a run, and what is said of its end.

use just_host_record::{Call, Look, Signal, Status};
use just_path::Miss;
use just_path_text::Seq;

/// One event of a run. The first number of each is that of its node.
#[derive(Debug, Drop)]
pub enum Event {
    /// The node's prompt was answered, and whether by a yes.
    Asked(u32, bool),
    /// The node's body took a job.
    Took(u32),
    /// The cache was looked at: the digests of the inputs, and what was seen.
    Looked(u32, Seq<[u8; 32]>, Look),
    Skipped(u32),
    Begun(u32),
    /// A command was started: its place in the body, and the child's number.
    Started(u32, u32, u32),
    /// A command has ended: its place, the child's number, and how.
    Ended(u32, u32, u32, Status),
    Saved(u32),
    Done(u32, Outcome),
    /// The node's body gave its job back.
    Gave(u32),
    /// A signal was caught.
    Caught(Signal),
}

/// How a node's body came to its end.
#[derive(Clone, Copy, Debug, PartialEq, Eq)]
pub enum Outcome {
    Well,
    Failed(Reason),
}

/// Why a node's body failed.
#[derive(Clone, Copy, Debug, PartialEq, Eq)]
pub enum Reason {
    /// A command's status.
    Status,
    NotConfirmed,
    /// The place of a cache input, and how it was missed.
    Input(u32, Miss),
    /// The place of a cache output that wasn't made.
    Output(u32),
    /// A call of the host was a miss.
    Place(Call, Miss),
    /// A call of the host failed.
    Fault(Call),
    Interrupted,
    NoMemory,
}

/// Why there is nothing to do now.
#[derive(Clone, Copy)]
pub enum Idle {
    /// No node is ready or to be asked.
    Nothing,
    /// Each job is taken.
    Jobs,
    /// Each ready node waits for an open body of its class.
    Class,
    /// A signal was caught.
    Signal,
}

/// How a run went.
#[derive(Clone, Copy, Debug, PartialEq, Eq)]
pub enum Verdict {
    Well,
    /// The node of least number that failed.
    Failed(u32),
    Interrupted(Signal),
    NoMemory,
}
