//! The state of a node, as a book tells it.

/// The state of a node: the first of these that holds.
#[derive(Clone, Copy, Debug)]
pub enum NodeState {
    /// Its body failed.
    Failed,
    /// It is over well, and all its subsequents are finished.
    Finished,
    /// It was skipped, or its body ended well.
    Over,
    /// Its body took a job and hasn't given it back.
    Open,
    /// It is wanted, and its prompt is to be asked.
    ToAsk,
    /// Its body may take a job.
    Ready,
    Waiting,
}
