//! What a book may do next.

/// How a node stands, for the next move.
#[derive(Clone, Copy)]
pub(crate) enum Stand {
    ToAsk,
    /// It is ready, and no open body is of its class.
    Free,
    /// It is ready, and waits for an open body of its class.
    Waits,
    /// It is neither ready nor to be asked.
    Idle,
}

/// The next move.
#[derive(Clone, Copy)]
pub enum Turn {
    /// Of the nodes that are to be asked or free, that of least number is to be asked.
    Ask(u32),
    /// That of least number is free, and may take a job where there is one.
    Take(u32),
    /// No node is to be asked, and each ready one waits.
    Wait,
    /// No node is ready or to be asked.
    Nothing,
}
