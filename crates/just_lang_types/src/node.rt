//! The nodes of a closure, and the lines of a body.

use super::Key;
use just_path_text::{Seq, Text};

/// A key in a round of the one-thread closure, with the numbers of the nodes that it depends on. The command line is
/// the round None; the subsequents of a node make the round that the node's number names.
#[derive(Drop)]
pub struct Node {
    pub round: Option<u32>,
    pub key: Key,
    pub priors: Seq<u32>,
    pub subsequents: Seq<u32>,
}

/// The one-thread closure of some keys: its nodes, a node's number being its place, and the nodes that were asked for.
#[derive(Drop)]
pub struct Closure {
    pub nodes: Seq<Node>,
    pub invocations: Seq<u32>,
}

/// A line of a body as it is run.
#[derive(Drop)]
pub struct BodyLine {
    /// Its number in the source, from 1.
    pub number: usize,
    pub text: Text,
    pub quiet: bool,
    pub forgiving: bool,
    pub guard: bool,
}
