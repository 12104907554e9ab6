//! A place of the walk: a key in a round.

use super::Key;

/// A key in a round of the one-thread closure. A list of places is the order of visits: a node's number is its place.
#[derive(Drop, PartialEq, Eq, PartialOrd, Ord)]
pub struct Place {
    pub round: Option<u32>,
    pub key: Key,
}
