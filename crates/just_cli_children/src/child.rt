//! A child that a command runs alone.

use just_host_record::Spec;
use just_path_text::{Seq, Text};

/// A child that a command runs alone.
#[derive(Drop)]
pub struct Child {
    pub spec: Spec,
    pub role: Role,
}

/// What a child is run as, by which it is told where it doesn't end well.
#[derive(Drop)]
pub enum Role {
    /// The editor of a justfile, by its name.
    Editor(Text),
    /// The words of a command: the first, and those behind it.
    Command(Text, Seq<Text>),
}
