//! The room of the language: the justfile that the files of a project make.
#![tactic(auto)]

mod aliases;
mod comments;
mod content;
mod declaration;
mod dependencies;
mod items;
mod linker;
mod project;
mod recipes;
mod steps;
mod tree;

pub use linker::{AliasTarget, Linker};
pub use project::Project;
pub use tree::justfile_of;
