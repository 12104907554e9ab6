//! The room of hosts: the tree of files that a host in memory has, and the plot by which its children end.
#![tactic(auto)]

mod files;
mod folders;
mod looks;
mod new_folders;
mod place;
mod plot;
mod sights;
mod writes;

pub use files::Tree;
pub use place::Place;
pub use plot::{Ending, Faults, Plot, output_of, word_of};
pub use sights::{TreeFault, copied_text};
