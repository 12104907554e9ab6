//! The room of the language: the files of a project, and how they stand in its modules.
#![tactic(auto)]

mod error;
mod imports;
mod items;
mod laid;
mod layout;
mod numbers;
mod path;
mod pending;
mod target;
mod visit;

pub use error::LayoutError;
pub use items::{item_at, items_at, items_of_module};
pub use laid::lay;
pub use layout::{File, Layout, Module, Placed};
pub use path::{meaning, path_under};
pub use target::{Target, module_base};
