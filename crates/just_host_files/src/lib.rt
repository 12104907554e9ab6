//! The room of hosts: the system's files and environment, as the host of this process asks for them, with what hosts have in common.
#![tactic(auto)]

mod copies;
pub mod disk;
mod fresh;
mod items;
mod ready;
pub mod system;
mod text;
mod written;

pub use copies::{copied_bytes, copies_of, path_or_empty};
pub use fresh::{fresh_folder, in_memory};
pub use items::{is_name, name_behind, names_of, put_item};
pub use ready::{ready_path, ready_probe};
pub use text::text_of;
