//! The room of the command line: what commands print of a project, and what a command does.
#![tactic(auto)]

mod choices;
mod defaults;
mod format;
mod kind;
mod laying;
mod list_options;
mod printed;
mod printing;
mod response;
mod summary;
mod targets;
mod values;
mod whole;

pub use choices::feed;
pub use defaults::{listed_by_default, listing};
pub use format::formatted;
pub use just_cli_plan::Wanted;
pub use just_config::{Config, Subcommand};
pub use just_exec::Error;
pub use just_lang::LaidJustfile;
pub use just_path_text::{Environ, NoMemory, Seq, Text};
pub use kind::{Kind, is_choice, is_new, is_placed, is_vectors, kind_of, reads_justfile, words_of};
pub use laying::laid_of_sources;
pub use printed::Printed;
pub use printing::{alone, prints};
pub use response::respond;
pub use targets::names_of;
pub use values::evaluate;
