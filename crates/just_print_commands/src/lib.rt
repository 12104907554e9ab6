//! The room of printing: what commands print of what a path leads to.
#![tactic(auto)]

mod error;
mod listing;
mod place;
mod project;
mod shown;

pub use error::{ListTextError, ShowError};
pub use just_eval_words::{Found, Target, inner_module, named_target};
pub use just_lang_types::{Justfile, LangError};
pub use just_path_text::{NoMemory, Seq, Text};
pub use just_print_entries::{ListError, ListOptions};
pub use listing::list_text;
pub use project::Project;
pub use shown::{show_text, usage_text};
