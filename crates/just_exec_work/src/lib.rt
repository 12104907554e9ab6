//! The room of execution: what the body of a recipe has to run, the children of its lines or the one of its script.
//!
//! A body that begins with `#!` is a script that its first line's program runs; that of a recipe with `[script]` is run by
//! a command, which takes the script's path as an argument. A line of the script stands at the number that it has in the
//! justfile, so that what the program says of a line is true of the justfile's.
//!
//! A child comes with its program, arguments and folder, and with what is printed in front of it. What it is made of is
//! known: the recipe with the values of its parameters, the lines of its body with their values, the settings and the folder
//! of its module, and the changes of the environment.
#![tactic(auto)]

mod attribute;
mod copies;
mod cut;
mod echo;
mod error;
mod executor;
mod folder;
mod kind;
mod line;
mod line_shell;
mod placed;
mod positional;
mod run_attributes;
mod run_flags;
mod runner;
mod running;
mod script;
mod shebang;
mod steps;
mod work;
mod works;

pub use attribute::{attribute_named, attribute_text, has_attribute, prints_code, read_attributes};
pub use copies::one_text;
pub use error::CommandError;
pub use executor::Executor;
pub use folder::module_folder;
pub use just_lang_types::{BodyLine, Interpreter};
pub use kind::ShellKind;
pub use line_shell::shell;
pub use run_attributes::RunAttributes;
pub use run_flags::RunFlags;
pub use running::Running;
pub use shebang::Shebang;
pub use steps::{after, command, step_behind};
pub use work::{Command, Step, Work};
pub use works::recipe_work;
