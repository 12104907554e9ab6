//! The room of values: the variables of a project, each evaluated once, and the lines of a recipe's body with the
//! values in them. The keys that words ask for, what a key needs, and the closure of keys are handed on from below.
#![tactic(auto)]

mod body;
mod command;
mod constants;
mod continuation;
mod ending;
mod evaluation;
mod names;
mod overrides;
mod part;
mod scopes;
mod settled;
mod sigils;
mod text;

pub use body::{body_lines, lines_of, lines_of_recipe};
pub use ending::is_ending;
pub use evaluation::evaluate;
pub use just_eval_closure::{Entry, Ran, Request, closure, closure_within, dependencies};
pub use just_eval_words::invocations;
pub use just_lang_types::{
    BodyLine, Closure, DotenvOf, Justfile, Key, LangError, Modulepath, Node, Override, Scopes,
    Value,
};
pub use just_path_text::{Environ, NoMemory, Seq, Text};
