//! The room of values: what words give to the parameters of recipes, and the keys that the words of a request ask for.
#![tactic(auto)]

mod check;
mod command;
mod copy;
mod form;
mod found;
mod given;
mod invocation;
mod name;
mod parameter;
mod path;
mod pattern;
mod sight;
mod switch;
mod taken;
mod target;
mod words;

pub use command::{inner_module, named_target};
pub use found::{Found, Target};
pub use invocation::{invocations, invocations_agree, within_one};
pub use name::{module_named, recipe_in};
pub use parameter::least_words;
pub use path::first_part;
pub use words::words_given;
