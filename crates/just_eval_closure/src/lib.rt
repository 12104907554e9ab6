//! The room of values: the values of expressions, what a request asks of a project, and the closure of its keys.
#![tactic(auto)]

mod argument;
mod around;
mod closing;
mod copies;
mod entries;
mod entry;
mod expression;
mod given;
mod hash;
mod index;
mod key_closure;
mod number;
mod ran;
mod register;
mod request;
mod scope;
mod walk;

pub use argument::{text_in_recipe, value_of_text};
pub use around::dependencies;
pub use closing::{closure, closure_within};
pub use entries::levels;
pub use entry::{Entry, Index};
pub use expression::{Env, Names, value};
pub use given::values_given;
pub use key_closure::closure_of;
pub use ran::Ran;
pub use request::Request;
pub use scope::{View, pairs_for, text_of};
pub use walk::Surroundings;

/// A request may need so many nodes.
pub const CLOSURE_LIMIT: usize = 1_000_000;
