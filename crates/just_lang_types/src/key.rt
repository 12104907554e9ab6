//! Keys: recipes with the values of their parameters.

use super::Modulepath;
use just_path_text::{Seq, Text};

/// The value of a parameter.
#[derive(Drop, PartialEq, Eq, PartialOrd, Ord)]
pub struct Value {
    pub elements: Seq<Text>,
}

/// What is asked of a recipe: its path, and a value for each of its parameters.
#[derive(Drop, PartialEq, Eq, PartialOrd, Ord)]
pub struct Key {
    pub recipe: Modulepath,
    pub arguments: Seq<Value>,
}
