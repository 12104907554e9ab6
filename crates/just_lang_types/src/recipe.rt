//! The shape of a recipe.

use just_lang_syntax::{Attribute, Expr, Line, ParameterKind};
use just_path_text::{Seq, Text};

/// A recipe: what its attributes and its line say of it, and the lines of its body.
#[derive(Drop)]
pub struct Recipe {
    pub name: Text,
    pub path: Modulepath,
    /// What a listing says of it.
    pub doc: Option<Text>,
    pub attributes: Seq<Attribute>,
    pub parameters: Seq<Parameter>,
    pub priors: Seq<Dependency>,
    pub subsequents: Seq<Dependency>,
    pub body: Seq<Line>,
    /// Whether an `@` stands before the name.
    pub quiet: bool,
    /// Whether listings leave it out.
    pub private: bool,
    /// Whether the body is one script.
    pub script: bool,
    /// The number of the line of its name, from 1.
    pub line: usize,
}

/// A recipe's name with the modules that lead to it.
#[derive(Drop, PartialEq, Eq, PartialOrd, Ord)]
pub struct Modulepath {
    pub components: Seq<Text>,
}

/// A recipe that another one depends on, and what it is given for its parameters.
#[derive(Drop)]
pub struct Dependency {
    pub path: Modulepath,
    pub arguments: Seq<Expr>,
}

/// A parameter of a recipe. All behind the default is said by an attribute.
#[derive(Drop)]
pub struct Parameter {
    pub name: Text,
    pub kind: ParameterKind,
    /// Whether it is in the environment of what the recipe runs.
    pub export: bool,
    pub default: Option<Expr>,
    /// The long name, where it is an option.
    pub long: Option<Text>,
    /// The short name, where it is an option.
    pub short: Option<char>,
    /// What the option means where it has no value.
    pub value: Option<Text>,
    pub flag: bool,
    pub multiple: bool,
    pub help: Option<Text>,
    pub pattern: Option<Pattern>,
    /// How many values it takes at least.
    pub min: Option<u64>,
    /// How many values it takes at most.
    pub max: Option<u64>,
}

/// The patterns of a parameter: each value must match one of them.
#[derive(Drop)]
pub struct Pattern {
    pub texts: Seq<Text>,
}
