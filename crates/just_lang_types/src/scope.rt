//! Variables and their values, and what else a justfile names.

use super::{Modulepath, Value};
use just_lang_syntax::Expr;
use just_path_text::{Environ, Seq, Text};

/// A variable and the expression that it is assigned.
#[derive(Drop)]
pub struct Assignment {
    pub name: Text,
    pub value: Expr,
    /// Whether it is in the environment of what recipes run.
    pub export: bool,
}

/// A further name of a recipe or a module.
#[derive(Drop)]
pub struct Alias {
    pub name: Text,
    pub target: Modulepath,
}

/// What can't be run, and the absent modules for which it can't.
#[derive(Drop)]
pub struct Disabled {
    pub name: Text,
    pub modules: Seq<Text>,
}

/// A variable with its value.
#[derive(Drop)]
pub struct Binding {
    pub name: Text,
    pub value: Value,
    /// Whether it is in the environment of what recipes run.
    pub export: bool,
}

/// Variables that hide those of the level above.
#[derive(Drop)]
pub struct Level {
    pub bindings: Seq<Binding>,
    /// Whether it is the level of the constants.
    pub prelude: bool,
}

/// The variables that are seen at some point, from the outermost level on.
#[derive(Drop)]
pub struct Scope {
    pub levels: Seq<Level>,
}

/// The pairs of a module's dotenv file.
#[derive(Drop)]
pub struct DotenvOf {
    pub module: Modulepath,
    pub pairs: Seq<(Text, Text)>,
}

/// A value that the command line gives to a variable.
#[derive(Drop)]
pub struct Override {
    pub module: Modulepath,
    pub name: Text,
    pub value: Text,
}

/// The scope of each module, and the dotenv pairs and the environment that `env` asks.
#[derive(Drop)]
pub struct Scopes {
    pub scopes: Seq<(Modulepath, Scope)>,
    pub dotenv: Seq<DotenvOf>,
    pub environ: Environ,
}
