//! The room of the language: the justfile, its tree and its shapes, and why a project or a request is refused.
#![tactic(auto)]

mod constants;
mod error;
mod expr_text;
mod key;
mod modules;
mod name;
mod node;
mod options;
mod parameter_kind;
mod place;
mod position;
pub mod project;
mod recipe;
mod reference;
mod same;
mod scope;
mod script;
mod settings;
mod source;
mod switch;
mod texts;
mod unstable_feature;

pub use constants::constant;
pub use error::{CompileError, CompileKind};
pub use expr_text::const_text;
pub use just_lang_syntax::{
    Argument, Ast, AstDependency, AstItem, AstParameter, AstRecipe, Attribute, Comparison, Expr,
    Fragment, Line, Name, ParameterKind, Quote, SettingValue, StringLiteral,
};
pub use key::{Key, Value};
pub use modules::all_modules;
pub use name::is_recipe_name;
pub use node::{BodyLine, Closure, Node};
pub use options::{is_option, names_option, text_at};
pub use parameter_kind::is_variadic;
pub use place::Place;
pub use position::Position;
pub use project::{Justfile, LangError};
pub use recipe::{Dependency, Modulepath, Parameter, Pattern, Recipe};
pub use reference::{FileKind, FileRef, references};
pub use scope::{Alias, Assignment, Binding, Disabled, DotenvOf, Level, Override, Scope, Scopes};
pub use script::{is_script, is_shebang};
pub use settings::{Interpreter, Settings};
pub use source::{Source, parse};
pub use switch::Switch;
pub use texts::Texts;
pub use unstable_feature::UnstableFeature;
