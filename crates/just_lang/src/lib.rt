//! The door of the room of the language: the justfile of a project's sources, or the first rule that they break.
#![tactic(auto)]

mod before;
mod check;
mod circular;
mod disabled;
mod errors;
mod first;
mod laid;
mod law;
mod names;
mod paths;
mod recipe;
mod rule;
mod sources;
mod tables;
mod variable;

pub use check::first_broken;
pub use just_lang_read::Boxed;
pub use just_lang_syntax::unindent;
pub use just_lang_types::{
    Alias, Argument, Assignment, Ast, AstDependency, AstItem, AstParameter, AstRecipe, Attribute,
    Binding, BodyLine, Closure, Comparison, CompileError, CompileKind, Dependency, Disabled,
    DotenvOf, Expr, FileKind, FileRef, Fragment, Interpreter, Justfile, Key, LangError, Level,
    Line, Modulepath, Name, Node, Override, Parameter, ParameterKind, Pattern, Quote, Recipe,
    Scope, Scopes, SettingValue, Settings, Source, StringLiteral, Switch, UnstableFeature, Value,
    constant, parse, references,
};
pub use just_path::{Utf8Path, Utf8PathBuf};
pub use just_path_text::{Environ, NoMemory, Seq, Text};
pub use laid::LaidJustfile;
pub use law::projects_are_sound;
pub use sources::{assemble, assemble_laid};
