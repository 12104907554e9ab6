//! The room of the language: its tree, the tree of a text, and the texts that its strings mean.
#![tactic(auto)]

mod ast;
mod attribute;
mod body;
mod copy;
mod entry;
mod error;
mod expr;
mod form;
mod item;
mod left_out;
mod list;
mod recipe;
mod string;
mod text;
mod token;
mod whole;

pub use ast::{
    Argument, Ast, AstDependency, AstItem, AstParameter, AstRecipe, Attribute, Comparison, Expr,
    Fragment, Line, Name, ParameterKind, SettingValue, StringLiteral,
};
pub use attribute::has_key;
pub use copy::{copied, copy_expr};
pub use error::{Fault, FaultKind, ParseError};
pub use form::{is_attribute, is_one_of, is_setting};
pub use just_lang_read::Quote;
pub use text::unindent;
pub use whole::parse;
