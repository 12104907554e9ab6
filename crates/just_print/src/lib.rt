//! The room of printing: trees of justfiles as texts, how a recipe is used, and the small texts that other texts are made of.
#![tactic(auto)]

mod attribute;
mod body;
mod count;
mod enclosure;
mod expr;
mod item;
mod list;
mod ordinals;
mod range;
mod recipe;
mod shown;
mod usage;
mod whitespace;
mod whole;

pub use count::Count;
pub use enclosure::Enclosure;
pub use expr::push_expr;
pub use just_lang_syntax::{Ast, Expr, ParameterKind};
pub use just_lang_types::{Modulepath, Parameter, is_variadic};
pub use just_path_text::{NoMemory, Seq, Text};
pub use list::List;
pub use ordinals::ordinal;
pub use range::{DisplayRange, display};
pub use recipe::push_parameters;
pub use shown::shown_recipe;
pub use usage::{Usage, UsageParameter, has_options, is_option, is_optional};
pub use whitespace::ShowWhitespace;
pub use whole::{print, print_items};
