//! The room of the language: the rules on single items and on those of a module, and where each is broken first.
#![tactic(auto)]

mod arguments;
mod attributes;
mod constant_texts;
mod defaults;
mod duplicate_attributes;
mod expansions;
mod faults;
mod parameters;
mod required;
mod settings;

pub use arguments::UnknownArgParameter;
pub use attributes::{AttributeConflict, UnknownAttribute};
pub use constant_texts::NotConstant;
pub use defaults::DuplicateDefault;
pub use duplicate_attributes::DuplicateAttribute;
pub use expansions::ShellExpansion;
pub use faults::{fault_spot, source_limit_spot};
pub use parameters::DuplicateParameter;
pub use required::RequiredParameterFollowsDefault;
pub use settings::{DuplicateSetting, UnknownSetting};
