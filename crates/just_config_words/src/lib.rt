//! The room of the configuration: the words of the command line, what they ask for, with the variables that fill in what
//! they leave out.
#![tactic(auto)]

mod arguments;
pub mod cut;
mod entry;
mod fault;
mod form;
mod front;
mod kind;
mod occurrence;
mod parsed;
mod path;
mod rule;
mod subcommand;
mod table;
mod usage;
mod variable;
mod word;
mod words;

pub use arguments::Arguments;
use entry::{Entry, Form, Kind, Values};
use occurrence::Occurrence;
pub use parsed::add_copies;
use parsed::{Attached, ParsedOption};
pub use path::prefix_of;
pub use subcommand::Subcommand;
pub use usage::{Usage, UsageKind};
pub use words::{Read, meanings_agree, read_words};
