//! The room of the configuration: what the words of the command line mean, and the configuration that they give.
//!
//! [`read_words`] reads the words, by the crate `just_config_words`, and [`Config::from_arguments`] judges what they ask for.
#![tactic(auto)]

mod command;
mod config;
mod config_error;
mod cut;
mod help;
mod listed;
mod module_path;
mod overrides;
mod positional;
mod refusal;
mod request;
mod search_config;
mod verbosity;
mod version;

pub use config::Config;
pub use config_error::ConfigError;
pub use help::HELP;
pub use just_config_words::{Arguments, Read, Subcommand, Usage, UsageKind, read_words};
pub use just_lang_types::{Modulepath, Override, UnstableFeature};
pub use just_path::{Environ, NoMemory, Seq, Text, Utf8PathBuf};
pub use module_path::path_of_words;
pub use positional::Positional;
pub use request::{Request, Response};
pub use search_config::SearchConfig;
pub use verbosity::Verbosity;
pub use version::Version;
