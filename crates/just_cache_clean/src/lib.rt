//! The room of the cache: how it is cleaned.
#![tactic(auto)]

mod clean;
mod cleaned;
mod cut;
mod entry_text;
mod errors;
mod path_text;
mod place;
mod sweep;
mod wanted;

pub use clean::clean_entries;
pub use cleaned::Cleaned;
pub use just_cache::CacheError;
pub use just_host_record::Host;
pub use just_lang_types::Modulepath;
pub use just_path::Utf8Path;
