//! The room of the search: the files of a project, loaded one after the other; a justfile that stands in a markdown text.
#![tactic(auto)]

mod fence;
mod loader;
mod loading;
mod markdown;
mod named;
mod present;
mod shown;

pub use just_env::SearchError;
pub use loader::Loader;
pub use markdown::tangle;
