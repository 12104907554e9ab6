//! The room of the search: where a justfile is or is to be written, the justfiles above it, the program that a name
//! means, and a tangled justfile as a file. What loads the files of a project is handed on from below.
#![tactic(auto)]

mod above;
mod climb;
mod fallback;
mod file;
mod finding;
mod global;
mod init;
mod law;
mod listing;
mod location;
mod place;
mod program;
mod removal;
mod root;
mod search_result;
mod searches;
mod text;
mod which_error;

pub use above::find_above;
pub use fallback::find_fallback;
pub use file::materialize;
pub use finding::{find, folder_of, given_path};
pub use just_config::{Config, SearchConfig};
pub use just_env::SearchError;
pub use just_host_record::{Call, Host, HostFault};
pub use just_lang_types::{LangError, Source};
pub use just_path::{Miss, PathFault, PathHost, Utf8Path, Utf8PathBuf};
pub use just_path_text::{Environ, NoMemory, Seq, Text};
pub use just_search_load::{Loader, tangle};
pub use law::{makes_in_folders, removes_in_folders};
pub use location::{Location, Origin};
pub use program::which;
pub use removal::remove_folders;
pub use root::root_of;
pub use search_result::Search;
pub use searches::{search, search_parent_directory};
pub use which_error::WhichError;
