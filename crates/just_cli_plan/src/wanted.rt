//! What is asked of a justfile.

use just_env::DotenvAsk;
use just_exec_work::RunFlags;
use just_lang_types::Override;
use just_path::Utf8PathBuf;
use just_path_text::{Seq, Text};
use std::num::NonZeroU64;

/// What is asked of a justfile.
#[derive(Drop)]
pub struct Wanted {
    /// The paths of recipes with their arguments.
    pub words: Seq<Text>,
    /// What the words give to variables, the earlier first.
    pub overrides: Seq<Override>,
    /// Whether one recipe alone may be asked for.
    pub one: bool,
    /// Whether recipes are run without their dependencies.
    pub no_deps: bool,
    /// Which dotenv files are loaded.
    pub dotenv: DotenvAsk,
    /// Whether unstable features may be used.
    pub unstable: bool,
    /// How many bodies may be open at once.
    pub jobs: Option<NonZeroU64>,
    /// The folder of the entries of caches.
    pub cache_folder: Utf8PathBuf,
    /// How recipes are run. The folder is the one that has the justfile.
    pub flags: RunFlags,
}
