//! What the words of a run say of its commands.

use just_path::Utf8PathBuf;
use just_path_text::{Seq, Text};

/// What the words of a run say of its commands.
pub struct RunFlags {
    pub shell: Option<Text>,
    pub shell_args: Option<Seq<Text>>,
    /// Whether nothing is printed beside what children print.
    pub quiet: bool,
    /// Whether each line is printed.
    pub loquacious: bool,
    /// Whether nothing is run.
    pub dry_run: bool,
    pub no_cache: bool,
    /// Whether nothing is asked.
    pub yes: bool,
    /// Whether a recipe's doc is printed with its banner.
    pub explain: bool,
    /// Where the folders of scripts are made, under the working folder.
    pub tempdir: Option<Utf8PathBuf>,
    /// The working folder that the search gives.
    pub folder: Utf8PathBuf,
}

impl Drop for RunFlags {
    fn drop(self) {
        let RunFlags {
            shell: _,
            shell_args: _,
            quiet: _,
            loquacious: _,
            dry_run: _,
            no_cache: _,
            yes: _,
            explain: _,
            tempdir: _,
            folder: _,
        } = self;
    }
}
