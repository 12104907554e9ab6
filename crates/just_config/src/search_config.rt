//! How the justfile is found.

use just_path::Utf8PathBuf;

/// How the justfile is found. The first two are searches: folder by folder upwards.
pub enum SearchConfig {
    /// From the folder in which the program was called.
    FromInvocationDirectory,
    /// From this folder.
    FromSearchDirectory(Utf8PathBuf),
    /// The user's own justfile.
    GlobalJustfile,
    /// What is read from standard input; the working folder, where it is given.
    StandardInput(Option<Utf8PathBuf>),
    /// This file.
    WithJustfile(Utf8PathBuf),
    /// This file, run in this folder.
    WithJustfileAndWorkingDirectory(Utf8PathBuf, Utf8PathBuf),
}

impl Drop for SearchConfig {
    fn drop(self) {
        match self {
            SearchConfig::FromSearchDirectory(_) | SearchConfig::WithJustfile(_) => {}
            SearchConfig::StandardInput(_) => {}
            SearchConfig::WithJustfileAndWorkingDirectory(_, _) => {}
            SearchConfig::FromInvocationDirectory | SearchConfig::GlobalJustfile => {}
        }
    }
}
