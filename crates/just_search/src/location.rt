//! What is found.

use just_path::Utf8PathBuf;

/// Where the text of a justfile comes from.
#[derive(Drop)]
pub enum Origin {
    File(Utf8PathBuf),
    /// A file whose code blocks are the text.
    Markdown(Utf8PathBuf),
    StandardInput,
}

/// A justfile, and the folder in which it is run.
#[derive(Drop)]
pub struct Location {
    pub origin: Origin,
    pub working_directory: Utf8PathBuf,
}
