//! A justfile as it is read.

ghost use Rattle.std.specs.Prelude.{◌≡◌};
ghost use Rattle.just_path.specs.Path.{text_of};
ghost use Rattle.just_search.specs.Finding.{folder_of};

use just_path::{Utf8Path, Utf8PathBuf};

/// A justfile as it is read, and the folder in which it is run.
#[derive(Drop)]
pub struct Search {
    pub justfile: Utf8PathBuf,
    /// The temporary folder that the justfile stands in, where its text is no file's.
    pub tempdir: Option<Utf8PathBuf>,
    pub working_directory: Utf8PathBuf,
}

impl Search {
    /// The folder of the justfile; its own path where it has no parent.
    pub fn justfile_parent(&self) -> Utf8Path<'_>
        ensures { text_of result ≡ folder_of self.now.justfile }
    {
        match self.justfile.as_path().parent() {
            Some(folder) => folder,
            None => self.justfile.as_path(),
        }
    }
}
