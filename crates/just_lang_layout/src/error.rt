//! Why sources have no layout.

ghost use Rattle.std.specs.Prelude.{◌≡◌};
ghost use Rattle.just_lang_layout.specs.declared.error.LayoutError.TheVariants.{NoMemory as OutOfMemory};

use just_path::Utf8PathBuf;
use just_path_text::{NoMemory, Seq, Text};
use std::alloc::{AllocError, AllocFailed};

/// Why sources have no layout: a rule on files that one of their imports and modules breaks.
#[derive(Drop)]
pub enum LayoutError {
    /// An import's file isn't among the sources.
    MissingImportFile,
    /// A file is named by one that it leads to.
    CircularImport {
        current: Utf8PathBuf,
        import: Utf8PathBuf,
    },
    /// A module's file isn't among the sources.
    MissingModuleFile {
        module: Text,
    },
    /// Several of the sources may be the module's file. Their paths are those under the folder of the file that names it.
    AmbiguousModuleFile {
        module: Text,
        found: Seq<Text>,
    },
    /// A path begins with `~`, and there is no home folder.
    Homedir,
    NoMemory,
}

impl From<NoMemory> for LayoutError {
    ghost from_gives = { λ _ e. e ≡ OutOfMemory };

    fn from(_refused: NoMemory) -> LayoutError {
        LayoutError::NoMemory
    }
}

impl From<AllocError> for LayoutError {
    ghost from_gives = { λ _ e. e ≡ OutOfMemory };

    fn from(_refused: AllocError) -> LayoutError {
        LayoutError::NoMemory
    }
}

impl<T: Drop> From<AllocFailed<T>> for LayoutError {
    ghost from_gives = { λ _ e. e ≡ OutOfMemory };

    fn from(_refused: AllocFailed<T>) -> LayoutError {
        LayoutError::NoMemory
    }
}
