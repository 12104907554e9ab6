//! Why a justfile can't be found or loaded.

ghost use Rattle.std.specs.Prelude.{◌≡◌};
ghost use Rattle.just_env.specs.declared.search_error.SearchError.TheVariants.{NoMemory as OutOfMemory};

use just_host_record::HostFault;
use just_lang_types::project::LangError;
use just_path::Utf8PathBuf;
use just_path_text::{NoMemory, Seq, Text};
use std::alloc::{AllocError, AllocFailed};

/// Why a justfile can't be found or loaded. No fault of a host that a variant holds is want of memory.
#[derive(Drop)]
pub enum SearchError {
    /// A call of the host on that path has no answer; the path of its environment is empty.
    FilesystemIo {
        path: Utf8PathBuf,
        io: HostFault,
    },
    /// The global justfile can't be initialized.
    GlobalJustfileInit,
    GlobalJustfileNotFound,
    InitWithJustfileFromStandardInput,
    JustfileHadNoParent {
        path: Utf8PathBuf,
    },
    /// A folder has several files that may be the justfile: their names, in the order of their bytes.
    MultipleCandidates {
        folder: Utf8PathBuf,
        candidates: Seq<Text>,
    },
    NotFound,
    /// Standard input can't be read.
    StdinIo {
        io: HostFault,
    },
    /// No temporary folder can be made.
    TempdirIo {
        io: HostFault,
    },
    /// A source can't be read.
    Load {
        path: Utf8PathBuf,
        io: HostFault,
    },
    Lang(LangError),
    NoMemory,
}

impl From<NoMemory> for SearchError {
    ghost from_gives = { λ _ e. e ≡ OutOfMemory };

    fn from(_refused: NoMemory) -> SearchError {
        SearchError::NoMemory
    }
}

impl From<AllocError> for SearchError {
    ghost from_gives = { λ _ e. e ≡ OutOfMemory };

    fn from(_refused: AllocError) -> SearchError {
        SearchError::NoMemory
    }
}

impl<T: Drop> From<AllocFailed<T>> for SearchError {
    ghost from_gives = { λ _ e. e ≡ OutOfMemory };

    fn from(_refused: AllocFailed<T>) -> SearchError {
        SearchError::NoMemory
    }
}
