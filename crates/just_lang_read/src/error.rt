//! Why nothing was read.
ghost use Rattle.std.specs.Prelude.{◌≡◌};

use std::alloc::{AllocError, AllocFailed};

/// Why nothing was read. A reader's contract doesn't say where it leaves its cursor then.
#[derive(Clone, Copy, Debug, PartialEq, Eq)]
pub enum ReadError {
    /// What stands there is not what the grammar asks for.
    Syntax,
    /// It nests deeper than the grammar allows.
    Depth,
    /// Memory was wanting.
    NoMemory,
}

impl From<AllocError> for ReadError {
    ghost use Rattle.std.specs.Prelude.{◌≡◌};
    ghost use Rattle.just_lang_read.specs.declared.error.ReadError.{ReadError};
    ghost use Rattle.just_lang_read.specs.declared.error.ReadError.TheVariants.{NoMemory};

    ghost from_gives = { λ e r. r ≡ NoMemory };

    fn from(_refused: AllocError) -> ReadError
        ensures { result ≡ ReadError.NoMemory }
    {
        ReadError::NoMemory
    }
}

impl<T: Drop> From<AllocFailed<T>> for ReadError {
    ghost use Rattle.std.specs.Prelude.{◌≡◌};
    ghost use Rattle.just_lang_read.specs.declared.error.ReadError.{ReadError};
    ghost use Rattle.just_lang_read.specs.declared.error.ReadError.TheVariants.{NoMemory};

    ghost from_gives = { λ e r. r ≡ NoMemory };

    fn from(_refused: AllocFailed<T>) -> ReadError
        ensures { result ≡ ReadError.NoMemory }
    {
        ReadError::NoMemory
    }
}
