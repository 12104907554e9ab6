//! Why a text is no justfile.
ghost use Rattle.std.specs.Prelude.{◌≡◌};

use just_lang_read::ReadError;
use just_path_text::NoMemory as OutOfMemory;
use std::alloc::{AllocError, AllocFailed};

/// The kinds of faults of a text.
#[derive(Clone, Copy, Debug, PartialEq, Eq)]
pub enum FaultKind {
    /// It doesn't fit the grammar.
    Syntax,
    /// It has a setting or an attribute that is left out.
    Unsupported,
    /// An expression has more than 256 levels.
    Depth,
}

/// A fault with its place: line and column from 1, the column in characters.
#[derive(Clone, Copy, Debug, PartialEq, Eq)]
pub struct Fault {
    pub kind: FaultKind,
    pub line: usize,
    pub column: usize,
}

/// Why a text gives no tree.
#[derive(Clone, Copy, Debug, PartialEq, Eq)]
pub enum ParseError {
    Fault(Fault),
    NoMemory,
}

impl From<AllocError> for ParseError {
    ghost use Rattle.std.specs.Prelude.{◌≡◌};
    ghost use Rattle.just_lang_syntax.specs.declared.error.ParseError.{ParseError};
    ghost use Rattle.just_lang_syntax.specs.declared.error.ParseError.TheVariants.{NoMemory};

    ghost from_gives = { λ e r. r ≡ NoMemory };

    fn from(_refused: AllocError) -> ParseError
        ensures { result ≡ ParseError.NoMemory }
    {
        ParseError::NoMemory
    }
}

impl<T: Drop> From<AllocFailed<T>> for ParseError {
    ghost use Rattle.std.specs.Prelude.{◌≡◌};
    ghost use Rattle.just_lang_syntax.specs.declared.error.ParseError.{ParseError};
    ghost use Rattle.just_lang_syntax.specs.declared.error.ParseError.TheVariants.{NoMemory};

    ghost from_gives = { λ e r. r ≡ NoMemory };

    fn from(_refused: AllocFailed<T>) -> ParseError
        ensures { result ≡ ParseError.NoMemory }
    {
        ParseError::NoMemory
    }
}

impl From<OutOfMemory> for ParseError {
    ghost use Rattle.std.specs.Prelude.{◌≡◌};
    ghost use Rattle.just_lang_syntax.specs.declared.error.ParseError.{ParseError};
    ghost use Rattle.just_lang_syntax.specs.declared.error.ParseError.TheVariants.{NoMemory};

    ghost from_gives = { λ e r. r ≡ NoMemory };

    fn from(_refused: OutOfMemory) -> ParseError
        ensures { result ≡ ParseError.NoMemory }
    {
        ParseError::NoMemory
    }
}
