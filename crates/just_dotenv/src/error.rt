//! Why a dotenv text gives no pairs.
ghost use Rattle.std.specs.Prelude.{◌≡◌};

use just_path_text::NoMemory;
use std::alloc::{AllocError, AllocFailed};
use std::error::Error;
use std::fmt;

/// Why a dotenv text gives no pairs. It prints as `line 2`, or as `out of memory`.
#[derive(Clone, Copy, Debug)]
pub enum DotenvError {
    /// The line, from 1, on which the first entry begins that can't be read. A quoted value may span lines, so what is wrong may
    /// stand on a later one.
    Line(usize),
    /// Memory was wanting, which says nothing of the text.
    NoMemory,
}

impl From<NoMemory> for DotenvError {
    ghost use Rattle.std.specs.Prelude.{◌≡◌};
    ghost use Rattle.just_dotenv.specs.declared.error.DotenvError.{DotenvError};
    ghost use Rattle.just_dotenv.specs.declared.error.DotenvError.TheVariants.{NoMemory as OutOfMemory};

    ghost from_gives = { λ e r. r ≡ OutOfMemory };

    fn from(_refused: NoMemory) -> DotenvError
        ensures { result ≡ DotenvError.NoMemory }
    {
        DotenvError::NoMemory
    }
}

impl From<AllocError> for DotenvError {
    ghost use Rattle.std.specs.Prelude.{◌≡◌};
    ghost use Rattle.just_dotenv.specs.declared.error.DotenvError.{DotenvError};
    ghost use Rattle.just_dotenv.specs.declared.error.DotenvError.TheVariants.{NoMemory};

    ghost from_gives = { λ e r. r ≡ NoMemory };

    fn from(_refused: AllocError) -> DotenvError
        ensures { result ≡ DotenvError.NoMemory }
    {
        DotenvError::NoMemory
    }
}

impl<T: Drop> From<AllocFailed<T>> for DotenvError {
    ghost use Rattle.std.specs.Prelude.{◌≡◌};
    ghost use Rattle.just_dotenv.specs.declared.error.DotenvError.{DotenvError};
    ghost use Rattle.just_dotenv.specs.declared.error.DotenvError.TheVariants.{NoMemory};

    ghost from_gives = { λ e r. r ≡ NoMemory };

    fn from(_refused: AllocFailed<T>) -> DotenvError
        ensures { result ≡ DotenvError.NoMemory }
    {
        DotenvError::NoMemory
    }
}

impl fmt::Display for DotenvError {
    ghost use Rattle.std.specs.Prelude.{Some};
    ghost use Rattle.just_dotenv.specs.Texts.{error_text};

    ghost output = { λ e. Some (error_text e) };

    fn fmt<W: fmt::Write>(&self, f: &mut fmt::Formatter<W>) -> fmt::Result {
        match self {
            DotenvError::Line(line) => write!(f, "line {line}"),
            DotenvError::NoMemory => f.write_str("out of memory"),
        }
    }
}

impl Error for DotenvError {}
