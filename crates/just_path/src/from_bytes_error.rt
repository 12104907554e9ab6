//! The errors of borrowed bytes that aren't UTF-8.
ghost use Rattle.std.specs.Prelude.{◌≡◌, Some, codes};
ghost use Rattle.just_path.specs.Errors.{path_place, os_str_place};
ghost use Rattle.just_path.specs.declared.broken.Broken.{Broken};

use super::broken::Broken;
use super::{Miss, PathFault};
use std::error::Error;
use std::fmt;

/// Borrowed bytes of a path that aren't UTF-8.
#[derive(Clone, Copy, Debug, PartialEq, Eq)]
pub struct FromPathError {
    cause: Broken,
}

impl FromPathError {
    pub(crate) fn new(cause: Broken) -> FromPathError
        ensures { path_place result ≡ cause }
    {
        FromPathError { cause }
    }

    /// How many bytes in front are UTF-8: of `foo\xfe` it is 3.
    pub fn valid_up_to(&self) -> usize
        ensures { result ≡ (path_place self.now).up_to }
    {
        self.cause.up_to
    }

    /// How many bytes the broken sequence behind them has: of `foo\xfe` it is 1; none where the bytes end inside it.
    pub fn error_len(&self) -> Option<u8>
        ensures { result ≡ (path_place self.now).len }
    {
        self.cause.len
    }

    /// The same as a fault of a host: `Missed(NotUtf8)`.
    pub fn into_io_error(self) -> PathFault
        ensures { result ≡ PathFault.Missed Miss.NotUtf8 }
    {
        PathFault::Missed(Miss::NotUtf8)
    }
}

impl fmt::Display for FromPathError {
    ghost output = { λ _. Some (codes "Path contains invalid UTF-8") };

    fn fmt<W: fmt::Write>(&self, f: &mut fmt::Formatter<W>) -> fmt::Result {
        f.write_str("Path contains invalid UTF-8")
    }
}

impl Error for FromPathError {}

/// Borrowed bytes of a system's text that aren't UTF-8.
#[derive(Clone, Copy, Debug, PartialEq, Eq)]
pub struct FromOsStrError {
    cause: Broken,
}

impl FromOsStrError {
    pub(crate) fn new(cause: Broken) -> FromOsStrError
        ensures { os_str_place result ≡ cause }
    {
        FromOsStrError { cause }
    }

    /// How many bytes in front are UTF-8: of `foo\xfe` it is 3.
    pub fn valid_up_to(&self) -> usize
        ensures { result ≡ (os_str_place self.now).up_to }
    {
        self.cause.up_to
    }

    /// How many bytes the broken sequence behind them has: of `foo\xfe` it is 1; none where the bytes end inside it.
    pub fn error_len(&self) -> Option<u8>
        ensures { result ≡ (os_str_place self.now).len }
    {
        self.cause.len
    }

    /// The same as a fault of a host: `Missed(NotUtf8)`.
    pub fn into_io_error(self) -> PathFault
        ensures { result ≡ PathFault.Missed Miss.NotUtf8 }
    {
        PathFault::Missed(Miss::NotUtf8)
    }
}

impl fmt::Display for FromOsStrError {
    ghost output = { λ _. Some (codes "OsStr contains invalid UTF-8") };

    fn fmt<W: fmt::Write>(&self, f: &mut fmt::Formatter<W>) -> fmt::Result {
        f.write_str("OsStr contains invalid UTF-8")
    }
}

impl Error for FromOsStrError {}
