//! The errors of owned bytes that aren't UTF-8; each keeps them.
ghost use Rattle.std.specs.Prelude.{◌≡◌, Some, codes};
ghost use Rattle.just_path.specs.declared.broken.Broken.{Broken};
ghost use Rattle.just_path.specs.Utf8.{shown_with};
ghost use Rattle.just_path.specs.Errors.{path_place, os_str_place, path_buf_bytes, path_buf_place, os_string_bytes, os_string_place, boxed_path_bytes, boxed_path_place};

use super::broken::{Broken, write_behind};
use super::{FromOsStrError, FromPathError, Miss, PathFault};
use std::error::Error;
use std::fmt;

/// Bytes of a path that aren't UTF-8; the error keeps them.
#[derive(Debug, PartialEq, Eq, Drop)]
pub struct FromPathBufError {
    bytes: Vec<u8>,
    cause: Broken,
}

impl FromPathBufError {
    pub(crate) fn new(bytes: Vec<u8>, cause: Broken) -> FromPathBufError
        ensures bytes { path_buf_bytes result ≡ bytes }
        ensures cause { path_buf_place result ≡ cause }
    {
        FromPathBufError { bytes, cause }
    }

    /// The bytes, as they were given: of an error over `foo\xfe` these four.
    pub fn as_path(&self) -> &[u8]
        ensures { result.now ≡ (path_buf_bytes self.now).items }
    {
        self.bytes.as_slice()
    }

    /// The bytes, as they were given, without taking memory.
    pub fn into_path_buf(self) -> Vec<u8>
        ensures { result ≡ path_buf_bytes self }
    {
        let FromPathBufError { bytes, cause: _ } = self;
        bytes
    }

    /// Where they break: of `foo\xfe` behind 3 bytes, for 1.
    pub fn from_path_error(&self) -> FromPathError
        ensures { path_place result ≡ path_buf_place self.now }
    {
        FromPathError::new(self.cause)
    }

    /// The same as a fault of a host: `Missed(NotUtf8)`.
    pub fn into_io_error(self) -> PathFault
        ensures { result ≡ PathFault.Missed Miss.NotUtf8 }
    {
        PathFault::Missed(Miss::NotUtf8)
    }
}

impl fmt::Display for FromPathBufError {
    ghost output = { λ e. Some (shown_with (codes "PathBuf contains invalid UTF-8: ") (path_buf_bytes e).items) };

    fn fmt<W: fmt::Write>(&self, f: &mut fmt::Formatter<W>) -> fmt::Result {
        write_behind("PathBuf contains invalid UTF-8: ", self.bytes.as_slice(), f)
    }
}

impl Error for FromPathBufError {}

/// Bytes of a system's text that aren't UTF-8; the error keeps them.
#[derive(Debug, PartialEq, Eq, Drop)]
pub struct FromOsStringError {
    bytes: Vec<u8>,
    cause: Broken,
}

impl FromOsStringError {
    pub(crate) fn new(bytes: Vec<u8>, cause: Broken) -> FromOsStringError
        ensures bytes { os_string_bytes result ≡ bytes }
        ensures cause { os_string_place result ≡ cause }
    {
        FromOsStringError { bytes, cause }
    }

    /// The bytes, as they were given: of an error over `foo\xfe` these four.
    pub fn as_os_str(&self) -> &[u8]
        ensures { result.now ≡ (os_string_bytes self.now).items }
    {
        self.bytes.as_slice()
    }

    /// The bytes, as they were given, without taking memory.
    pub fn into_os_string(self) -> Vec<u8>
        ensures { result ≡ os_string_bytes self }
    {
        let FromOsStringError { bytes, cause: _ } = self;
        bytes
    }

    /// Where they break: of `foo\xfe` behind 3 bytes, for 1.
    pub fn from_os_str_error(&self) -> FromOsStrError
        ensures { os_str_place result ≡ os_string_place self.now }
    {
        FromOsStrError::new(self.cause)
    }

    /// The same as a fault of a host: `Missed(NotUtf8)`.
    pub fn into_io_error(self) -> PathFault
        ensures { result ≡ PathFault.Missed Miss.NotUtf8 }
    {
        PathFault::Missed(Miss::NotUtf8)
    }
}

impl fmt::Display for FromOsStringError {
    ghost output = { λ e. Some (shown_with (codes "OsString contains invalid UTF-8: ") (os_string_bytes e).items) };

    fn fmt<W: fmt::Write>(&self, f: &mut fmt::Formatter<W>) -> fmt::Result {
        write_behind(
            "OsString contains invalid UTF-8: ",
            self.bytes.as_slice(),
            f,
        )
    }
}

impl Error for FromOsStringError {}

/// Bytes of a boxed path that aren't UTF-8; the error keeps them.
#[derive(Debug, PartialEq, Eq, Drop)]
pub struct FromBoxedPathError {
    bytes: Vec<u8>,
    cause: Broken,
}

impl FromBoxedPathError {
    pub(crate) fn new(bytes: Vec<u8>, cause: Broken) -> FromBoxedPathError
        ensures bytes { boxed_path_bytes result ≡ bytes }
        ensures cause { boxed_path_place result ≡ cause }
    {
        FromBoxedPathError { bytes, cause }
    }

    /// The bytes, as they were given: of an error over `foo\xfe` these four.
    pub fn as_path(&self) -> &[u8]
        ensures { result.now ≡ (boxed_path_bytes self.now).items }
    {
        self.bytes.as_slice()
    }

    /// The bytes, as they were given, without taking memory.
    pub fn into_boxed_path(self) -> Vec<u8>
        ensures { result ≡ boxed_path_bytes self }
    {
        let FromBoxedPathError { bytes, cause: _ } = self;
        bytes
    }

    /// Where they break: of `foo\xfe` behind 3 bytes, for 1.
    pub fn from_path_error(&self) -> FromPathError
        ensures { path_place result ≡ boxed_path_place self.now }
    {
        FromPathError::new(self.cause)
    }

    /// The same as a fault of a host: `Missed(NotUtf8)`.
    pub fn into_io_error(self) -> PathFault
        ensures { result ≡ PathFault.Missed Miss.NotUtf8 }
    {
        PathFault::Missed(Miss::NotUtf8)
    }
}

impl fmt::Display for FromBoxedPathError {
    ghost output = { λ e. Some (shown_with (codes "Box<Path> contains invalid UTF-8: ") (boxed_path_bytes e).items) };

    fn fmt<W: fmt::Write>(&self, f: &mut fmt::Formatter<W>) -> fmt::Result {
        write_behind(
            "Box<Path> contains invalid UTF-8: ",
            self.bytes.as_slice(),
            f,
        )
    }
}

impl Error for FromBoxedPathError {}
