//! Paths of bytes: what is UTF-8 is a path, and what isn't is refused with where it breaks.
ghost use Rattle.std.specs.Prelude.{◌≡◌, MatchOption, MatchResult, IsUtf8};
ghost use Rattle.just_path.specs.Path.{text_of};
ghost use Rattle.just_path.specs.Utf8.{Breaks};
ghost use Rattle.just_path.specs.Errors.{BreaksAt, path_place, os_str_place, path_buf_bytes, path_buf_place, os_string_bytes, os_string_place, boxed_path_bytes, boxed_path_place};

use super::broken::{Broken, text_of_bytes};
use super::{
    FromBoxedPathError, FromOsStrError, FromOsStringError, FromPathBufError, FromPathError,
    Utf8Path, Utf8PathBuf,
};

impl<'a> Utf8Path<'a> {
    /// The path of these bytes; none exactly where they aren't UTF-8.
    ///
    /// ```
    /// assert!(Utf8Path::from_path(b"foo\xfe").is_none());
    /// ```
    pub fn from_path(bytes: &'a [u8]) -> Option<Utf8Path<'a>>
        ensures { MatchOption result (IsUtf8 bytes.now → ⊥) (λ p. text_of p ≡ bytes.now) }
    {
        match text_of_bytes(bytes) {
            Ok(text) => Some(Utf8Path::new(text)),
            Err(_) => None,
        }
    }

    /// The path of these bytes; none exactly where they aren't UTF-8.
    ///
    /// ```
    /// assert!(Utf8Path::from_os_str(b"foo").is_some());
    /// ```
    pub fn from_os_str(bytes: &'a [u8]) -> Option<Utf8Path<'a>>
        ensures { MatchOption result (IsUtf8 bytes.now → ⊥) (λ p. text_of p ≡ bytes.now) }
    {
        Utf8Path::from_path(bytes)
    }

    /// The path of these bytes; exactly where they aren't UTF-8, where they break.
    ///
    /// ```
    /// assert!(Utf8Path::try_from_path(b"foo\xfe").is_err_and(|error| error.valid_up_to() == 3));
    /// ```
    pub fn try_from_path(bytes: &'a [u8]) -> Result<Utf8Path<'a>, FromPathError>
        ensures { MatchResult result (λ p. text_of p ≡ bytes.now) (λ e. BreaksAt bytes.now (path_place e)) }
    {
        match text_of_bytes(bytes) {
            Ok(text) => Ok(Utf8Path::new(text)),
            Err(cause) => Err(FromPathError::new(cause)),
        }
    }

    /// The path of these bytes; exactly where they aren't UTF-8, where they break.
    ///
    /// ```
    /// assert!(Utf8Path::try_from_os_str(b"foo\xfe").is_err_and(|error| error.error_len() == Some(1)));
    /// ```
    pub fn try_from_os_str(bytes: &'a [u8]) -> Result<Utf8Path<'a>, FromOsStrError>
        ensures { MatchResult result (λ p. text_of p ≡ bytes.now) (λ e. BreaksAt bytes.now (os_str_place e)) }
    {
        match text_of_bytes(bytes) {
            Ok(text) => Ok(Utf8Path::new(text)),
            Err(cause) => Err(FromOsStrError::new(cause)),
        }
    }
}

/// The path of these bytes, or the bytes with where they break. It takes no memory.
fn path_of_bytes(bytes: Vec<u8>) -> Result<Utf8PathBuf, (Vec<u8>, Broken)>
    ensures { MatchResult result (λ p. p ≡ bytes.items) (λ e. (e.0 ≡ bytes) × Breaks bytes.items e.1.up_to e.1.len) }
{
    if let Err(cause) = text_of_bytes(bytes.as_slice()) {
        return Err((bytes, cause));
    }
    match String::from_utf8(bytes) {
        Ok(text) => Ok(Utf8PathBuf::from(text)),
        Err(_) => unreachable!(),
    }
}

impl Utf8PathBuf {
    /// The path of these bytes, or, exactly where they aren't UTF-8, the same bytes.
    ///
    /// ```
    /// assert!(Utf8PathBuf::from_path_buf(vec![in alloc; b'a']?).is_ok());
    /// ```
    pub fn from_path_buf(bytes: Vec<u8>) -> Result<Utf8PathBuf, Vec<u8>>
        ensures { MatchResult result (λ p. p ≡ bytes.items) (λ b. (b ≡ bytes) × (IsUtf8 bytes.items → ⊥)) }
    {
        match path_of_bytes(bytes) {
            Ok(path) => Ok(path),
            Err((bytes, _)) => Err(bytes),
        }
    }

    /// The path of these bytes, or, exactly where they aren't UTF-8, the same bytes.
    ///
    /// ```
    /// assert!(Utf8PathBuf::from_os_string(vec![in alloc; 255]?).is_err());
    /// ```
    pub fn from_os_string(bytes: Vec<u8>) -> Result<Utf8PathBuf, Vec<u8>>
        ensures { MatchResult result (λ p. p ≡ bytes.items) (λ b. (b ≡ bytes) × (IsUtf8 bytes.items → ⊥)) }
    {
        Utf8PathBuf::from_path_buf(bytes)
    }

    /// The path of these bytes, or, exactly where they aren't UTF-8, the same bytes.
    ///
    /// ```
    /// assert!(Utf8PathBuf::from_boxed_path(vec![in alloc; b'a']?).is_ok());
    /// ```
    pub fn from_boxed_path(bytes: Vec<u8>) -> Result<Utf8PathBuf, Vec<u8>>
        ensures { MatchResult result (λ p. p ≡ bytes.items) (λ b. (b ≡ bytes) × (IsUtf8 bytes.items → ⊥)) }
    {
        Utf8PathBuf::from_path_buf(bytes)
    }

    /// The path of these bytes; exactly where they aren't UTF-8, the error, which keeps them.
    ///
    /// ```
    /// assert!(Utf8PathBuf::try_from_path_buf(vec![in alloc; 255]?).is_err());
    /// ```
    pub fn try_from_path_buf(bytes: Vec<u8>) -> Result<Utf8PathBuf, FromPathBufError>
        ensures { MatchResult result (λ p. p ≡ bytes.items) (λ e. (path_buf_bytes e ≡ bytes) × BreaksAt bytes.items (path_buf_place e)) }
    {
        match path_of_bytes(bytes) {
            Ok(path) => Ok(path),
            Err((bytes, cause)) => Err(FromPathBufError::new(bytes, cause)),
        }
    }

    /// The path of these bytes; exactly where they aren't UTF-8, the error, which keeps them.
    ///
    /// ```
    /// assert!(Utf8PathBuf::try_from_os_string(vec![in alloc; 255]?).is_err());
    /// ```
    pub fn try_from_os_string(bytes: Vec<u8>) -> Result<Utf8PathBuf, FromOsStringError>
        ensures { MatchResult result (λ p. p ≡ bytes.items) (λ e. (os_string_bytes e ≡ bytes) × BreaksAt bytes.items (os_string_place e)) }
    {
        match path_of_bytes(bytes) {
            Ok(path) => Ok(path),
            Err((bytes, cause)) => Err(FromOsStringError::new(bytes, cause)),
        }
    }

    /// The path of these bytes; exactly where they aren't UTF-8, the error, which keeps them.
    ///
    /// ```
    /// assert!(Utf8PathBuf::try_from_boxed_path(vec![in alloc; 255]?).is_err());
    /// ```
    pub fn try_from_boxed_path(bytes: Vec<u8>) -> Result<Utf8PathBuf, FromBoxedPathError>
        ensures { MatchResult result (λ p. p ≡ bytes.items) (λ e. (boxed_path_bytes e ≡ bytes) × BreaksAt bytes.items (boxed_path_place e)) }
    {
        match path_of_bytes(bytes) {
            Ok(path) => Ok(path),
            Err((bytes, cause)) => Err(FromBoxedPathError::new(bytes, cause)),
        }
    }

    /// The text's bytes; it takes no memory.
    ///
    /// ```
    /// let bytes = path.into_std_path_buf();
    /// ```
    pub fn into_std_path_buf(self) -> Vec<u8>
        ensures { result.items ≡ self }
    {
        self.into_string().into_bytes()
    }

    /// The text's bytes; it takes no memory.
    ///
    /// ```
    /// let bytes = path.into_os_string();
    /// ```
    pub fn into_os_string(self) -> Vec<u8>
        ensures { result.items ≡ self }
    {
        self.into_std_path_buf()
    }
}
