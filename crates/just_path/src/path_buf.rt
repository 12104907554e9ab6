//! Owned paths: what they are made of, and what is seen of them.
ghost use Rattle.std.specs.Prelude.{◌≡◌, IfOk, string_bytes};
ghost use Rattle.just_path.specs.Path.{text_of};

use super::Utf8Path;
use just_path_text::{NoMemory, TryClone};
use std::marker::Model;

/// An owned path, which contracts see as the list of its text's bytes.
pub struct Utf8PathBuf {
    pub(crate) text: String,
}

impl Drop for Utf8PathBuf {
    fn drop(self) {
        let Utf8PathBuf { text: _ } = self;
    }
}

impl Model for Utf8PathBuf {
    ghost use Rattle.std.specs.Prelude.{ℕ, List, string_bytes};

    ghost Value = { List ℕ };

    ghost view = { λ p. string_bytes p.text };
}

impl From<String> for Utf8PathBuf {
    ghost from_gives = { λ s p. p ≡ string_bytes s };

    fn from(text: String) -> Utf8PathBuf
        ensures { result ≡ string_bytes text }
    {
        Utf8PathBuf { text }
    }
}

impl Utf8PathBuf {
    /// The path, borrowed.
    ///
    /// ```
    /// assert!(path.as_path().as_str() == path.as_str());
    /// ```
    pub fn as_path(&self) -> Utf8Path<'_>
        ensures { text_of result ≡ self.now }
    {
        Utf8Path::new(self.text.as_str())
    }

    /// The text.
    ///
    /// ```
    /// assert!(Utf8PathBuf::from_str(alloc, "a/b")?.as_str() == "a/b");
    /// ```
    pub fn as_str(&self) -> &str
        ensures { result.now ≡ self.now }
    {
        self.text.as_str()
    }

    /// The string that holds the text, without taking memory.
    ///
    /// ```
    /// let string = path.into_string();
    /// ```
    pub fn into_string(self) -> String
        ensures { string_bytes result ≡ self }
    {
        let Utf8PathBuf { text } = self;
        text
    }

    /// A copy on the same allocator, of the same text.
    ///
    /// ```
    /// assert!(path.try_clone()?.as_str() == path.as_str());
    /// ```
    pub fn try_clone(&self) -> Result<Utf8PathBuf, NoMemory>
        ensures { IfOk result (λ p. p ≡ self.now) }
    {
        let text = self.text.clone()?;
        Ok(Utf8PathBuf { text })
    }
}

impl TryClone for Utf8PathBuf {
    fn try_clone(&self) -> Result<Utf8PathBuf, NoMemory> {
        Utf8PathBuf::try_clone(self)
    }
}
