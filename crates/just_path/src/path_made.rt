//! Paths made of a path: with another name or extension; and its text as bytes.
ghost use Rattle.std.specs.Prelude.{◌≡◌, ◌++◌, ◌∷◌, if◌then◌else◌, not, IfOk, IsTrue, OnOk};
ghost use Rattle.just_path.specs.Path.{text_of, pushed, is_absolute};
ghost use Rattle.just_path.specs.Names.{with_file_name, with_extension, with_added_extension, has_no_slash};

use super::path::needs_slash;
use super::{Utf8Path, Utf8PathBuf};
use just_path_text::NoMemory;
use std::alloc::{AllocError, Global};

impl<'a> Utf8Path<'a> {
    /// The text's bytes.
    ///
    /// ```
    /// assert!(Utf8Path::new("a").as_std_path() == b"a".as_slice());
    /// ```
    pub fn as_std_path(&self) -> &'a [u8]
        ensures { result.now ≡ text_of self.now }
    {
        self.as_str().as_bytes()
    }

    /// The text's bytes.
    ///
    /// ```
    /// assert!(Utf8Path::new("a").as_os_str() == b"a".as_slice());
    /// ```
    pub fn as_os_str(&self) -> &'a [u8]
        ensures { result.now ≡ text_of self.now }
    {
        self.as_str().as_bytes()
    }

    /// Whether the text begins with `/`: the same as `is_absolute`, since paths here are those of Unix.
    ///
    /// ```
    /// assert!(Utf8Path::new("/").has_root());
    /// ```
    pub fn has_root(&self) -> bool
        ensures { result ≡ is_absolute (text_of self.now) }
    {
        self.is_absolute()
    }

    /// Whether the text doesn't begin with `/`.
    ///
    /// ```
    /// assert!(Utf8Path::new("a").is_relative());
    /// ```
    pub fn is_relative(&self) -> bool
        ensures { result ≡ not (is_absolute (text_of self.now)) }
    {
        !self.is_absolute()
    }

    /// A copy with another file name: pushed on the parent where the path has a file name, else on the path.
    ///
    /// ```
    /// assert!(Utf8Path::new("/a/b").with_file_name(alloc, "c")?.as_str() == "/a/c");
    /// ```
    pub fn with_file_name(&self, alloc: Global, name: &str) -> Result<Utf8PathBuf, NoMemory>
        ensures { IfOk result (λ p. p ≡ with_file_name (text_of self.now) name.now) }
    {
        let mut path = self.to_path_buf(alloc)?;
        path.set_file_name(name)?;
        Ok(path)
    }

    /// A copy with another extension of its file name, where it has one; the empty extension takes the last one off.
    /// `extension` may hold no `/`.
    ///
    /// ```
    /// assert!(Utf8Path::new("a/b.txt").with_extension(alloc, "rs")?.as_str() == "a/b.rs");
    /// ```
    pub fn with_extension(&self, alloc: Global, extension: &str) -> Result<Utf8PathBuf, NoMemory>
        requires { IsTrue (has_no_slash extension.now) }
        ensures { IfOk result (λ p. p ≡ with_extension (text_of self.now) extension.now) }
    {
        let mut path = self.to_path_buf(alloc)?;
        path.set_extension(extension)?;
        Ok(path)
    }

    /// A copy with a further extension of its file name, where it has one. `extension` may hold no `/`.
    ///
    /// ```
    /// assert!(Utf8Path::new("a/b.tar").with_added_extension(alloc, "gz")?.as_str() == "a/b.tar.gz");
    /// ```
    pub fn with_added_extension(
        &self,
        alloc: Global,
        extension: &str,
    ) -> Result<Utf8PathBuf, NoMemory>
        requires { IsTrue (has_no_slash extension.now) }
        ensures { IfOk result (λ p. p ≡ with_added_extension (text_of self.now) extension.now) }
    {
        let mut path = self.to_path_buf(alloc)?;
        path.add_extension(extension)?;
        Ok(path)
    }

    /// The push rule of `join` on bytes that needn't be text.
    ///
    /// ```
    /// assert!(Utf8Path::new("a").join_os(alloc, b"\xff")?.as_slice() == b"a/\xff".as_slice());
    /// ```
    pub fn join_os(&self, alloc: Global, path: &[u8]) -> Result<Vec<u8>, NoMemory>
        ensures { IfOk result (λ bytes. bytes.items ≡ pushed (text_of self.now) path.now) }
    {
        let absolute = path.first() == Some(&b'/');
        if absolute {
            return Ok(Vec::from_slice(alloc, path)?);
        }
        let mut bytes = Vec::from_slice(alloc, self.as_os_str())?;
        put_behind(&mut bytes, needs_slash(self.as_str()), path)?;
        Ok(bytes)
    }
}

/// Puts bytes on, behind a `/` where one is wanted.
fn put_behind(bytes: &mut Vec<u8>, slash: bool, path: &[u8]) -> Result<(), AllocError>
    ensures { OnOk result (bytes.new.items ≡ (if slash then bytes.old.items ++ (47 ∷ path.now) else bytes.old.items ++ path.now)) }
{
    if slash {
        bytes.push(b'/')?;
    }
    bytes.extend_from_slice(path)?;
    Ok(())
}
