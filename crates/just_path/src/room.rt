//! Owned paths: how they begin, and the memory that they keep.
ghost use Rattle.std.specs.Prelude.{◌≡◌, ◌≤◌, [], length, IfOk, IsOk, fold, OnOk, OnErr};
ghost use Rattle.just_path.specs.Path.{text_of, pushed};

use super::{Utf8Path, Utf8PathBuf};
use just_path_text::NoMemory;
use std::alloc::Global;

impl Utf8PathBuf {
    /// The empty path; it takes no memory.
    ///
    /// ```
    /// assert!(Utf8PathBuf::new(alloc).as_str() == "");
    /// ```
    pub fn new(alloc: Global) -> Utf8PathBuf
        ensures { result ≡ [] }
    {
        Utf8PathBuf {
            text: String::new(alloc),
        }
    }

    /// The empty path, with room for a text of `capacity` bytes.
    ///
    /// ```
    /// let path = Utf8PathBuf::with_capacity(alloc, 64)?;
    /// ```
    pub fn with_capacity(alloc: Global, capacity: usize) -> Result<Utf8PathBuf, NoMemory>
        ensures { IfOk result (λ p. p ≡ []) }
    {
        let text = String::with_capacity(alloc, capacity)?;
        Ok(Utf8PathBuf { text })
    }

    /// A path of that text.
    ///
    /// ```
    /// assert!(Utf8PathBuf::from_str(alloc, "a/b")?.as_str() == "a/b");
    /// ```
    pub fn from_str(alloc: Global, text: &str) -> Result<Utf8PathBuf, NoMemory>
        ensures { IfOk result (λ p. p ≡ text.now) }
    {
        let text = String::from_str(alloc, text)?;
        Ok(Utf8PathBuf { text })
    }

    /// The parts, pushed one behind the other on the empty path.
    ///
    /// ```
    /// assert!(Utf8PathBuf::from_parts(alloc, &["/a", "b"])?.as_str() == "/a/b");
    /// ```
    pub fn from_parts(alloc: Global, parts: &[&str]) -> Result<Utf8PathBuf, NoMemory>
        ensures { IfOk result (λ p. p ≡ fold (λ path part. pushed path part.now) [] parts.now) }
    {
        let mut path = Utf8PathBuf::new(alloc);
        path.extend(parts)?;
        Ok(path)
    }

    /// Pushes the parts one behind the other. Where memory is wanting the path is as it was.
    ///
    /// ```
    /// path.extend(&["b", "c"])?;
    /// ```
    pub fn extend(&mut self, parts: &[&str]) -> Result<(), NoMemory>
        ensures ok { OnOk result (self.new ≡ fold (λ path part. pushed path part.now) self.old parts.now) }
        ensures err { OnErr result (self.new ≡ self.old) }
    {
        let mut path = self.try_clone()?;
        for part in parts {
            path.push(Utf8Path::new(*part))?;
        }
        *self = path;
        Ok(())
    }

    /// How many bytes the text may have before it needs more memory: its length, at least.
    ///
    /// ```
    /// assert!(path.as_str().len() <= path.capacity());
    /// ```
    pub fn capacity(&self) -> usize
        ensures { length self.now ≤ result }
    {
        self.text.capacity()
    }

    /// Makes the path empty. Its memory stays.
    ///
    /// ```
    /// path.clear();
    /// assert!(path.as_str() == "");
    /// ```
    pub fn clear(&mut self)
        ensures { self.new ≡ [] }
    {
        self.text.clear();
    }

    /// Makes room for `additional` more bytes; the text stays, whatever the answer.
    ///
    /// ```
    /// path.reserve(8)?;
    /// ```
    pub fn reserve(&mut self, additional: usize) -> Result<(), NoMemory>
        ensures { self.new ≡ self.old }
    {
        self.text.reserve(additional)?;
        Ok(())
    }

    /// As `reserve`, which answers want of memory too.
    ///
    /// ```
    /// path.try_reserve(8)?;
    /// ```
    pub fn try_reserve(&mut self, additional: usize) -> Result<(), NoMemory>
        ensures { self.new ≡ self.old }
    {
        self.reserve(additional)
    }

    /// Makes room for just `additional` more bytes; the text stays, whatever the answer.
    ///
    /// ```
    /// path.reserve_exact(8)?;
    /// ```
    pub fn reserve_exact(&mut self, additional: usize) -> Result<(), NoMemory>
        ensures { self.new ≡ self.old }
    {
        self.text.reserve_exact(additional)?;
        Ok(())
    }

    /// As `reserve_exact`, which answers want of memory too.
    ///
    /// ```
    /// path.try_reserve_exact(8)?;
    /// ```
    pub fn try_reserve_exact(&mut self, additional: usize) -> Result<(), NoMemory>
        ensures { self.new ≡ self.old }
    {
        self.reserve_exact(additional)
    }

    /// Gives back the memory that the text doesn't need. It is never refused.
    ///
    /// ```
    /// path.shrink_to_fit()?;
    /// ```
    pub fn shrink_to_fit(&mut self) -> Result<(), NoMemory>
        ensures text { self.new ≡ self.old }
        ensures ok { IsOk result }
    {
        self.text.shrink_to_fit();
        Ok(())
    }

    /// Gives back the memory that a text of `capacity` bytes doesn't need. It is never refused.
    ///
    /// ```
    /// path.shrink_to(16)?;
    /// ```
    pub fn shrink_to(&mut self, capacity: usize) -> Result<(), NoMemory>
        ensures text { self.new ≡ self.old }
        ensures ok { IsOk result }
    {
        self.text.shrink_to(capacity);
        Ok(())
    }
}
