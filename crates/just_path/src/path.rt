//! Borrowed paths: what they are made of, and what is joined to them.
ghost use Rattle.std.specs.Prelude.{◌≡◌, IfOk, IsTrue, ◌↔◌, slice_get, Some};
ghost use Rattle.just_path.specs.Path.{text_of, pushed, is_absolute, ends_open};
ghost use Rattle.just_path.specs.Comps.{comps, join_comps};

use super::Utf8PathBuf;
use just_path_text::NoMemory;
use std::alloc::Global;

/// A borrowed path: a text that is read as Unix paths are.
#[derive(Clone, Copy, Drop)]
pub struct Utf8Path<'a> {
    text: &'a str,
}

impl<'a> Utf8Path<'a> {
    /// The path of a text. Each text is one; what it is made of is decided when it is asked for.
    ///
    /// ```
    /// let path = Utf8Path::new("a/b");
    /// ```
    pub fn new(text: &'a str) -> Utf8Path<'a>
        ensures { text_of result ≡ text.now }
    {
        Utf8Path { text }
    }

    /// The text, as it was given.
    ///
    /// ```
    /// assert!(Utf8Path::new("a//b/").as_str() == "a//b/");
    /// ```
    pub fn as_str(&self) -> &'a str
        ensures { result.now ≡ text_of self.now }
    {
        self.text
    }

    /// Whether the text begins with `/`.
    ///
    /// ```
    /// assert!(Utf8Path::new("/a").is_absolute());
    /// assert!(!Utf8Path::new("a").is_absolute());
    /// ```
    pub fn is_absolute(&self) -> bool
        ensures { result ≡ is_absolute (text_of self.now) }
    {
        self.text.as_bytes().first() == Some(&b'/')
    }

    /// A copy that owns its text.
    ///
    /// ```
    /// assert!(Utf8Path::new("a/b").to_path_buf(alloc)?.as_str() == "a/b");
    /// ```
    pub fn to_path_buf(&self, alloc: Global) -> Result<Utf8PathBuf, NoMemory>
        ensures { IfOk result (λ p. p ≡ text_of self.now) }
    {
        let text = String::from_str(alloc, self.text)?;
        Ok(Utf8PathBuf::from(text))
    }

    /// A copy with `path` pushed: an absolute path replaces this one; else one `/` stands between, where the text isn't empty
    /// and doesn't end in one. So the empty path adds a `/`.
    ///
    /// ```
    /// assert!(Utf8Path::new("a").join(alloc, Utf8Path::new("b"))?.as_str() == "a/b");
    /// assert!(Utf8Path::new("a").join(alloc, Utf8Path::new("/x"))?.as_str() == "/x");
    /// assert!(Utf8Path::new("a").join(alloc, Utf8Path::new(""))?.as_str() == "a/");
    /// ```
    #[tactic(auto, using(crate::proofs::Pushes::comps_of_join))]
    pub fn join(&self, alloc: Global, path: Utf8Path<'_>) -> Result<Utf8PathBuf, NoMemory>
        ensures path { IfOk result (λ p. p ≡ pushed (text_of self.now) (text_of path.entry)) }
        // Its components are those of both.
        ensures comps { IfOk result (λ p. comps p ≡ join_comps (comps (text_of self.now)) (comps (text_of path.entry))) }
    {
        let path = put_on(alloc, self.text, path)?;
        Ok(path)
    }
}

/// The push rule, on a copy of the text.
fn put_on(alloc: Global, base: &str, path: Utf8Path<'_>) -> Result<Utf8PathBuf, NoMemory>
    ensures { IfOk result (λ p. p ≡ pushed base.now (text_of path.entry)) }
{
    if path.is_absolute() {
        return path.to_path_buf(alloc);
    }
    let mut joined = Utf8PathBuf::from_str(alloc, base)?;
    joined.push(path)?;
    Ok(joined)
}

/// Whether a `/` goes between this text and what is pushed on it.
pub(crate) fn needs_slash(text: &str) -> bool
    ensures { result ≡ ends_open text.now }
{
    match text.as_bytes().last() {
        None => false,
        Some(byte) => *byte != b'/',
    }
}
