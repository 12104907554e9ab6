//! Paths that are changed in place: push, pop, and another file name or extension.
ghost use Rattle.std.specs.Prelude.{◌≡◌, ◌≤◌, ◌<◌, ◌+◌, if◌then◌else◌, ◌++◌, ◌∷◌, [], length, take, IfSome, IfOk, OnOk, OnErr, IsTrue, is_some, option_map, unwrap_or, fold, map, string_bytes, string_len, string_capacity, IsUtf8};
ghost use Rattle.just_path.specs.Path.{text_of, pushed};
ghost use Rattle.just_path.specs.Comps.{comps, join_comps};
ghost use Rattle.just_path.specs.Parts.{parent_of, text_upto};
ghost use Rattle.just_path.specs.Names.{file_name_of, with_file_name, with_extension, with_added_extension, stem_end, has_no_slash, dot_and_extension};

use super::name::stem_of;
use super::path::needs_slash;
use super::walk::{last_name, trim_back};
use super::{Utf8Path, Utf8PathBuf};
use just_path_text::NoMemory;

/// The place in a path's text where the stem of its file name ends.
#[tactic(auto, using(crate::proofs::FileNames::file_name_last, crate::proofs::FileNames::file_name_none))]
fn stem_end(text: &str) -> Option<usize>
    ensures place { result ≡ option_map (λ name. stem_end text.now name) (file_name_of text.now) }
    ensures fits { IfSome result (λ n. n ≤ length text.now) }
    ensures utf8 { IfSome result (λ n. IsUtf8 (take n text.now)) }
{
    match last_name(text) {
        Some((_, last)) => match last.name() {
            Some(name) => {
                let ended = trim_back(text);
                let stem = stem_of(name);
                Some(ended.len() - (name.len() - stem.len()))
            }
            None => None,
        },
        None => None,
    }
}

/// Cuts a text to its first `end` bytes.
fn truncate(text: &mut String, end: usize)
    requires fits { end ≤ length (string_bytes text.old) }
    requires utf8 { IsUtf8 (take end (string_bytes text.old)) }
    ensures bytes { string_bytes text.new ≡ take end (string_bytes text.old) }
    ensures len { string_len text.new ≡ end }
    ensures capacity { string_capacity text.new ≡ string_capacity text.old }
{
    text.truncate(end);
}

/// Puts two texts at the end, where there is room for both.
fn put_both(text: &mut String, first: &str, second: &str)
    requires { string_len text.old + (length first.now + length second.now) ≤ string_capacity text.old }
    ensures { string_bytes text.new ≡ string_bytes text.old ++ (first.now ++ second.now) }
{
    match text.push_str(first) {
        Ok(()) => {}
        Err(_) => unreachable!(),
    }
    match text.push_str(second) {
        Ok(()) => {}
        Err(_) => unreachable!(),
    }
}

/// The push rule; it is refused only where there is no room for the path and a slash.
fn push(text: &mut String, path: &str) -> Result<(), NoMemory>
    ensures ok { OnOk result (string_bytes text.new ≡ pushed (string_bytes text.old) path.now) }
    ensures err { OnErr result (string_bytes text.new ≡ string_bytes text.old) }
    ensures full { OnErr result (string_capacity text.old < string_len text.old + (length path.now + 1)) }
{
    let path = Utf8Path::new(path);
    let added = path.as_str();
    text.reserve(added.len().saturating_add(1))?;
    if path.is_absolute() {
        text.clear();
        put_both(text, "", added);
        return Ok(());
    }
    if needs_slash(text.as_str()) {
        put_both(text, "/", added);
        return Ok(());
    }
    put_both(text, "", added);
    Ok(())
}

/// Cuts a path to its parent, where it has one.
fn pop(text: &mut String) -> bool
    ensures had { result ≡ is_some (parent_of (string_bytes text.old)) }
    ensures path { string_bytes text.new ≡ unwrap_or (parent_of (string_bytes text.old)) (string_bytes text.old) }
    ensures len { string_len text.new ≤ string_len text.old }
    ensures capacity { string_capacity text.new ≡ string_capacity text.old }
{
    let end = match Utf8Path::new(text.as_str()).parent() {
        Some(parent) => parent.as_str().len(),
        None => return false,
    };
    truncate(text, end);
    true
}

/// Cuts a path to its parent, where it has a file name.
fn pop_name(text: &mut String)
    ensures path { string_bytes text.new ≡ (if is_some (file_name_of (string_bytes text.old)) then unwrap_or (parent_of (string_bytes text.old)) (string_bytes text.old) else string_bytes text.old) }
    ensures len { string_len text.new ≤ string_len text.old }
    ensures capacity { string_capacity text.new ≡ string_capacity text.old }
{
    match Utf8Path::new(text.as_str()).file_name() {
        Some(_) => {}
        None => return,
    }
    pop(text);
}

/// Puts a dot and an extension at the end, nothing for the empty one; it is refused only where there is no room.
fn put_extension(text: &mut String, extension: &str) -> Result<(), NoMemory>
    ensures ok { OnOk result (string_bytes text.new ≡ string_bytes text.old ++ dot_and_extension extension.now) }
    ensures err { OnErr result (string_bytes text.new ≡ string_bytes text.old) }
    ensures full { OnErr result (string_capacity text.old < string_len text.old + (length extension.now + 1)) }
{
    if extension.is_empty() {
        return Ok(());
    }
    text.reserve(extension.len().saturating_add(1))?;
    put_both(text, ".", extension);
    Ok(())
}

impl Utf8PathBuf {
    /// Puts `path` on: an absolute path replaces this one; else one `/` stands between, where the text isn't empty and doesn't
    /// end in one. Where memory is wanting the path is as it was.
    ///
    /// ```
    /// let mut path = Utf8PathBuf::from_str(alloc, "a")?;
    /// path.push(Utf8Path::new("b"))?;
    /// assert!(path.as_str() == "a/b");
    /// ```
    #[tactic(auto, using(crate::proofs::Pushes::comps_of_join))]
    pub fn push(&mut self, path: Utf8Path<'_>) -> Result<(), NoMemory>
        ensures ok { OnOk result (self.new ≡ pushed self.old (text_of path.entry)) }
        // The components are those of both.
        ensures comps { OnOk result (comps self.new ≡ join_comps (comps self.old) (comps (text_of path.entry))) }
        ensures err { OnErr result (self.new ≡ self.old) }
    {
        push(&mut self.text, path.as_str())
    }

    /// Cuts the path to its parent. False, and nothing done, where there is none.
    ///
    /// ```
    /// let mut path = Utf8PathBuf::from_str(alloc, "/a")?;
    /// assert!(path.pop() && path.as_str() == "/");
    /// assert!(!path.pop());
    /// ```
    pub fn pop(&mut self) -> bool
        ensures had { result ≡ is_some (parent_of self.old) }
        ensures path { self.new ≡ unwrap_or (parent_of self.old) self.old }
    {
        pop(&mut self.text)
    }

    /// Puts another file name: pops where there is one, then pushes. Where memory is wanting the path is as it was.
    ///
    /// ```
    /// let mut path = Utf8PathBuf::from_str(alloc, "/a/b")?;
    /// path.set_file_name("c")?;
    /// assert!(path.as_str() == "/a/c");
    /// ```
    pub fn set_file_name(&mut self, name: &str) -> Result<(), NoMemory>
        ensures ok { OnOk result (self.new ≡ with_file_name self.old name.now) }
        ensures err { OnErr result (self.new ≡ self.old) }
    {
        self.text.reserve(name.len().saturating_add(1))?;
        pop_name(&mut self.text);
        push(&mut self.text, name)
    }

    /// Puts another extension: the path is cut where the stem of its file name ends, and a dot and the extension are put
    /// behind it, nothing for the empty one. False, and nothing done, where there is no file name. `extension` may hold no
    /// `/`.
    ///
    /// ```
    /// let mut path = Utf8PathBuf::from_str(alloc, "a/b.txt/")?;
    /// assert!(path.set_extension("rs")? && path.as_str() == "a/b.rs");
    /// ```
    pub fn set_extension(&mut self, extension: &str) -> Result<bool, NoMemory>
        requires { IsTrue (has_no_slash extension.now) }
        ensures had { IfOk result (λ b. b ≡ is_some (file_name_of self.old)) }
        ensures ok { OnOk result (self.new ≡ with_extension self.old extension.now) }
        ensures err { OnErr result (self.new ≡ self.old) }
    {
        let end = match stem_end(self.text.as_str()) {
            Some(end) => end,
            None => return Ok(false),
        };
        self.text.reserve(extension.len().saturating_add(1))?;
        truncate(&mut self.text, end);
        put_extension(&mut self.text, extension)?;
        Ok(true)
    }

    /// Puts a further extension behind the whole file name; the empty one changes nothing. False, and nothing done, where
    /// there is no file name. `extension` may hold no `/`.
    ///
    /// ```
    /// let mut path = Utf8PathBuf::from_str(alloc, "a/b.tar")?;
    /// assert!(path.add_extension("gz")? && path.as_str() == "a/b.tar.gz");
    /// ```
    #[tactic(auto, using(crate::proofs::TextFronts::text_upto_front))]
    pub fn add_extension(&mut self, extension: &str) -> Result<bool, NoMemory>
        requires { IsTrue (has_no_slash extension.now) }
        ensures had { IfOk result (λ b. b ≡ is_some (file_name_of self.old)) }
        ensures ok { OnOk result (self.new ≡ with_added_extension self.old extension.now) }
        ensures err { OnErr result (self.new ≡ self.old) }
    {
        match Utf8Path::new(self.text.as_str()).file_name() {
            Some(_) => {}
            None => return Ok(false),
        }
        if extension.is_empty() {
            return Ok(true);
        }
        self.text.reserve(extension.len().saturating_add(1))?;
        let end = trim_back(self.text.as_str()).len();
        truncate(&mut self.text, end);
        put_extension(&mut self.text, extension)?;
        Ok(true)
    }
}
