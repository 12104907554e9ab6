//! The absolute path of a path.
ghost use Rattle.std.specs.Prelude.{◌≡◌, ◌≢◌, [], true, false, Err, IfOk, OnOk, MatchResult};
ghost use Rattle.just_path.specs.Path.{text_of, is_absolute};
ghost use Rattle.just_path.specs.Absolute.{is_double, root_of, spread, under, Gives, PutsUnder};

use super::path::needs_slash;
use super::walk::first_name;
use super::{Miss, PathFault, PathHost, Utf8Path, Utf8PathBuf};
use just_path_text::NoMemory;
use std::alloc::Global;

/// The path as an absolute one. An absolute path is rebuilt from its components, where two slashes in front stay
/// two; another is put under the host's current folder, without a `.` in front. Each `..` stays, and a `/` at the
/// end. The empty path isn't found, and the host isn't asked for it.
///
/// ```
/// // where the current folder is /a: /a/b/../c/
/// let path = absolute_utf8(alloc, Utf8Path::new("./b/../c/"), &mut host)?;
/// ```
pub fn absolute_utf8<H: PathHost>(
    alloc: Global,
    path: Utf8Path<'_>,
    host: &mut H,
) -> Result<Utf8PathBuf, PathFault>
    ensures empty { text_of path.entry ≡ [] → (result ≡ Err (PathFault.Missed Miss.NotFound)) × (host.new ≡ host.old) }
    ensures root { is_absolute (text_of path.entry) ≡ true → Gives (under (root_of (text_of path.entry)) (text_of path.entry)) result × (host.new ≡ host.old) }
    ensures relative { text_of path.entry ≢ [] → is_absolute (text_of path.entry) ≡ false → PutsUnder H.went H.view (text_of path.entry) host.old host.new result }
{
    if path.as_str().is_empty() {
        return Err(PathFault::Missed(Miss::NotFound));
    }
    if path.is_absolute() {
        let whole = rooted(alloc, path.as_str());
        return given(whole);
    }
    match host.current() {
        Ok(folder) => {
            let whole = under(folder, path.as_str());
            given(whole)
        }
        Err(fault) => Err(fault),
    }
}

/// A path, unless memory was wanting.
fn given(path: Result<Utf8PathBuf, NoMemory>) -> Result<Utf8PathBuf, PathFault>
    ensures { MatchResult path (λ p. Gives p result) (λ _. result ≡ Err PathFault.NoMemory) }
{
    match path {
        Ok(path) => Ok(path),
        Err(NoMemory) => Err(PathFault::NoMemory),
    }
}

/// Whether a text begins with two slashes and no more.
fn is_double(text: &str) -> bool
    ensures { result ≡ is_double text.now }
{
    match text.as_bytes() {
        [first, second, rest @ ..] => {
            *first == b'/' && *second == b'/' && rest.first() != Some(&b'/')
        }
        _ => false,
    }
}

/// An absolute text, rebuilt.
fn rooted(alloc: Global, text: &str) -> Result<Utf8PathBuf, NoMemory>
    ensures { IfOk result (λ p. p ≡ under (root_of text.now) text.now) }
{
    let root = if is_double(text) { "//" } else { "/" };
    let base = Utf8PathBuf::from_str(alloc, root)?;
    under(base, text)
}

/// A text, put under a folder.
#[tactic(auto, unfolding(crate::specs::Absolute::under))]
fn under(folder: Utf8PathBuf, text: &str) -> Result<Utf8PathBuf, NoMemory>
    ensures { IfOk result (λ p. p ≡ under folder text.now) }
{
    let mut path = folder;
    spread(&mut path, text)?;
    if !needs_slash(text) {
        path.push(Utf8Path::new(""))?;
    }
    Ok(path)
}

/// Pushes the names and `..` of a text.
fn spread(path: &mut Utf8PathBuf, text: &str) -> Result<(), NoMemory>
    ensures { OnOk result (path.new ≡ spread path.old text.now) }
{
    let mut left = text;
    'names: while let Some((name, after)) = first_name(left) {
        path.push(Utf8Path::new(name.as_str()))?;
        left = after;
    }
    Ok(())
}
