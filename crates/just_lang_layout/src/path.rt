//! The paths that the strings of imports and modules mean.

ghost use Rattle.std.specs.Prelude.{◌≡◌, ℕ, List, Option, IfOk, Some};
ghost use Rattle.std.specs.Option.{option_copied};
ghost use Rattle.std.specs.Cow.{cow_str_bytes};
ghost use Rattle.just_path_text.specs.Environ.{home_of};
ghost use Rattle.just_lang_layout.specs.Paths.{Means, ExpandsIf, begins_folder, behind_home, with_home, path_under};

use just_expand::{Expand, full};
use just_lang_read::ReadError;
use just_lang_syntax::StringLiteral;
use just_path::{Utf8Path, Utf8PathBuf};
use just_path_text::{Environ, NoMemory, Text};
use std::alloc::Global;
use std::borrow::CowStr;

/// The text that an expansion gave.
fn text_from(alloc: Global, out: CowStr<'_, Global>) -> Result<Option<Text>, NoMemory>
    ensures { IfOk result (λ t. t ≡ Some (cow_str_bytes out.entry)) }
{
    match out {
        CowStr::Borrowed(text) => Ok(Some(Text::from_str(alloc, text)?)),
        CowStr::Owned(text) => Ok(Some(Text::from(text))),
    }
}

/// What a text becomes over the environment; none where it is refused.
fn expanded(alloc: Global, environ: &Environ, text: &str) -> Result<Option<Text>, NoMemory>
    ensures { IfOk result (ExpandsIf environ.now.pairs (Some text.now)) }
{
    match full(alloc, text, environ) {
        Ok(out) => text_from(alloc, out),
        Err(Expand::Lookup(_)) => Ok(None),
        Err(Expand::NoMemory) => Err(NoMemory),
    }
}

/// The text of a string, expanded over the environment where an `x` stands in front; none where there is none.
#[tactic(auto, using(crate::proofs::Strings::none_meant, crate::proofs::Strings::as_it_stands, crate::proofs::Strings::by_expansion))]
fn text_meant(
    alloc: Global,
    environ: &Environ,
    string: &StringLiteral,
) -> Result<Option<Text>, NoMemory>
    ensures { IfOk result (Means environ.now.pairs string.now) }
{
    let text = match string.text(alloc) {
        Ok(text) => text,
        Err(ReadError::NoMemory) => return Err(NoMemory),
        Err(ReadError::Syntax | ReadError::Depth) => return Ok(None),
    };
    if string.expands {
        let out = expanded(alloc, environ, text.as_str());
        drop(text);
        return out;
    }
    Ok(Some(text))
}

/// The text that a string means, with an `x` in front expanded over the environment; none where it can't be.
#[tactic(auto, using(crate::proofs::Meanings::means_once))]
pub fn meaning(
    alloc: Global,
    environ: &Environ,
    string: &StringLiteral,
) -> Result<Option<Text>, NoMemory>
    ensures means { IfOk result (Means environ.now.pairs string.now) }
    // It means no other.
    ensures only { IfOk result (λ t. (other : Option (List ℕ)) → Means environ.now.pairs string.now other → other ≡ t) }
{
    let text = text_meant(alloc, environ, string)?;
    Ok(text)
}

/// Whether a text is empty or begins with `/`.
fn begins_folder(text: &str) -> bool
    ensures { result ≡ begins_folder text.now }
{
    matches!(text.as_bytes(), [] | [b'/', ..])
}

/// What stands behind a `~` that stands alone or before `/`.
#[tactic(auto, using(crate::proofs::Homes::without_tilde, crate::proofs::Homes::before_folder, crate::proofs::Homes::before_name))]
fn behind_home(text: &str) -> Option<&str>
    ensures { option_copied result ≡ behind_home text.now }
{
    match text.strip_prefix('~') {
        Some(rest) => {
            if begins_folder(rest) {
                Some(rest)
            } else {
                None
            }
        }
        None => None,
    }
}

/// A text with the home folder in place of such a `~`; none where there is no home folder.
fn with_home(alloc: Global, home: Option<&str>, text: &str) -> Result<Option<Text>, NoMemory>
    ensures { IfOk result (λ t. t ≡ with_home (option_copied home.entry) text.now) }
{
    let Some(rest) = behind_home(text) else {
        return Ok(Some(Text::from_str(alloc, text)?));
    };
    let Some(home) = home else {
        return Ok(None);
    };
    let mut path = String::from_str(alloc, home)?;
    path.push_str(rest)?;
    Ok(Some(Text::from(path)))
}

/// The clean path that a text means in a file of that root.
pub fn path_under(
    alloc: Global,
    environ: &Environ,
    root: &Utf8PathBuf,
    text: &str,
) -> Result<Option<Utf8PathBuf>, NoMemory>
    ensures { IfOk result (λ p. p ≡ path_under (home_of environ.now.pairs) root.now text.now) }
{
    let Some(text) = with_home(alloc, environ.home(), text)? else {
        return Ok(None);
    };
    let path = root.as_path().join(alloc, Utf8Path::new(text.as_str()));
    drop(text);
    let path = path?;
    let path = path.as_path().clean(alloc)?;
    Ok(Some(path))
}
