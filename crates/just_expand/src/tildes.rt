//! A leading tilde, and the home folder in its place.
ghost use Rattle.std.specs.Prelude.{◌≡◌, ◌∷◌, ◌++◌, ℕ, List, IfOk, string_bytes};
ghost use Rattle.std.specs.Cow.{cow_str_bytes};
ghost use Rattle.std.specs.Bool.{MatchBool};
ghost use Rattle.std.specs.Option.{MatchOption, IsNone, option_map};
ghost use Rattle.just_expand.specs.Contexts.{MayCall, GivesHome};
ghost use Rattle.just_expand.specs.Bytes.{dollar_sign, tilde_sign};
ghost use Rattle.just_expand.specs.Pieces.{Lacks, BeginsWithout};
ghost use Rattle.just_expand.specs.Tilde.{CallsForHome, NeedsNoHome, GainsTilde, BringsTilde, StaysAtAnyHome};

use std::alloc::{AllocError, Global};
use std::borrow::CowStr;

/// Whether the text begins with a tilde.
fn begins_with_tilde(text: &str) -> bool
    ensures { MatchBool result ((rest : List ℕ) × (text.now ≡ tilde_sign ∷ rest)) (BeginsWithout tilde_sign text.now) }
{
    match text.strip_prefix('~') {
        Some(_) => true,
        None => false,
    }
}

/// Whether `text` begins with a tilde, and `input` doesn't.
pub(crate) fn gains_tilde(input: &str, text: &str) -> bool
    ensures { MatchBool result (GainsTilde input.now text.now) (GainsTilde input.now text.now → ⊥) }
{
    !begins_with_tilde(input) && begins_with_tilde(text)
}

/// What stands behind a tilde that calls for the home folder.
pub(crate) fn behind_tilde(text: &str) -> Option<&str>
    ensures { MatchOption result (NeedsNoHome text.now) (λ rest. CallsForHome text.now rest.now) }
{
    let Some(behind) = text.strip_prefix('~') else {
        return None;
    };
    if behind.is_empty() {
        return Some(behind);
    }
    match behind.strip_prefix('/') {
        Some(_) => Some(behind),
        None => None,
    }
}

/// What stands behind a tilde of the expanded text that calls for the home folder: none where the expansion brought
/// the tilde to the front.
pub(crate) fn behind_own_tilde<'t>(input: &str, expanded: &'t CowStr<'_, Global>) -> Option<&'t str>
    requires { Lacks dollar_sign input.now → cow_str_bytes expanded.now ≡ input.now }
    ensures calls { MatchOption result (StaysAtAnyHome input.now (cow_str_bytes expanded.now)) (λ rest. (BringsTilde input.now (cow_str_bytes expanded.now) → ⊥) × CallsForHome (cow_str_bytes expanded.now) rest.now) }
    ensures brought { BeginsWithout tilde_sign input.now → IsNone result }
{
    let text = match expanded {
        CowStr::Borrowed(text) => *text,
        CowStr::Owned(text) => text.as_str(),
    };
    if gains_tilde(input, text) {
        return None;
    }
    behind_tilde(text)
}

/// The home folder, and behind it the rest of the text.
pub(crate) fn put_home(alloc: Global, home: &str, behind: &str) -> Result<String, AllocError>
    ensures { IfOk result (λ out. string_bytes out ≡ home.now ++ behind.now) }
{
    let mut out = String::from_str(alloc, home)?;
    out.push_str(behind)?;
    Ok(out)
}

/// Asks for the home folder.
pub(crate) fn ask_home<H>(home_dir: H) -> Option<String>
where
    H: FnOnce() -> Option<String>,
    requires { MayCall H.FnOnce home_dir }
    ensures { GivesHome H.FnOnce home_dir (option_map string_bytes result) }
{
    home_dir()
}
