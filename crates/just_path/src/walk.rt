//! The first and the last name of a text, found piece by piece.
ghost use Rattle.std.specs.Prelude.{◌≡◌, ◌≤◌, [], length, MatchOption};
ghost use Rattle.just_path.specs.Comps.{names, comps};
ghost use Rattle.just_path.specs.Component.{comp_of};
ghost use Rattle.just_path.specs.Parts.{text_upto, name_slice};
ghost use Rattle.just_path.specs.Scan.{HasFirst, HasLast};

use super::Utf8Component;
use super::component::component_of;
use super::scan::{first_piece, last_piece, leading_len};

/// The first name of a text, and what follows it.
pub(crate) fn first_name(text: &str) -> Option<(Utf8Component<'_>, &str)>
    ensures { MatchOption result (names text.now ≡ []) (λ r. HasFirst text.now (comp_of r.0) r.1.now) }
{
    let mut left = text;
    while !left.is_empty() {
        let (piece, after) = first_piece(left);
        match component_of(piece) {
            Some(name) => return Some((name, after)),
            None => left = after,
        }
    }
    None
}

/// The last name of a text, and what stands before it.
pub(crate) fn last_name(text: &str) -> Option<(&str, Utf8Component<'_>)>
    ensures { MatchOption result (names text.now ≡ []) (λ r. HasLast text.now r.0.now (comp_of r.1)) }
{
    let low = leading_len(text);
    let mut left = text;
    while left.len() > low {
        let (before, piece) = last_piece(left, low);
        match component_of(piece) {
            Some(name) => return Some((before, name)),
            None => left = before,
        }
    }
    None
}

/// A text from its first name on.
pub(crate) fn trim_front(text: &str) -> &str
    ensures slice { text_upto 0 result.now ≡ name_slice 0 0 text.now }
    ensures comps { comps result.now ≡ names text.now }
{
    let mut left = text;
    while !left.is_empty() {
        let (piece, after) = first_piece(left);
        match component_of(piece) {
            Some(_) => return left,
            None => left = after,
        }
    }
    ""
}

/// A text up to its last component.
pub(crate) fn trim_back(text: &str) -> &str
    ensures slice { result.now ≡ text_upto 0 text.now }
    ensures comps { comps result.now ≡ comps text.now }
    ensures no_longer { length result.now ≤ length text.now }
{
    let low = leading_len(text);
    let mut left = text;
    while left.len() > low {
        let (before, piece) = last_piece(left, low);
        match component_of(piece) {
            Some(_) => return left,
            None => left = before,
        }
    }
    left
}
