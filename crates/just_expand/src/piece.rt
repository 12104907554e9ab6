//! The pieces of a text, cut off one by one.
ghost use Rattle.std.specs.Prelude.{◌≡◌, ◌++◌, ◌∷◌, [], false, MatchOption, List, ℕ, IsTrue, ◌↔◌};
ghost use Rattle.std.specs.Option.{option_copied};
ghost use Rattle.just_expand.specs.Bytes.{dollar_sign, open_brace, close_brace};
ghost use Rattle.just_expand.specs.Pieces.{is_name_char, Lacks, StandsBefore, Begins, piece_text, IsNameRun, BeginsWithoutName, unclosed};
ghost use Rattle.just_expand.specs.Expansion.{question};
ghost use Rattle.just_expand.specs.Code.{piece_of};

use unicode::properties::{GeneralCategory, GeneralCategoryGroup, is_alphabetic};

/// A piece of a text.
#[derive(Clone, Copy, Drop)]
pub(crate) enum Piece<'a> {
    /// Text without `$`.
    Plain(&'a str),
    /// `$$`.
    Dollar,
    /// `$name`.
    Bare(&'a str),
    /// `${name}`.
    Braced(&'a str),
    /// `${name:-default}`.
    Defaulted(&'a str, &'a str),
    /// A `${` that no `}` closes.
    Unclosed,
    /// Any other `$`.
    Lone,
}

impl<'a> Piece<'a> {
    /// The name that the piece asks for.
    pub(crate) fn question(&self) -> Option<&'a str>
        ensures { option_copied result ≡ question (piece_of self.now) }
    {
        match self {
            Piece::Bare(name) | Piece::Braced(name) | Piece::Defaulted(name, _) => Some(*name),
            _ => None,
        }
    }

    /// Whether it is a `${` that no `}` closes.
    pub(crate) fn is_unclosed(&self) -> bool
        ensures { IsTrue result ↔ (piece_of self.now ≡ unclosed) }
    {
        match self {
            Piece::Unclosed => true,
            _ => false,
        }
    }
}

/// Whether the character may stand in a name without braces.
#[tactic(auto, unfolding(crate::specs::Pieces::is_name_char))]
fn is_name_char(c: char) -> bool
    ensures { result ≡ is_name_char c }
{
    is_alphabetic(c)
        || GeneralCategoryGroup::Number.contains(GeneralCategory::for_char(c))
        || c == '_'
}

/// The longest run of name characters in front, and what follows it.
fn split_name(text: &str) -> (&str, &str)
    ensures whole { text.now ≡ result.0.now ++ result.1.now }
    ensures name { IsNameRun result.0.now }
    ensures longest { BeginsWithoutName result.1.now }
{
    match text.find(|c: char| !is_name_char(c)) {
        Some(end) => text.split_at(end),
        None => (text, ""),
    }
}

/// The piece that stands between `${` and the first `}`.
fn read_inside(inside: &str) -> Piece<'_>
    requires { Lacks close_brace inside.now }
    ensures { (rest : List ℕ) → Begins (dollar_sign ∷ open_brace ∷ (inside.now ++ (close_brace ∷ rest))) (piece_of result) rest }
{
    let Some((name, default)) = inside.split_once(":-") else {
        return Piece::Braced(inside);
    };
    if name.is_empty() {
        Piece::Braced(inside)
    } else {
        Piece::Defaulted(name, default)
    }
}

/// The piece that `${` begins, and what follows it; `behind` is what stands behind the `${`.
fn split_braced(behind: &str, may_close: bool) -> (Piece<'_>, &str)
    requires { may_close ≡ false → Lacks close_brace behind.now }
    ensures { Begins (dollar_sign ∷ open_brace ∷ behind.now) (piece_of result.0) result.1.now }
{
    if !may_close {
        return (Piece::Unclosed, behind);
    }
    match behind.split_once('}') {
        Some((inside, rest)) => (read_inside(inside), rest),
        None => (Piece::Unclosed, behind),
    }
}

/// The piece that a `$` begins, and what follows it; `behind` is what stands behind the `$`.
fn split_dollar(behind: &str, may_close: bool) -> (Piece<'_>, &str)
    requires { may_close ≡ false → Lacks close_brace behind.now }
    ensures { Begins (dollar_sign ∷ behind.now) (piece_of result.0) result.1.now }
{
    if let Some(rest) = behind.strip_prefix('$') {
        return (Piece::Dollar, rest);
    }
    if let Some(inside) = behind.strip_prefix('{') {
        return split_braced(inside, may_close);
    }
    let (name, rest) = split_name(behind);
    if name.is_empty() {
        (Piece::Lone, behind)
    } else {
        (Piece::Bare(name), rest)
    }
}

/// The first piece of a text and what follows it, or nothing for an empty text. Where `may_close` is false the
/// text holds no `}`, and none is looked for.
pub(crate) fn split_piece(text: &str, may_close: bool) -> Option<(Piece<'_>, &str)>
    requires { may_close ≡ false → Lacks close_brace text.now }
    ensures { MatchOption result (text.now ≡ []) (λ r. Begins text.now (piece_of r.0) r.1.now) }
{
    if text.is_empty() {
        return None;
    }
    if let Some(behind) = text.strip_prefix('$') {
        return Some(split_dollar(behind, may_close));
    }
    match text.find('$') {
        Some(end) => {
            let (plain, rest) = text.split_at(end);
            Some((Piece::Plain(plain), rest))
        }
        None => Some((Piece::Plain(text), "")),
    }
}
