//! Lines as they are read: parts that are borrowed from the tree.

ghost use Rattle.std.specs.Prelude.{◌≡◌};
ghost use Rattle.just_eval.specs.Parts.{fragment_of};

use just_lang_syntax::{Expr, Fragment};

/// A part of a line.
#[derive(Clone, Copy)]
pub(crate) enum Part<'p> {
    Text(&'p str),
    Value(&'p Expr),
}

/// A line with those that it goes on with, and the number of the first.
#[derive(Drop)]
pub(crate) struct Joined<'p> {
    pub(crate) number: usize,
    pub(crate) parts: Vec<Part<'p>>,
}

/// A fragment, borrowed.
pub(crate) fn part_of(fragment: &Fragment) -> Part<'_>
    ensures { fragment_of result ≡ fragment.now }
{
    match fragment {
        Fragment::Text(text) => Part::Text(text.as_str()),
        Fragment::Value(expr) => Part::Value(expr),
    }
}
