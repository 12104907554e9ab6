//! A path with its parents, one behind the other.
ghost use Rattle.std.specs.Prelude.{◌≡◌, [], ◌∷◌, MatchOption};
ghost use Rattle.std.specs.Iterator.{at_most};
ghost use Rattle.just_path.specs.Path.{text_of};
ghost use Rattle.just_path.specs.Ancestors.{ancestors_of, ancestors_left, ancestors_bound};

use super::Utf8Path;
use std::iter::FusedIterator;

/// A path, its parent, and so on, until there is none.
#[derive(Clone, Copy)]
pub struct Utf8Ancestors<'a> {
    next: Option<Utf8Path<'a>>,
}

impl<'a> Utf8Ancestors<'a> {
    pub(crate) fn new(path: Utf8Path<'a>) -> Utf8Ancestors<'a>
        ensures { ancestors_left result ≡ ancestors_of (text_of path.entry) }
    {
        Utf8Ancestors { next: Some(path) }
    }
}

impl<'a> Iterator for Utf8Ancestors<'a> {
    type Item = Utf8Path<'a>;

    ghost next_gives = { λ s r t. MatchOption r ((ancestors_left s ≡ []) × (ancestors_left t ≡ [])) (λ p. ancestors_left s ≡ text_of p ∷ ancestors_left t) };

    ghost remaining = { λ s. at_most (ancestors_bound s) };

    #[tactic(auto, using(crate::proofs::AncestorLists::ancestors_step))]
    fn next(&mut self) -> Option<Utf8Path<'a>> {
        match self.next {
            Some(path) => {
                self.next = path.parent();
                Some(path)
            }
            None => None,
        }
    }
}

impl<'a> FusedIterator for Utf8Ancestors<'a> {}
