//! The iterator over the texts of a path's components, from both ends.
ghost use Rattle.std.specs.Prelude.{◌≡◌, ℕ, map};
ghost use Rattle.std.specs.Iterator.{at_most};
ghost use Rattle.just_path.specs.Path.{text_of};
ghost use Rattle.just_path.specs.Comps.{comps, comp_text};
ghost use Rattle.std.specs.Option.{option_copied};
ghost use Rattle.just_path.specs.Mixture.{front, back, Moves};
ghost use Rattle.just_path.specs.Walk.{comps_left, slice_left, texts_left, texts_slice_left, texts_bound};

use super::{Utf8Components, Utf8Path};
use std::iter::FusedIterator;

/// The texts of a path's components, from either end.
#[derive(Clone, Drop)]
pub struct Iter<'a> {
    inner: Utf8Components<'a>,
}

impl<'a> Iter<'a> {
    pub(crate) fn new(inner: Utf8Components<'a>) -> Iter<'a>
        ensures left { texts_left result ≡ map comp_text (comps_left inner.entry) }
        ensures slice { (n k : ℕ) → texts_slice_left result n k ≡ slice_left inner.entry n k }
    {
        Iter { inner }
    }

    /// The slice of the path from the first to the last of the components that are left.
    ///
    /// ```
    /// let mut texts = Utf8Path::new("a//b/c").iter();
    /// let _last = texts.next_back();
    /// assert!(texts.as_path().as_str() == "a//b");
    /// ```
    pub fn as_path(&self) -> Utf8Path<'a>
        ensures slice { text_of result ≡ texts_slice_left self.now 0 0 }
        ensures left { map comp_text (comps (text_of result)) ≡ texts_left self.now }
    {
        self.inner.as_path()
    }
}

impl<'a> Iterator for Iter<'a> {
    type Item = &'a str;

    ghost next_gives = { λ s r t. Moves texts_left texts_slice_left s (front (option_copied r)) t };

    ghost remaining = { λ s. at_most (texts_bound s) };

    fn next(&mut self) -> Option<&'a str> {
        match self.inner.take_first() {
            Some(component) => Some(component.as_str()),
            None => None,
        }
    }
}

impl<'a> DoubleEndedIterator for Iter<'a> {
    ghost next_back_gives = { λ s r t. Moves texts_left texts_slice_left s (back (option_copied r)) t };

    fn next_back(&mut self) -> Option<&'a str> {
        match self.inner.take_last() {
            Some(component) => Some(component.as_str()),
            None => None,
        }
    }
}

impl<'a> FusedIterator for Iter<'a> {}
