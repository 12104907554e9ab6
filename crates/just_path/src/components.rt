//! The iterator over a path's components, from both ends.
ghost use Rattle.std.specs.Prelude.{◌≡◌, ◌<◌, ℕ, [], length, OnSome, option_map};
ghost use Rattle.std.specs.Iterator.{at_most};
ghost use Rattle.just_path.specs.Path.{text_of};
ghost use Rattle.just_path.specs.Comps.{names, comps};
ghost use Rattle.just_path.specs.Parts.{name_slice, slice};
ghost use Rattle.just_path.specs.Component.{comp_of};
ghost use Rattle.just_path.specs.Mixture.{front, back, Takes, Shortens, Moves};
ghost use Rattle.just_path.specs.Walk.{comps_left, slice_left, left_bound};

use super::scan::leading;
use super::walk::{first_name, last_name, trim_back, trim_front};
use super::{Utf8Component, Utf8Path};
use std::iter::FusedIterator;

/// The components of a path, from either end.
#[derive(Clone, Drop)]
pub struct Utf8Components<'a> {
    text: &'a str,
    started: bool,
}

impl<'a> Utf8Components<'a> {
    pub(crate) fn new(text: &'a str) -> Utf8Components<'a>
        ensures left { comps_left result ≡ comps text.now }
        ensures slice { (n k : ℕ) → slice_left result n k ≡ slice n k text.now }
    {
        Utf8Components {
            text,
            started: false,
        }
    }

    /// Another of the same components.
    pub(crate) fn copied(&self) -> Utf8Components<'a>
        ensures { comps_left result ≡ comps_left self.now }
    {
        Utf8Components {
            text: self.text,
            started: self.started,
        }
    }

    /// The slice of the path from the first to the last of the components that are left, whichever were taken from the front
    /// and the back.
    ///
    /// ```
    /// let mut components = Utf8Path::new("//a/./b/c").components();
    /// let _last = components.next_back();
    /// assert!(components.as_path().as_str() == "//a/./b");
    /// let _root = components.next();
    /// assert!(components.as_path().as_str() == "a/./b");
    /// ```
    pub fn as_path(&self) -> Utf8Path<'a>
        ensures slice { text_of result ≡ slice_left self.now 0 0 }
        ensures left { comps (text_of result) ≡ comps_left self.now }
    {
        if self.started {
            Utf8Path::new(trim_back(trim_front(self.text)))
        } else {
            Utf8Path::new(trim_back(self.text))
        }
    }

    /// The first component that is left.
    #[tactic(auto, using(crate::proofs::IteratorMoves::comps_led, crate::proofs::IteratorMoves::comps_unled, crate::proofs::IteratorMoves::slices_led, crate::proofs::IteratorMoves::first_unled))]
    pub(crate) fn take_first(&mut self) -> Option<Utf8Component<'a>>
        ensures step { Moves comps_left slice_left self.old (front (option_map comp_of result)) self.new }
        ensures progress { OnSome result (left_bound self.new < left_bound self.old) }
    {
        if self.started {
            return self.take_name();
        }
        self.started = true;
        match leading(self.text) {
            Some(first) => Some(first),
            None => self.take_name(),
        }
    }

    /// The first name that is left.
    #[tactic(auto, using(crate::proofs::IteratorMoves::no_names, crate::proofs::IteratorMoves::rests_over))]
    fn take_name(&mut self) -> Option<Utf8Component<'a>>
        ensures takes { Takes (names self.old.text.now) (front (option_map comp_of result)) (names self.new.text.now) }
        ensures shortens { Shortens (λ n k. name_slice n k self.old.text.now) (front (option_map comp_of result)) (λ n k. name_slice n k self.new.text.now) }
        ensures started { self.new.started ≡ self.old.started }
        ensures progress { OnSome result (length self.new.text.now < length self.old.text.now) }
    {
        match first_name(self.text) {
            Some((name, after)) => {
                self.text = after;
                Some(name)
            }
            None => {
                self.text = "";
                None
            }
        }
    }

    /// The last component that is left.
    #[tactic(auto, using(crate::proofs::IteratorMoves::last_left, crate::proofs::IteratorMoves::slices_last))]
    pub(crate) fn take_last(&mut self) -> Option<Utf8Component<'a>>
        ensures step { Moves comps_left slice_left self.old (back (option_map comp_of result)) self.new }
        ensures progress { OnSome result (left_bound self.new < left_bound self.old) }
    {
        if let Some((before, name)) = last_name(self.text) {
            self.text = before;
            return Some(name);
        }
        self.take_lead()
    }

    /// What stands in front, where no name is left behind it.
    #[tactic(auto, using(crate::proofs::IteratorMoves::no_names, crate::proofs::IteratorMoves::comps_led, crate::proofs::IteratorMoves::comps_unled, crate::proofs::IteratorMoves::slices_behind))]
    fn take_lead(&mut self) -> Option<Utf8Component<'a>>
        requires { names self.old.text.now ≡ [] }
        ensures step { Moves comps_left slice_left self.old (back (option_map comp_of result)) self.new }
        ensures progress { OnSome result (left_bound self.new < left_bound self.old) }
    {
        let text = self.text;
        self.text = "";
        if self.started {
            return None;
        }
        self.started = true;
        match leading(text) {
            Some(first) => Some(first),
            None => None,
        }
    }
}

impl<'a> Iterator for Utf8Components<'a> {
    type Item = Utf8Component<'a>;

    ghost next_gives = { λ s r t. Moves comps_left slice_left s (front (option_map comp_of r)) t };

    ghost remaining = { λ s. at_most (left_bound s) };

    fn next(&mut self) -> Option<Utf8Component<'a>> {
        self.take_first()
    }
}

impl<'a> DoubleEndedIterator for Utf8Components<'a> {
    ghost next_back_gives = { λ s r t. Moves comps_left slice_left s (back (option_map comp_of r)) t };

    fn next_back(&mut self) -> Option<Utf8Component<'a>> {
        self.take_last()
    }
}

impl<'a> FusedIterator for Utf8Components<'a> {}
