//! Owned sequences: a `Vec` that contracts see as the list of its items.
ghost use Rattle.std.specs.Prelude.{◌≡◌, [], length, IsTrue, IfOk, ◌↔◌};
ghost use Rattle.std.specs.Cmp.Lexicographic.{pointwise, slice_cmp, slice_partial_cmp, lists_equiv, lists_agrees, lists_total, lists_ties, lists_po, lists_per};
ghost use Rattle.std.specs.Hash.{items_Alike};
ghost use Rattle.std.specs.Hash as fed;

use super::{NoMemory, TryClone};
use std::alloc::Global;
use std::cmp::Ordering;
use std::hash::{Hash, Hasher};
use std::marker::Model;

/// An owned sequence that contracts see as the list of its items. A type may hold itself through it. Sequences are
/// compared and ordered item by item, and equal ones hash alike.
///
/// ```
/// let some = Seq::from(vec![in alloc; 1u8, 2]?);
/// let other = some.try_clone()?;
/// assert!(some == other && some.len() == 2);
/// ```
#[derive(Debug, Drop)]
pub struct Seq<T> {
    vec: Vec<T>,
}

impl<T> Model for Seq<T> {
    ghost use Rattle.std.specs.Prelude.{List};
    ghost use Rattle.std.specs.Coded.{coded_list};

    ghost Value = { List T };

    ghost coded = { coded_list T.code };

    ghost view = { λ s. s.vec.items };
}

impl<T> From<Vec<T>> for Seq<T> {
    ghost from_gives = { λ v s. s ≡ v.items };

    /// The sequence of a vector's items, without taking memory.
    fn from(vec: Vec<T>) -> Seq<T>
        ensures { result ≡ vec.items }
    {
        Seq { vec }
    }
}

impl<T> Seq<T> {
    /// The empty sequence; it takes no memory.
    ///
    /// ```
    /// assert!(Seq::<u8>::new(alloc).is_empty());
    /// ```
    pub fn new(alloc: Global) -> Seq<T>
        ensures { result ≡ [] }
    {
        Seq {
            vec: Vec::new(alloc),
        }
    }

    /// The items, borrowed.
    ///
    /// ```
    /// for item in items.as_slice() {}
    /// ```
    pub fn as_slice(&self) -> &[T]
        ensures { result.now ≡ self.now }
    {
        self.vec.as_slice()
    }

    /// How many items there are.
    ///
    /// ```
    /// assert!(Seq::from(vec![in alloc; 1u8, 2]?).len() == 2);
    /// ```
    pub fn len(&self) -> usize
        ensures { result ≡ length self.now }
    {
        self.vec.len()
    }

    /// Whether there is no item.
    ///
    /// ```
    /// assert!(Seq::<u8>::new(alloc).is_empty());
    /// ```
    pub fn is_empty(&self) -> bool
        ensures { IsTrue result ↔ (self.now ≡ []) }
    {
        self.vec.is_empty()
    }

    /// The items, in the `Vec` that holds them; it takes no memory.
    ///
    /// ```
    /// let mut vec = items.into_vec();
    /// ```
    pub fn into_vec(self) -> Vec<T>
        ensures { result.items ≡ self }
    {
        let Seq { vec } = self;
        vec
    }
}

impl<T: TryClone> Seq<T> {
    /// A copy on the same allocator; it is equal to this sequence.
    ///
    /// ```
    /// assert!(items.try_clone()? == items);
    /// ```
    pub fn try_clone(&self) -> Result<Seq<T>, NoMemory>
        ensures { IfOk result (λ copy. copy ≡ self.now) }
    {
        let mut copies = Vec::with_capacity(*self.vec.allocator(), self.len())?;
        for item in self.as_slice() {
            let copy = item.try_clone()?;
            copies.push_reserved(copy);
        }
        Ok(Seq { vec: copies })
    }
}

impl<T: TryClone> TryClone for Seq<T> {
    fn try_clone(&self) -> Result<Seq<T>, NoMemory> {
        Seq::try_clone(self)
    }
}

impl<T: PartialEq> PartialEq for Seq<T> {
    ghost eq = { λ x y. pointwise T.eq x y };

    ghost laws = { lists_per T.laws };

    fn eq(&self, other: &Seq<T>) -> bool {
        self.as_slice() == other.as_slice()
    }
}

impl<T: Eq> Eq for Seq<T> {
    ghost laws = { lists_equiv T.Eq.laws };
}

impl<T: PartialOrd> PartialOrd for Seq<T> {
    ghost partial_cmp = { λ x y. slice_partial_cmp T.partial_cmp x y };

    ghost laws = { lists_po T.PartialOrd.laws };

    fn partial_cmp(&self, other: &Seq<T>) -> Option<Ordering> {
        self.as_slice().partial_cmp(other.as_slice())
    }
}

impl<T: Ord> Ord for Seq<T> {
    ghost cmp = { λ x y. slice_cmp T.cmp x y };

    ghost total = { lists_total T.total };

    ghost matches_partial_cmp = { λ x y. lists_agrees T.matches_partial_cmp x y };

    ghost matches_eq = { λ x y. lists_ties T.cmp T.matches_eq x y };

    fn cmp(&self, other: &Seq<T>) -> Ordering {
        self.as_slice().cmp(other.as_slice())
    }
}

impl<T: Hash> Hash for Seq<T> {
    ghost hash_input = { λ s. fed.slice T.hash_input s };

    ghost respects_eq = { (items_Alike (record { fed = T.respects_eq })).fed };

    fn hash<H: Hasher>(&self, state: &mut H) {
        self.as_slice().hash(state);
    }
}
