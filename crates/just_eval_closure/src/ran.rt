//! A register of keys in rounds: each gets the next number from 0 when it is first asked for.

ghost use Rattle.just_eval_closure.specs.Numbers.{AreNumbered};

use just_lang_types::Place;
use std::collections::BTreeMap;

/// The places that got a number, in their order, and the number of each. Most are found by their hashes alone; those whose hash is
/// that of a place before them are kept by themselves.
#[derive(Drop)]
pub(crate) struct Numbers {
    pub(crate) places: Vec<Place>,
    /// The number of the first place of each hash.
    pub(crate) firsts: BTreeMap<u64, u32>,
    /// The numbers of the places behind the first of their hash.
    pub(crate) others: BTreeMap<Place, u32>,
}

/// A register of keys in rounds. Looking one up takes the logarithm of their number.
#[derive(Drop)]
pub struct Ran {
    pub(crate) inside: Numbers,
    ghost numbered: { AreNumbered inside.places.items inside.firsts inside.others },
}
