//! The calls of a register: the number of a key, and what is registered.

ghost use Rattle.std.specs.Prelude.{◌≡◌, ◌++◌, [], ◌∷◌, length, false, slice_get, IfOk, OnOk, OnErr};
ghost use Rattle.just_eval_closure.specs.Numbers.{number_in, is_there, recorded, AreNumbered};
ghost use Rattle.just_eval_closure.specs.Places.{is_listed, number_of, places_with};
ghost use Rattle.just_eval_closure.specs.Ran.{places_of};

use super::Ran;
use super::hash::place_hash;
use super::ran::Numbers;
use just_lang_types::{Key, Place};
use just_path_text::{NoMemory, TryClone};
use std::alloc::Global;
use std::collections::BTreeMap;

impl Ran {
    /// The register in which no key has a number.
    pub fn new(alloc: Global) -> Ran
        ensures { places_of result ≡ [] }
    {
        let inside = Numbers {
            places: Vec::new(alloc),
            firsts: BTreeMap::new(alloc),
            others: BTreeMap::new(alloc),
        };
        Ran { inside }
    }

    /// The number that the key got before in the round, else the next one, which it then has. On an error nothing changed.
    #[tactic(auto, using(crate::proofs::Numbered::found_number, crate::proofs::Numbered::absent_number, crate::proofs::Numbered::found_places, crate::proofs::Numbered::absent_places, crate::proofs::Numbered::none_unlisted))]
    pub fn number(&mut self, round: Option<u32>, key: &Key) -> Result<u32, NoMemory>
        ensures number { IfOk result (λ n. n ≡ number_of (places_of self.old) round key.now) }
        ensures places { OnOk result (places_of self.new ≡ places_with (places_of self.old) round key.now) }
        ensures err { OnErr result (places_of self.new ≡ places_of self.old) }
    {
        let key = key.try_clone()?;
        let place = Place { round, key };
        match self.find(&place) {
            Some(number) => Ok(number),
            None => self.add(place),
        }
    }

    /// The number of a place, where it has one.
    pub(crate) fn find(&self, place: &Place) -> Option<u32>
        ensures { result ≡ number_in (places_of self.now) place.now.round place.now.key }
    {
        self.inside.find(place)
    }

    /// Gives a new place the next number, and answers it.
    pub(crate) fn add(&mut self, place: Place) -> Result<u32, NoMemory>
        requires { is_listed (places_of self.old) place.round place.key ≡ false }
        ensures number { IfOk result (λ n. n ≡ length (places_of self.old)) }
        ensures places { OnOk result (places_of self.new ≡ places_of self.old ++ place ∷ []) }
        ensures err { OnErr result (places_of self.new ≡ places_of self.old) }
    {
        self.inside.add(place)
    }

    /// The places in the order of their numbers.
    pub(crate) fn places(&self) -> &[Place]
        ensures { result.now ≡ places_of self.now }
    {
        self.inside.places.as_slice()
    }

    /// The places in the order of their numbers, out of the register.
    pub(crate) fn into_places(self) -> Vec<Place>
        ensures { result.items ≡ places_of self }
    {
        let Ran { inside } = self;
        let Numbers { places, .. } = inside;
        places
    }
}

impl Numbers {
    /// Whether a place stands at that number.
    fn is_there(&self, place: &Place, number: u32) -> bool
        ensures { result ≡ is_there place.now (slice_get self.now.places.items number) }
    {
        match self.places.as_slice().get(number as usize) {
            Some(found) => place.cmp(found).is_eq(),
            None => false,
        }
    }

    /// The number of a place, where it has one.
    fn find(&self, place: &Place) -> Option<u32>
        ensures { result ≡ recorded self.now.places.items self.now.firsts self.now.others place.now }
    {
        if let Some(number) = self.firsts.get(&place_hash(place)).copied() {
            if self.is_there(place, number) {
                return Some(number);
            }
        }
        self.others.get(place).copied()
    }

    /// Gives a new place the next number, and answers it.
    fn add(&mut self, place: Place) -> Result<u32, NoMemory>
        requires numbered { AreNumbered self.old.places.items self.old.firsts self.old.others }
        requires new { is_listed self.old.places.items place.round place.key ≡ false }
        ensures number { IfOk result (λ n. n ≡ length self.old.places.items) }
        ensures places { OnOk result (self.new.places.items ≡ self.old.places.items ++ place ∷ []) }
        ensures err { OnErr result (self.new.places.items ≡ self.old.places.items) }
        ensures numbered { AreNumbered self.new.places.items self.new.firsts self.new.others }
    {
        let Ok(number) = u32::try_from(self.places.len()) else {
            return Err(NoMemory);
        };
        let hash = place_hash(&place);
        self.places.reserve(1)?;
        if self.firsts.contains_key(&hash) {
            let copy = Place {
                round: place.round,
                key: place.key.try_clone()?,
            };
            self.others.insert(copy, number)?;
        } else {
            self.firsts.insert(hash, number)?;
        }
        self.places.push_reserved(place);
        Ok(number)
    }
}
