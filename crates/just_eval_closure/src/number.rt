//! The numbers of keys in a round, as a register has them.

ghost use Rattle.std.specs.Prelude.{◌≡◌, ◌≤◌, length, IfOk};
ghost use Rattle.just_eval_closure.specs.Places.{number_of, numbers_of};
ghost use Rattle.just_eval_closure.specs.Ran.{places_of};

use super::{CLOSURE_LIMIT, Ran};
use just_lang_types::{Key, Place};
use just_path_text::{NoMemory, Seq};
use std::alloc::Global;

/// The numbers of keys in a round. The keys are used up from the end on.
#[tactic(auto, using(crate::proofs::Popped::number_popped))]
pub(crate) fn numbers(
    alloc: Global,
    ran: &Ran,
    round: Option<u32>,
    keys: Seq<Key>,
) -> Result<Seq<u32>, NoMemory>
    requires short { length (places_of ran.now) ≤ CLOSURE_LIMIT }
    ensures { IfOk result (λ numbers. numbers ≡ numbers_of (places_of ran.now) round keys) }
{
    let mut keys = keys.into_vec();
    let mut numbers = Vec::with_capacity(alloc, keys.len())?;
    'keys: while let Some(key) = keys.pop() {
        numbers.push(number(ran, round, key))?;
    }
    numbers.reverse();
    Ok(Seq::from(numbers))
}

/// The number of a key in a round; where it has none, the number of places.
#[tactic(auto, using(crate::proofs::Numbered::found_number, crate::proofs::Numbered::absent_number))]
fn number(ran: &Ran, round: Option<u32>, key: Key) -> u32
    requires short { length (places_of ran.now) ≤ CLOSURE_LIMIT }
    ensures { result ≡ number_of (places_of ran.now) round key }
{
    match ran.find(&Place { round, key }) {
        Some(number) => number,
        None => ran.places().len() as u32,
    }
}
