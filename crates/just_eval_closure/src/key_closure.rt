//! The nodes of a closure.

ghost use Rattle.std.specs.Prelude.{◌≡◌, ◌≢◌, ◌≤◌, [], length, None, Ok, Err, IfOk, IfErr};
ghost use Rattle.just_lang_types.specs.declared.project.LangError.{LangError};
ghost use Rattle.just_eval_closure.specs.Closures.{IsClosureOf, nodes_beside, numbers_beside, nodes_with};
ghost use Rattle.just_eval_closure.specs.Places.{numbers_of};
ghost use Rattle.just_eval_closure.specs.Ran.{places_of};
ghost use Rattle.just_eval_closure.specs.Visits.{IsRanked, Visits};
ghost use Rattle.just_eval_closure.specs.WellFormed.{IsWellFormed};

use super::copies::copy_of_keys;
use super::number::numbers;
use super::walk::{Beside, Surroundings, Walked, walk};
use super::{CLOSURE_LIMIT, Ran};
use just_lang_types::project::LangError;
use just_lang_types::{Closure, Key, Node, Place};
use just_path_text::{NoMemory, Seq};
use std::alloc::Global;

/// The closure of some keys: a node for each key that they need, once in each round, in the order of a run on one thread.
#[tactic(auto, using(crate::proofs::Nodes::as_many))]
pub fn closure_of<S: Surroundings>(
    alloc: Global,
    surroundings: &S,
    keys: &[Key],
) -> Result<Closure, LangError>
    requires known { S.known surroundings.now }
    requires ranked { IsRanked (S.around surroundings.now) (S.rank surroundings.now) }
    ensures closure { IfOk result (λ c. IsClosureOf (S.around surroundings.now) keys.now c) }
    ensures ordered { IfOk result (λ c. IsWellFormed c.nodes c.invocations) }
    ensures short { IfOk result (λ c. length c.nodes ≤ CLOSURE_LIMIT) }
    ensures refused { IfErr result (λ e. e ≢ LangError.NoMemory → Visits (S.around surroundings.now) (Ok []) None keys.now (Err e)) }
{
    let walked = walk(alloc, surroundings, copy_of_keys(alloc, keys)?)?;
    let invocations = numbers(alloc, &walked.ran, None, copy_of_keys(alloc, keys)?)?;
    let nodes = nodes_walked(alloc, walked)?;
    Ok(Closure { nodes, invocations })
}

/// The nodes at the places that a walk gave.
#[tactic(auto, using(crate::proofs::Popped::nodes_with_numbers, crate::proofs::Popped::as_many_numbered))]
fn nodes_walked(alloc: Global, walked: Walked) -> Result<Seq<Node>, NoMemory>
    requires beside { length walked.beside.items ≡ length (places_of walked.ran) }
    requires short { length (places_of walked.ran) ≤ CLOSURE_LIMIT }
    ensures { IfOk result (λ nodes. nodes ≡ nodes_beside (places_of walked.ran) 0 (places_of walked.ran) walked.beside.items) }
{
    let Walked { ran, beside } = walked;
    let numbers = all_numbers(alloc, &ran, beside)?;
    nodes_of(alloc, ran.into_places(), numbers)
}

/// The numbers of the keys around the key of each place. What stands beside each place is used up from the end on.
#[tactic(auto, using(crate::proofs::Popped::numbers_popped))]
fn all_numbers(
    alloc: Global,
    ran: &Ran,
    beside: Vec<Beside>,
) -> Result<Vec<(Seq<u32>, Seq<u32>)>, NoMemory>
    requires beside { length beside.items ≤ CLOSURE_LIMIT }
    requires short { length (places_of ran.now) ≤ CLOSURE_LIMIT }
    ensures { IfOk result (λ all. all.items ≡ numbers_beside (places_of ran.now) 0 beside.items) }
{
    let mut left = beside;
    let mut all = Vec::with_capacity(alloc, left.len())?;
    'places: while let Some(beside) = left.pop() {
        let number = left.len() as u32;
        let subsequents = numbers(alloc, ran, Some(number), beside.subsequents)?;
        all.push((beside.priors, subsequents))?;
    }
    all.reverse();
    Ok(all)
}

/// The nodes at places with the numbers of the keys around theirs. Both are used up from the end on.
#[tactic(auto, using(crate::proofs::Popped::none_popped))]
fn nodes_of(
    alloc: Global,
    places: Vec<Place>,
    numbers: Vec<(Seq<u32>, Seq<u32>)>,
) -> Result<Seq<Node>, NoMemory>
    requires even { length numbers.items ≡ length places.items }
    ensures { IfOk result (λ nodes. nodes ≡ nodes_with places.items numbers.items) }
{
    let mut places = places;
    let mut numbers = numbers;
    let mut nodes = Vec::with_capacity(alloc, places.len())?;
    'places: while let Some(place) = places.pop() {
        if let Some((priors, subsequents)) = numbers.pop() {
            nodes.push(Node {
                round: place.round,
                key: place.key,
                priors,
                subsequents,
            })?;
        }
    }
    nodes.reverse();
    Ok(Seq::from(nodes))
}
