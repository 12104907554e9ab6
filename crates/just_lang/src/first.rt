//! The first of the places of nodes that lie on a cycle.
ghost use Rattle.std.specs.Prelude.{ℕ, ◌≡◌, ◌<◌, ◌≤◌, false, length, map, slice_get, All, Contains, IfOk};
ghost use Rattle.std.specs.Option.{option_and_then};
ghost use Rattle.just_lang_spots.specs.Graph.{IsGraph};
ghost use Rattle.just_lang_spots.specs.Spots.{comes_before};
ghost use Rattle.just_lang.specs.Cycles.{IsFirstSpot, IsSpotOnCycle};
ghost use Rattle.just_lang.specs.SpotOrder.{numbered_from, spot_at};

use just_lang_spots::{Spot, first_on_cycle};
use just_path_text::{NoMemory, Seq};
use std::alloc::Global;

/// The file, the line and the column of a place, and its number.
type Key = (usize, usize, usize, usize);

/// The places with their numbers.
#[tactic(auto, using(crate::proofs::SpotOrder::numbered_more))]
fn keys_of(alloc: Global, spots: &[Spot]) -> Result<Vec<Key>, NoMemory>
    ensures { IfOk result (λ keys. keys.items ≡ numbered_from 0 spots.now) }
{
    let mut keys = Vec::new(alloc);
    'spots: for (number, spot) in spots.iter().enumerate() {
        keys.push((spot.file, spot.line, spot.column, number))?;
    }
    Ok(keys)
}

/// The numbers of places.
fn numbers_of(alloc: Global, keys: &[Key]) -> Result<Vec<usize>, NoMemory>
    ensures { IfOk result (λ v. v.items ≡ map (λ k. k.3) keys.now) }
{
    let mut numbers = Vec::new(alloc);
    'keys: for key in keys {
        numbers.push(key.3)?;
    }
    Ok(numbers)
}

/// The numbers of places, those of earlier places first.
fn in_order(alloc: Global, spots: &[Spot]) -> Result<Vec<usize>, NoMemory>
    ensures within { IfOk result (λ v. All (λ n. n < length spots.now) v.items) }
    ensures whole { IfOk result (λ v. (n : ℕ) → n < length spots.now → Contains v.items n) }
    ensures order { IfOk result (λ v. (i j : ℕ) → i ≤ j → j < length v.items → comes_before (spot_at spots.now v.items j) (spot_at spots.now v.items i) ≡ false) }
{
    let mut keys = keys_of(alloc, spots)?;
    keys.sort()?;
    let numbers = numbers_of(alloc, keys.as_slice())?;
    Ok(numbers)
}

/// The place of the node of that number, where there is one.
fn place_of(spots: &[Spot], node: Option<usize>) -> Option<Spot>
    ensures { result ≡ option_and_then (slice_get spots.now) node }
{
    match node {
        None => None,
        Some(node) => spots.get(node).copied(),
    }
}

/// The first of the places of nodes that lie on a cycle.
#[tactic(auto, using(crate::proofs::FirstSpots::nodes_within))]
pub(crate) fn first_on_cycle_at(
    alloc: Global,
    edges: &[Seq<usize>],
    spots: &[Spot],
) -> Result<Option<Spot>, NoMemory>
    requires graph { IsGraph edges.now }
    requires spots { length spots.now ≡ length edges.now }
    ensures { IfOk result (IsFirstSpot (IsSpotOnCycle edges.now spots.now)) }
{
    let nodes = in_order(alloc, spots)?;
    let first = first_on_cycle(alloc, edges, nodes.as_slice())?;
    let place = place_of(spots, first);
    Ok(place)
}
