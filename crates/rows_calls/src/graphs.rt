//! Graphs with and without cycles.

ghost use Rattle.std.specs.Prelude.{◌≡◌, [], ◌∷◌, length, IfOk};
ghost use Rattle.just_lang_spots.specs.Graph.{IsGraph};

use just_lang_spots::{first_on_cycle, order, origins};
use just_path_text::{NoMemory, Seq};
use std::alloc::Global;

/// A list of one node.
fn to(alloc: Global, node: usize) -> Result<Seq<usize>, NoMemory>
    ensures { IfOk result (λ nodes. nodes ≡ node ∷ []) }
{
    Ok(Seq::from(vec![in alloc; node; 1]?))
}

/// Each node leads to the next, and the last one to none.
fn chain(alloc: Global) -> Result<[Seq<usize>; 3], NoMemory>
    ensures edges { IfOk result (λ e. e ≡ (1 ∷ []) ∷ (2 ∷ []) ∷ [] ∷ []) }
    ensures graph { IfOk result (λ e. IsGraph e) }
{
    Ok([to(alloc, 1)?, to(alloc, 2)?, Seq::new(alloc)])
}

/// The first node leads to two that lead to each other.
fn cycle(alloc: Global) -> Result<[Seq<usize>; 3], NoMemory>
    ensures edges { IfOk result (λ e. length e ≡ 3) }
    ensures graph { IfOk result (λ e. IsGraph e) }
{
    Ok([to(alloc, 1)?, to(alloc, 2)?, to(alloc, 1)?])
}

#[test]
fn targets_stand_first(rt: HostRuntime) -> Result<(), NoMemory> {
    let alloc = rt.alloc();
    let edges = chain(alloc)?;
    assert_eq!(rt; first_on_cycle(alloc, &edges, &[0, 1, 2]), Ok(None));
    let order = order(alloc, &edges)?;
    assert_eq!(rt; order.as_slice(), [2, 1, 0].as_slice());
    Ok(())
}

#[test]
fn a_node_that_leads_to_a_cycle_is_not_on_it(rt: HostRuntime) -> Result<(), NoMemory> {
    let alloc = rt.alloc();
    let edges = cycle(alloc)?;
    assert_eq!(rt; first_on_cycle(alloc, &edges, &[0, 2, 1]), Ok(Some(2)));
    Ok(())
}

#[test]
fn the_first_node_has_it_from_the_last(rt: HostRuntime) -> Result<(), NoMemory> {
    let alloc = rt.alloc();
    let edges = chain(alloc)?;
    let own = [false, false, true];
    let found = origins(alloc, &edges, &own, &[2, 1, 0])?;
    assert_eq!(rt; found.as_slice(), [Some(2), Some(2), Some(2)].as_slice());
    Ok(())
}
