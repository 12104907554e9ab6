//! The nodes of a graph that lie on a cycle, and an order of those that lead to none.
//!
//! A graph is the list of each node's targets; its nodes are the numbers from 0 on.

ghost use Rattle.std.specs.Prelude.{ℕ, ◌≡◌, ◌<◌, ◌↔◌, length, All, AllPairs, Contains, IfOk, IsTrue, ◌≢◌};
ghost use Rattle.just_lang_spots.specs.Graph.{IsGraph, IsOnCycle, IsOrder, LeadsToCycle, IsFirst};
ghost use Rattle.just_lang_spots.specs.Levels.{AreLevels};

use super::level::{is_below_targets, levels_of};
use super::peel::{Peeled, peel};
use super::reach::reached;
use just_path_text::{NoMemory, Seq};
use std::alloc::Global;

/// An order of the nodes that lead to no cycle: each once, behind its targets.
pub fn order(alloc: Global, edges: &[Seq<usize>]) -> Result<Vec<usize>, NoMemory>
    requires { IsGraph edges.now }
    ensures behind { IfOk result (λ order. IsOrder edges.now order.items) }
    ensures once { IfOk result (λ order. AllPairs (λ v w. v ≢ w) order.items) }
    ensures which { IfOk result (λ order. (v : ℕ) → Contains order.items v ↔ ((v < length edges.now) × (LeadsToCycle edges.now v → ⊥))) }
{
    let peeled = peel(alloc, edges)?;
    let Peeled { order, .. } = peeled;
    Ok(order)
}

/// Whether a node lies on a cycle. One below all its targets doesn't; of the others each does where the levels are those
/// of the parts within which each node reaches each other one, so that no search is in vain.
fn is_on_cycle(
    alloc: Global,
    edges: &[Seq<usize>],
    levels: &[usize],
    node: usize,
) -> Result<bool, NoMemory>
    requires graph { IsGraph edges.now }
    requires node { node < length edges.now }
    requires levels { AreLevels edges.now levels.now }
    ensures { IfOk result (λ is_it. IsTrue is_it ↔ IsOnCycle edges.now node) }
{
    if is_below_targets(edges, levels, node) {
        return Ok(false);
    }
    let marks = reached(alloc, edges, node)?;
    Ok(marks[node])
}

/// The first of some nodes that lies on a cycle.
#[tactic(auto, using(crate::proofs::Peelings::first_behind, crate::proofs::Peelings::first_here))]
pub fn first_on_cycle(
    alloc: Global,
    edges: &[Seq<usize>],
    nodes: &[usize],
) -> Result<Option<usize>, NoMemory>
    requires graph { IsGraph edges.now }
    requires nodes { All (λ v. v < length edges.now) nodes.now }
    ensures { IfOk result (λ first. IsFirst (IsOnCycle edges.now) nodes.now first) }
{
    let levels = levels_of(alloc, edges)?;
    for node in nodes {
        if is_on_cycle(alloc, edges, levels.as_slice(), *node)? {
            return Ok(Some(*node));
        }
    }
    Ok(None)
}
