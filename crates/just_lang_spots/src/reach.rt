//! What a node of a graph reaches.

ghost use Rattle.std.specs.Prelude.{ℕ, ◌≡◌, ◌<◌, ◌↔◌, true, false, length, All, IfOk, OnOk};
ghost use Rattle.just_lang_spots.specs.Graph.{IsGraph, Reaches};
ghost use Rattle.just_lang_spots.specs.Met.{is_marked, met_after, list_after};

use just_path_text::{NoMemory, Seq};
use std::alloc::Global;

/// Marks each of some nodes, and lists those that weren't marked before.
fn meet_each(marks: &mut Vec<bool>, list: &mut Vec<usize>, nodes: &[usize]) -> Result<(), NoMemory>
    requires within { All (λ v. v < length marks.old.items) nodes.now }
    ensures marks { OnOk result (marks.new.items ≡ met_after marks.old.items nodes.now) }
    ensures list { OnOk result (list.new.items ≡ list_after marks.old.items list.old.items nodes.now) }
{
    for node in nodes {
        if !marks[*node] {
            marks[*node] = true;
            list.push(*node)?;
        }
    }
    Ok(())
}

/// The marks of the nodes that a node reaches.
pub(crate) fn reached(
    alloc: Global,
    edges: &[Seq<usize>],
    start: usize,
) -> Result<Vec<bool>, NoMemory>
    requires graph { IsGraph edges.now }
    requires start { start < length edges.now }
    ensures size { IfOk result (λ marks. length marks.items ≡ length edges.now) }
    ensures reached { IfOk result (λ marks. (v : ℕ) → (is_marked marks.items v ≡ true) ↔ Reaches edges.now start v) }
{
    let mut marks = vec![in alloc; false; edges.len()]?;
    let mut list = Vec::new(alloc);
    meet_each(&mut marks, &mut list, edges[start].as_slice())?;
    let mut at = 0;
    while at < list.len() {
        let node = list[at];
        meet_each(&mut marks, &mut list, edges[node].as_slice())?;
        at += 1;
    }
    Ok(marks)
}
