//! Taking out nodes behind all their targets, as long as there are such.

ghost use Rattle.std.specs.Prelude.{ℕ, ◌≡◌, ◌+◌, ◌<◌, ◌++◌, [], ◌∷◌, true, false, length, set, get_or, All, Contains, IfOk, OnOk, IfSome, IfNone, MatchOption};
ghost use Rattle.just_lang_spots.specs.Graph.{targets, IsGraph};
ghost use Rattle.just_lang_spots.specs.Met.{is_marked, NoneFree, IsFree, ArePeeled, steps_left};

use just_path_text::{NoMemory, Seq};
use std::alloc::Global;

/// The nodes that were taken out, as marks and in their order.
#[derive(Drop)]
pub(crate) struct Peeled {
    pub(crate) marks: Vec<bool>,
    pub(crate) order: Vec<usize>,
}

/// A target of a node that isn't marked, where there is one.
fn left_target(edges: &[Seq<usize>], marks: &[bool], node: usize) -> Option<usize>
    requires graph { IsGraph edges.now }
    requires node { node < length edges.now }
    requires size { length marks.now ≡ length edges.now }
    ensures { MatchOption result (All (λ w. is_marked marks.now w ≡ true) (targets edges.now node)) (λ w. Contains (targets edges.now node) w × (w < length edges.now) × (is_marked marks.now w ≡ false)) }
{
    let targets = edges[node].as_slice();
    for target in targets {
        if !marks[*target] {
            return Some(*target);
        }
    }
    None
}

/// Whether a node isn't marked and all its targets are.
fn is_free(edges: &[Seq<usize>], marks: &[bool], node: usize) -> bool
    requires graph { IsGraph edges.now }
    requires node { node < length edges.now }
    requires size { length marks.now ≡ length edges.now }
    ensures free { result ≡ true → IsFree edges.now marks.now node }
    ensures not_free { result ≡ false → is_marked marks.now node ≡ false → (w : ℕ) × Contains (targets edges.now node) w × (w < length edges.now) × (is_marked marks.now w ≡ false) }
{
    if marks[node] {
        return false;
    }
    match left_target(edges, marks, node) {
        Some(_) => false,
        None => true,
    }
}

/// The first node that isn't marked and all of whose targets are.
fn first_free(edges: &[Seq<usize>], marks: &[bool]) -> Option<usize>
    requires graph { IsGraph edges.now }
    requires size { length marks.now ≡ length edges.now }
    ensures { MatchOption result (NoneFree edges.now marks.now) (λ v. IsFree edges.now marks.now v) }
{
    for node in 0..edges.len() {
        if is_free(edges, marks, node) {
            return Some(node);
        }
    }
    None
}

/// Takes out a node all of whose targets were.
#[tactic(auto, using(crate::proofs::Peelings::peel_one))]
fn take_out(edges: &[Seq<usize>], peeled: &mut Peeled, node: usize) -> Result<(), NoMemory>
    requires free { IsFree edges.now peeled.old.marks.items node }
    requires peeled { ArePeeled edges.now peeled.old.marks.items peeled.old.order.items }
    ensures peeled { OnOk result (ArePeeled edges.now peeled.new.marks.items peeled.new.order.items) }
    ensures more { OnOk result (length peeled.new.order.items ≡ length peeled.old.order.items + 1) }
{
    peeled.marks[node] = true;
    peeled.order.push(node)?;
    Ok(())
}

/// The next target of a node, where `seen` tells how many of each node's were looked at.
#[tactic(auto, using(crate::proofs::Peelings::one_step_as))]
pub(crate) fn next_target(edges: &[Seq<usize>], seen: &mut Vec<usize>, node: usize) -> Option<usize>
    requires graph { IsGraph edges.now }
    requires node { node < length edges.now }
    requires size { length seen.old.items ≡ length edges.now }
    ensures size { length seen.new.items ≡ length edges.now }
    ensures within { IfSome result (λ w. w < length edges.now) }
    ensures step { IfSome result (λ w. steps_left edges.now seen.new.items + 1 ≡ steps_left edges.now seen.old.items) }
    ensures none { IfNone result (seen.new.items ≡ seen.old.items) }
{
    let at = seen[node];
    let targets = edges[node].as_slice();
    if at >= targets.len() {
        return None;
    }
    seen[node] = at + 1;
    Some(targets[at])
}

/// Goes through the nodes that a node leads to, and takes out each one behind its targets.
fn peel_from(
    alloc: Global,
    edges: &[Seq<usize>],
    seen: &mut Vec<usize>,
    peeled: &mut Peeled,
    start: usize,
) -> Result<(), NoMemory>
    requires graph { IsGraph edges.now }
    requires start { start < length edges.now }
    requires size { length seen.old.items ≡ length edges.now }
    requires peeled { ArePeeled edges.now peeled.old.marks.items peeled.old.order.items }
    ensures size { OnOk result (length seen.new.items ≡ length edges.now) }
    ensures peeled { OnOk result (ArePeeled edges.now peeled.new.marks.items peeled.new.order.items) }
{
    let mut stack = vec![in alloc; start]?;
    while let Some(node) = stack.pop() {
        match next_target(edges, seen, node) {
            Some(target) => {
                stack.push(node)?;
                if !peeled.marks[target] && seen[target] == 0 {
                    stack.push(target)?;
                }
            }
            None => {
                if is_free(edges, peeled.marks.as_slice(), node) {
                    take_out(edges, peeled, node)?;
                }
            }
        }
    }
    Ok(())
}

/// Takes out nodes until each one that is left has a target that is left. One walk takes out all; a last look shows it.
#[tactic(auto, using(crate::proofs::Peelings::peel_starts, crate::proofs::Peelings::order_short))]
pub(crate) fn peel(alloc: Global, edges: &[Seq<usize>]) -> Result<Peeled, NoMemory>
    requires { IsGraph edges.now }
    ensures peeled { IfOk result (λ p. ArePeeled edges.now p.marks.items p.order.items) }
    ensures whole { IfOk result (λ p. NoneFree edges.now p.marks.items) }
{
    let marks = vec![in alloc; false; edges.len()]?;
    let mut seen = vec![in alloc; 0; edges.len()]?;
    let order = Vec::new(alloc);
    let mut peeled = Peeled { marks, order };
    for node in 0..edges.len() {
        peel_from(alloc, edges, &mut seen, &mut peeled, node)?;
    }
    while let Some(node) = first_free(edges, peeled.marks.as_slice()) {
        take_out(edges, &mut peeled, node)?;
    }
    Ok(peeled)
}
