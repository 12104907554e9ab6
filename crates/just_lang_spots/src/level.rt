//! Levels of nodes: no edge leads to a lower one, and within a level each node reaches each other one.

ghost use Rattle.std.specs.Prelude.{◌≡◌, ◌<◌, ◌≤◌, ◌+◌, ◌*◌, true, length, All, IfOk, IfSome, OnOk};
ghost use Rattle.just_lang_spots.specs.Graph.{IsGraph};
ghost use Rattle.just_lang_spots.specs.Met.{steps_left};
ghost use Rattle.just_lang_spots.specs.Levels.{AreLevels, is_at_most_targets, is_below_targets};
ghost use Rattle.just_lang_spots.specs.Walk.{IsWalk};

use super::peel::next_target;
use just_path_text::{NoMemory, Seq};
use std::alloc::Global;

/// How far a walk through a graph has come, depth first.
#[derive(Drop)]
struct Walk {
    /// How many targets of each node were looked at.
    seen: Vec<usize>,
    /// For each node its number in the order of entering, from 1 on; 0 for one that wasn't entered.
    numbers: Vec<usize>,
    /// For each node the least number that it is known to reach, and in the end its level.
    levels: Vec<usize>,
    /// The nodes that were entered and have no level yet.
    open: Vec<usize>,
    entered: usize,
    /// Levels go downwards from the greatest number, so that none is among the numbers of nodes.
    next_level: usize,
}

/// Whether the level of a node is at most that of each of its targets.
fn is_at_most_targets(edges: &[Seq<usize>], levels: &[usize], node: usize) -> bool
    requires graph { IsGraph edges.now }
    requires node { node < length edges.now }
    requires size { length levels.now ≡ length edges.now }
    ensures { result ≡ is_at_most_targets edges.now levels.now node }
{
    let own = levels[node];
    let targets = edges[node].as_slice();
    for target in targets {
        let other = levels[*target];
        if other < own {
            return false;
        }
    }
    true
}

/// Whether the level of a node is below that of each of its targets.
pub(crate) fn is_below_targets(edges: &[Seq<usize>], levels: &[usize], node: usize) -> bool
    requires graph { IsGraph edges.now }
    requires node { node < length edges.now }
    requires size { length levels.now ≡ length edges.now }
    ensures { result ≡ is_below_targets edges.now levels.now node }
{
    let own = levels[node];
    let targets = edges[node].as_slice();
    for target in targets {
        let other = levels[*target];
        if other <= own {
            return false;
        }
    }
    true
}

/// Whether no edge leads to a lower level.
fn are_levels(edges: &[Seq<usize>], levels: &[usize]) -> bool
    requires graph { IsGraph edges.now }
    requires size { length levels.now ≡ length edges.now }
    ensures { result ≡ true → AreLevels edges.now levels.now }
{
    for node in 0..edges.len() {
        if !is_at_most_targets(edges, levels, node) {
            return false;
        }
    }
    true
}

/// Gives a node its number and opens it.
fn enter(walk: &mut Walk, node: usize) -> Result<(), NoMemory>
    requires node { node < length walk.old.seen.items }
    requires walk { IsWalk (length walk.old.seen.items) walk.old }
    ensures walk { OnOk result (IsWalk (length walk.old.seen.items) walk.new) }
    ensures seen { OnOk result (walk.new.seen.items ≡ walk.old.seen.items) }
{
    walk.entered = walk.entered.saturating_add(1);
    walk.numbers[node] = walk.entered;
    walk.levels[node] = walk.entered;
    walk.open.push(node)?;
    Ok(())
}

/// Takes the least of a node's level and another one as the node's.
fn lower(walk: &mut Walk, node: usize, level: usize)
    requires node { node < length walk.old.seen.items }
    requires walk { IsWalk (length walk.old.seen.items) walk.old }
    ensures walk { IsWalk (length walk.old.seen.items) walk.new }
    ensures seen { walk.new.seen.items ≡ walk.old.seen.items }
{
    if level < walk.levels[node] {
        walk.levels[node] = level;
    }
}

/// Gives the nodes that were opened since a node, and the node itself, their level.
fn close(walk: &mut Walk, node: usize)
    requires node { node < length walk.old.seen.items }
    requires walk { IsWalk (length walk.old.seen.items) walk.old }
    ensures walk { IsWalk (length walk.old.seen.items) walk.new }
    ensures seen { walk.new.seen.items ≡ walk.old.seen.items }
{
    let level = walk.next_level;
    walk.next_level = level.saturating_sub(1);
    while let Some(top) = walk.open.pop() {
        walk.levels[top] = level;
        if top == node {
            return;
        }
    }
}

/// Leaves a node all of whose targets were looked at: its level is given, where it reaches no node entered before it,
/// or is at most that of the node that it was entered from.
fn leave(walk: &mut Walk, node: usize, from: Option<usize>)
    requires node { node < length walk.old.seen.items }
    requires from { IfSome from (λ v. v < length walk.old.seen.items) }
    requires walk { IsWalk (length walk.old.seen.items) walk.old }
    ensures walk { IsWalk (length walk.old.seen.items) walk.new }
    ensures seen { walk.new.seen.items ≡ walk.old.seen.items }
{
    let level = walk.levels[node];
    if level == walk.numbers[node] {
        close(walk, node);
        return;
    }
    if let Some(outer) = from {
        lower(walk, outer, level);
    }
}

/// Puts a node back on the stack, and looks at one of its targets: one that wasn't entered yet is entered and put above the
/// node, and any other lowers the node's level.
fn visit(
    walk: &mut Walk,
    stack: &mut Vec<usize>,
    node: usize,
    target: usize,
) -> Result<(), NoMemory>
    requires node { node < length walk.old.seen.items }
    requires target { target < length walk.old.seen.items }
    requires stack { All (λ v. v < length walk.old.seen.items) stack.old.items }
    requires walk { IsWalk (length walk.old.seen.items) walk.old }
    ensures stack { OnOk result (All (λ v. v < length walk.old.seen.items) stack.new.items) }
    ensures size { OnOk result (length stack.new.items ≤ length stack.old.items + 2) }
    ensures walk { OnOk result (IsWalk (length walk.old.seen.items) walk.new) }
    ensures seen { OnOk result (walk.new.seen.items ≡ walk.old.seen.items) }
{
    stack.push(node)?;
    if walk.numbers[target] != 0 {
        let level = walk.levels[target];
        lower(walk, node, level);
        return Ok(());
    }
    enter(walk, target)?;
    stack.push(target)?;
    Ok(())
}

/// One turn of a walk, at a node that was taken off the stack: looks at its next target, or leaves the node.
fn turn(
    edges: &[Seq<usize>],
    walk: &mut Walk,
    stack: &mut Vec<usize>,
    node: usize,
) -> Result<(), NoMemory>
    requires graph { IsGraph edges.now }
    requires node { node < length edges.now }
    requires stack { All (λ v. v < length edges.now) stack.old.items }
    requires walk { IsWalk (length edges.now) walk.old }
    ensures stack { OnOk result (All (λ v. v < length edges.now) stack.new.items) }
    ensures walk { OnOk result (IsWalk (length edges.now) walk.new) }
    ensures steps { OnOk result (2 * steps_left edges.now walk.new.seen.items + length stack.new.items
        ≤ 2 * steps_left edges.now walk.old.seen.items + length stack.old.items) }
{
    match next_target(edges, &mut walk.seen, node) {
        Some(target) => visit(walk, stack, node, target),
        None => {
            leave(walk, node, stack.last().copied());
            Ok(())
        }
    }
}

/// Goes through the nodes that a node leads to and that weren't entered yet.
fn walk_from(
    alloc: Global,
    edges: &[Seq<usize>],
    walk: &mut Walk,
    start: usize,
) -> Result<(), NoMemory>
    requires graph { IsGraph edges.now }
    requires start { start < length edges.now }
    requires walk { IsWalk (length edges.now) walk.old }
    ensures walk { OnOk result (IsWalk (length edges.now) walk.new) }
{
    if walk.numbers[start] != 0 {
        return Ok(());
    }
    enter(walk, start)?;
    let mut stack = vec![in alloc; start]?;
    while let Some(node) = stack.pop() {
        turn(edges, walk, &mut stack, node)?;
    }
    Ok(())
}

/// The levels that a walk through a graph gives.
fn walked(alloc: Global, edges: &[Seq<usize>]) -> Result<Vec<usize>, NoMemory>
    requires { IsGraph edges.now }
    ensures { IfOk result (λ levels. length levels.items ≡ length edges.now) }
{
    let mut walk = Walk {
        seen: vec![in alloc; 0; edges.len()]?,
        numbers: vec![in alloc; 0; edges.len()]?,
        levels: vec![in alloc; 0; edges.len()]?,
        open: Vec::new(alloc),
        entered: 0,
        next_level: usize::MAX,
    };
    for node in 0..edges.len() {
        walk_from(alloc, edges, &mut walk, node)?;
    }
    let Walk { levels, .. } = walk;
    Ok(levels)
}

/// Levels of nodes that no edge leads down from. A walk gives them; a last look shows it, and levels that weren't such
/// would all be one.
pub(crate) fn levels_of(alloc: Global, edges: &[Seq<usize>]) -> Result<Vec<usize>, NoMemory>
    requires { IsGraph edges.now }
    ensures { IfOk result (λ levels. AreLevels edges.now levels.items) }
{
    let levels = walked(alloc, edges)?;
    if are_levels(edges, levels.as_slice()) {
        return Ok(levels);
    }
    Ok(vec![in alloc; 0; edges.len()]?)
}
