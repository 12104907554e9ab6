//! The walk over the items of files, with those of the files that they name behind each.

ghost use Rattle.std.specs.Prelude.{◌≡◌, ◌==◌, ◌+◌, ◌^◌, ◌<◌, ◌∷◌, ◌++◌, [], length, slice_get, Some, true, IfOk, IfSome, OnOk};
ghost use Rattle.std.specs.List.{find, filter, list_any};
ghost use Rattle.just_lang_layout.specs.Walk.{leads, targets_of, is_broken, walk, first_broken};
ghost use Rattle.just_lang_layout.specs.Stack.{visits_left, Tops, Gives, is_among, entered};
ghost use Rattle.just_lang_layout.specs.Modules.{is_own, own_visits};

use super::{Placed, Target};
use just_path_text::{NoMemory, Seq};
use std::alloc::{AllocError, Global};

/// An item that the walk comes to.
#[derive(Clone, Copy)]
pub struct Visit {
    pub place: Placed,
    pub target: Target,
    /// Whether it names a file on the way to it.
    pub circular: bool,
}

/// A file on the way, and the number of its item that comes next.
#[derive(Clone, Copy)]
pub struct Frame {
    pub file: usize,
    pub next: usize,
}

/// The file that a target leads to.
pub(crate) fn leads(modules: bool, target: Target) -> Option<usize>
    ensures { result ≡ leads modules target }
{
    match target {
        Target::Import(file) => Some(file),
        Target::Module(file) => { if modules { Some(file) } else { None } }
        _ => None,
    }
}

/// The targets of the items of the file of that number.
fn targets_of(table: &[Seq<Target>], file: usize) -> &[Target]
    ensures { result.now ≡ targets_of table.now file }
{
    match table.get(file) {
        Some(row) => row.as_slice(),
        None => &[],
    }
}

/// The target that comes next.
#[tactic(auto, using(std::proofs::lemmas::Option::slice_get_read, std::proofs::lemmas::Option::slice_get_past))]
fn target_at(table: &[Seq<Target>], frame: Frame) -> Option<Target>
    ensures target { result ≡ slice_get (targets_of table.now frame.file) frame.next }
    ensures fits { IfSome result (λ _. frame.next + 1 < 2 ^ 64) }
{
    let row = targets_of(table, frame.file);
    if frame.next < row.len() {
        Some(row[frame.next])
    } else {
        None
    }
}

/// Takes the last file of a stack that has an item left, and those behind it.
#[tactic(auto, using(crate::proofs::Stacks::done_above))]
fn take_top(modules: bool, table: &[Seq<Target>], stack: &mut Vec<Frame>) -> Option<(Frame, Target)>
    ensures top { Tops modules table.now stack.old.items result stack.new.items }
    ensures fits { IfSome result (λ x. x.0.next + 1 < 2 ^ 64) }
{
    'frames: while let Some(frame) = stack.pop() {
        if let Some(target) = target_at(table, frame) {
            return Some((frame, target));
        }
    }
    None
}

/// Whether the file of that number is on a stack.
fn is_listed(stack: &[Frame], file: usize) -> bool
    ensures { result ≡ list_any (λ frame. frame.file == file) stack.now }
{
    stack.iter().any(|frame| frame.file == file)
}

/// Whether a file is on a stack.
fn is_among(stack: &[Frame], file: Option<usize>) -> bool
    ensures { result ≡ is_among stack.now file }
{
    match file {
        Some(file) => is_listed(stack, file),
        None => false,
    }
}

/// Puts the file that an item leads to on a stack, unless it is there or the stack has as many files as there are.
fn enter(count: usize, stack: &mut Vec<Frame>, file: Option<usize>) -> Result<(), NoMemory>
    ensures { OnOk result (stack.new.items ≡ entered count stack.old.items file) }
{
    let Some(number) = file else {
        return Ok(());
    };
    if !is_among(stack.as_slice(), file) && stack.len() < count {
        stack.push(Frame {
            file: number,
            next: 0,
        })?;
    }
    Ok(())
}

/// Passes the next item of a file that was taken from the stack, and puts both the file and the one that the item
/// leads to back.
#[tactic(auto, using(crate::proofs::Stacks::passes))]
fn pass(
    modules: bool,
    table: &[Seq<Target>],
    stack: &mut Vec<Frame>,
    frame: Frame,
    target: Target,
) -> Result<Visit, NoMemory>
    requires next { slice_get (targets_of table.now frame.file) frame.next ≡ Some target }
    requires fits { frame.next + 1 < 2 ^ 64 }
    ensures { IfOk result (λ v. visits_left modules table.now (length table.now) [] (stack.old.items ++ frame ∷ []) ≡ v ∷ visits_left modules table.now (length table.now) [] stack.new.items) }
{
    stack.push(Frame {
        file: frame.file,
        next: frame.next + 1,
    })?;
    let file = leads(modules, target);
    let circular = is_among(stack.as_slice(), file);
    enter(table.len(), stack, file)?;
    Ok(Visit {
        place: Placed {
            file: frame.file,
            item: frame.next,
        },
        target,
        circular,
    })
}

/// Takes the next visit of a stack.
fn next_visit(
    modules: bool,
    table: &[Seq<Target>],
    stack: &mut Vec<Frame>,
) -> Result<Option<Visit>, NoMemory>
    ensures { IfOk result (λ v. Gives (visits_left modules table.now (length table.now) [] stack.old.items) v (visits_left modules table.now (length table.now) [] stack.new.items)) }
{
    match take_top(modules, table, stack) {
        None => Ok(None),
        Some((frame, target)) => Ok(Some(pass(modules, table, stack, frame, target)?)),
    }
}

/// The stack from which the walk from a file begins.
#[tactic(auto, using(crate::proofs::Stacks::begins_walk))]
fn beginning(
    alloc: Global,
    modules: bool,
    table: &[Seq<Target>],
    file: usize,
) -> Result<Vec<Frame>, NoMemory>
    ensures { IfOk result (λ stack. visits_left modules table.now (length table.now) [] stack.items ≡ walk modules table.now file) }
{
    let mut stack = Vec::new(alloc);
    stack.push(Frame { file, next: 0 })?;
    Ok(stack)
}

/// Whether an item breaks a rule on files.
fn is_broken(visit: Visit) -> bool
    ensures { result ≡ is_broken visit }
{
    match visit.target {
        Target::Nothing | Target::Absent => false,
        Target::Import(_) | Target::Module(_) => visit.circular,
        Target::MissingImport | Target::MissingModule | Target::Ambiguous | Target::Homeless =>
            true,
    }
}

/// The first item that breaks a rule on files, on the walk from the root's file through imports and modules.
pub(crate) fn first_broken(alloc: Global, table: &[Seq<Target>]) -> Result<Option<Visit>, NoMemory>
    ensures first { IfOk result (λ v. v ≡ first_broken table.now) }
    ensures broken { IfOk result (λ v. IfSome v (λ x. is_broken x ≡ true)) }
{
    let mut stack = beginning(alloc, true, table, 0)?;
    'visits: while let Some(visit) = next_visit(true, table, &mut stack)? {
        if is_broken(visit) {
            return Ok(Some(visit));
        }
    }
    Ok(None)
}

/// The items of a module of that file, those of imports in their places.
pub(crate) fn own_visits(
    alloc: Global,
    table: &[Seq<Target>],
    file: usize,
) -> Result<Vec<Visit>, NoMemory>
    ensures { IfOk result (λ v. v.items ≡ own_visits table.now file) }
{
    let mut own = Vec::new(alloc);
    let mut stack = beginning(alloc, false, table, file)?;
    'visits: while let Some(visit) = next_visit(false, table, &mut stack)? {
        if leads(false, visit.target).is_none() {
            own.push(visit)?;
        }
    }
    Ok(own)
}
