//! The modules of a project that are made so far.
ghost use Rattle.std.specs.Prelude.{◌≡◌, ◌≤◌, ◌++◌, [], ◌∷◌, length, reverse, IfOk, OnOk};
ghost use Rattle.std.specs.List.{cons_option};
ghost use Rattle.just_print_tree.specs.Branches.{module_spots};
ghost use Rattle.just_print_tree.specs.Kept.{branch, branches, AreTaken};

use super::declared::declaration_of;
use super::groups::spot_in;
use just_lang_layout::{File, Module};
use just_lang_spots::{Spot, push_some};
use just_lang_types::project::Justfile;
use just_path_text::NoMemory;
use just_print_lists::ListedModule;
use std::alloc::Global;

/// A module of a layout, its justfile, and what listings show of it.
#[derive(Drop)]
pub(crate) struct Built<'a> {
    pub(crate) laid: &'a Module,
    pub(crate) justfile: &'a Justfile,
    pub(crate) listed: ListedModule,
}

/// What is within a module: what listings show of it, and the places of the public modules.
#[derive(Drop)]
pub(crate) struct Within {
    pub(crate) trees: Vec<ListedModule>,
    pub(crate) spots: Vec<Spot>,
}

/// The place of the name of a module, where it is public.
fn spot_of(files: &[File], one: &Built<'_>) -> Option<Spot>
    ensures { cons_option result [] ≡ module_spots files.now (branch one.now ∷ []) }
{
    if one.listed.private {
        return None;
    }
    match declaration_of(files, one.laid) {
        None => None,
        Some(declaration) => spot_in(&declaration),
    }
}

/// Adds a module to those within one.
fn add_branch(files: &[File], within: &mut Within, one: Built<'_>) -> Result<(), NoMemory>
    ensures trees { OnOk result (within.new.trees.items ≡ within.old.trees.items ++
        one.entry.listed ∷ []) }
    ensures spots { OnOk result (within.new.spots.items ≡ within.old.spots.items ++ module_spots
        files.now (branch one.entry ∷ [])) }
{
    push_some(&mut within.spots, spot_of(files, &one))?;
    let Built { listed, .. } = one;
    Ok(within.trees.push(listed)?)
}

/// Takes so many modules from the end, the last one first.
pub(crate) fn take_within(
    alloc: Global,
    files: &[File],
    outer: &mut Vec<Built<'_>>,
    count: usize,
) -> Result<Within, NoMemory>
    requires { count ≤ length outer.old.items }
    ensures { IfOk result (λ w. AreTaken files.now count (reverse (branches outer.old.items))
        (reverse (branches outer.new.items)) w.trees.items w.spots.items) }
{
    let mut within = Within {
        trees: Vec::new(alloc),
        spots: Vec::new(alloc),
    };
    let mut left = count;
    'left: while left > 0 {
        left -= 1;
        match outer.pop() {
            None => unreachable!(),
            Some(one) => add_branch(files, &mut within, one)?,
        }
    }
    Ok(within)
}
