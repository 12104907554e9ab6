//! The project of a row's files.

use crate::language::sources_of;
use just_lang::{LaidJustfile, assemble_laid};
use just_lang_rulebook::Meanings;
use just_lang_types::all_modules;
use just_lang_types::project::{Justfile, LangError};
use just_path_text::{Environ, Seq};
use just_print_commands::Project;
use just_print_lists::ListedModule;
use just_print_tree::{Told, listed_of, told_each};
use rows_common::Wrong;
use serde_json::Value;
use std::alloc::Global;

/// A justfile with its layout, the modules of it, what listings show of it, and its recipes, each beside what is written of it.
#[derive(Drop)]
pub(crate) struct Whole<'l> {
    laid: &'l LaidJustfile,
    justfiles: Vec<&'l Justfile>,
    tree: ListedModule,
    recipes: Vec<Seq<Told<'l>>>,
}

impl<'l> Whole<'l> {
    /// The project as commands ask it. It promises nothing beyond safety.
    pub(crate) fn project(&self) -> Project<'_, '_, 'l, '_, '_, 'l> {
        Project {
            layout: &self.laid.layout,
            justfiles: self.justfiles.as_slice(),
            root: &self.laid.justfile,
            tree: &self.tree,
            recipes: self.recipes.as_slice(),
        }
    }
}

/// Why a row's project isn't laid out.
fn wrong_of(error: &LangError) -> Wrong {
    match error {
        LangError::NoMemory => Wrong::NoMemory,
        _ => Wrong::Form,
    }
}

/// The justfile of a row's files, with their layout. It promises nothing beyond safety. The call of `drop` stands in place of a walk
/// through all variants of the error at the scope's end.
pub(crate) fn laid_of(
    alloc: Global,
    row: &Value,
    environ: &Environ,
) -> Result<LaidJustfile, Wrong> {
    let sources = sources_of(alloc, row)?;
    match assemble_laid(alloc, sources.as_slice(), environ) {
        Ok(laid) => Ok(laid),
        Err(error) => {
            let wrong = wrong_of(&error);
            drop(error);
            Err(wrong)
        }
    }
}

/// A project with all that commands print of it. It promises nothing beyond safety.
#[tactic(auto, using(crate::proofs::ModuleCounts::has_modules))]
pub(crate) fn whole_of<'l>(
    alloc: Global,
    environ: &Environ,
    laid: &'l LaidJustfile,
) -> Result<Whole<'l>, Wrong> {
    let modules = laid.layout.modules.as_slice();
    let justfiles = all_modules(alloc, &laid.justfile)?;
    if justfiles.len() != modules.len() {
        return Err(Wrong::Form);
    }
    let texts = Meanings { environ };
    let winners = laid.winners.as_slice();
    let tree = listed_of(alloc, &texts, winners, &laid.layout, &laid.justfile)?;
    let files = laid.layout.files.as_slice();
    let recipes = told_each(alloc, winners, files, modules, justfiles.as_slice())?;
    Ok(Whole {
        laid,
        justfiles,
        tree,
        recipes,
    })
}
