//! A project with all that commands print of it.

ghost use Rattle.std.specs.Prelude.{◌≡◌, IfOk};
ghost use Rattle.just_lang.specs.Assembled.{IsSoundlyMadeOf};
ghost use Rattle.just_print_commands.specs.Projects.{parts};
ghost use Rattle.just_cli_texts.specs.Laid.{laid_by, ArePartsOf};
ghost use Rattle.just_cli_texts.specs.Wholes.{parts_in};

use just_lang::LaidJustfile;
use just_lang_rulebook::Meanings;
use just_lang_types::all_modules;
use just_lang_types::project::Justfile;
use just_path_text::{Environ, NoMemory, Seq};
use just_print_commands::Project;
use just_print_lists::ListedModule;
use just_print_tree::{Told, listed_of, told_each};
use std::alloc::Global;

/// A justfile with its layout, the modules of it, what listings show of it, and its recipes, each beside what is written of it.
#[derive(Drop)]
pub(crate) struct Whole<'l> {
    pub(crate) laid: &'l LaidJustfile,
    pub(crate) justfiles: Vec<&'l Justfile>,
    pub(crate) tree: ListedModule,
    pub(crate) recipes: Vec<Seq<Told<'l>>>,
}

impl<'l> Whole<'l> {
    /// The project as commands ask it.
    pub(crate) fn project(&self) -> Project<'_, '_, 'l, '_, '_, 'l>
        ensures { parts result ≡ parts_in self.now }
    {
        Project {
            layout: &self.laid.layout,
            justfiles: self.justfiles.as_slice(),
            root: &self.laid.justfile,
            tree: &self.tree,
            recipes: self.recipes.as_slice(),
        }
    }
}

/// A project with all that commands print of it.
pub(crate) fn whole_of<'l>(
    alloc: Global,
    environ: &Environ,
    laid: &'l LaidJustfile,
) -> Result<Whole<'l>, NoMemory>
    requires { IsSoundlyMadeOf environ.now.pairs laid.now.layout laid.now.justfile }
    ensures laid { IfOk result (λ w. w.laid.now ≡ laid.now) }
    ensures parts { IfOk result (λ w.
        ArePartsOf environ.now.pairs (laid_by laid.now) (parts_in w)) }
{
    let texts = Meanings { environ };
    let winners = laid.winners.as_slice();
    let tree = listed_of(alloc, &texts, winners, &laid.layout, &laid.justfile)?;
    let justfiles = all_modules(alloc, &laid.justfile)?;
    let recipes = told_each(
        alloc,
        winners,
        laid.layout.files.as_slice(),
        laid.layout.modules.as_slice(),
        justfiles.as_slice(),
    )?;
    Ok(Whole {
        laid,
        justfiles,
        tree,
        recipes,
    })
}
