//! The first rule that sources break.
ghost use Rattle.std.specs.Prelude.{◌≢◌, IfOk, IfErr};
ghost use Rattle.just_lang_types.specs.declared.project.LangError.{LangError};
ghost use Rattle.just_lang_spots.specs.Importers.{AreImporters};
ghost use Rattle.just_lang_names.specs.Names.{AreNames, layout_of, wins_of};
ghost use Rattle.just_lang.specs.Errors.{BreaksNone, IsErrorIn};
ghost use Rattle.just_lang.specs.Projects.{HasNone, HasError, AreWell, IsFirstError};

use super::errors::{check_files, check_rules, error_of_files};
use super::recipe::standing_recipes;
use just_lang_layout::{Layout, lay};
use just_lang_names::{Names, names_of};
use just_lang_spots::winners_of;
use just_lang_types::Source;
use just_lang_types::project::LangError;
use just_path_text::{Environ, Seq};
use std::alloc::Global;

/// Refuses the first rule that a project breaks whose names these are.
#[tactic(auto, using(crate::proofs::ProjectLaws::same_none, crate::proofs::ProjectLaws::same_error))]
fn check_names(alloc: Global, environ: &Environ, names: &Names<'_>) -> Result<(), LangError>
    requires { AreNames names.now }
    ensures none { IfOk result (λ _. BreaksNone environ.now.pairs (wins_of names.now) (layout_of names.now)) }
    ensures refused { IfErr result (λ e. e ≢ LangError.NoMemory → IsErrorIn environ.now.pairs (wins_of names.now) (layout_of names.now) e) }
{
    let recipes = standing_recipes(alloc, names)?;
    check_rules(alloc, environ, &recipes)
}

/// Refuses the first rule that a project with a layout breaks. For each file `winners` has those that import it, straight or
/// through others.
fn check_winners(
    alloc: Global,
    environ: &Environ,
    winners: &[Seq<usize>],
    layout: &Layout,
) -> Result<(), LangError>
    requires { AreImporters layout.now.imports winners.now }
    ensures none { IfOk result (λ _. HasNone environ.now.pairs layout.now) }
    ensures refused { IfErr result (λ e. e ≢ LangError.NoMemory → HasError environ.now.pairs layout.now e) }
{
    let names = names_of(alloc, winners, layout)?;
    check_names(alloc, environ, &names)
}

/// Refuses the first rule that a project with a layout breaks.
fn check_layout(alloc: Global, environ: &Environ, layout: &Layout) -> Result<(), LangError>
    ensures none { IfOk result (λ _. HasNone environ.now.pairs layout.now) }
    ensures refused { IfErr result (λ e. e ≢ LangError.NoMemory → HasError environ.now.pairs layout.now e) }
{
    let imports = layout.imports.as_slice();
    let winners = winners_of(alloc, imports)?;
    let importers = winners.as_slice();
    check_winners(alloc, environ, importers, layout)
}

/// Refuses the first rule that sources break, the first of which is the root: by the kind of the rule, then by the file in the order of
/// loading, then by line and column. Rules on files come before all others, and texts that have to be constant behind them.
#[tactic(auto, using(crate::proofs::ProjectLaws::sources_are_well, crate::proofs::ProjectLaws::error_in_layout, crate::proofs::ProjectLaws::error_on_files))]
pub fn first_broken(alloc: Global, sources: &[Source], environ: &Environ) -> Result<(), LangError>
    // No rule is broken.
    ensures none { IfOk result (λ _. AreWell sources.now environ.now.pairs) }
    // The error is that of the first rule that is broken.
    ensures refused { IfErr result (λ e. e ≢ LangError.NoMemory → IsFirstError sources.now environ.now.pairs e) }
{
    let layout = match lay(alloc, sources, environ) {
        Ok(layout) => layout,
        Err(refused) => return Err(error_of_files(refused)),
    };
    match check_files(alloc, &layout) {
        Ok(()) => check_layout(alloc, environ, &layout),
        Err(error) => Err(error),
    }
}
