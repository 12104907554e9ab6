//! The justfile of a project's sources.
ghost use Rattle.std.specs.Prelude.{◌≡◌, ◌≢◌, [], ◌∷◌, IfOk, IfErr};
ghost use Rattle.just_lang_types.specs.declared.project.LangError.{LangError};
ghost use Rattle.just_lang_justfile.specs.Trees.{outermost};
ghost use Rattle.just_lang_spots.specs.Importers.{AreImporters};
ghost use Rattle.just_lang_spots.specs.Winners.{wins_in};
ghost use Rattle.just_lang_names.specs.Names.{AreNames, layout_of, wins_of};
ghost use Rattle.just_lang.specs.CycleTables.{AreRecipes};
ghost use Rattle.just_lang.specs.DisablingTables.{IsDisabling};
ghost use Rattle.just_lang.specs.Errors.{BreaksNone, IsErrorIn};
ghost use Rattle.just_lang.specs.Projects.{AreWins, HasError, IsFirstError};
ghost use Rattle.just_lang.specs.Assembled.{IsMadeOf, IsSoundlyMadeOf, IsJustfileOfSources, IsLaidJustfile};
ghost use Rattle.just_lang.specs.Tables.{AreTables};

use super::before::before_each;
use super::disabled::{Disabling, causes};
use super::errors::{check_files, check_rules, error_of_files};
use super::laid::LaidJustfile;
use super::recipe::{Recipes, standing_recipes};
use super::tables::Tables;
use just_lang_justfile::{Project, justfile_of};
use just_lang_layout::{Layout, lay};
use just_lang_names::{Names, names_of};
use just_lang_rulebook::Meanings;
use just_lang_spots::winners_of;
use just_lang_types::Source;
use just_lang_types::project::{Justfile, LangError};
use just_path_text::{Environ, NoMemory, Seq};
use std::alloc::Global;

/// The justfile of a project that has these tables.
#[tactic(auto, using(crate::proofs::AssembledLaws::made_by_tables))]
fn made_by<'a>(
    alloc: Global,
    environ: &Environ,
    tables: &Tables<'_, '_, '_, 'a>,
) -> Result<Justfile, NoMemory>
    requires tables { AreTables tables.now }
    requires outermost { outermost (layout_of tables.now.names.now).modules ≡ [] ∷ [] }
    ensures { IfOk result (IsMadeOf environ.now.pairs (wins_of tables.now.names.now) (layout_of tables.now.names.now)) }
{
    let texts = Meanings { environ };
    let project = Project {
        layout: tables.names.layout,
        winners: tables.names.winners,
        texts: &texts,
        links: tables,
    };
    justfile_of(alloc, &project)
}

/// The justfile of a project some of whose recipes can't be run.
#[tactic(auto, using(crate::proofs::TableLaws::are_tables))]
fn made_with<'a>(
    alloc: Global,
    environ: &Environ,
    names: &Names<'a>,
    disabling: &Disabling<'_, '_, 'a>,
) -> Result<Justfile, NoMemory>
    requires names { AreNames names.now }
    requires disabling { IsDisabling disabling.now }
    requires same { disabling.now.recipes.now.names.now ≡ names.now }
    requires outermost { outermost (layout_of names.now).modules ≡ [] ∷ [] }
    ensures { IfOk result (IsMadeOf environ.now.pairs (wins_of names.now) (layout_of names.now)) }
{
    let before = before_each(alloc, names)?;
    let tables = Tables {
        names,
        before: before.as_slice(),
        disabling,
    };
    made_by(alloc, environ, &tables)
}

/// The justfile of a project none of whose recipes leads to itself.
#[tactic(auto, using(crate::proofs::AssembledLaws::made_of_copy, crate::proofs::AssembledLaws::outermost_in_copy, crate::proofs::Unbroken::no_circular_recipe))]
fn made_of(
    alloc: Global,
    environ: &Environ,
    recipes: &Recipes<'_, '_>,
) -> Result<Justfile, NoMemory>
    requires recipes { AreRecipes recipes.now }
    requires none { BreaksNone environ.now.pairs (wins_of recipes.now.names.now) (layout_of recipes.now.names.now) }
    requires outermost { outermost (layout_of recipes.now.names.now).modules ≡ [] ∷ [] }
    ensures { IfOk result (IsMadeOf environ.now.pairs (wins_of recipes.now.names.now) (layout_of recipes.now.names.now)) }
{
    let disabling = causes(alloc, recipes)?;
    made_with(alloc, environ, recipes.names, &disabling)
}

/// The justfile of a project with these recipes, or the error of the first rule that it breaks.
fn assemble_recipes(
    alloc: Global,
    environ: &Environ,
    recipes: &Recipes<'_, '_>,
) -> Result<Justfile, LangError>
    requires recipes { AreRecipes recipes.now }
    requires outermost { outermost (layout_of recipes.now.names.now).modules ≡ [] ∷ [] }
    ensures none { IfOk result (λ _. BreaksNone environ.now.pairs (wins_of recipes.now.names.now) (layout_of recipes.now.names.now)) }
    ensures justfile { IfOk result (IsMadeOf environ.now.pairs (wins_of recipes.now.names.now) (layout_of recipes.now.names.now)) }
    ensures refused { IfErr result (λ e. e ≢ LangError.NoMemory → IsErrorIn environ.now.pairs (wins_of recipes.now.names.now) (layout_of recipes.now.names.now) e) }
{
    check_rules(alloc, environ, recipes)?;
    let justfile = made_of(alloc, environ, recipes)?;
    Ok(justfile)
}

/// The justfile of a project with these names, or the error of the first rule that it breaks.
#[tactic(auto, using(crate::proofs::AssembledLaws::made_of_copy, crate::proofs::AssembledLaws::outermost_in_copy, crate::proofs::ProjectLaws::same_none, crate::proofs::ProjectLaws::same_error))]
fn assemble_names(
    alloc: Global,
    environ: &Environ,
    names: &Names<'_>,
) -> Result<Justfile, LangError>
    requires names { AreNames names.now }
    requires outermost { outermost (layout_of names.now).modules ≡ [] ∷ [] }
    ensures none { IfOk result (λ _. BreaksNone environ.now.pairs (wins_of names.now) (layout_of names.now)) }
    ensures justfile { IfOk result (IsMadeOf environ.now.pairs (wins_of names.now) (layout_of names.now)) }
    ensures refused { IfErr result (λ e. e ≢ LangError.NoMemory → IsErrorIn environ.now.pairs (wins_of names.now) (layout_of names.now) e) }
{
    let recipes = standing_recipes(alloc, names)?;
    assemble_recipes(alloc, environ, &recipes)
}

/// The justfile of a project with a layout, or the error of the first rule that it breaks. For each file `winners` has those that import it, straight or
/// through others.
fn assemble_winners(
    alloc: Global,
    environ: &Environ,
    winners: &[Seq<usize>],
    layout: &Layout,
) -> Result<Justfile, LangError>
    requires winners { AreImporters layout.now.imports winners.now }
    requires outermost { outermost layout.now.modules ≡ [] ∷ [] }
    ensures justfile { IfOk result (IsSoundlyMadeOf environ.now.pairs layout.now) }
    ensures refused { IfErr result (λ e. e ≢ LangError.NoMemory → HasError environ.now.pairs layout.now e) }
{
    let names = names_of(alloc, winners, layout)?;
    assemble_names(alloc, environ, &names)
}

/// The justfile of a project with a layout, or the error of the first rule that it breaks.
fn assemble_layout(
    alloc: Global,
    environ: &Environ,
    layout: Layout,
) -> Result<LaidJustfile, LangError>
    requires { outermost layout.modules ≡ [] ∷ [] }
    ensures laid { IfOk result (λ p. (p.layout ≡ layout) × AreWins layout (wins_in p.winners) ×
        IsSoundlyMadeOf environ.now.pairs layout p.justfile) }
    ensures refused { IfErr result (λ e. e ≢ LangError.NoMemory → HasError environ.now.pairs layout e) }
{
    let imports = layout.imports.as_slice();
    let winners = winners_of(alloc, imports)?;
    match assemble_winners(alloc, environ, winners.as_slice(), &layout) {
        Ok(justfile) => Ok(LaidJustfile {
            layout,
            winners: Seq::from(winners),
            justfile,
        }),
        Err(error) => {
            drop(layout);
            Err(error)
        }
    }
}

/// The justfile of sources, the first of which is the root, with their layout; or the error of the first rule that they break.
#[tactic(auto, using(crate::proofs::AssembledLaws::laid_of_sources, crate::proofs::Outermost::layout_outermost, crate::proofs::ProjectLaws::error_in_layout, crate::proofs::ProjectLaws::error_on_files))]
pub fn assemble_laid(
    alloc: Global,
    sources: &[Source],
    environ: &Environ,
) -> Result<LaidJustfile, LangError>
    // It is the justfile of sources that break no rule.
    ensures laid { IfOk result (IsLaidJustfile sources.now environ.now.pairs) }
    // The error is that of the first rule that is broken.
    ensures refused { IfErr result (λ e. e ≢ LangError.NoMemory → IsFirstError sources.now environ.now.pairs e) }
{
    let layout = match lay(alloc, sources, environ) {
        Ok(layout) => layout,
        Err(refused) => return Err(error_of_files(refused)),
    };
    match check_files(alloc, &layout) {
        Ok(()) => assemble_layout(alloc, environ, layout),
        Err(error) => {
            drop(layout);
            Err(error)
        }
    }
}

/// The justfile of sources, the first of which is the root; or the error of the first rule that they break.
#[tactic(auto, using(crate::proofs::AssembledLaws::made_of_laid))]
pub fn assemble(alloc: Global, sources: &[Source], environ: &Environ) -> Result<Justfile, LangError>
    // It is the justfile of sources that break no rule.
    ensures justfile { IfOk result (IsJustfileOfSources sources.now environ.now.pairs) }
    // The error is that of the first rule that is broken.
    ensures refused { IfErr result (λ e. e ≢ LangError.NoMemory → IsFirstError sources.now environ.now.pairs e) }
{
    match assemble_laid(alloc, sources, environ) {
        Ok(laid) => {
            let LaidJustfile {
                layout: _,
                winners: _,
                justfile,
            } = laid;
            Ok(justfile)
        }
        Err(error) => Err(error),
    }
}
