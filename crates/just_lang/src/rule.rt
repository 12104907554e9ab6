//! The first broken rule on the texts of a project.
ghost use Rattle.std.specs.Prelude.{IfOk};
ghost use Rattle.just_lang_names.specs.Names.{layout_of, wins_of};
ghost use Rattle.just_lang.specs.CycleTables.{AreRecipes};
ghost use Rattle.just_lang.specs.Rules.{IsFirstRule, IsFirstFurther};

use super::circular::first_circular;
use super::names::first_on_names;
use super::recipe::Recipes;
use just_lang_rulebook::{Broken, first_broken_behind, first_broken_in_front};
use just_path_text::{Environ, NoMemory};
use std::alloc::Global;

/// The first broken rule of those on names and cycles and behind them.
#[tactic(auto, using(crate::proofs::Behind::names_found, crate::proofs::Behind::circular_found, crate::proofs::Behind::further_found))]
fn first_further(
    alloc: Global,
    environ: &Environ,
    recipes: &Recipes<'_, '_>,
) -> Result<Option<Broken>, NoMemory>
    requires { AreRecipes recipes.now }
    ensures { IfOk result (IsFirstFurther environ.now.pairs (wins_of recipes.now.names.now) (layout_of recipes.now.names.now)) }
{
    let names = recipes.names;
    let on_names = first_on_names(alloc, environ, names)?;
    if let Some(broken) = on_names {
        return Ok(Some(broken));
    }
    let circular = first_circular(alloc, recipes)?;
    if let Some(broken) = circular {
        return Ok(Some(broken));
    }
    let behind = first_broken_behind(alloc, environ, names.winners, names.layout)?;
    Ok(behind)
}

/// The first broken rule of a project, by the kind of the rule and then by the place.
#[tactic(auto, using(crate::proofs::Behind::front_found, crate::proofs::Behind::front_missing))]
pub(crate) fn first_rule(
    alloc: Global,
    environ: &Environ,
    recipes: &Recipes<'_, '_>,
) -> Result<Option<Broken>, NoMemory>
    requires { AreRecipes recipes.now }
    ensures { IfOk result (IsFirstRule environ.now.pairs (wins_of recipes.now.names.now) (layout_of recipes.now.names.now)) }
{
    let names = recipes.names;
    let front = first_broken_in_front(alloc, environ, names.winners, names.layout)?;
    if let Some(broken) = front {
        return Ok(Some(broken));
    }
    let further = first_further(alloc, environ, recipes)?;
    Ok(further)
}
