//! The rules on what leads back to itself.
ghost use Rattle.std.specs.Prelude.{IfOk};
ghost use Rattle.just_lang_names.specs.Names.{layout_of, wins_of};
ghost use Rattle.just_lang.specs.CycleTables.{AreRecipes};
ghost use Rattle.just_lang.specs.Rules.{IsFirstCircular};

use super::recipe::{Recipes, circular_recipe};
use super::variable::circular_variable;
use just_lang_rulebook::{Broken, broken_at};
use just_lang_types::CompileKind;
use just_path_text::NoMemory;
use std::alloc::Global;

/// The first variable, else the first recipe, that leads back to itself.
#[tactic(auto, using(crate::proofs::CycleRules::variable_found, crate::proofs::CycleRules::recipe_found, crate::proofs::CycleRules::none_found))]
pub(crate) fn first_circular(
    alloc: Global,
    recipes: &Recipes<'_, '_>,
) -> Result<Option<Broken>, NoMemory>
    requires { AreRecipes recipes.now }
    ensures { IfOk result (IsFirstCircular (wins_of recipes.now.names.now) (layout_of recipes.now.names.now)) }
{
    let variable = circular_variable(alloc, recipes.names)?;
    if let Some(spot) = variable {
        return Ok(broken_at(CompileKind::CircularVariable, spot));
    }
    let recipe = circular_recipe(alloc, recipes)?;
    if let Some(spot) = recipe {
        return Ok(broken_at(CompileKind::CircularRecipe, spot));
    }
    Ok(None)
}
