//! Where names come again, and where parameters that want a value stand behind defaults. For each file `winners` has those that
//! import it, straight or through others.
ghost use Rattle.std.specs.Prelude.{◌≡◌, IfOk};
ghost use Rattle.just_lang_spots.specs.Spots.{first_spot};
ghost use Rattle.just_lang_spots.specs.Winners.{wins_in};
ghost use Rattle.just_lang_rulebook.specs.Rules.{duplicate_recipe_spots, duplicate_variable_spots, duplicate_alias_spots, duplicate_parameter_spots, required_parameter_spots};

use super::meanings::Meanings;
use super::modules::{first_in_files, first_in_modules};
use crate::{DuplicateAlias, DuplicateRecipe, DuplicateVariable};
use just_lang_layout::Layout;
use just_lang_rules::{DuplicateParameter, RequiredParameterFollowsDefault};
use just_lang_spots::Spot;
use just_path_text::{Environ, NoMemory, Seq};
use std::alloc::Global;

/// The first recipe whose name comes again in its module.
#[tactic(auto, unfolding(crate::specs::Rules::duplicate_recipe_spots))]
pub fn first_duplicate_recipe(
    alloc: Global,
    winners: &[Seq<usize>],
    layout: &Layout,
) -> Result<Option<Spot>, NoMemory>
    ensures { IfOk result (λ s. s ≡ first_spot (duplicate_recipe_spots (wins_in winners.now) layout.now)) }
{
    first_in_modules(alloc, &DuplicateRecipe { winners }, layout)
}

/// The first variable whose name comes again in its module.
#[tactic(auto, unfolding(crate::specs::Rules::duplicate_variable_spots))]
pub fn first_duplicate_variable(
    alloc: Global,
    winners: &[Seq<usize>],
    layout: &Layout,
) -> Result<Option<Spot>, NoMemory>
    ensures { IfOk result (λ s. s ≡ first_spot (duplicate_variable_spots (wins_in winners.now) layout.now)) }
{
    first_in_modules(alloc, &DuplicateVariable { winners }, layout)
}

/// The first alias whose name comes again in its module.
#[tactic(auto, unfolding(crate::specs::Rules::duplicate_alias_spots))]
pub fn first_duplicate_alias(alloc: Global, layout: &Layout) -> Result<Option<Spot>, NoMemory>
    ensures { IfOk result (λ s. s ≡ first_spot (duplicate_alias_spots layout.now)) }
{
    first_in_modules(alloc, &DuplicateAlias, layout)
}

/// The first parameter whose name comes again in its recipe.
#[tactic(auto, unfolding(crate::specs::Rules::duplicate_parameter_spots))]
pub fn first_duplicate_parameter(alloc: Global, layout: &Layout) -> Result<Option<Spot>, NoMemory>
    ensures { IfOk result (λ s. s ≡ first_spot (duplicate_parameter_spots layout.now)) }
{
    first_in_files(alloc, &DuplicateParameter, layout)
}

/// The first parameter that wants a value and stands behind a default.
#[tactic(auto, unfolding(crate::specs::Rules::required_parameter_spots))]
pub fn first_required_parameter(
    alloc: Global,
    environ: &Environ,
    layout: &Layout,
) -> Result<Option<Spot>, NoMemory>
    ensures { IfOk result (λ s. s ≡ first_spot (required_parameter_spots environ.now.pairs layout.now)) }
{
    let texts = Meanings { environ };
    let rule = RequiredParameterFollowsDefault { texts: &texts };
    first_in_files(alloc, &rule, layout)
}
