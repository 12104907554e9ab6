//! The rules that a module has one recipe and one variable of a name.
use super::given_name::GivenName;
use just_lang_spots::{
    Entry, ModuleRule, Spot, first_repeated_in, is_set, recipe_items, unbeaten, variable_items,
};
use just_path_text::{NoMemory, Seq};
use std::alloc::Global;

/// The rule that of the recipes of a module that this platform has no two that nobody beats have one name, unless the module
/// allows it. Its place is the name that comes again. For each file `winners` has those that import it, straight or through others.
#[derive(Drop)]
pub struct DuplicateRecipe<'a> {
    pub winners: &'a [Seq<usize>],
}

impl<'a> ModuleRule for DuplicateRecipe<'a> {
    ghost use Rattle.just_lang_spots.specs.Winners.{wins_in};
    ghost use Rattle.just_lang_rulebook.specs.DuplicateSpots.{duplicate_recipes};

    ghost spots = { λ r items. duplicate_recipes (wins_in r.winners.now) items };

    fn first(&self, alloc: Global, items: &[Entry<'_>]) -> Result<Option<Spot>, NoMemory> {
        if is_set("allow-duplicate-recipes", items) {
            return Ok(None);
        }
        let recipes = recipe_items(alloc, items)?;
        let kept = unbeaten(alloc, self.winners, recipes.as_slice())?;
        first_repeated_in(alloc, &GivenName, kept.as_slice())
    }
}

/// The rule that no two variables of a module that nobody beats have one name, unless the module allows it. Its place is the name
/// that comes again. For each file `winners` has those that import it, straight or through others.
#[derive(Drop)]
pub struct DuplicateVariable<'a> {
    pub winners: &'a [Seq<usize>],
}

impl<'a> ModuleRule for DuplicateVariable<'a> {
    ghost use Rattle.just_lang_spots.specs.Winners.{wins_in};
    ghost use Rattle.just_lang_rulebook.specs.DuplicateSpots.{duplicate_variables};

    ghost spots = { λ r items. duplicate_variables (wins_in r.winners.now) items };

    fn first(&self, alloc: Global, items: &[Entry<'_>]) -> Result<Option<Spot>, NoMemory> {
        if is_set("allow-duplicate-variables", items) {
            return Ok(None);
        }
        let variables = variable_items(alloc, items)?;
        let kept = unbeaten(alloc, self.winners, variables.as_slice())?;
        first_repeated_in(alloc, &GivenName, kept.as_slice())
    }
}
