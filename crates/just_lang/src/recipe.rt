//! Recipes with those that they depend on, and the first that depends on itself.
ghost use Rattle.std.specs.Prelude.{◌≡◌, ◌++◌, map, filter_map, IfOk, OnOk};
ghost use Rattle.std.specs.Option.{option_map};
ghost use Rattle.just_lang_spots.specs.Entries.{entry, entries};
ghost use Rattle.just_lang_names.specs.Names.{AreNames, layout_of, wins_of};
ghost use Rattle.just_lang_names.specs.Targets.{target, IsPlaced};
ghost use Rattle.just_lang.specs.Cycles.{IsFirstSpot, IsCircularRecipe, place_of_target, recipe_spot, recipes_needed};
ghost use Rattle.just_lang.specs.CycleTables.{standing, standings, standing_in, AreBefore, AreStanding, AreRecipes, needed_by};

use super::before::sum_of;
use super::first::first_on_cycle_at;
use just_lang_names::{Names, PathKind, Target, target_of};
use just_lang_spots::{Entry, Spot, name_spot, push_some};
use just_lang_syntax::{AstDependency, AstItem, AstRecipe};
use just_path_text::{NoMemory, Seq};
use std::alloc::Global;

/// A recipe that stands, with the numbers of its module and of its file.
#[derive(Clone, Copy)]
pub struct StandingRecipe<'a> {
    pub number: usize,
    pub file: usize,
    pub recipe: &'a AstRecipe,
}

/// The recipes of a project that stand, those of earlier modules first.
#[derive(Drop)]
pub struct Recipes<'n, 'a> {
    pub names: &'n Names<'a>,
    pub list: Vec<StandingRecipe<'a>>,
    /// For each module how many stand in those before it.
    pub(crate) before: Vec<usize>,
    /// For each recipe the places of those that it depends on.
    pub(crate) edges: Vec<Seq<usize>>,
}

/// The recipe that an item of a module is.
fn recipe_of<'a>(number: usize, one: &Entry<'a>) -> Option<StandingRecipe<'a>>
    ensures { option_map standing result ≡ standing_in number (entry one.now) }
{
    match one.item {
        AstItem::Recipe(recipe) => Some(StandingRecipe {
            number,
            file: one.file,
            recipe: recipe.get(),
        }),
        _ => None,
    }
}

/// Adds the recipes among the items of a module.
fn add_recipes<'a>(
    list: &mut Vec<StandingRecipe<'a>>,
    number: usize,
    items: &[Entry<'a>],
) -> Result<(), NoMemory>
    ensures { OnOk result (standings list.new.items ≡ standings list.old.items ++ filter_map (standing_in number) (entries items.now)) }
{
    'items: for one in items {
        let recipe = recipe_of(number, one);
        push_some(list, recipe)?;
    }
    Ok(())
}

/// The recipes of a project that stand, and for each module how many stand in those before it.
#[tactic(auto, using(crate::proofs::Standings::none_standing))]
fn recipes_of_modules<'a>(
    alloc: Global,
    names: &Names<'a>,
) -> Result<(Vec<StandingRecipe<'a>>, Vec<usize>), NoMemory>
    requires { AreNames names.now }
    ensures { IfOk result (λ x. AreStanding (wins_of names.now) (layout_of names.now) x.0.items x.1.items) }
{
    let mut list = Vec::new(alloc);
    let mut before = Vec::new(alloc);
    'modules: for (number, of_module) in names.modules.iter().enumerate() {
        before.push(list.len())?;
        add_recipes(&mut list, number, of_module.recipes.as_slice())?;
    }
    Ok((list, before))
}

/// The place, among all, of the recipe that a path comes to.
#[tactic(auto, using(crate::proofs::NameTables::placed_within, crate::proofs::NameTables::placed_is))]
pub(crate) fn place_of_target(
    names: &Names<'_>,
    before: &[usize],
    found: &Target<'_>,
) -> Result<Option<usize>, NoMemory>
    requires names { AreNames names.now }
    requires before { AreBefore (wins_of names.now) (layout_of names.now) before.now }
    requires placed { IsPlaced names.now found.now }
    ensures { IfOk result (λ p. p ≡ place_of_target (wins_of names.now) (layout_of names.now) (target found.now)) }
{
    match found {
        Target::Recipe { number, place, .. } => {
            let sum = sum_of(before[*number], *place)?;
            Ok(Some(sum))
        }
        _ => Ok(None),
    }
}

/// Adds the places of the recipes that some dependencies of a module come to.
fn add_needed<'a>(
    names: &Names<'a>,
    before: &[usize],
    number: usize,
    dependencies: &'a [AstDependency],
    places: &mut Vec<usize>,
) -> Result<(), NoMemory>
    requires names { AreNames names.now }
    requires before { AreBefore (wins_of names.now) (layout_of names.now) before.now }
    ensures { OnOk result (places.new.items ≡ places.old.items ++ needed_by (wins_of names.now) (layout_of names.now) number dependencies.now) }
{
    'dependencies: for dependency in dependencies {
        let path = dependency.path.as_slice();
        let target = target_of(names, PathKind::Dependency, number, path);
        let place = place_of_target(names, before, &target)?;
        push_some(places, place)?;
    }
    Ok(())
}

/// The places of the recipes that one depends on.
fn needed<'a>(
    alloc: Global,
    names: &Names<'a>,
    before: &[usize],
    one: &StandingRecipe<'a>,
) -> Result<Seq<usize>, NoMemory>
    requires names { AreNames names.now }
    requires before { AreBefore (wins_of names.now) (layout_of names.now) before.now }
    ensures { IfOk result (λ places. places ≡ recipes_needed (wins_of names.now) (layout_of names.now) (standing one.now)) }
{
    let mut places = Vec::new(alloc);
    let recipe = one.recipe;
    let priors = recipe.priors.as_slice();
    add_needed(names, before, one.number, priors, &mut places)?;
    let subsequents = recipe.subsequents.as_slice();
    add_needed(names, before, one.number, subsequents, &mut places)?;
    let all = Seq::from(places);
    Ok(all)
}

/// For each of some recipes the places of those that it depends on.
fn edges_of<'a>(
    alloc: Global,
    names: &Names<'a>,
    before: &[usize],
    list: &[StandingRecipe<'a>],
) -> Result<Vec<Seq<usize>>, NoMemory>
    requires names { AreNames names.now }
    requires before { AreBefore (wins_of names.now) (layout_of names.now) before.now }
    ensures { IfOk result (λ edges. edges.items ≡ map (recipes_needed (wins_of names.now) (layout_of names.now)) (standings list.now)) }
{
    let mut edges = Vec::new(alloc);
    'list: for one in list {
        let places = needed(alloc, names, before, one)?;
        edges.push(places)?;
    }
    Ok(edges)
}

/// The recipes of a project that stand, with those that they depend on.
pub fn standing_recipes<'n, 'a>(
    alloc: Global,
    names: &'n Names<'a>,
) -> Result<Recipes<'n, 'a>, NoMemory>
    requires { AreNames names.now }
    ensures recipes { IfOk result AreRecipes }
    ensures names { IfOk result (λ recipes. recipes.names.now ≡ names.now) }
{
    let (list, before) = recipes_of_modules(alloc, names)?;
    let edges = edges_of(alloc, names, before.as_slice(), list.as_slice())?;
    Ok(Recipes {
        names,
        list,
        before,
        edges,
    })
}

/// The places of the names of recipes.
fn spots_of(alloc: Global, list: &[StandingRecipe<'_>]) -> Result<Vec<Spot>, NoMemory>
    ensures { IfOk result (λ spots. spots.items ≡ map recipe_spot (standings list.now)) }
{
    let mut spots = Vec::new(alloc);
    'list: for one in list {
        spots.push(name_spot(one.file, &one.recipe.name))?;
    }
    Ok(spots)
}

/// The first place of a recipe that stands and depends on itself, straight or through others.
#[tactic(auto, using(crate::proofs::RecipeGraphs::graph_of_recipes, crate::proofs::RecipeGraphs::size_of_recipes, crate::proofs::RecipeGraphs::first_of_recipes))]
pub fn circular_recipe(alloc: Global, recipes: &Recipes<'_, '_>) -> Result<Option<Spot>, NoMemory>
    requires { AreRecipes recipes.now }
    ensures { IfOk result (IsFirstSpot (IsCircularRecipe (wins_of recipes.now.names.now) (layout_of recipes.now.names.now))) }
{
    let spots = spots_of(alloc, recipes.list.as_slice())?;
    let first = first_on_cycle_at(alloc, recipes.edges.as_slice(), spots.as_slice())?;
    Ok(first)
}
