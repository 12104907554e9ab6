//! Recipes and aliases that can't be run, since they depend on modules that aren't there.
ghost use Rattle.std.specs.Prelude.{◌≡◌, ◌++◌, [], None, get_or, length, map, slice_get, IfOk, OnOk};
ghost use Rattle.std.specs.Option.{option_map, option_map_or};
ghost use Rattle.just_lang_spots.specs.Graph.{IsGraph, IsAcyclic};
ghost use Rattle.just_lang_spots.specs.Origins.{AreOrigins};
ghost use Rattle.just_lang_names.specs.Lookup.{is_absent};
ghost use Rattle.just_lang_names.specs.Names.{AreNames, layout_of, wins_of};
ghost use Rattle.just_lang.specs.Cycles.{IsFirstSpot, IsCircularRecipe, all_recipes};
ghost use Rattle.just_lang.specs.CycleTables.{standing, standings, AreRecipes};
ghost use Rattle.just_lang.specs.Disabling.{AreCauses, is_filled, if_absent, each_once, own_absent, modules_of_recipe, modules_of_alias};
ghost use Rattle.just_lang.specs.DisablingTables.{text, text_where, texts, absent_for, end_for, absent_in, IsDisabling};

use super::recipe::{Recipes, StandingRecipe, place_of_target};
use just_lang_names::{Names, PathKind, child, is_absent, recipe_named, target_of};
use just_lang_spots::{order, origins, push_some};
use just_lang_syntax::{AstDependency, Name};
use just_path_text::{NoMemory, Seq};
use std::alloc::{AllocError, Global};
use std::collections::HashSet;

/// Why recipes can't be run.
#[derive(Drop)]
pub struct Disabling<'r, 'n, 'a> {
    pub(crate) recipes: &'r Recipes<'n, 'a>,
    /// For each recipe the one for whose own modules it can't be run; none, where it can.
    pub causes: Vec<Option<usize>>,
    /// For each recipe the names of the modules that aren't there among those that its own dependencies go through.
    pub(crate) absent: Vec<Vec<&'a str>>,
}

// ---- names of modules that aren't there

/// The name, where it is that of a module that isn't there.
fn absent_name<'a>(names: &Names<'_>, number: usize, name: &'a Name) -> Option<&'a str>
    requires { AreNames names.now }
    ensures { option_map text result ≡ if_absent name.now (is_absent (layout_of names.now) number name.now.text) }
{
    if is_absent(names, number, name.text.as_str()) {
        Some(name.text.as_str())
    } else {
        None
    }
}

/// The last name of a path, where it is that of a module that isn't there.
fn absent_end<'a>(
    names: &Names<'a>,
    kind: PathKind,
    number: usize,
    name: &'a Name,
) -> Option<&'a str>
    requires { AreNames names.now }
    ensures { option_map text result ≡ end_for kind (wins_of names.now) (layout_of names.now) number name.now }
{
    let text = name.text.as_str();
    match kind {
        PathKind::Dependency => None,
        PathKind::Alias => {
            if recipe_named(names, number, text).is_some() {
                return None;
            }
            if child(names, number, text).is_some() {
                return None;
            }
            absent_name(names, number, name)
        }
    }
}

/// The name of the module that a path goes through and that isn't there.
#[tactic(auto, using(crate::proofs::Absent::absent_step, crate::proofs::Absent::absent_last))]
fn absent_of<'a>(
    names: &Names<'a>,
    kind: PathKind,
    outer: usize,
    path: &'a [Name],
) -> Option<&'a str>
    requires { AreNames names.now }
    ensures { option_map text result ≡ absent_for kind (wins_of names.now) (layout_of names.now) outer path.now }
{
    let mut number = outer;
    'names: for (at, name) in path.iter().enumerate() {
        if at + 1 == path.len() {
            return absent_end(names, kind, number, name);
        }
        match child(names, number, name.text.as_str()) {
            Some(inner) => number = inner,
            None => return absent_name(names, number, name),
        }
    }
    None
}

// ---- recipes

/// Adds the names of the modules that aren't there and that some dependencies go through.
fn add_absent<'a>(
    names: &Names<'a>,
    number: usize,
    dependencies: &'a [AstDependency],
    absent: &mut Vec<&'a str>,
) -> Result<(), NoMemory>
    requires { AreNames names.now }
    ensures { OnOk result (texts absent.new.items ≡ texts absent.old.items ++ absent_in (layout_of names.now) number dependencies.now) }
{
    'dependencies: for dependency in dependencies {
        let path = dependency.path.as_slice();
        let name = absent_of(names, PathKind::Dependency, number, path);
        push_some(absent, name)?;
    }
    Ok(())
}

/// The text, where the test holds.
fn text_where<'a>(test: bool, name: &'a str) -> Option<&'a str>
    ensures { option_map text result ≡ text_where test name.now }
{
    if test { Some(name) } else { None }
}

/// Each text once, in the order of its first place.
fn each_once<'a>(alloc: Global, all: &[&'a str]) -> Result<Vec<&'a str>, NoMemory>
    ensures { IfOk result (λ once. texts once.items ≡ each_once [] (texts all.now)) }
{
    let mut seen: HashSet<&str> = HashSet::with_capacity(alloc, all.len())?;
    let mut once = Vec::new(alloc);
    'all: for name in all {
        let is_new = seen.insert(*name)?;
        push_some(&mut once, text_where(is_new, *name))?;
    }
    Ok(once)
}

/// The names of the modules that aren't there among those that a recipe's own dependencies go through.
fn own_absent<'a>(
    alloc: Global,
    names: &Names<'a>,
    one: &StandingRecipe<'a>,
) -> Result<Vec<&'a str>, NoMemory>
    requires { AreNames names.now }
    ensures { IfOk result (λ absent. texts absent.items ≡ own_absent (layout_of names.now) (standing one.now)) }
{
    let mut absent = Vec::new(alloc);
    let recipe = one.recipe;
    let priors = recipe.priors.as_slice();
    add_absent(names, one.number, priors, &mut absent)?;
    let subsequents = recipe.subsequents.as_slice();
    add_absent(names, one.number, subsequents, &mut absent)?;
    let once = each_once(alloc, absent.as_slice())?;
    Ok(once)
}

/// These names for each of some recipes.
fn absent_of_each<'a>(
    alloc: Global,
    names: &Names<'a>,
    list: &[StandingRecipe<'a>],
) -> Result<Vec<Vec<&'a str>>, NoMemory>
    requires { AreNames names.now }
    ensures { IfOk result (λ absent. map (λ v. texts v.items) absent.items ≡ map (own_absent (layout_of names.now)) (standings list.now)) }
{
    let mut absent = Vec::new(alloc);
    'list: for one in list {
        let own = own_absent(alloc, names, one)?;
        absent.push(own)?;
    }
    Ok(absent)
}

/// Whether a list has something.
fn is_filled(list: &[&str]) -> bool
    ensures { result ≡ is_filled (texts list.now) }
{
    match list {
        [] => false,
        [_first, ..] => true,
    }
}

/// Which of some lists have something.
fn filled(alloc: Global, lists: &[Vec<&str>]) -> Result<Vec<bool>, NoMemory>
    ensures { IfOk result (λ v. v.items ≡ map is_filled (map (λ list. texts list.items) lists.now)) }
{
    let mut filled = Vec::new(alloc);
    'lists: for list in lists {
        let is_it = is_filled(list.as_slice());
        filled.push(is_it)?;
    }
    Ok(filled)
}

/// The names of the modules that aren't there among those that each recipe's own dependencies go through.
#[tactic(auto, using(crate::proofs::CauseLaws::absent_are))]
fn absent_of_recipes<'a>(
    alloc: Global,
    recipes: &Recipes<'_, 'a>,
) -> Result<Vec<Vec<&'a str>>, NoMemory>
    requires { AreRecipes recipes.now }
    ensures { IfOk result (λ absent. map (λ v. texts v.items) absent.items ≡ map (own_absent (layout_of recipes.now.names.now)) (all_recipes (wins_of recipes.now.names.now) (layout_of recipes.now.names.now))) }
{
    let absent = absent_of_each(alloc, recipes.names, recipes.list.as_slice())?;
    Ok(absent)
}

/// For each node of a graph without cycles the one that its quality comes from.
fn origins_without_cycles(
    alloc: Global,
    edges: &[Seq<usize>],
    own: &[bool],
) -> Result<Vec<Option<usize>>, NoMemory>
    requires graph { IsGraph edges.now }
    requires acyclic { IsAcyclic edges.now }
    requires own { length own.now ≡ length edges.now }
    ensures { IfOk result (λ causes. AreOrigins edges.now own.now causes.items) }
{
    let order = order(alloc, edges)?;
    let causes = origins(alloc, edges, own, order.as_slice())?;
    Ok(causes)
}

/// Why the recipes can't be run that depend on a module that isn't there, straight or through others. No recipe depends
/// on itself.
#[tactic(auto, using(crate::proofs::CauseLaws::edges_graph, crate::proofs::CauseLaws::edges_acyclic, crate::proofs::CauseLaws::own_length))]
pub fn causes<'r, 'n, 'a>(
    alloc: Global,
    recipes: &'r Recipes<'n, 'a>,
) -> Result<Disabling<'r, 'n, 'a>, NoMemory>
    requires recipes { AreRecipes recipes.now }
    requires none { IsFirstSpot (IsCircularRecipe (wins_of recipes.now.names.now) (layout_of recipes.now.names.now)) None }
    ensures recipes { IfOk result (λ disabling. disabling.recipes.now ≡ recipes.now) }
    ensures causes { IfOk result (λ disabling. AreCauses (wins_of recipes.now.names.now) (layout_of recipes.now.names.now) disabling.causes.items) }
    ensures tables { IfOk result IsDisabling }
{
    let absent = absent_of_recipes(alloc, recipes)?;
    let own = filled(alloc, absent.as_slice())?;
    let edges = recipes.edges.as_slice();
    let causes = origins_without_cycles(alloc, edges, own.as_slice())?;
    Ok(Disabling {
        recipes,
        causes,
        absent,
    })
}

/// The cause of that number.
fn cause_of(causes: &[Option<usize>], number: usize) -> Option<usize>
    ensures { result ≡ get_or causes.now number None }
{
    match causes.get(number) {
        Some(cause) => *cause,
        None => None,
    }
}

/// No names.
fn no_names<'d, 'a>() -> &'d [&'a str]
    ensures { texts result.now ≡ [] }
{
    &[]
}

/// The list of that number; none, where there is no such list.
fn list_at<'d, 'a>(lists: &'d [Vec<&'a str>], number: usize) -> &'d [&'a str]
    ensures { texts result.now ≡ option_map_or (λ xs. xs) (slice_get (map (λ list. texts list.items) lists.now) number) [] }
{
    if let Some(list) = lists.get(number) {
        return list.as_slice();
    }
    no_names()
}

/// The names of the modules for which the recipe of that number can't be run; none, where it can.
pub fn modules_of_recipe<'d, 'a>(
    disabling: &'d Disabling<'_, '_, 'a>,
    number: usize,
) -> &'d [&'a str]
    requires { IsDisabling disabling.now }
    ensures { texts result.now ≡ modules_of_recipe (wins_of disabling.now.recipes.now.names.now) (layout_of disabling.now.recipes.now.names.now) disabling.now.causes.items number }
{
    if let Some(cause) = cause_of(disabling.causes.as_slice(), number) {
        return list_at(disabling.absent.as_slice(), cause);
    }
    no_names()
}

// ---- aliases

/// A copy of a list of names.
fn copy_of<'a>(alloc: Global, list: &[&'a str]) -> Result<Vec<&'a str>, NoMemory>
    ensures { IfOk result (λ v. v.items ≡ list.now) }
{
    let mut copy = Vec::new(alloc);
    'list: for one in list {
        copy.push(*one)?;
    }
    Ok(copy)
}

/// The names of the modules for which an alias of that path can't be run, where it stands in the module of that number;
/// none, where it can.
pub fn modules_of_alias<'a>(
    alloc: Global,
    disabling: &Disabling<'_, '_, 'a>,
    number: usize,
    path: &'a [Name],
) -> Result<Vec<&'a str>, NoMemory>
    requires { IsDisabling disabling.now }
    ensures { IfOk result (λ v. texts v.items ≡ modules_of_alias (wins_of disabling.now.recipes.now.names.now) (layout_of disabling.now.recipes.now.names.now) disabling.now.causes.items number path.now) }
{
    let names = disabling.recipes.names;
    if let Some(name) = absent_of(names, PathKind::Alias, number, path) {
        let mut one = Vec::new(alloc);
        one.push(name)?;
        return Ok(one);
    }
    let target = target_of(names, PathKind::Alias, number, path);
    match place_of_target(names, disabling.recipes.before.as_slice(), &target)? {
        None => Ok(Vec::new(alloc)),
        Some(place) => {
            let modules = copy_of(alloc, modules_of_recipe(disabling, place))?;
            Ok(modules)
        }
    }
}
