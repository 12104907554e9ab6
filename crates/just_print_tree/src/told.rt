//! The recipes of a project, each beside what is written of it.
ghost use Rattle.std.specs.Prelude.{◌≡◌, length, map, find, option_map, IfOk};
ghost use Rattle.just_lang_spots.specs.Entries.{entry, entries};
ghost use Rattle.just_lang_spots.specs.Winners.{wins_in};
ghost use Rattle.just_lang_types.specs.Keys.{same_path};
ghost use Rattle.just_print_tree.specs.Kept.{told, tolds};
ghost use Rattle.just_print_tree.specs.Told.{told_at, told_among, told_of, told_each, found_told};

use just_lang_layout::{File, Module, items_of_module};
use just_lang_spots::{Entry, push_some, standing_recipes};
use just_lang_syntax::{AstItem, AstRecipe};
use just_lang_types::project::Justfile;
use just_lang_types::{Modulepath, Recipe};
use just_path_text::{NoMemory, Seq};
use std::alloc::Global;

/// A recipe of a justfile, and what is written of it in the file of that number.
#[derive(Clone, Copy)]
pub struct Told<'a> {
    pub recipe: &'a Recipe,
    pub file: usize,
    pub written: &'a AstRecipe,
}

/// The recipe that an item is, by the recipe at that place among those of its justfile.
fn told_at<'a>(recipes: &'a [Recipe], place: usize, one: &Entry<'a>) -> Option<Told<'a>>
    ensures { option_map told result ≡ told_at recipes.now (place, entry one.now) }
{
    match one.item {
        AstItem::Recipe(written) => match recipes.get(place) {
            None => None,
            Some(recipe) => Some(Told {
                recipe,
                file: one.file,
                written: written.get(),
            }),
        },
        _ => None,
    }
}

/// Recipes beside the items that stand, which are theirs in the same order.
fn told_among<'a>(
    alloc: Global,
    recipes: &'a [Recipe],
    standing: &[Entry<'a>],
) -> Result<Vec<Told<'a>>, NoMemory>
    ensures { IfOk result (λ v. tolds v.items ≡ told_among recipes.now (entries standing.now)) }
{
    let mut all = Vec::with_capacity(alloc, standing.len())?;
    'standing: for (at, one) in standing.iter().enumerate() {
        let told = told_at(recipes, at, one);
        push_some(&mut all, told)?;
    }
    Ok(all)
}

/// The recipes of a module's justfile.
fn told_of<'a>(
    alloc: Global,
    winners: &[Seq<usize>],
    files: &'a [File],
    some_module: &Module,
    justfile: &'a Justfile,
) -> Result<Vec<Told<'a>>, NoMemory>
    ensures { IfOk result (λ v. tolds v.items ≡ told_of (wins_in winners.now) files.now
        some_module.now justfile.now) }
{
    let items = items_of_module(alloc, files, some_module)?;
    let standing = standing_recipes(alloc, winners, items.as_slice())?;
    told_among(alloc, justfile.recipes.as_slice(), standing.as_slice())
}

/// The recipes of each module. For each file `winners` has those that import it, straight or through others.
pub fn told_each<'a>(
    alloc: Global,
    winners: &[Seq<usize>],
    files: &'a [File],
    modules: &[Module],
    justfiles: &[&'a Justfile],
) -> Result<Vec<Seq<Told<'a>>>, NoMemory>
    requires { length modules.now ≡ length justfiles.now }
    ensures { IfOk result (λ v. map tolds v.items ≡ told_each (wins_in winners.now) files.now
        modules.now (map (λ j. j.now) justfiles.now)) }
{
    let mut all = Vec::new(alloc);
    'modules: for at in 0..modules.len() {
        let told = told_of(alloc, winners, files, &modules[at], justfiles[at])?;
        all.push(Seq::from(told))?;
    }
    Ok(all)
}

/// The first of some recipes that has that path.
fn found_in<'a>(recipes: &[Told<'a>], path: &Modulepath) -> Option<Told<'a>>
    ensures { option_map told result ≡ find (λ x. same_path x.recipe.path path.now)
        (tolds recipes.now) }
{
    'recipes: for one in recipes {
        if one.recipe.path.same(path) {
            return Some(*one);
        }
    }
    None
}

/// The recipe of that path among those of modules.
pub fn found_told<'a>(all: &[Seq<Told<'a>>], path: &Modulepath) -> Option<Told<'a>>
    ensures { option_map told result ≡ found_told (map tolds all.now) path.now }
{
    'modules: for recipes in all {
        if let Some(one) = found_in(recipes.as_slice(), path) {
            return Some(one);
        }
    }
    None
}
