//! The recipes of a module, and those of them that can't be run.
ghost use Rattle.std.specs.Prelude.{◌≡◌, IfOk};
ghost use Rattle.just_lang_spots.specs.Entries.{entry, entries};
ghost use Rattle.just_lang_justfile.specs.Comments.{AreCommentsOf};
ghost use Rattle.just_lang_justfile.specs.Recipes.{disabled_for, recipe_in, recipe_at, recipes_of, disabled_at, disabled_recipes_of};

use super::comments::above_in;
use super::dependencies::dependencies_of;
use super::linker::Linker;
use super::project::Project;
use just_lang_shapes::{Comments, Surroundings, recipe_of};
use just_lang_spots::{Entry, push_some};
use just_lang_syntax::{AstItem, AstRecipe};
use just_lang_types::{Disabled, Modulepath, Recipe, Texts};
use just_path_text::{NoMemory, Seq, Text};
use std::alloc::Global;

/// A module: its number and its path.
#[derive(Clone, Copy)]
pub(crate) struct Parent<'a> {
    pub(crate) number: usize,
    pub(crate) path: &'a Modulepath,
}

/// What can't be run, and the absent modules for which it can't; none where there are no such modules.
#[tactic(auto, using(crate::proofs::ListLaws::where_empty, crate::proofs::ListLaws::where_filled))]
pub(crate) fn disabled_for(
    alloc: Global,
    name: &str,
    modules: Seq<Text>,
) -> Result<Option<Disabled>, NoMemory>
    ensures { IfOk result (λ d. d ≡ disabled_for name.now modules) }
{
    if modules.is_empty() {
        return Ok(None);
    }
    let name = Text::from_str(alloc, name)?;
    Ok(Some(Disabled { name, modules }))
}

/// The recipe of a module, in the file of that number.
fn recipe_in<'a, T: Texts, L: Linker<'a>>(
    alloc: Global,
    project: &Project<'_, 'a, T, L>,
    comments: &[Comments<'a>],
    parent: Parent<'_>,
    file: usize,
    recipe: &'a AstRecipe,
) -> Result<Recipe, NoMemory>
    requires comments { AreCommentsOf project.now.layout.now.files comments.now }
    requires links { L.known project.now.links.now }
    ensures { IfOk result (λ r. r ≡ recipe_in (L.links project.now.links.now) parent.entry.number (T.text_of project.now.texts.now) project.now.layout.now.files parent.entry.path.now file recipe.now) }
{
    let priors = dependencies_of(
        alloc,
        project.texts,
        project.links,
        parent.number,
        recipe.priors.as_slice(),
    )?;
    let subsequents = dependencies_of(
        alloc,
        project.texts,
        project.links,
        parent.number,
        recipe.subsequents.as_slice(),
    )?;
    let above = above_in(comments, file, &recipe.name);
    let around = Surroundings {
        parent: parent.path,
        above,
        priors,
        subsequents,
    };
    recipe_of(alloc, project.texts, around, recipe)
}

/// The recipe of a module that an item is.
fn recipe_at<'a, T: Texts, L: Linker<'a>>(
    alloc: Global,
    project: &Project<'_, 'a, T, L>,
    comments: &[Comments<'a>],
    parent: Parent<'_>,
    one: &Entry<'a>,
) -> Result<Option<Recipe>, NoMemory>
    requires comments { AreCommentsOf project.now.layout.now.files comments.now }
    requires links { L.known project.now.links.now }
    ensures { IfOk result (λ r. r ≡ recipe_at (L.links project.now.links.now) parent.entry.number (T.text_of project.now.texts.now) project.now.layout.now.files parent.entry.path.now (entry one.now)) }
{
    match one.item {
        AstItem::Recipe(recipe) => {
            let made = recipe_in(alloc, project, comments, parent, one.file, recipe.get())?;
            Ok(Some(made))
        }
        _ => Ok(None),
    }
}

/// The recipes that stand in a module.
pub(crate) fn recipes_of<'a, T: Texts, L: Linker<'a>>(
    alloc: Global,
    project: &Project<'_, 'a, T, L>,
    comments: &[Comments<'a>],
    parent: Parent<'_>,
    standing: &[Entry<'a>],
) -> Result<Seq<Recipe>, NoMemory>
    requires comments { AreCommentsOf project.now.layout.now.files comments.now }
    requires links { L.known project.now.links.now }
    ensures { IfOk result (λ all. all ≡ recipes_of (L.links project.now.links.now) parent.entry.number (T.text_of project.now.texts.now) project.now.layout.now.files parent.entry.path.now (entries standing.now)) }
{
    let mut all = Vec::with_capacity(alloc, standing.len())?;
    'standing: for one in standing {
        let recipe = recipe_at(alloc, project, comments, parent, one)?;
        push_some(&mut all, recipe)?;
    }
    Ok(Seq::from(all))
}

/// The recipe at a place among those that stand in the module of that number, where it can't be run.
fn disabled_at<'a, L: Linker<'a>>(
    alloc: Global,
    links: &L,
    number: usize,
    place: usize,
    one: &Entry<'a>,
) -> Result<Option<Disabled>, NoMemory>
    requires { L.known links.now }
    ensures { IfOk result (λ d. d ≡ disabled_at (L.links links.now) number (place, entry one.now)) }
{
    match one.item {
        AstItem::Recipe(recipe) => {
            let modules = links.modules_of_recipe(alloc, number, place)?;
            disabled_for(alloc, recipe.get().name.text.as_str(), modules)
        }
        _ => Ok(None),
    }
}

/// Those of the recipes that stand in the module of that number that can't be run.
pub(crate) fn disabled_recipes_of<'a, L: Linker<'a>>(
    alloc: Global,
    links: &L,
    number: usize,
    standing: &[Entry<'a>],
) -> Result<Seq<Disabled>, NoMemory>
    requires { L.known links.now }
    ensures { IfOk result (λ all. all ≡ disabled_recipes_of (L.links links.now) number (entries standing.now)) }
{
    let mut all = Vec::new(alloc);
    'standing: for (at, one) in standing.iter().enumerate() {
        let disabled = disabled_at(alloc, links, number, at, one)?;
        push_some(&mut all, disabled)?;
    }
    Ok(Seq::from(all))
}
