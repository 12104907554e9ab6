//! What listings show of what stands in a module.
ghost use Rattle.std.specs.Prelude.{◌≡◌, ◌++◌, map, IfOk};
ghost use Rattle.just_lang_types.specs.declared.project.Justfile.{out-Justfile};
ghost use Rattle.just_lang_layout.specs.Items.{items_of_module};
ghost use Rattle.just_print_lists.specs.declared.listed.ListedModule.{out-ListedModule};
ghost use Rattle.just_print_lists.specs.Listed.{modules_of};
ghost use Rattle.just_print_tree.specs.Branches.{IsListed};
ghost use Rattle.just_print_tree.specs.Groups.{recipe_spots, groups_among};
ghost use Rattle.just_print_tree.specs.Kept.{tolds};
ghost use Rattle.just_print_tree.specs.Names.{listed_recipes, listed_aliases};
ghost use Rattle.just_print_tree.specs.Told.{enabled};

use super::branch::Within;
use super::enabled::enabled;
use super::groups::{groups_among, push_spots};
use super::head::{Head, head_of};
use super::names::{listed_aliases, recipes_of};
use super::told::Told;
use just_lang_layout::{File, Module, items_of_module};
use just_lang_spots::Spot;
use just_lang_types::Texts;
use just_lang_types::project::Justfile;
use just_path_text::{NoMemory, Seq, Text};
use just_print_lists::{ListedAlias, ListedModule, ListedRecipe};
use std::alloc::Global;

/// The files of a project, what their strings mean, and the recipes of each module.
#[derive(Drop)]
pub(crate) struct Source<'t, 'f, 'l, 'a, T> {
    pub(crate) texts: &'t T,
    pub(crate) files: &'f [File],
    pub(crate) recipes: &'l [Seq<Told<'a>>],
}

/// A module of a layout, with its justfile and its recipes.
#[derive(Clone, Copy)]
pub(crate) struct Place<'l, 'a> {
    pub(crate) laid: &'a Module,
    pub(crate) justfile: &'a Justfile,
    pub(crate) recipes: &'l [Told<'a>],
}

/// What listings show of what stands in a module.
#[derive(Drop)]
struct Body {
    recipes: Seq<ListedRecipe>,
    aliases: Seq<ListedAlias>,
    named_groups: Seq<Text>,
}

/// The groups that are named by what is public among a module's recipes and at these places.
fn groups_of<T: Texts>(
    alloc: Global,
    source: &Source<'_, '_, '_, '_, T>,
    some_module: &Module,
    recipes: &[Told<'_>],
    within: Vec<Spot>,
) -> Result<Seq<Text>, NoMemory>
    ensures { IfOk result (λ g. g ≡ groups_among (T.text_of source.now.texts.now)
        (within.items ++ recipe_spots (tolds recipes.now))
        (items_of_module source.now.files.now some_module.now)) }
{
    let mut spots = within;
    push_spots(&mut spots, recipes)?;
    let items = items_of_module(alloc, source.files, some_module)?;
    groups_among(alloc, source.texts, spots.as_slice(), items.as_slice())
}

/// What listings show of what stands in a module.
fn body_of<T: Texts>(
    alloc: Global,
    source: &Source<'_, '_, '_, '_, T>,
    place: Place<'_, '_>,
    within: Vec<Spot>,
) -> Result<Body, NoMemory>
    ensures recipes { IfOk result (λ b. b.recipes ≡ listed_recipes (T.text_of source.now.texts.now)
        place.entry.justfile.now (tolds place.entry.recipes.now)) }
    ensures aliases { IfOk result (λ b. b.aliases ≡ listed_aliases
        (map tolds source.now.recipes.now) place.entry.laid.now.path
        (out-Justfile place.entry.justfile.now).recipe_aliases) }
    ensures named_groups { IfOk result (λ b. b.named_groups ≡ groups_among
        (T.text_of source.now.texts.now)
        (within.items ++ recipe_spots (enabled place.entry.justfile.now
        (tolds place.entry.recipes.now)))
        (items_of_module source.now.files.now place.entry.laid.now)) }
{
    let some = enabled(alloc, place.justfile, place.recipes)?;
    let named = groups_of(alloc, source, place.laid, some.as_slice(), within)?;
    let recipes = recipes_of(alloc, source.texts, place.justfile, some.as_slice())?;
    let aliases = listed_aliases(
        alloc,
        source.recipes,
        &place.laid.path,
        place.justfile.recipe_aliases.as_slice(),
    )?;
    Ok(Body {
        recipes,
        aliases,
        named_groups: named,
    })
}

/// The module of these parts, with these within it.
fn module_with(head: Head, body: Body, modules: Seq<ListedModule>) -> ListedModule
    ensures name { (out-ListedModule result).name ≡ head.name }
    ensures path { (out-ListedModule result).path ≡ head.path }
    ensures doc { (out-ListedModule result).doc ≡ head.doc }
    ensures groups { (out-ListedModule result).groups ≡ head.groups }
    ensures private { (out-ListedModule result).private ≡ head.private }
    ensures recipes { (out-ListedModule result).recipes ≡ body.recipes }
    ensures aliases { (out-ListedModule result).aliases ≡ body.aliases }
    ensures modules { (out-ListedModule result).modules ≡ modules }
    ensures named_groups { (out-ListedModule result).named_groups ≡ body.named_groups }
{
    ListedModule {
        name: head.name,
        path: head.path,
        doc: head.doc,
        groups: head.groups,
        private: head.private,
        recipes: body.recipes,
        aliases: body.aliases,
        modules,
        named_groups: body.named_groups,
    }
}

/// What listings show of a module, with those within it.
pub(crate) fn module_of<T: Texts>(
    alloc: Global,
    source: &Source<'_, '_, '_, '_, T>,
    place: Place<'_, '_>,
    within: Within,
) -> Result<ListedModule, NoMemory>
    ensures listed { IfOk result (IsListed (T.text_of source.now.texts.now) source.now.files.now
        (map tolds source.now.recipes.now) (tolds place.entry.recipes.now) within.spots.items
        place.entry.laid.now place.entry.justfile.now) }
    ensures modules { IfOk result (λ l. modules_of l ≡ within.trees.items) }
{
    let Within { trees, spots } = within;
    let body = body_of(alloc, source, place, spots)?;
    let head = head_of(alloc, source.files, place.laid, place.justfile)?;
    Ok(module_with(head, body, Seq::from(trees)))
}
