//! The recipes and the other names that listings show.
ghost use Rattle.std.specs.Prelude.{◌≡◌, [], map, filter, IfOk};
ghost use Rattle.std.specs.Option.{option_map_or};
ghost use Rattle.just_lang_types.specs.Keys.{same_path};
ghost use Rattle.just_lang_justfile.specs.Trees.{is_within};
ghost use Rattle.just_print_tree.specs.Kept.{told, tolds};
ghost use Rattle.just_print_tree.specs.Told.{found_told};
ghost use Rattle.just_print_tree.specs.Names.{parameters_of, names_to, listed_recipe, is_of_other, listed_alias, listed_aliases};

use super::declared::is_within;
use super::told::{Told, found_told};
use just_lang_shapes::groups_of;
use just_lang_types::project::Justfile;
use just_lang_types::{Alias, Modulepath, Texts};
use just_path_text::{NoMemory, Seq, Text, TryClone};
use just_print::push_parameters;
use just_print_lists::{ListedAlias, ListedRecipe, names_of, push_where};
use std::alloc::Global;

/// The parameters of a recipe as its line has them.
fn parameters_of(alloc: Global, one: Told<'_>) -> Result<Text, NoMemory>
    ensures { IfOk result (λ t. t ≡ parameters_of (told one.entry)) }
{
    let mut out = String::new(alloc);
    push_parameters(&mut out, one.written.parameters.as_slice())?;
    Ok(Text::from(out))
}

/// The aliases that lead to a path.
#[tactic(auto, using(just_print_lists::proofs::Keeping::kept_more))]
fn aliases_to<'j>(
    alloc: Global,
    path: &Modulepath,
    aliases: &'j [Alias],
) -> Result<Vec<&'j Alias>, NoMemory>
    ensures { IfOk result (λ v. map (λ a. a.now) v.items ≡ filter (λ a. same_path a.target path.now)
        aliases.now) }
{
    let mut kept = Vec::new(alloc);
    'aliases: for alias in aliases {
        push_where(&mut kept, alias.target.same(path), alias)?;
    }
    Ok(kept)
}

/// The names that lead to a path.
fn names_to(alloc: Global, path: &Modulepath, aliases: &[Alias]) -> Result<Seq<Text>, NoMemory>
    ensures { IfOk result (λ names. names ≡ names_to path.now aliases.now) }
{
    let some = aliases_to(alloc, path, aliases)?;
    let names = names_of(alloc, some.as_slice())?;
    Ok(Seq::from(names))
}

/// What listings show of a recipe.
#[tactic(auto, unfolding(crate::specs::Names::listed_recipe))]
fn listed_recipe<T: Texts>(
    alloc: Global,
    texts: &T,
    justfile: &Justfile,
    one: Told<'_>,
) -> Result<ListedRecipe, NoMemory>
    ensures { IfOk result (λ r. r ≡ listed_recipe (T.text_of texts.now) justfile.now
        (told one.entry)) }
{
    let parameters = parameters_of(alloc, one)?;
    let groups = groups_of(alloc, texts, one.written.attributes.as_slice())?;
    let aliases = names_to(alloc, &one.recipe.path, justfile.recipe_aliases.as_slice())?;
    let doc = one.recipe.doc.try_clone()?;
    let name = one.recipe.name.try_clone()?;
    Ok(ListedRecipe {
        name,
        parameters,
        doc,
        groups,
        aliases,
        private: one.recipe.private,
    })
}

/// What listings show of recipes that can be run.
pub(crate) fn recipes_of<T: Texts>(
    alloc: Global,
    texts: &T,
    justfile: &Justfile,
    recipes: &[Told<'_>],
) -> Result<Seq<ListedRecipe>, NoMemory>
    ensures { IfOk result (λ all. all ≡ map (listed_recipe (T.text_of texts.now) justfile.now)
        (tolds recipes.now)) }
{
    let mut all = Vec::with_capacity(alloc, recipes.len())?;
    'recipes: for one in recipes {
        let listed = listed_recipe(alloc, texts, justfile, *one)?;
        all.push(listed)?;
    }
    Ok(Seq::from(all))
}

/// Whether an alias is one of a recipe of another module than that of the path.
fn is_of_other(path: &Modulepath, alias: &Alias) -> bool
    ensures { result ≡ is_of_other path.now alias.now }
{
    !is_within(
        path.components.as_slice(),
        alias.target.components.as_slice(),
    )
}

/// The aliases of other modules' recipes.
#[tactic(auto, using(just_print_lists::proofs::Keeping::kept_more))]
fn others_of<'j>(
    alloc: Global,
    path: &Modulepath,
    aliases: &'j [Alias],
) -> Result<Vec<&'j Alias>, NoMemory>
    ensures { IfOk result (λ v. map (λ a. a.now) v.items ≡ filter (is_of_other path.now)
        aliases.now) }
{
    let mut kept = Vec::new(alloc);
    'aliases: for alias in aliases {
        push_where(&mut kept, is_of_other(path, alias), alias)?;
    }
    Ok(kept)
}

/// The parameters of the recipe of that path among those of modules; nothing where there is none.
fn parameters_at(alloc: Global, all: &[Seq<Told<'_>>], path: &Modulepath) -> Result<Text, NoMemory>
    ensures { IfOk result (λ t. t ≡ option_map_or parameters_of
        (found_told (map tolds all.now) path.now) []) }
{
    match found_told(all, path) {
        None => Ok(Text::from(String::new(alloc))),
        Some(one) => parameters_of(alloc, one),
    }
}

/// What listings show of an alias of another module's recipe.
fn listed_alias(
    alloc: Global,
    all: &[Seq<Told<'_>>],
    alias: &Alias,
) -> Result<ListedAlias, NoMemory>
    ensures { IfOk result (λ a. a ≡ listed_alias (map tolds all.now) alias.now) }
{
    let parameters = parameters_at(alloc, all, &alias.target)?;
    let target = alias.target.try_clone()?;
    let name = alias.name.try_clone()?;
    Ok(ListedAlias {
        name,
        parameters,
        target,
    })
}

/// What listings show of aliases.
fn listed_each(
    alloc: Global,
    all: &[Seq<Told<'_>>],
    aliases: &[&Alias],
) -> Result<Seq<ListedAlias>, NoMemory>
    ensures { IfOk result (λ v. v ≡ map (listed_alias (map tolds all.now))
        (map (λ a. a.now) aliases.now)) }
{
    let mut listed = Vec::new(alloc);
    'aliases: for alias in aliases {
        let one = listed_alias(alloc, all, *alias)?;
        listed.push(one)?;
    }
    Ok(Seq::from(listed))
}

/// What listings show of the aliases of a module of that path that are of other modules' recipes.
pub(crate) fn listed_aliases(
    alloc: Global,
    all: &[Seq<Told<'_>>],
    path: &Modulepath,
    aliases: &[Alias],
) -> Result<Seq<ListedAlias>, NoMemory>
    ensures { IfOk result (λ v. v ≡ listed_aliases (map tolds all.now) path.now aliases.now) }
{
    let others = others_of(alloc, path, aliases)?;
    listed_each(alloc, all, others.as_slice())
}
