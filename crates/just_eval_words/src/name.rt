//! What has a name in a module.

ghost use Rattle.std.specs.Prelude.{◌≡◌, ◌-◌, length, map, slice_get};
ghost use Rattle.std.specs.Option.{option_copied, option_map};
ghost use Rattle.just_lang_types.specs.declared.project.Justfile.{out-Justfile};
ghost use Rattle.just_lang_types.specs.Modules.{recipes_of, recipe_at, located_at};
ghost use Rattle.just_eval_words.specs.Names.{has_name, submodule, alias_at, disabled_at, recipe_in, is_absent, names_recipe, module_at, aliased_module, module_named, aliased_recipe};
ghost use Rattle.just_eval_words.specs.Sights.{located_of};

use super::found::Found;
use just_lang_types::project::Justfile;
use just_lang_types::{Alias, Disabled, Modulepath, Recipe};
use just_path_text::Text;

/// The last name of a path.
fn last_name(path: &Modulepath) -> Option<&Text>
    ensures { option_copied result ≡ slice_get path.now.components (length path.now.components - 1) }
{
    path.components.as_slice().last()
}

/// Whether a module has that name.
#[tactic(auto, using(crate::proofs::Named::nameless, crate::proofs::Named::named))]
fn has_name(justfile: &Justfile, name: &str) -> bool
    ensures { result ≡ has_name name.now justfile.now }
{
    match last_name(&justfile.module_path) {
        None => false,
        Some(last) => last.as_str() == name,
    }
}

/// The module of that name within a module.
fn submodule<'p>(justfile: &'p Justfile, name: &str) -> Option<&'p Justfile>
    ensures { option_copied result ≡ submodule justfile.now name.now }
{
    'modules: for inside in justfile.modules.as_slice() {
        if has_name(inside, name) {
            return Some(inside);
        }
    }
    None
}

/// The alias of that name.
fn alias_at<'p>(all: &'p [Alias], name: &str) -> Option<&'p Alias>
    ensures { option_copied result ≡ alias_at all.now name.now }
{
    'aliases: for alias in all {
        if alias.name.as_str() == name {
            return Some(alias);
        }
    }
    None
}

/// What of that name can't be run.
pub(crate) fn disabled_at<'p>(all: &'p [Disabled], name: &str) -> Option<&'p Disabled>
    ensures { option_copied result ≡ disabled_at all.now name.now }
{
    'disabled: for disabled in all {
        if disabled.name.as_str() == name {
            return Some(disabled);
        }
    }
    None
}

/// The recipe of that name in a module.
pub fn recipe_in<'p>(justfile: &'p Justfile, name: &str) -> Option<&'p Recipe>
    ensures { option_copied result ≡ recipe_in justfile.now name.now }
{
    'recipes: for recipe in justfile.recipes.as_slice() {
        if recipe.name.as_str() == name {
            return Some(recipe);
        }
    }
    None
}

/// Whether a module of that name may be missing and is.
pub(crate) fn is_absent(justfile: &Justfile, name: &str) -> bool
    ensures { result ≡ is_absent justfile.now name.now }
{
    justfile
        .absent_modules
        .as_slice()
        .iter()
        .any(|m| m.as_str() == name)
}

/// Whether a recipe or an alias of one has that name.
pub(crate) fn names_recipe(justfile: &Justfile, name: &str) -> bool
    ensures { result ≡ names_recipe justfile.now name.now }
{
    recipe_in(justfile, name).is_some()
        || alias_at(justfile.recipe_aliases.as_slice(), name).is_some()
        || disabled_at(justfile.disabled_aliases.as_slice(), name).is_some()
}

/// The module of a path from the root.
fn module_at<'p>(modules: &[&'p Justfile], path: &Modulepath) -> Option<&'p Justfile>
    ensures { option_copied result ≡ module_at (map (λ m. m.now) modules.now) path.now }
{
    'modules: for inside in modules {
        let found: &'p Justfile = *inside;
        if found.module_path.same(path) {
            return Some(found);
        }
    }
    None
}

/// The module of that name, also by an alias.
#[tactic(auto, using(crate::proofs::Named::own_module, crate::proofs::Named::no_alias, crate::proofs::Named::by_alias))]
pub fn module_named<'p>(
    modules: &[&'p Justfile],
    justfile: &'p Justfile,
    name: &str,
) -> Option<&'p Justfile>
    ensures { option_copied result ≡ module_named (map (λ m. m.now) modules.now) justfile.now name.now }
{
    if let Some(inside) = submodule(justfile, name) {
        return Some(inside);
    }
    match alias_at(justfile.module_aliases.as_slice(), name) {
        None => None,
        Some(alias) => module_at(modules, &alias.target),
    }
}

/// The recipe of a path from the root in a module.
fn recipe_of<'p>(justfile: &'p Justfile, path: &Modulepath) -> Option<Found<'p>>
    ensures { option_map located_of result ≡ located_at (map (λ r. record { parent = justfile.now; recipe = r }) (recipes_of justfile.now)) path.now }
{
    'recipes: for recipe in justfile.recipes.as_slice() {
        if recipe.path.same(path) {
            return Some(Found {
                parent: justfile,
                recipe,
            });
        }
    }
    None
}

/// The recipe of a path from the root.
#[tactic(auto, using(crate::proofs::Lookups::in_module, crate::proofs::Lookups::in_others, crate::proofs::Lookups::in_none))]
fn recipe_at<'p>(modules: &[&'p Justfile], path: &Modulepath) -> Option<Found<'p>>
    ensures { option_map located_of result ≡ recipe_at (map (λ m. m.now) modules.now) path.now }
{
    'modules: for inside in modules {
        if let Some(found) = recipe_of(*inside, path) {
            return Some(found);
        }
    }
    None
}

/// The recipe that an alias of that name stands for.
#[tactic(auto, using(crate::proofs::Named::no_recipe, crate::proofs::Named::recipe_by_alias))]
pub(crate) fn aliased_recipe<'p>(
    modules: &[&'p Justfile],
    justfile: &'p Justfile,
    name: &str,
) -> Option<Found<'p>>
    ensures { option_map located_of result ≡ aliased_recipe (map (λ m. m.now) modules.now) (alias_at (out-Justfile justfile.now).recipe_aliases name.now) }
{
    match alias_at(justfile.recipe_aliases.as_slice(), name) {
        None => None,
        Some(alias) => recipe_at(modules, &alias.target),
    }
}
