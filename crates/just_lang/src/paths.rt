//! What the targets of paths are, by their paths from the root.
ghost use Rattle.std.specs.Prelude.{◌≡◌, IfOk};
ghost use Rattle.just_lang_names.specs.Targets.{target};
ghost use Rattle.just_lang.specs.Linked.{path_in, path_to, recipe_path, linked_target, as_recipe, as_module};

use just_lang_justfile::AliasTarget;
use just_lang_layout::Layout;
use just_lang_names::Target;
use just_lang_shapes::path_within;
use just_lang_types::Modulepath;
use just_path_text::{NoMemory, TryClone};
use std::alloc::Global;

/// The path from the root of a name in the module of that number.
fn path_in(
    alloc: Global,
    layout: &Layout,
    number: usize,
    name: &str,
) -> Result<Option<Modulepath>, NoMemory>
    ensures { IfOk result (λ p. p ≡ path_in layout.now number name.now) }
{
    match layout.modules.as_slice().get(number) {
        None => Ok(None),
        Some(some_module) => {
            let path = path_within(alloc, &some_module.path, name)?;
            Ok(Some(path))
        }
    }
}

/// The path from the root of the module of that number.
fn path_to(layout: &Layout, number: usize) -> Result<Option<Modulepath>, NoMemory>
    ensures { IfOk result (λ p. p ≡ path_to layout.now number) }
{
    match layout.modules.as_slice().get(number) {
        None => Ok(None),
        Some(some_module) => {
            let components = some_module.path.components.try_clone()?;
            Ok(Some(Modulepath { components }))
        }
    }
}

/// The path of the recipe that a dependency's path comes to.
pub(crate) fn recipe_path(
    alloc: Global,
    layout: &Layout,
    found: &Target<'_>,
) -> Result<Option<Modulepath>, NoMemory>
    ensures { IfOk result (λ p. p ≡ recipe_path layout.now (target found.now)) }
{
    match found {
        Target::Recipe { number, recipe, .. } => {
            path_in(alloc, layout, *number, recipe.name.text.as_str())
        }
        _ => Ok(None),
    }
}

/// The target that a recipe's path is.
fn as_recipe(path: Option<Modulepath>) -> AliasTarget
    ensures { result ≡ as_recipe path }
{
    match path {
        None => AliasTarget::Nothing,
        Some(path) => AliasTarget::Recipe(path),
    }
}

/// The target that a module's path is.
fn as_module(path: Option<Modulepath>) -> AliasTarget
    ensures { result ≡ as_module path }
{
    match path {
        None => AliasTarget::Nothing,
        Some(path) => AliasTarget::Module(path),
    }
}

/// What an alias's path comes to.
pub(crate) fn linked_target(
    alloc: Global,
    layout: &Layout,
    found: &Target<'_>,
) -> Result<AliasTarget, NoMemory>
    ensures { IfOk result (λ t. t ≡ linked_target layout.now (target found.now)) }
{
    match found {
        Target::Recipe { number, recipe, .. } => {
            let path = path_in(alloc, layout, *number, recipe.name.text.as_str())?;
            Ok(as_recipe(path))
        }
        Target::Module(number) => {
            let path = path_to(layout, *number)?;
            Ok(as_module(path))
        }
        _ => Ok(AliasTarget::Nothing),
    }
}
