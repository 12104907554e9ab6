//! The aliases and the dependencies of a project.
ghost use Rattle.std.specs.Prelude.{◌≡◌, ◌++◌, map, IfOk, OnOk};
ghost use Rattle.std.specs.List.{flat_map};
ghost use Rattle.just_lang_spots.specs.Entries.{entry, entries};
ghost use Rattle.just_lang_names.specs.Names.{AreNames, layout_of, wins_of};
ghost use Rattle.just_lang_names.specs.TargetSpots.{aliases_in, dependency_in, dependencies_in, all_aliases, all_dependencies};
ghost use Rattle.just_lang_names.specs.Targets.{alias_in, dependency_of, aliases_of, dependencies_of};

use super::names::{ModuleNames, Names};
use just_lang_spots::Entry;
use just_lang_syntax::{AstDependency, AstItem, Name};
use just_path_text::NoMemory;
use std::alloc::{AllocError, Global};

/// An alias's path, with the numbers of its module and of its file.
#[derive(Clone, Copy)]
pub struct ListedAlias<'a> {
    pub number: usize,
    pub file: usize,
    pub target: &'a [Name],
}

/// A dependency of a recipe that stands, with the numbers of the recipe's module and of its file.
#[derive(Clone, Copy)]
pub struct ListedDependency<'a> {
    pub number: usize,
    pub file: usize,
    pub dependency: &'a AstDependency,
}

/// Adds the alias that an item is.
#[tactic(auto, using(just_lang_spots::proofs::ListLaws::map_end))]
fn push_alias<'a>(
    list: &mut Vec<ListedAlias<'a>>,
    number: usize,
    one: &Entry<'a>,
) -> Result<(), AllocError>
    ensures { OnOk result (map alias_in list.new.items ≡ map alias_in list.old.items ++ aliases_in number (entry one.now)) }
{
    match one.item {
        AstItem::Alias { target, .. } => {
            list.push(ListedAlias {
                number,
                file: one.file,
                target: target.as_slice(),
            })?;
            Ok(())
        }
        _ => Ok(()),
    }
}

/// Adds those among some items of a module.
fn push_aliases<'a>(
    list: &mut Vec<ListedAlias<'a>>,
    number: usize,
    items: &[Entry<'a>],
) -> Result<(), AllocError>
    ensures { OnOk result (map alias_in list.new.items ≡ map alias_in list.old.items ++ flat_map (aliases_in number) (entries items.now)) }
{
    'items: for one in items {
        push_alias(list, number, one)?;
    }
    Ok(())
}

/// The aliases among the items of modules.
fn aliases_of<'a>(
    alloc: Global,
    modules: &[ModuleNames<'a>],
) -> Result<Vec<ListedAlias<'a>>, AllocError>
    ensures { IfOk result (λ v. map alias_in v.items ≡ aliases_of modules.now) }
{
    let mut list = Vec::new(alloc);
    'modules: for (number, of_module) in modules.iter().enumerate() {
        push_aliases(&mut list, number, of_module.items.as_slice())?;
    }
    Ok(list)
}

/// The aliases of all modules.
pub fn all_aliases<'a>(alloc: Global, names: &Names<'a>) -> Result<Vec<ListedAlias<'a>>, NoMemory>
    requires { AreNames names.now }
    ensures { IfOk result (λ v. map alias_in v.items ≡ all_aliases (layout_of names.now)) }
{
    let list = aliases_of(alloc, names.modules.as_slice())?;
    Ok(list)
}

/// Adds dependencies of a recipe in that module and that file.
#[tactic(auto, using(just_lang_spots::proofs::ListLaws::map_end, just_lang_spots::proofs::ListLaws::map_more))]
fn push_among<'a>(
    list: &mut Vec<ListedDependency<'a>>,
    number: usize,
    file: usize,
    dependencies: &'a [AstDependency],
) -> Result<(), AllocError>
    ensures { OnOk result (map dependency_of list.new.items ≡ map dependency_of list.old.items ++ map (dependency_in number file) dependencies.now) }
{
    'dependencies: for dependency in dependencies {
        list.push(ListedDependency {
            number,
            file,
            dependency,
        })?;
    }
    Ok(())
}

/// Adds those of an item that is a recipe.
fn push_of<'a>(
    list: &mut Vec<ListedDependency<'a>>,
    number: usize,
    one: &Entry<'a>,
) -> Result<(), AllocError>
    ensures { OnOk result (map dependency_of list.new.items ≡ map dependency_of list.old.items ++ dependencies_in number (entry one.now)) }
{
    match one.item {
        AstItem::Recipe(recipe) => {
            let recipe = recipe.get();
            push_among(list, number, one.file, recipe.priors.as_slice())?;
            push_among(list, number, one.file, recipe.subsequents.as_slice())
        }
        _ => Ok(()),
    }
}

/// Adds those of the recipes of a module.
fn push_dependencies<'a>(
    list: &mut Vec<ListedDependency<'a>>,
    number: usize,
    recipes: &[Entry<'a>],
) -> Result<(), AllocError>
    ensures { OnOk result (map dependency_of list.new.items ≡ map dependency_of list.old.items ++ flat_map (dependencies_in number) (entries recipes.now)) }
{
    'recipes: for one in recipes {
        push_of(list, number, one)?;
    }
    Ok(())
}

/// The dependencies of the recipes of modules.
fn dependencies_of<'a>(
    alloc: Global,
    modules: &[ModuleNames<'a>],
) -> Result<Vec<ListedDependency<'a>>, AllocError>
    ensures { IfOk result (λ v. map dependency_of v.items ≡ dependencies_of modules.now) }
{
    let mut list = Vec::new(alloc);
    'modules: for (number, of_module) in modules.iter().enumerate() {
        push_dependencies(&mut list, number, of_module.recipes.as_slice())?;
    }
    Ok(list)
}

/// The dependencies of the recipes that stand in any module.
pub fn all_dependencies<'a>(
    alloc: Global,
    names: &Names<'a>,
) -> Result<Vec<ListedDependency<'a>>, NoMemory>
    requires { AreNames names.now }
    ensures { IfOk result (λ v. map dependency_of v.items ≡ all_dependencies (wins_of names.now) (layout_of names.now)) }
{
    let list = dependencies_of(alloc, names.modules.as_slice())?;
    Ok(list)
}
