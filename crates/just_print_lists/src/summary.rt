//! The paths of a project's public recipes.
ghost use Rattle.std.specs.Prelude.{◌≡◌, ◌++◌, [], ◌∷◌, map, reverse, IfOk, OnOk, string_bytes};
ghost use Rattle.std.specs.List.{flat_map};
ghost use Rattle.just_print_lists.specs.Summaries.{public_modules, AreInTurn, ArePaths, front_of, path_within, paths_of, joined_line};

use super::group::public_in_order;
use super::listed::{ListedModule, ListedRecipe};
use super::texts::push_separated;
use just_path_text::{NoMemory, Text};
use std::alloc::{AllocError, Global};

/// Puts modules on top of those that are pending, the first one on top.
fn push_modules<'j>(
    pending: &mut Vec<&'j ListedModule>,
    modules: &[&'j ListedModule],
) -> Result<(), NoMemory>
    ensures { OnOk result
        (map (λ m. m.now) pending.new.items
        ≡ map (λ m. m.now) pending.old.items ++ reverse (map (λ m. m.now) modules.now)) }
{
    let mut left = modules.len();
    'modules: while left > 0 {
        left -= 1;
        pending.push(modules[left])?;
    }
    Ok(())
}

/// Puts the public modules within one on top of those that are pending, the first one on top.
fn push_inner<'j>(
    alloc: Global,
    unsorted: bool,
    pending: &mut Vec<&'j ListedModule>,
    outer: &'j ListedModule,
) -> Result<(), NoMemory>
    ensures { OnOk result
        (map (λ m. m.now) pending.new.items
        ≡ map (λ m. m.now) pending.old.items ++ reverse (public_modules unsorted outer.now)) }
{
    let inner = public_in_order(alloc, unsorted, outer.modules.as_slice())?;
    push_modules(pending, inner.as_slice())
}

/// A module and the public ones within it, each before those within it.
#[tactic(auto, using(crate::proofs::InTurn::nothing_left, crate::proofs::InTurn::one_more, crate::proofs::InTurn::fewer))]
pub fn modules_in_turn<'j>(
    alloc: Global,
    unsorted: bool,
    root: &'j ListedModule,
) -> Result<Vec<&'j ListedModule>, NoMemory>
    ensures { IfOk result (λ all. AreInTurn unsorted (root.now ∷ []) (map (λ m. m.now) all.items)) }
{
    let mut all: Vec<&'j ListedModule> = Vec::new(alloc);
    let mut pending: Vec<&'j ListedModule> = Vec::new(alloc);
    pending.push(root)?;
    'modules: while let Some(outer) = pending.pop() {
        all.push(outer)?;
        push_inner(alloc, unsorted, &mut pending, outer)?;
    }
    Ok(all)
}

/// Adds the names of a path, each with `::` behind it.
fn push_front(out: &mut String, names: &[Text]) -> Result<(), AllocError>
    ensures { IfOk result (λ _. string_bytes out.new ≡ string_bytes out.old ++ front_of names.now) }
{
    'names: for name in names {
        out.push_str(name.as_str())?;
        out.push_str("::")?;
    }
    Ok(())
}

/// The path of a recipe of that name in a module.
fn path_within(alloc: Global, outer: &ListedModule, name: &str) -> Result<Text, NoMemory>
    ensures { IfOk result (λ t. t ≡ path_within outer.now name.now) }
{
    let mut path = String::new(alloc);
    push_front(&mut path, outer.path.components.as_slice())?;
    path.push_str(name)?;
    Ok(Text::from(path))
}

/// Adds the paths of recipes of a module.
fn push_paths(
    alloc: Global,
    paths: &mut Vec<Text>,
    outer: &ListedModule,
    recipes: &[&ListedRecipe],
) -> Result<(), NoMemory>
    ensures { OnOk result
        (paths.new.items
        ≡ paths.old.items
        ++ map (λ r. path_within outer.now r.name) (map (λ r. r.now) recipes.now)) }
{
    'recipes: for recipe in recipes {
        let path = path_within(alloc, outer, recipe.name.as_str())?;
        paths.push(path)?;
    }
    Ok(())
}

/// Adds the paths of the public recipes of a module.
fn push_paths_of(
    alloc: Global,
    unsorted: bool,
    paths: &mut Vec<Text>,
    outer: &ListedModule,
) -> Result<(), NoMemory>
    ensures { OnOk result (paths.new.items ≡ paths.old.items ++ paths_of unsorted outer.now) }
{
    let recipes = public_in_order(alloc, unsorted, outer.recipes.as_slice())?;
    push_paths(alloc, paths, outer, recipes.as_slice())
}

/// The paths of the public recipes of modules.
fn paths_of_modules(
    alloc: Global,
    unsorted: bool,
    modules: &[&ListedModule],
) -> Result<Vec<Text>, NoMemory>
    ensures { IfOk result
        (λ v. v.items ≡ flat_map (paths_of unsorted) (map (λ m. m.now) modules.now)) }
{
    let mut paths = Vec::new(alloc);
    'modules: for outer in modules {
        push_paths_of(alloc, unsorted, &mut paths, outer)?;
    }
    Ok(paths)
}

/// The paths of the public recipes of a project, a module's own in front of those of the modules within it.
pub fn public_paths(
    alloc: Global,
    unsorted: bool,
    root: &ListedModule,
) -> Result<Vec<Text>, NoMemory>
    ensures { IfOk result (λ v. ArePaths unsorted root.now v.items) }
{
    let all = modules_in_turn(alloc, unsorted, root)?;
    let paths = paths_of_modules(alloc, unsorted, all.as_slice())?;
    Ok(paths)
}

/// Texts on a line, with blanks between them: what `--summary` prints of the paths of the public recipes.
pub fn joined_line(alloc: Global, texts: &[Text]) -> Result<String, NoMemory>
    ensures { IfOk result (λ t. string_bytes t ≡ joined_line texts.now) }
{
    let mut out = String::new(alloc);
    push_separated(&mut out, " ", texts)?;
    out.push_str("\n")?;
    Ok(out)
}
