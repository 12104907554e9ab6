//! Rows of what a project has, by the calls of which listings are made.
//!
//! `modules` gives the paths of the public modules in turn, `public`, `ungrouped` and `in_group` the names of the root's public recipes, and
//! `found` the recipe that has the path `names`, with the number of its file.

use super::calls::line_of;
use super::row_fields::{flag_of, text_of, texts_of};
use just_lang_types::Modulepath;
use just_path_text::{Seq, Text};
use just_print_commands::Project;
use just_print_lists::{
    ListedModule, in_group, joined_line, modules_in_turn, path_text, public_in_order, ungrouped,
};
use just_print_tree::found_told;
use rows_common::Wrong;
use serde_json::Value;
use std::alloc::Global;

/// What the call of a row gives of a project. It promises nothing beyond safety.
pub(crate) fn printed_of_tree(
    alloc: Global,
    row: &Value,
    command: &str,
    project: Project<'_, '_, '_, '_, '_, '_>,
) -> Result<String, Wrong> {
    match command {
        "found" => recipe_found(alloc, row, project),
        "modules" => module_paths(alloc, row, project.tree),
        _ => public_recipes(alloc, row, command, project.tree),
    }
}

/// The paths of a module and of the public ones within it.
fn module_paths(alloc: Global, row: &Value, root: &ListedModule) -> Result<String, Wrong> {
    let found = modules_in_turn(alloc, flag_of(row, "unsorted")?, root)?;
    let mut paths = Vec::new(alloc);
    for one in found.as_slice() {
        let path = path_text(alloc, one.path.components.as_slice())?;
        paths.push(Text::from(path))?;
    }
    Ok(joined_line(alloc, paths.as_slice())?)
}

/// The names of a module's public recipes: all, those in no group, or those in one.
fn public_recipes(
    alloc: Global,
    row: &Value,
    command: &str,
    root: &ListedModule,
) -> Result<String, Wrong> {
    let unsorted = flag_of(row, "unsorted")?;
    let public = public_in_order(alloc, unsorted, root.recipes.as_slice())?;
    let found = match command {
        "public" => return line_of(alloc, public.as_slice()),
        "ungrouped" => ungrouped(alloc, public.as_slice())?,
        "in_group" => in_group(alloc, text_of(row, "group")?, public.as_slice())?,
        _ => return Err(Wrong::Form),
    };
    line_of(alloc, found.as_slice())
}

/// The recipe that has a path, and the number of its file.
fn recipe_found(
    alloc: Global,
    row: &Value,
    project: Project<'_, '_, '_, '_, '_, '_>,
) -> Result<String, Wrong> {
    let path = Modulepath {
        components: Seq::from(texts_of(alloc, row, "names")?),
    };
    match found_told(project.recipes, &path) {
        Some(told) => {
            let (name, file) = (told.recipe.name.as_str(), told.file);
            Ok(format!(in alloc; "{name} in {file}")?)
        }
        None => Err(Wrong::Form),
    }
}
