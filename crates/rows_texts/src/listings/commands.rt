//! Rows of what commands print of a project.
//!
//! `command` is the name of the command, and `names` is the path that is given to it. Where a command is refused, the message is given. With
//! `list_tree` the listing is made of the root straight.

use super::project::{laid_of, whole_of};
use super::row_fields::{flag_of, some_text, text_of, text_or, texts_of};
use super::tree_rows::printed_of_tree;
use crate::language::message_of;
use just_lang::LaidJustfile;
use just_lang_types::project::LangError;
use just_path_text::{Environ, Seq, Text};
use just_print::print_items;
use just_print_commands::{ListTextError, Project, ShowError, list_text, show_text, usage_text};
use just_print_entries::{AliasStyle, ListError, ListOptions, list};
use just_print_lists::{chosen_indentation, groups, joined_line, public_paths, variables};
use rows_common::Wrong;
use serde_json::Value;
use std::alloc::Global;

/// The message of why a path leads nowhere. The call of `drop` stands in place of a walk through all variants at the scope's end.
fn path_refused(alloc: Global, error: LangError) -> Result<String, Wrong> {
    let message = message_of(alloc, &error);
    drop(error);
    message
}

/// The message of a group that isn't there.
fn group_refused(alloc: Global, group: &str) -> Result<String, Wrong> {
    Ok(format!(in alloc; "error: justfile does not contain group `{group}`")?)
}

/// A listing, or why there is none.
fn listed(alloc: Global, answer: Result<String, ListTextError>) -> Result<String, Wrong> {
    match answer {
        Ok(text) => Ok(text),
        Err(ListTextError::Path(error)) => path_refused(alloc, error),
        Err(ListTextError::UnknownGroup(group)) => group_refused(alloc, group.as_str()),
        Err(ListTextError::NoMemory) => Err(Wrong::NoMemory),
    }
}

/// The listing of a root, or why there is none.
fn listed_root(alloc: Global, answer: Result<String, ListError>) -> Result<String, Wrong> {
    match answer {
        Ok(text) => Ok(text),
        Err(ListError::UnknownGroup(group)) => group_refused(alloc, group.as_str()),
        Err(ListError::NoMemory) => Err(Wrong::NoMemory),
    }
}

/// What a command of that name shows of a recipe, or why it shows nothing.
fn shown(alloc: Global, command: &str, answer: Result<String, ShowError>) -> Result<String, Wrong> {
    match answer {
        Ok(text) => Ok(text),
        Err(ShowError::Required) => Ok(format!(in alloc; "error: `--{command}` requires recipe")?),
        Err(ShowError::Path(error)) => path_refused(alloc, error),
        Err(ShowError::NoMemory) => Err(Wrong::NoMemory),
    }
}

/// The style of that name.
fn style_of(name: &str) -> Result<AliasStyle, Wrong> {
    match name {
        "left" => Ok(AliasStyle::Left),
        "right" => Ok(AliasStyle::Right),
        "separate" => Ok(AliasStyle::Separate),
        "hidden" => Ok(AliasStyle::Hidden),
        _ => Err(Wrong::Form),
    }
}

/// How a row lists its project, of the groups that are given.
fn options_of<'o>(row: &'o Value, groups: &'o [Text]) -> Result<ListOptions<'o>, Wrong> {
    let heading = text_or(row, "heading", "Available recipes:\n")?;
    let prefix = text_or(row, "prefix", "    ")?;
    let unsorted = flag_of(row, "unsorted")?;
    let alias_style = style_of(text_or(row, "aliases", "right")?)?;
    let list_submodules = flag_of(row, "submodules")?;
    Ok(ListOptions {
        heading,
        prefix,
        groups,
        unsorted,
        alias_style,
        list_submodules,
    })
}

/// The listing of the module that a path leads to, or of the root straight.
fn listing(
    alloc: Global,
    row: &Value,
    project: Project<'_, '_, '_, '_, '_, '_>,
    is_straight: bool,
) -> Result<String, Wrong> {
    let names = texts_of(alloc, row, "names")?;
    let groups = texts_of(alloc, row, "groups")?;
    let options = options_of(row, groups.as_slice())?;
    if is_straight {
        listed_root(alloc, list(alloc, &options, project.tree))
    } else {
        listed(alloc, list_text(alloc, project, &options, names.as_slice()))
    }
}

/// The recipe that a path leads to, as its file has it.
fn show(
    alloc: Global,
    row: &Value,
    project: Project<'_, '_, '_, '_, '_, '_>,
) -> Result<String, Wrong> {
    let names = texts_of(alloc, row, "names")?;
    let given = some_text(row, "indentation")?;
    let answer = show_text(alloc, project, given, names.as_slice());
    shown(alloc, "show", answer)
}

/// How the recipe that a path leads to is used.
fn usage(
    alloc: Global,
    row: &Value,
    project: Project<'_, '_, '_, '_, '_, '_>,
) -> Result<String, Wrong> {
    let names = texts_of(alloc, row, "names")?;
    let answer = usage_text(alloc, project, names.as_slice());
    shown(alloc, "usage", answer)
}

/// The paths of a project's recipes.
fn summary(
    alloc: Global,
    row: &Value,
    project: Project<'_, '_, '_, '_, '_, '_>,
) -> Result<String, Wrong> {
    let paths = public_paths(alloc, flag_of(row, "unsorted")?, project.tree)?;
    Ok(joined_line(alloc, paths.as_slice())?)
}

/// The groups of a project.
fn group_list(
    alloc: Global,
    row: &Value,
    project: Project<'_, '_, '_, '_, '_, '_>,
) -> Result<String, Wrong> {
    let unsorted = flag_of(row, "unsorted")?;
    let prefix = text_or(row, "prefix", "    ")?;
    Ok(groups(alloc, unsorted, prefix, project.tree)?)
}

/// The indentation that a project has set.
fn indentation_set<'p>(project: Project<'_, '_, 'p, '_, '_, '_>) -> Option<&'p str> {
    match &project.root.settings.indentation {
        Some(text) => Some(text.as_str()),
        None => None,
    }
}

/// The tree of a project's root.
fn dump(
    alloc: Global,
    row: &Value,
    project: Project<'_, '_, '_, '_, '_, '_>,
) -> Result<String, Wrong> {
    let given = some_text(row, "indentation")?;
    let indentation = chosen_indentation(alloc, given, indentation_set(project))?;
    match project.layout.files.as_slice() {
        [first, ..] => {
            let items = first.items.as_slice();
            Ok(print_items(alloc, items, indentation.as_str())?)
        }
        [] => Err(Wrong::Form),
    }
}

/// What the command of a row prints of a project.
fn printed_of(
    alloc: Global,
    row: &Value,
    project: Project<'_, '_, '_, '_, '_, '_>,
) -> Result<String, Wrong> {
    let command = text_of(row, "command")?;
    match command {
        "dump" => dump(alloc, row, project),
        "groups" => group_list(alloc, row, project),
        "list" => listing(alloc, row, project, false),
        "list_tree" => listing(alloc, row, project, true),
        "show" => show(alloc, row, project),
        "summary" => summary(alloc, row, project),
        "usage" => usage(alloc, row, project),
        "variables" => Ok(variables(alloc, project.root.assignments.as_slice())?),
        _ => printed_of_tree(alloc, row, command, project),
    }
}

/// What the command of a row prints of the project of a justfile.
fn printed_laid(
    alloc: Global,
    row: &Value,
    environ: &Environ,
    laid: &LaidJustfile,
) -> Result<String, Wrong> {
    let whole = whole_of(alloc, environ, laid)?;
    printed_of(alloc, row, whole.project())
}

/// What the command of a row prints, over an environment without names. It promises nothing beyond safety. The call of `drop` stands in
/// place of a walk through the whole justfile at the scope's end.
pub(crate) fn printed(alloc: Global, row: &Value) -> Result<String, Wrong> {
    let environ = Environ {
        pairs: Seq::new(alloc),
    };
    let laid = laid_of(alloc, row, &environ)?;
    let printed = printed_laid(alloc, row, &environ, &laid);
    drop(laid);
    printed
}
