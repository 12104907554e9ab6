//! The messages of broken rules, and of paths that lead nowhere.

use super::page::Page;
use just_lang_types::project::LangError;
use just_path_text::Text;
use rows_common::Wrong;
use std::alloc::Global;

/// Adds the paths of a module's files as a message lists them.
fn push_listed(page: &mut Page, found: &[Text]) {
    for (number, path) in found.iter().enumerate() {
        if number > 0 {
            page.push(if number + 1 == found.len() {
                " and "
            } else {
                ", "
            });
        }
        page.push("`");
        page.push(path.as_str());
        page.push("`");
    }
}

/// Adds a place as a message tells it.
fn push_place(page: &mut Page, path: &str, line: usize, column: usize) {
    page.push(" at ");
    page.push(path);
    page.push(":");
    page.push_number(line as u64);
    page.push(":");
    page.push_number(column as u64);
}

/// Adds the message of a rule on the files that others name; whether it is of such a rule.
fn push_of_files(page: &mut Page, error: &LangError) -> bool {
    match error {
        LangError::MissingImportFile => page.push("could not find source file for import"),
        LangError::CircularImport { current, import } => {
            page.push("import `");
            page.push(import.as_str());
            page.push("` in `");
            page.push(current.as_str());
            page.push("` is circular");
        }
        LangError::MissingModuleFile { module } => {
            page.push("could not find source file for module `");
            page.push(module.as_str());
            page.push("`");
        }
        LangError::AmbiguousModuleFile { module, found } => {
            page.push("found multiple source files for module `");
            page.push(module.as_str());
            page.push("`: ");
            push_listed(page, found.as_slice());
        }
        LangError::Homedir => page.push("failed to get homedir"),
        _ => return false,
    }
    true
}

/// Adds a name between backquotes, with texts around it.
fn push_naming(page: &mut Page, front: &str, name: &str, back: &str) {
    page.push(front);
    page.push("`");
    page.push(name);
    page.push("`");
    page.push(back);
}

/// Adds the message of a path that leads nowhere; whether it is of one.
fn push_of_paths(page: &mut Page, error: &LangError) -> bool {
    match error {
        LangError::UnknownRecipe { recipe } => {
            push_naming(
                page,
                "justfile does not contain recipe ",
                recipe.as_str(),
                "",
            );
        }
        LangError::UnknownSubmodule { path } => {
            push_naming(
                page,
                "justfile does not contain submodule ",
                path.as_str(),
                "",
            );
        }
        LangError::ModuleAbsent { module } => {
            push_naming(page, "optional module ", module.as_str(), " is absent");
        }
        _ => return false,
    }
    true
}

/// Adds the message of a rule on texts.
fn push_of_texts(page: &mut Page, error: &LangError) -> Result<(), Wrong> {
    match error {
        LangError::Compile(error) => {
            page.push_kind(error.kind);
            push_place(page, error.path.as_str(), error.line, error.column);
            Ok(())
        }
        LangError::Const { path, line, column } => {
            page.push("not constant");
            push_place(page, path.as_str(), *line, *column);
            Ok(())
        }
        LangError::NoMemory => Err(Wrong::NoMemory),
        _ => Err(Wrong::Form),
    }
}

/// The message of a rule, or of a path that leads nowhere.
pub(crate) fn message(alloc: Global, error: &LangError) -> Result<String, Wrong> {
    let mut page = Page::new(alloc);
    page.push("error: ");
    if !push_of_files(&mut page, error) && !push_of_paths(&mut page, error) {
        push_of_texts(&mut page, error)?;
    }
    page.finished()
}
