//! What a search finds, and its text.

use super::page::Page;
use just_env::SearchError;
use just_path::Utf8PathBuf;
use just_path_text::Text;
use just_search::{Location, Origin, Search};
use rows_common::Wrong;
use std::alloc::Global;

/// What a search answers.
pub(crate) enum Found {
    /// Where a justfile is.
    Place(Location),
    /// A justfile that can be loaded.
    File(Search),
    /// Where a justfile is to be written.
    Target(Search),
    Nothing,
    Refused(SearchError),
}

impl Drop for Found {
    fn drop(self) {
        match self {
            Found::Place(_) | Found::File(_) | Found::Target(_) | Found::Refused(_) => {}
            Found::Nothing => {}
        }
    }
}

/// The answer of a search for a place. It promises nothing beyond safety.
pub(crate) fn place(answer: Result<Location, SearchError>) -> Found {
    match answer {
        Ok(location) => Found::Place(location),
        Err(error) => Found::Refused(error),
    }
}

/// The answer of a search for the next place. It promises nothing beyond safety.
pub(crate) fn next(answer: Result<Option<Location>, SearchError>) -> Found {
    match answer {
        Ok(Some(location)) => Found::Place(location),
        Ok(None) => Found::Nothing,
        Err(error) => Found::Refused(error),
    }
}

/// The answer of a search for a file that can be loaded. It promises nothing beyond safety.
pub(crate) fn file(answer: Result<Search, SearchError>) -> Found {
    match answer {
        Ok(search) => Found::File(search),
        Err(error) => Found::Refused(error),
    }
}

/// The answer of a search for where a justfile is to be written. It promises nothing beyond safety.
pub(crate) fn target(answer: Result<Search, SearchError>) -> Found {
    match answer {
        Ok(search) => Found::Target(search),
        Err(error) => Found::Refused(error),
    }
}

/// What is found, as a text, with the temporary folders that were made. It promises nothing beyond safety.
pub(crate) fn found_shown(
    alloc: Global,
    found: &Found,
    made: &[Utf8PathBuf],
) -> Result<String, Wrong> {
    let mut page = Page::new(alloc);
    push_found(&mut page, found);
    for folder in made {
        page.push(" made ");
        page.push(folder.as_str());
    }
    page.finished()
}

/// Adds what is found.
fn push_found(page: &mut Page, found: &Found) {
    match found {
        Found::Place(location) => push_location(page, location),
        Found::File(search) => push_file(page, search),
        Found::Target(search) => push_target(page, search),
        Found::Nothing => page.push("none"),
        Found::Refused(error) => push_error(page, error),
    }
}

/// Adds the folder in which something stands.
fn push_folder(page: &mut Page, folder: &Utf8PathBuf) {
    page.push(" in ");
    page.push(folder.as_str());
}

/// Adds where a justfile is.
fn push_location(page: &mut Page, location: &Location) {
    let (origin, path) = match &location.origin {
        Origin::File(path) => ("file ", path.as_str()),
        Origin::Markdown(path) => ("markdown ", path.as_str()),
        Origin::StandardInput => ("input", ""),
    };
    page.push(origin);
    page.push(path);
    push_folder(page, &location.working_directory);
}

/// Adds the file of a justfile, with the temporary folder that it stands in.
fn push_file(page: &mut Page, search: &Search) {
    page.push("file ");
    page.push(search.justfile.as_str());
    if let Some(tempdir) = &search.tempdir {
        page.push(" of ");
        page.push(tempdir.as_str());
    }
    push_folder(page, &search.working_directory);
}

/// Adds where a justfile is to be written.
fn push_target(page: &mut Page, search: &Search) {
    page.push(search.justfile.as_str());
    push_folder(page, &search.working_directory);
}

/// The name of an error, and the path that it is about, where there is one.
fn error_parts(error: &SearchError) -> (&'static str, Option<&Utf8PathBuf>) {
    match error {
        SearchError::FilesystemIo { path, .. } => ("FilesystemIo ", Some(path)),
        SearchError::GlobalJustfileInit => ("GlobalJustfileInit", None),
        SearchError::GlobalJustfileNotFound => ("GlobalJustfileNotFound", None),
        SearchError::InitWithJustfileFromStandardInput => {
            ("InitWithJustfileFromStandardInput", None)
        }
        SearchError::JustfileHadNoParent { path } => ("JustfileHadNoParent ", Some(path)),
        SearchError::MultipleCandidates { folder, .. } => ("MultipleCandidates ", Some(folder)),
        SearchError::NotFound => ("NotFound", None),
        SearchError::TempdirIo { .. } => ("TempdirIo", None),
        _ => ("another error", None),
    }
}

/// The names among which a search can't choose.
fn candidates(error: &SearchError) -> &[Text] {
    match error {
        SearchError::MultipleCandidates { candidates, .. } => candidates.as_slice(),
        _ => &[],
    }
}

/// Adds why a search is refused.
fn push_error(page: &mut Page, error: &SearchError) {
    let (name, path) = error_parts(error);
    page.push(name);
    if let Some(path) = path {
        page.push(path.as_str());
    }
    for name in candidates(error) {
        page.push(" ");
        page.push(name.as_str());
    }
}
