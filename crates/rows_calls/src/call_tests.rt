//! Each public call that can answer want of memory and that no row of another crate makes, called once with ample
//! memory. The calls of paths, texts, readers and expansions are made by `rows_texts` and `rows_calls`; a run makes those of a host, of the record, of the loader (`load_over`), of a project,
//! its dotenv pairs, its values, keys and closure, of a plan and of its drive, so `rows_runs` shows that they answer. Those of a search
//! (`find`, `search`), of what is tried behind it (`find_fallback`, `search_parent_directory`), of a justfile in markdown (`materialize`), of one that
//! is to be written and of the program of a name are made by `rows_runs`.

use crate::changes::changed;
use crate::hosts::memory;
use crate::loading::loaded;
use crate::shown::says;
use just_config::Response;
use just_host::{Host, HostFault};
use just_lang_types::{Ast, AstItem, FileRef, Source, parse, references};
use just_path::Utf8PathBuf;
use just_path_text::{NoMemory, Text};
use std::alloc::{AllocError, Global};

/// The source of a text, at a path in the folder `/p`.
fn source(alloc: Global, text: &str) -> Result<Source, NoMemory> {
    let path = Utf8PathBuf::from_str(alloc, "/p/justfile")?;
    let root = Utf8PathBuf::from_str(alloc, "/p")?;
    let text = Text::from_str(alloc, text)?;
    Ok(Source { path, root, text })
}

/// The tree of a text that fits the grammar; where it doesn't, memory is told to be wanting, so that the test fails.
fn tree(alloc: Global, text: &str) -> Result<Ast, NoMemory> {
    let source = source(alloc, text)?;
    parse(alloc, &source).ok().ok_or(NoMemory)
}

/// Adds the line in which a recipe begins; nothing of another item.
fn push_line(all: &mut String, item: &AstItem) -> Result<(), AllocError> {
    match item {
        AstItem::Recipe(recipe) => write!(all, " {}", recipe.get().name.line),
        _ => Ok(()),
    }
}

/// How many items there are, and the lines in which the recipes among them begin, one behind the other.
fn shown_items(alloc: Global, items: &[AstItem]) -> Result<String, AllocError> {
    let mut all = format!(in alloc; "{} items, recipes in", items.len())?;
    for item in items {
        push_line(&mut all, item)?;
    }
    Ok(all)
}

/// The same of the items of a text.
fn items(alloc: Global, text: &str) -> Result<String, NoMemory> {
    let ast = tree(alloc, text)?;
    Ok(shown_items(alloc, ast.items.as_slice())?)
}

/// How many files there are, and the path of each, empty where it has none.
fn shown_files(alloc: Global, files: &[FileRef]) -> Result<String, AllocError> {
    let mut all = format!(in alloc; "{} files", files.len())?;
    for file in files {
        match &file.path {
            Some(path) => write!(all, " [{}]", path.as_str())?,
            None => all.push_str(" []")?,
        }
    }
    Ok(all)
}

/// The same of the files that a text names.
fn files(alloc: Global, text: &str) -> Result<String, NoMemory> {
    let ast = tree(alloc, text)?;
    let files = references(alloc, &ast)?;
    Ok(shown_files(alloc, files.as_slice())?)
}

/// The home folder of a host's environment, empty where there is none.
fn home_of<H: Host + Drop>(alloc: Global, host: H) -> Result<String, HostFault> {
    let mut host = host;
    let environ = host.environ()?;
    match String::from_str(alloc, environ.home().unwrap_or("")) {
        Ok(home) => Ok(home),
        Err(_) => Err(HostFault::NoMemory),
    }
}

/// The home folder of the environment of a host in memory.
fn home(alloc: Global) -> Result<String, HostFault> {
    let host = memory(alloc, "")?;
    home_of(alloc, host)
}

/// The text of the response that a variable has that value, or none.
fn response(alloc: Global, value: Option<&str>) -> Result<String, NoMemory> {
    let found = match value {
        Some(value) => Some(Text::from_str(alloc, value)?),
        None => None,
    };
    let response = Response::EnvironmentVariable(found);
    response.text(alloc)
}

#[test]
fn every_call_answers(rt: HostRuntime) {
    let alloc = rt.alloc();
    let items = items(alloc, "b: a\n  one\n\n   two\n\n# c\r\na:");
    says(&rt, items, "4 items, recipes in 1 7");
    let files = files(alloc, "import 'a'\nmod? b\nmod c \"\\u{64}\"\n");
    says(&rt, files, "3 files [a] [] [d]");
    says(&rt, home(alloc), "/h");
    let loaded = loaded(alloc, "import 'link'\na:\n");
    says(&rt, loaded, "2 sources, root Some(0)");
    let answer = response(alloc, Some("/h\t\"1\""));
    says(&rt, answer, "{\"environment-variable\":\"/h\\t\\\"1\\\"\"}");
    says(
        &rt,
        response(alloc, None),
        "{\"environment-variable\":null}",
    );
    says(&rt, changed(alloc, false), "A=y B- C=file E=x G=z ");
    says(&rt, changed(alloc, true), "A=y B- C=file D=x E=x G=z ");
}
