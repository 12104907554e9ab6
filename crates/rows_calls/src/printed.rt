//! The texts that paths and errors print.

use crate::shown::says;
use just_dotenv::DotenvError;
use just_exec::Error;
use just_expand::{Expand, env};
use just_path::{Utf8Component, Utf8Path, Utf8PathBuf};
use just_path_text::{Environ, NoMemory, Seq, Text};
use std::alloc::{AllocError, Global};

/// What the errors of commands that print nothing say.
const REFUSALS: &str = r#"error: `--show` requires recipe
error: justfile does not contain group `m::a`
error: justfile does not contain submodule `m::a`
error: justfile does not contain variable or submodule `m::a`
error: formatted justfile differs from original
"#;

/// A path and a component, shown for users, for developers, and filled up on the left.
fn paths(alloc: Global, path: &Utf8PathBuf) -> Result<String, AllocError> {
    let lent = path.as_path();
    let up = Utf8Component::ParentDir;
    format!(in alloc; "{path:?} {lent:?} {lent:>9} {up}")
}

/// The same of a path with a quotation mark, a tab and a letter beyond ASCII.
fn escaped(alloc: Global) -> Result<String, NoMemory> {
    let path = Utf8PathBuf::from_str(alloc, "a\"/\t\u{e9}")?;
    Ok(paths(alloc, &path)?)
}

/// The errors of a line of an environment file, and of memory.
fn wanting(alloc: Global) -> Result<String, AllocError> {
    let (line, memory) = (DotenvError::Line(2), DotenvError::NoMemory);
    format!(in alloc; "{line}; {memory}; {NoMemory}")
}

/// The errors of strings of the system and of a path that are no texts.
fn broken(alloc: Global) -> Result<String, AllocError> {
    match (
        Utf8Path::try_from_os_str(b"\xff"),
        Utf8Path::try_from_path(b"\xff"),
    ) {
        (Err(string), Err(path)) => format!(in alloc; "{string}; {path}"),
        _ => String::from_str(alloc, "no errors"),
    }
}

/// The error of a name that isn't in the environment.
fn absent(alloc: Global) -> Result<String, AllocError> {
    let environ = Environ {
        pairs: Seq::new(alloc),
    };
    match env(alloc, "$B", &environ) {
        Err(Expand::Lookup(error)) => format!(in alloc; "{error}"),
        Err(Expand::NoMemory) => String::from_str(alloc, "out of memory"),
        Ok(_) => String::from_str(alloc, "no error"),
    }
}

/// Adds the line of an error.
fn push_error(all: &mut String, error: Error) -> Result<(), AllocError> {
    writeln!(all, "{error}")
}

/// The errors of commands that print nothing, of what isn't there by that name.
fn refusals(alloc: Global, name: &str) -> Result<String, NoMemory> {
    let mut all = String::new(alloc);
    let subcommand = Text::from_str(alloc, "show")?;
    push_error(&mut all, Error::RecipeRequired { subcommand })?;
    let group = Text::from_str(alloc, name)?;
    push_error(&mut all, Error::UnknownGroup { group })?;
    let submodule = Text::from_str(alloc, name)?;
    push_error(&mut all, Error::EvalUnknownSubmodule { submodule })?;
    let name = Text::from_str(alloc, name)?;
    push_error(&mut all, Error::EvalUnknownSubmoduleOrVariable { name })?;
    push_error(&mut all, Error::FormatCheckFoundDiff)?;
    Ok(all)
}

#[test]
fn printed_paths(rt: HostRuntime) {
    says(
        &rt,
        escaped(rt.alloc()),
        "\"a\\\"/\\t\u{e9}\" \"a\\\"/\\t\u{e9}\"     a\"/\t\u{e9} ..",
    );
}

#[test]
fn printed_errors(rt: HostRuntime) {
    let alloc = rt.alloc();
    says(&rt, wanting(alloc), "line 2; out of memory; out of memory");
    says(
        &rt,
        broken(alloc),
        "OsStr contains invalid UTF-8; Path contains invalid UTF-8",
    );
    says(
        &rt,
        absent(alloc),
        "error looking key 'B' up: environment variable not found",
    );
}

#[test]
fn printed_refusals(rt: HostRuntime) {
    says(&rt, refusals(rt.alloc(), "m::a"), REFUSALS);
}
