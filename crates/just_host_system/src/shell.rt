//! Where the shell stands. Most children are asked for by its name alone, for which the system would be asked at each start for each folder of `PATH`
//! before the one that has it. Nothing is claimed of what the system answers.

use super::script::path_in;
use just_host_files::system::look;
use just_path_text::Text;
use std::alloc::Global;
use std::env;
use std::io::ErrorKind;
use std::rt::{Env, Files};

/// What is known of the shell's path.
#[derive(Drop)]
pub(crate) enum Shell {
    /// It wasn't looked for yet.
    Unknown,
    /// The first folder of `PATH` that has something under its name has it there, and all folders before are paths from the root.
    At(Text),
    /// It is looked for at each start.
    Sought,
}

impl Shell {
    /// Looks for the shell, where that wasn't done yet.
    pub(crate) fn look<R: Files + Env>(&mut self, rt: &R, alloc: Global) {
        if let Shell::Unknown = self {
            *self = found(rt, alloc);
        }
    }

    /// The path at which the shell was found.
    pub(crate) fn path(&self) -> Option<&str> {
        match self {
            Shell::At(path) => Some(path.as_str()),
            Shell::Unknown | Shell::Sought => None,
        }
    }
}

/// The shell in a folder of `PATH`; none where nothing stands there under its name.
fn found_in<F: Files>(files: &F, alloc: Global, folder: &str) -> Option<Shell> {
    if !folder.starts_with('/') {
        return Some(Shell::Sought);
    }
    let Ok(path) = path_in(alloc, folder, "sh") else {
        return Some(Shell::Sought);
    };
    match runs_at(files, path.as_str()) {
        Some(true) => Some(Shell::At(path)),
        Some(false) => Some(Shell::Sought),
        None => None,
    }
}

/// Whether what stands at a path can be run; none where nothing stands there.
fn runs_at<F: Files>(files: &F, path: &str) -> Option<bool> {
    match look(files, path, true) {
        Ok(meta) => Some(meta.executable),
        Err(error) => match error.kind() {
            ErrorKind::NotFound | ErrorKind::NotADirectory => None,
            _ => Some(false),
        },
    }
}

/// The shell in the first folder of `PATH` that has something under its name.
fn found<R: Files + Env>(rt: &R, alloc: Global) -> Shell {
    let Ok(path) = env::var(&(rt, alloc), "PATH") else {
        return Shell::Sought;
    };
    for folder in path.as_str().split(':') {
        if let Some(shell) = found_in(rt, alloc, folder) {
            return shell;
        }
    }
    Shell::Sought
}
