//! The sources that a loader loads over a host in memory.

use crate::hosts::memory;
use just_host::Host;
use just_path::Utf8Path;
use just_path_text::NoMemory;
use just_search_load::{Loader, SearchError};
use std::alloc::{AllocError, Global};

/// Loads the sources of a project, and answers the number of its root, which is loaded already.
fn load_twice<H: Host>(loader: &mut Loader, host: &mut H) -> Result<u32, SearchError> {
    let root = Utf8Path::new("/p/justfile");
    loader.load_all(host, root)?;
    loader.load(host, root)
}

/// How many sources a project has over that host, and the number of its root.
fn shown<H: Host + Drop>(alloc: Global, host: H) -> Result<String, AllocError> {
    let mut host = host;
    let mut loader = Loader::new(alloc);
    let root = load_twice(&mut loader, &mut host).ok();
    let count = loader.sources().len();
    format!(in alloc; "{count} sources, root {root:?}")
}

/// How many sources that justfile's project has, over the environment that the host gives, and the number of its root, which is loaded already.
/// A root that isn't loaded is told as `None`; the one error is want of memory. No clause: it serves tests alone.
pub fn loaded(alloc: Global, justfile: &str) -> Result<String, NoMemory> {
    let host = memory(alloc, justfile)?;
    Ok(shown(alloc, host)?)
}
