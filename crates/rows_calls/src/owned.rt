//! Each call of an owned path that may want memory and that no row makes, called once with ample memory.

use just_path::Utf8PathBuf;
use just_path_text::NoMemory;
use std::alloc::Global;
use std::process::Abort;

/// The text of a path whose parts were joined and pushed one by one, and then copied.
fn joined(alloc: Global) -> Result<Utf8PathBuf, NoMemory> {
    let mut path = Utf8PathBuf::from_parts(alloc, &["a", "/x", "b", ""])?;
    path.extend(&["c.txt", "d"])?;
    path.try_clone()
}

/// Gives a path more room than it has.
fn reserve(path: &mut Utf8PathBuf) -> Result<(), NoMemory> {
    path.reserve(16)?;
    path.try_reserve(32)?;
    path.reserve_exact(64)?;
    path.try_reserve_exact(128)
}

/// Gives a path less room.
fn shrink(path: &mut Utf8PathBuf) -> Result<(), NoMemory> {
    path.shrink_to(4)?;
    path.shrink_to_fit()
}

/// A path that was given more room than it has, and less.
fn resized(alloc: Global) -> Result<Utf8PathBuf, NoMemory> {
    let mut path = Utf8PathBuf::with_capacity(alloc, 8)?;
    reserve(&mut path)?;
    shrink(&mut path)?;
    Ok(path)
}

/// Fails the test where there is no path, or another one than the wanted.
fn leads_to(rt: &impl Abort, path: Result<Utf8PathBuf, NoMemory>, wanted: &str) {
    let path = path.expect(rt, "no path");
    assert_eq!(rt; path.as_str(), wanted);
}

#[test]
fn owned_paths(rt: HostRuntime) {
    leads_to(&rt, joined(rt.alloc()), "/x/b/c.txt/d");
    leads_to(&rt, resized(rt.alloc()), "");
}
