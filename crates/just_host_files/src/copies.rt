//! Copies of what a host is given.
ghost use Rattle.std.specs.Prelude.{◌≡◌, IfOk, option_map};
ghost use Rattle.just_path.specs.Path.{text_of};
ghost use Rattle.just_host_record.specs.Record.{text_or_empty};

use just_path::{Utf8Path, Utf8PathBuf};
use just_path_text::{NoMemory, Seq, TryClone};
use std::alloc::Global;

/// A path, empty where there is none.
pub fn path_or_empty(path: Option<Utf8Path<'_>>) -> Utf8Path<'_>
    ensures { text_of result ≡ text_or_empty (option_map text_of path.entry) }
{
    match path {
        Some(path) => path,
        None => Utf8Path::new(""),
    }
}

/// Copies of these paths.
pub fn copies_of(alloc: Global, paths: &[Utf8PathBuf]) -> Result<Seq<Utf8PathBuf>, NoMemory>
    ensures { IfOk result (λ s. s ≡ paths.now) }
{
    let mut copies = Vec::with_capacity(alloc, paths.len())?;
    for path in paths {
        copies.push(path.try_clone()?)?;
    }
    Ok(Seq::from(copies))
}

/// A copy of these bytes.
pub fn copied_bytes(alloc: Global, bytes: &[u8]) -> Result<Seq<u8>, NoMemory>
    ensures { IfOk result (λ s. s ≡ bytes.now) }
{
    Ok(Seq::from(Vec::from_slice(alloc, bytes)?))
}
