//! A cache that is cleaned. The functions here promise nothing beyond safety, but that a path is one.
ghost use Rattle.std.specs.Prelude.{IfOk};
ghost use Rattle.just_cache_clean.specs.EntryTexts.{IsPath};

use just_cache::CacheError;
use just_cache_clean::{Cleaned, clean_entries};
use just_exec_work::one_text;
use just_host::Host;
use just_lang_types::{Modulepath, is_recipe_name};
use just_path::Utf8Path;
use just_path_text::NoMemory;
use std::alloc::Global;

/// The path of one name; where it is none, memory is told to be wanting, so that the test fails.
#[tactic(auto, using(crate::proofs::Paths::path_of_one))]
fn path(alloc: Global, name: &str) -> Result<Modulepath, NoMemory>
    ensures { IfOk result (λ p. IsPath p.components) }
{
    if !is_recipe_name(name) {
        return Err(NoMemory);
    }
    let components = one_text(alloc, name)?;
    Ok(Modulepath { components })
}

/// What becomes of a cache in a folder whose entries of that name's recipe or module go.
fn clean_some<H: Host>(
    alloc: Global,
    host: &mut H,
    folder: Utf8Path<'_>,
    name: &str,
) -> Result<Cleaned, CacheError> {
    let path = path(alloc, name)?;
    clean_entries(alloc, folder, Some(&path), host)
}

/// The same where all entries go.
fn clean_all<H: Host>(
    alloc: Global,
    host: &mut H,
    folder: Utf8Path<'_>,
) -> Result<Cleaned, CacheError> {
    clean_entries(alloc, folder, None, host)
}

/// What becomes of the cache in a folder; behind a blank stands the name whose entries go.
pub(crate) fn clean<H: Host>(
    alloc: Global,
    host: &mut H,
    words: &str,
) -> Result<String, CacheError> {
    let cleaned = match words.split_once(' ') {
        Some((folder, name)) => clean_some(alloc, host, Utf8Path::new(folder), name)?,
        None => clean_all(alloc, host, Utf8Path::new(words))?,
    };
    match cleaned {
        Cleaned::NotFound => Ok(String::from_str(alloc, "no folder")?),
        Cleaned::Removed(count) => Ok(format!(in alloc; "{count} removed")?),
    }
}
