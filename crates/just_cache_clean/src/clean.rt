//! How a cache is cleaned.
ghost use Rattle.std.specs.Prelude.{◌≡◌, Some, option_copied, IfSome};
ghost use Rattle.just_path.specs.Path.{text_of};
ghost use Rattle.just_cache_clean.specs.Cleans.{unlisted, CleansListed, Cleans};
ghost use Rattle.just_cache_clean.specs.EntryTexts.{IsPath};
ghost use Rattle.just_cache_clean.specs.Kept.{given, IsKnown};

use super::cleaned::Cleaned;
use super::errors::listing_error;
use super::path_text::path_text;
use super::sweep::{remove, sweep};
use super::wanted::{Prefix, Wanted};
use just_cache::CacheError;
use just_host_record::Host;
use just_lang_types::Modulepath;
use just_path::{Miss, PathFault, Utf8Path, Utf8PathBuf};
use just_path_text::Text;
use std::alloc::Global;

/// What is told where a folder can't be listed.
fn unlisted(folder: Utf8PathBuf, fault: PathFault) -> Result<Cleaned, CacheError>
    ensures { result ≡ unlisted folder fault }
{
    match fault {
        PathFault::Missed(Miss::NotFound) => Ok(Cleaned::NotFound),
        other => Err(listing_error(folder, other)),
    }
}

/// Removes the entries that go among the files of a folder, and the folder where nothing is left in it.
#[tactic(auto, using(crate::proofs::Cleaning::stopped_so, crate::proofs::Cleaning::remains_so))]
fn clean_listed<H: Host>(
    alloc: Global,
    host: &mut H,
    wanted: Wanted<'_>,
    names: &[Text],
) -> Result<Cleaned, CacheError>
    requires { IsKnown wanted.prefix }
    ensures cleans { CleansListed (text_of wanted.entry.folder) (given wanted.entry.prefix)
        names.now (H.told host.old) (H.told host.new) result }
    ensures spare { H.spare host.new ≡ H.spare host.old }
{
    let count = match sweep(alloc, host, wanted, names) {
        Ok(count) => count,
        Err(refused) => return Err(refused),
    };
    if count < names.len() {
        return Ok(Cleaned::Removed(count as u64));
    }
    match remove(alloc, host, wanted.folder) {
        Ok(()) => Ok(Cleaned::Removed(count as u64)),
        Err(refused) => Err(refused),
    }
}

/// The entries of a folder with a path or without one are removed.
#[tactic(auto, using(crate::proofs::Cleaning::cleans_want))]
fn clean_wanted<H: Host>(
    alloc: Global,
    host: &mut H,
    wanted: Wanted<'_>,
) -> Result<Cleaned, CacheError>
    requires { IsKnown wanted.prefix }
    ensures cleans { Cleans (text_of wanted.entry.folder) (given wanted.entry.prefix)
        (H.told host.old) (H.told host.new) result }
    ensures spare { H.spare host.new ≡ H.spare host.old }
{
    let folder = wanted.folder.to_path_buf(alloc)?;
    match host.names(wanted.folder) {
        Ok(names) => clean_listed(alloc, host, wanted, names.as_slice()),
        Err(fault) => unlisted(folder, fault),
    }
}

/// The entries in a folder of recipes whose paths begin with that path are removed, and those that are no entries of any path.
#[tactic(auto, using(crate::proofs::Steps::known_both, crate::proofs::Cleaning::cleans_want))]
fn clean_some<H: Host>(
    alloc: Global,
    host: &mut H,
    folder: Utf8Path<'_>,
    path: &Modulepath,
) -> Result<Cleaned, CacheError>
    requires { IsPath path.now.components }
    ensures cleans { Cleans (text_of folder.entry) (Some path.now) (H.told host.old)
        (H.told host.new) result }
    ensures spare { H.spare host.new ≡ H.spare host.old }
{
    let text = path_text(alloc, path.components.as_slice())?;
    let prefix = Prefix {
        path,
        text: text.as_str(),
    };
    clean_wanted(
        alloc,
        host,
        Wanted {
            folder,
            prefix: Some(prefix),
        },
    )
}

/// Removes the entries of the cache in a folder: all of them, or those of recipes whose paths begin with that path and those that
/// are no entries of any path. What was removed before a refusal stays removed. The folder goes where nothing is left in it.
#[tactic(auto, using(crate::proofs::Cleaning::cleans_none, crate::proofs::Cleaning::cleans_some, crate::proofs::Cleaning::path_some))]
pub fn clean_entries<H: Host>(
    alloc: Global,
    folder: Utf8Path<'_>,
    prefix: Option<&Modulepath>,
    host: &mut H,
) -> Result<Cleaned, CacheError>
    requires { IfSome prefix (λ p. IsPath p.now.components) }
    ensures cleans { Cleans (text_of folder.entry) (option_copied prefix.entry) (H.told host.old)
        (H.told host.new) result }
    ensures spare { H.spare host.new ≡ H.spare host.old }
{
    match prefix {
        None => clean_wanted(
            alloc,
            host,
            Wanted {
                folder,
                prefix: None,
            },
        ),
        Some(path) => clean_some(alloc, host, folder, path),
    }
}
