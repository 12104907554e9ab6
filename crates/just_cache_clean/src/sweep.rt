//! Entries are removed, one after the other.
ghost use Rattle.std.specs.Prelude.{◌≡◌, ◌≤◌, ◌∷◌, [], Some, IfOk};
ghost use Rattle.just_path.specs.Path.{text_of};
ghost use Rattle.just_cache_clean.specs.Kept.{path_of, given, IsKnown, JudgesOr, RemovesOr};
ghost use Rattle.just_cache_clean.specs.Sweeps.{is_no_text, Sweeps};

use super::entry_text::{digest_in, stays};
use super::errors::entry_error;
use super::wanted::{Prefix, Wanted};
use just_cache::CacheError;
use just_host_record::{Host, HostFault};
use just_path::{Miss, Utf8Path};
use just_path_text::Text;
use std::alloc::Global;

/// Whether the file of such an answer can't be an entry, whatever its path.
fn is_no_text(fault: &HostFault) -> bool
    ensures { result ≡ is_no_text fault.now }
{
    matches!(fault, HostFault::Missed(Miss::NotUtf8 | Miss::TooLarge))
}

/// Whether the entry of that digest at a path goes, by what the host reads of it.
#[tactic(auto, using(crate::proofs::Steps::judged_unasked))]
fn judged<H: Host>(
    alloc: Global,
    host: &mut H,
    path: Utf8Path<'_>,
    wanted: Prefix<'_>,
    digest: &[u8],
) -> Result<bool, CacheError>
    requires { IsKnown (Some wanted) }
    ensures judged { JudgesOr (Some (path_of wanted.entry)) digest.now (text_of path.entry)
        (H.told host.old) (H.told host.new) result }
    ensures spare { H.spare host.new ≡ H.spare host.old }
{
    let named = path.to_path_buf(alloc)?;
    match host.read(path) {
        Ok(text) => Ok(!stays(wanted.text.as_bytes(), digest, text.as_bytes())),
        Err(fault) => {
            if is_no_text(&fault) {
                return Ok(true);
            }
            Err(entry_error(named, fault))
        }
    }
}

/// Whether an entry goes. It is read where a path is given.
#[tactic(auto, using(crate::proofs::Steps::judged_all, crate::proofs::Steps::judged_some, crate::proofs::Steps::known_some))]
fn goes<H: Host>(
    alloc: Global,
    host: &mut H,
    path: Utf8Path<'_>,
    prefix: Option<Prefix<'_>>,
    digest: &[u8],
) -> Result<bool, CacheError>
    requires { IsKnown prefix }
    ensures judged { JudgesOr (given prefix.entry) digest.now (text_of path.entry) (H.told host.old)
        (H.told host.new) result }
    ensures spare { H.spare host.new ≡ H.spare host.old }
{
    match prefix {
        None => Ok(true),
        Some(wanted) => judged(alloc, host, path, wanted, digest),
    }
}

/// Removes a file or a folder.
#[tactic(auto, using(crate::proofs::Steps::removed_unasked))]
pub(crate) fn remove<H: Host>(
    alloc: Global,
    host: &mut H,
    path: Utf8Path<'_>,
) -> Result<(), CacheError>
    ensures removed { RemovesOr (text_of path.entry) (H.told host.old) (H.told host.new) result }
    ensures spare { H.spare host.new ≡ H.spare host.old }
{
    let named = path.to_path_buf(alloc)?;
    match host.remove(path) {
        Ok(()) => Ok(()),
        Err(fault) => Err(entry_error(named, fault)),
    }
}

/// Removes the file of a name, where it is an entry that goes, and answers how many were removed: one or none.
#[tactic(auto, using(crate::proofs::Sweeping::swept_other, crate::proofs::Sweeping::swept_want))]
fn sweep_one<H: Host>(
    alloc: Global,
    host: &mut H,
    wanted: Wanted<'_>,
    name: &Text,
) -> Result<usize, CacheError>
    requires { IsKnown wanted.prefix }
    ensures few { IfOk result (λ n. n ≤ 1) }
    ensures swept { Sweeps (text_of wanted.entry.folder) (given wanted.entry.prefix) (name.now ∷ [])
        (H.told host.old) (H.told host.new) result }
    ensures spare { H.spare host.new ≡ H.spare host.old }
{
    let Some(digest) = digest_in(name.as_str()) else {
        return Ok(0);
    };
    let path = wanted.folder.join(alloc, Utf8Path::new(name.as_str()))?;
    let at = path.as_path();
    let gone = match goes(alloc, host, at, wanted.prefix, digest) {
        Ok(gone) => gone,
        Err(refused) => return Err(refused),
    };
    if !gone {
        return Ok(0);
    }
    match remove(alloc, host, at) {
        Ok(()) => Ok(1),
        Err(refused) => Err(refused),
    }
}

/// Removes the entries that go among files of these names, in their order, and answers how many they are.
pub(crate) fn sweep<H: Host>(
    alloc: Global,
    host: &mut H,
    wanted: Wanted<'_>,
    names: &[Text],
) -> Result<usize, CacheError>
    requires { IsKnown wanted.prefix }
    ensures swept { Sweeps (text_of wanted.entry.folder) (given wanted.entry.prefix) names.now
        (H.told host.old) (H.told host.new) result }
    ensures spare { H.spare host.new ≡ H.spare host.old }
{
    let mut count = 0;
    'names: for name in names {
        match sweep_one(alloc, host, wanted, name) {
            Err(refused) => return Err(refused),
            Ok(more) => count += more,
        }
    }
    Ok(count)
}
