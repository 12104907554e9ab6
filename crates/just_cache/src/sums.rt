//! The sums of files, one after the other.

ghost use Rattle.std.specs.Prelude.{◌≡◌};
ghost use Rattle.just_path.specs.Path.{text_of};
ghost use Rattle.just_cache.specs.Errors.{missed_input, input_error};
ghost use Rattle.just_cache.specs.Sums.{GivesSum, AddsSum, GivesSums};

use super::CacheError;
use just_host_record::{Host, HostFault};
use just_path::{Miss, Utf8Path, Utf8PathBuf};
use just_path_text::Text;
use std::alloc::Global;

/// A name with the sum of its file.
pub(crate) type Given = (Text, [u8; 32]);

/// The error of an input that is a miss.
fn missed_input(path: Utf8PathBuf, miss: Miss) -> CacheError
    ensures { result ≡ missed_input path miss }
{
    match miss {
        Miss::NotFound => CacheError::InputMissing(path),
        Miss::IsFolder => CacheError::InputDirectory(path),
        Miss::NotFolder | Miss::NotUtf8 | Miss::NotEmpty | Miss::TooLarge => {
            CacheError::Io(HostFault::Missed(miss), path)
        }
    }
}

/// The error of an input whose sum was refused.
fn input_error(path: Utf8PathBuf, fault: HostFault) -> CacheError
    ensures { result ≡ input_error path fault }
{
    match fault {
        HostFault::Missed(miss) => missed_input(path, miss),
        HostFault::Failed(call) => CacheError::Io(HostFault::Failed(call), path),
        HostFault::NoMemory => CacheError::NoMemory,
    }
}

/// The sum of the file where a path leads.
#[tactic(auto, using(crate::proofs::Steps::sum_unasked))]
fn sum_of<H: Host>(alloc: Global, host: &mut H, path: Utf8Path<'_>) -> Result<[u8; 32], CacheError>
    ensures sum { GivesSum (H.told host.old) (H.told host.new) (text_of path.entry) result }
    ensures spare { H.spare host.new ≡ H.spare host.old }
{
    let named = path.to_path_buf(alloc)?;
    match host.sum(path) {
        Ok(sum) => Ok(sum),
        Err(fault) => Err(input_error(named, fault)),
    }
}

/// Puts a name with the sum of its file under a folder behind others.
#[tactic(auto, using(crate::proofs::Steps::add_unasked))]
fn add_sum<H: Host>(
    alloc: Global,
    host: &mut H,
    folder: Utf8Path<'_>,
    name: &Text,
    given: &mut Vec<Given>,
) -> Result<(), CacheError>
    ensures added { AddsSum (H.told host.old) (H.told host.new) (text_of folder.entry) name.now
        given.old.items given.new.items result }
    ensures spare { H.spare host.new ≡ H.spare host.old }
{
    given.reserve(1)?;
    let copy = name.try_clone()?;
    let path = folder.join(alloc, Utf8Path::new(name.as_str()))?;
    let sum = match sum_of(alloc, host, path.as_path()) {
        Ok(sum) => sum,
        Err(refused) => return Err(refused),
    };
    given.push_reserved((copy, sum));
    Ok(())
}

/// The sums of the files that have these names under a folder, or the first refusal.
pub(crate) fn sums_of<H: Host>(
    alloc: Global,
    host: &mut H,
    folder: Utf8Path<'_>,
    names: &[Text],
) -> Result<Vec<Given>, CacheError>
    ensures sums { GivesSums (H.told host.old) (H.told host.new) (text_of folder.entry) names.now
        result }
    ensures spare { H.spare host.new ≡ H.spare host.old }
{
    let mut given = Vec::new(alloc);
    'names: for name in names {
        match add_sum(alloc, host, folder, name, &mut given) {
            Ok(()) => {}
            Err(error) => return Err(error),
        }
    }
    Ok(given)
}
