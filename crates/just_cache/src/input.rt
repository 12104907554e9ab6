//! The inputs of a cached body.

ghost use Rattle.std.specs.Prelude.{◌≡◌};
ghost use Rattle.just_path.specs.Path.{text_of};
ghost use Rattle.just_cache.specs.Maps.{GivesInputs};

use super::CacheError;
use super::named::named;
use super::sums::sums_of;
use just_host_record::Host;
use just_path::Utf8Path;
use just_path_text::{Seq, Text};
use std::alloc::Global;

/// The inputs of a body: each name once, in byte order, with the SHA-256 of the file at its path under the folder, in 64
/// hexadecimal digits. The files are summed in the order of the names, up to the first that has no sum: one that isn't there is
/// `InputMissing`, a folder `InputDirectory`, and all else `Io`, each with its path.
///
/// ```
/// // of `in.txt`, which holds `abc`, in `/p`: `in.txt` with
/// // `ba7816bf8f01cfea414140de5dae2223b00361a396177a9cb410ff61f20015ad`
/// ```
#[tactic(auto, using(crate::proofs::Steps::inputs_refused, crate::proofs::Steps::inputs_wanted))]
pub fn inputs<H: Host>(
    alloc: Global,
    names: &[Text],
    folder: Utf8Path<'_>,
    host: &mut H,
) -> Result<Seq<(Text, Text)>, CacheError>
    ensures inputs { GivesInputs (H.told host.old) (H.told host.new) (text_of folder.entry)
        names.now result }
    ensures spare { H.spare host.new ≡ H.spare host.old }
{
    let given = match sums_of(alloc, host, folder, names) {
        Ok(given) => given,
        Err(error) => return Err(error),
    };
    let pairs = named(alloc, given.as_slice())?;
    Ok(pairs)
}
