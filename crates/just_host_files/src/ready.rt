//! What a host makes sure of before it asks: the memory for an entry, and the copies in it.
ghost use Rattle.std.specs.Prelude.{◌≡◌, IfOk, OnOk};
ghost use Rattle.just_path.specs.Path.{text_of};
ghost use Rattle.just_host_record.specs.Logs.{entries_of, spare_of, HasRoom};

use super::copies::copies_of;
use just_host_record::Log;
use just_path::{Utf8Path, Utf8PathBuf};
use just_path_text::{NoMemory, Seq};
use std::alloc::Global;

/// Makes the log ready for an entry, and answers a copy of a path for it.
pub fn ready_path(log: &mut Log, alloc: Global, path: Utf8Path<'_>) -> Result<Utf8PathBuf, NoMemory>
    ensures copy { IfOk result (λ p. p ≡ text_of path.entry) }
    ensures room { OnOk result (HasRoom log.new) }
    ensures entries { entries_of log.new ≡ entries_of log.old }
    ensures spare { spare_of log.new ≡ spare_of log.old }
{
    log.ready()?;
    path.to_path_buf(alloc)
}

/// Makes the log ready for the entry of a probe, and answers copies of the cache entry's path and of the outputs.
pub fn ready_probe(
    log: &mut Log,
    alloc: Global,
    entry: Utf8Path<'_>,
    outputs: &[Utf8PathBuf],
) -> Result<(Utf8PathBuf, Seq<Utf8PathBuf>), NoMemory>
    ensures entry { IfOk result (λ r. r.0 ≡ text_of entry.entry) }
    ensures outputs { IfOk result (λ r. r.1 ≡ outputs.now) }
    ensures room { OnOk result (HasRoom log.new) }
    ensures entries { entries_of log.new ≡ entries_of log.old }
    ensures spare { spare_of log.new ≡ spare_of log.old }
{
    log.ready()?;
    let copy = entry.to_path_buf(alloc)?;
    let copies = copies_of(alloc, outputs)?;
    Ok((copy, copies))
}
