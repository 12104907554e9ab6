//! The calls of a host on files, with their refusals as errors of a search.

ghost use Rattle.std.specs.Prelude.{◌≡◌, ◌++◌};
ghost use Rattle.just_path.specs.Path.{text_of};
ghost use Rattle.just_env.specs.Answers.{Answers, Gains, told_entries};
ghost use Rattle.just_search_load.specs.Shown.{SeesFile, ListsNames, ReadsText};

use super::SearchError;
use just_host_record::{Call, Host, HostFault};
use just_path::{Kind, PathFault, Utf8Path, Utf8PathBuf};
use just_path_text::{Seq, Text};
use std::alloc::Global;

/// Whether a file stands where a path leads.
#[tactic(auto, using(just_env::proofs::Laws::gains_nothing, just_env::proofs::Laws::gains_before, just_env::proofs::Laws::gains_none, just_env::proofs::Laws::gains_then, crate::proofs::Sights::sees_told, crate::proofs::Sights::sees_missed, crate::proofs::Sights::gains_miss, crate::proofs::Sights::gains_same))]
pub(crate) fn sees_file<H: Host>(
    alloc: Global,
    host: &mut H,
    path: Utf8Path<'_>,
) -> Result<bool, SearchError>
    ensures seen { Answers (SeesFile (H.told host.old).world (text_of path.entry)) result }
    ensures gains { Gains (H.told host.old).entries (H.told host.new).entries result }
    ensures world { (H.told host.new).world ≡ (H.told host.old).world }
{
    let named = path.to_path_buf(alloc)?;
    match path.metadata(host) {
        Ok(meta) => Ok(meta.kind == Kind::File),
        Err(PathFault::Missed(_)) => Ok(false),
        Err(PathFault::Failed) => Err(SearchError::FilesystemIo {
            path: named,
            io: HostFault::Failed(Call::Meta),
        }),
        Err(PathFault::NoMemory) => Err(SearchError::NoMemory),
    }
}

/// The names of what stands in a folder; none where there is no folder.
#[tactic(auto, using(just_env::proofs::Laws::gains_nothing, just_env::proofs::Laws::gains_before, just_env::proofs::Laws::gains_none, just_env::proofs::Laws::gains_then, crate::proofs::Listed::lists_names, crate::proofs::Sights::lists_missed, crate::proofs::Sights::gains_miss, crate::proofs::Sights::gains_same))]
pub(crate) fn names_in<H: Host>(
    alloc: Global,
    host: &mut H,
    path: Utf8Path<'_>,
) -> Result<Seq<Text>, SearchError>
    ensures names { Answers (ListsNames (H.told host.old).world (text_of path.entry)) result }
    ensures gains { Gains (H.told host.old).entries (H.told host.new).entries result }
    ensures world { (H.told host.new).world ≡ (H.told host.old).world }
{
    let named = path.to_path_buf(alloc)?;
    match host.names(path) {
        Ok(names) => Ok(names),
        Err(PathFault::Missed(_)) => Ok(Seq::new(alloc)),
        Err(PathFault::Failed) => Err(SearchError::FilesystemIo {
            path: named,
            io: HostFault::Failed(Call::List),
        }),
        Err(PathFault::NoMemory) => Err(SearchError::NoMemory),
    }
}

/// The text of a source.
pub(crate) fn read_text<H: Host>(
    alloc: Global,
    host: &mut H,
    path: Utf8Path<'_>,
) -> Result<Text, SearchError>
    ensures text { Answers (ReadsText (H.told host.old).world (text_of path.entry)) result }
    ensures entries { (H.told host.new).entries ≡ (H.told host.old).entries ++ told_entries result }
    ensures world { (H.told host.new).world ≡ (H.told host.old).world }
{
    let named = path.to_path_buf(alloc)?;
    match host.read(path) {
        Ok(text) => Ok(Text::from(text)),
        Err(HostFault::NoMemory) => Err(SearchError::NoMemory),
        Err(HostFault::Missed(miss)) => Err(SearchError::Load {
            path: named,
            io: HostFault::Missed(miss),
        }),
        Err(HostFault::Failed(call)) => Err(SearchError::Load {
            path: named,
            io: HostFault::Failed(call),
        }),
    }
}
