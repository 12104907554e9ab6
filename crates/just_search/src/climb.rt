//! The justfile in the first folder, from one upwards, that has a candidate.

ghost use Rattle.std.specs.Prelude.{◌≡◌, ◌++◌, [], IfOk, IfErr, Err, filter};
ghost use Rattle.just_path.specs.Ancestors.{ancestors_left};
ghost use Rattle.just_path.specs.Path.{text_of};
ghost use Rattle.just_env.specs.Answers.{Answers, entries_of, told_entries};
ghost use Rattle.just_search.specs.Climb.{is_ceiling, up_to, is_wanted, candidates, chosen, LooksIn, FindsIn};
ghost use Rattle.just_search.specs.First.{answer_of};

use super::SearchError;
use super::listing::names_in;
use just_host_record::Host;
use just_path::{Utf8Ancestors, Utf8Path, Utf8PathBuf};
use just_path_text::{NoMemory, Seq, Text};
use std::alloc::Global;

/// Whether a folder is the ceiling.
pub(crate) fn is_ceiling(ceiling: &Option<Text>, folder: Utf8Path<'_>) -> bool
    ensures { result ≡ is_ceiling ceiling.now (text_of folder.entry) }
{
    match ceiling {
        Some(ceiling) => folder.eq_str(ceiling.as_str()),
        None => false,
    }
}

/// Whether a name is one of those that are wanted, in any case of its letters.
fn is_wanted(wanted: &[Text], name: &str) -> bool
    ensures { result ≡ is_wanted wanted.now name.now }
{
    wanted
        .iter()
        .any(|text| name.eq_ignore_ascii_case(text.as_str()))
}

/// The names in a folder that may be the justfile's.
fn candidates(alloc: Global, wanted: &[Text], names: &[Text]) -> Result<Seq<Text>, NoMemory>
    ensures { IfOk result (λ found. found ≡ candidates wanted.now names.now) }
{
    let mut found = Vec::new(alloc);
    'names: for name in names {
        if is_wanted(wanted, name.as_str()) {
            found.push(name.try_clone()?)?;
        }
    }
    Ok(Seq::from(found))
}

/// The one candidate of a folder; several are refused.
fn chosen(
    alloc: Global,
    folder: Utf8Path<'_>,
    candidates: Seq<Text>,
) -> Result<Option<Utf8PathBuf>, SearchError>
    ensures chosen { Answers (λ r. answer_of r ≡ chosen (text_of folder.entry) candidates) result }
    ensures unheard { IfErr result (λ e. entries_of e ≡ []) }
{
    match candidates.as_slice() {
        [] => Ok(None),
        [name] => Ok(Some(folder.join(alloc, Utf8Path::new(name.as_str()))?)),
        _ => Err(SearchError::MultipleCandidates {
            folder: folder.to_path_buf(alloc)?,
            candidates,
        }),
    }
}

/// Looks for a justfile in a folder.
#[tactic(auto, using(crate::proofs::Deciding::told_nothing))]
fn look_in<H: Host>(
    alloc: Global,
    host: &mut H,
    wanted: &[Text],
    folder: Utf8Path<'_>,
) -> Result<Option<Utf8PathBuf>, SearchError>
    ensures looks { Answers (λ r. LooksIn (H.told host.old).world wanted.now (text_of folder.entry) (answer_of r)) result }
    ensures entries { (H.told host.new).entries ≡ (H.told host.old).entries ++ told_entries result }
    ensures world { (H.told host.new).world ≡ (H.told host.old).world }
{
    let names = match names_in(alloc, host, folder) {
        Ok(names) => names,
        Err(error) => return Err(error),
    };
    let found = candidates(alloc, wanted, names.as_slice())?;
    chosen(alloc, folder, found)
}

/// The justfile in the first of some folders, up to the ceiling, that has a candidate.
#[tactic(auto, using(crate::proofs::Along::along_start, crate::proofs::Climbs::climbs_over))]
pub(crate) fn climb<H: Host>(
    alloc: Global,
    host: &mut H,
    wanted: &[Text],
    ceiling: &Option<Text>,
    folders: Utf8Ancestors<'_>,
) -> Result<Utf8PathBuf, SearchError>
    ensures found { Answers (FindsIn (H.told host.old).world wanted.now (up_to ceiling.now (ancestors_left folders.entry))) result }
    ensures entries { (H.told host.new).entries ≡ (H.told host.old).entries ++ told_entries result }
    ensures world { (H.told host.new).world ≡ (H.told host.old).world }
{
    let mut folders = folders;
    'folders: while let Some(folder) = folders.next() {
        match look_in(alloc, host, wanted, folder) {
            Ok(Some(found)) => return Ok(found),
            Ok(None) => {}
            Err(error) => return Err(error),
        }
        if is_ceiling(ceiling, folder) {
            return Err(SearchError::NotFound);
        }
    }
    Err(SearchError::NotFound)
}
