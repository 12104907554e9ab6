//! The root of a project.

ghost use Rattle.std.specs.Prelude.{◌≡◌, ◌++◌, [], Ok, IfOk, IfErr};
ghost use Rattle.std.specs.List.{list_any};
ghost use Rattle.just_path.specs.Path.{text_of};
ghost use Rattle.just_env.specs.Answers.{Answers, entries_of, told_entries};
ghost use Rattle.just_search.specs.Root.{is_mark, if_marked, LooksForMark, FindsRoot};
ghost use Rattle.just_search.specs.First.{answer_of};

use super::SearchError;
use super::climb::is_ceiling;
use super::listing::names_in;
use just_host_record::Host;
use just_path::{Utf8Path, Utf8PathBuf};
use just_path_text::Text;
use std::alloc::Global;

/// Whether a name is one that stands in the root of a project.
fn is_mark(name: &str) -> bool
    ensures { result ≡ is_mark name.now }
{
    name == ".bzr" || name == ".git" || name == ".hg" || name == ".svn" || name == "_darcs"
}

fn has_mark(names: &[Text]) -> bool
    ensures { result ≡ list_any is_mark names.now }
{
    names.iter().any(|name| is_mark(name.as_str()))
}

/// A folder, where one of those names stands in it.
fn if_marked(
    alloc: Global,
    folder: Utf8Path<'_>,
    names: &[Text],
) -> Result<Option<Utf8PathBuf>, SearchError>
    ensures marked { Answers (λ r. answer_of r ≡ if_marked (text_of folder.entry) names.now) result }
    ensures unheard { IfErr result (λ e. entries_of e ≡ []) }
{
    if has_mark(names) {
        Ok(Some(folder.to_path_buf(alloc)?))
    } else {
        Ok(None)
    }
}

/// Looks for such a name in a folder.
#[tactic(auto, using(crate::proofs::Deciding::told_nothing))]
fn look_for_mark<H: Host>(
    alloc: Global,
    host: &mut H,
    folder: Utf8Path<'_>,
) -> Result<Option<Utf8PathBuf>, SearchError>
    ensures looks { Answers (λ r. LooksForMark (H.told host.old).world (text_of folder.entry) (answer_of r)) result }
    ensures entries { (H.told host.new).entries ≡ (H.told host.old).entries ++ told_entries result }
    ensures world { (H.told host.new).world ≡ (H.told host.old).world }
{
    match names_in(alloc, host, folder) {
        Ok(names) => if_marked(alloc, folder, names.as_slice()),
        Err(error) => Err(error),
    }
}

/// A folder that is taken as the root of its project, since none has such a name.
fn itself(alloc: Global, folder: Utf8Path<'_>) -> Result<Utf8PathBuf, SearchError>
    ensures root { Answers (λ r. r ≡ Ok (text_of folder.entry)) result }
    ensures unheard { IfErr result (λ e. entries_of e ≡ []) }
{
    Ok(folder.to_path_buf(alloc)?)
}

/// The root of the project that a folder is in.
pub fn root_of<H: Host>(
    alloc: Global,
    host: &mut H,
    ceiling: &Option<Text>,
    start: Utf8Path<'_>,
) -> Result<Utf8PathBuf, SearchError>
    ensures root { Answers (FindsRoot (H.told host.old).world ceiling.now (text_of start.entry)) result }
    ensures entries { (H.told host.new).entries ≡ (H.told host.old).entries ++ told_entries result }
    ensures world { (H.told host.new).world ≡ (H.told host.old).world }
{
    let mut folders = start.ancestors();
    'folders: while let Some(folder) = folders.next() {
        match look_for_mark(alloc, host, folder) {
            Ok(Some(root)) => return Ok(root),
            Ok(None) => {}
            Err(error) => return Err(error),
        }
        if is_ceiling(ceiling, folder) {
            return itself(alloc, start);
        }
    }
    itself(alloc, start)
}
