//! The text of a justfile that is no file's own.

ghost use Rattle.std.specs.Prelude.{◌≡◌, ◌++◌, None};
ghost use Rattle.just_env.specs.Answers.{Answers};
ghost use Rattle.just_search.specs.declared.location.Origin.TheVariants.{Markdown, StandardInput};
ghost use Rattle.just_search.specs.Calls.{told_entries};
ghost use Rattle.just_search.specs.Texts.{GivesText};

use just_env::SearchError;
use just_host_record::{Host, HostFault};
use just_path::Utf8PathBuf;
use just_path_text::Text;
use just_search_load::tangle;
use std::alloc::Global;

/// The text of the justfile in a markdown file.
pub(crate) fn text_of_markdown<H: Host>(
    alloc: Global,
    host: &mut H,
    path: Utf8PathBuf,
) -> Result<Text, SearchError>
    ensures text { Answers (GivesText (H.told host.old).world (Markdown path)) result }
    ensures entries { (H.told host.new).entries ≡ (H.told host.old).entries ++ told_entries None result }
    ensures world { (H.told host.new).world ≡ (H.told host.old).world }
{
    match host.read(path.as_path()) {
        Ok(markdown) => Ok(Text::from(tangle(alloc, markdown.as_str())?)),
        Err(HostFault::NoMemory) => Err(SearchError::NoMemory),
        Err(HostFault::Failed(call)) => Err(SearchError::FilesystemIo {
            path,
            io: HostFault::Failed(call),
        }),
        Err(HostFault::Missed(miss)) => Err(SearchError::FilesystemIo {
            path,
            io: HostFault::Missed(miss),
        }),
    }
}

/// The text of standard input.
pub(crate) fn text_of_input<H: Host>(host: &mut H) -> Result<Text, SearchError>
    ensures text { Answers (GivesText (H.told host.old).world StandardInput) result }
    ensures entries { (H.told host.new).entries ≡ (H.told host.old).entries ++ told_entries None result }
    ensures world { (H.told host.new).world ≡ (H.told host.old).world }
{
    match host.input() {
        Ok(text) => Ok(Text::from(text)),
        Err(HostFault::NoMemory) => Err(SearchError::NoMemory),
        Err(HostFault::Failed(call)) => Err(SearchError::StdinIo {
            io: HostFault::Failed(call),
        }),
        Err(HostFault::Missed(miss)) => Err(SearchError::StdinIo {
            io: HostFault::Missed(miss),
        }),
    }
}
