//! The justfile that is to be written where there is none.

ghost use Rattle.std.specs.Prelude.{◌≡◌, ◌++◌, [], IfErr, Ok, Err};
ghost use Rattle.just_path.specs.Path.{text_of};
ghost use Rattle.just_env.specs.Answers.{Answers, entries_of, told_entries};
ghost use Rattle.just_search.specs.Finding.{given_path};
ghost use Rattle.just_search.specs.Inits.{first_name, search_at, init_given, InitsIn, InitsBy, Inits};

use super::{Search, SearchError};
use crate::{folder_of, given_path, root_of};
use just_config::{Config, SearchConfig};
use just_host_record::Host;
use just_path::{Utf8Path, Utf8PathBuf};
use just_path_text::Text;
use std::alloc::Global;

/// The name under which it is written: the first that is given, else `justfile`.
fn first_name(names: &[Text]) -> &str
    ensures { result.now ≡ first_name names.now }
{
    match names {
        [name, ..] => name.as_str(),
        [] => "justfile",
    }
}

/// A file with its working folder.
fn search_at(justfile: Utf8PathBuf, working_directory: Utf8PathBuf) -> Search
    ensures { result ≡ search_at justfile working_directory }
{
    Search {
        justfile,
        tempdir: None,
        working_directory,
    }
}

/// In the root of the project that a folder is in.
fn init_in<H: Host>(
    alloc: Global,
    host: &mut H,
    config: &Config,
    start: Utf8Path<'_>,
) -> Result<Search, SearchError>
    ensures found { Answers (InitsIn (H.told host.old).world config.now (text_of start.entry)) result }
    ensures entries { (H.told host.new).entries ≡ (H.told host.old).entries ++ told_entries result }
    ensures world { (H.told host.new).world ≡ (H.told host.old).world }
{
    match root_of(alloc, host, &config.ceiling, start) {
        Ok(root) => {
            let name = Utf8Path::new(first_name(config.justfile_name.as_slice()));
            Ok(search_at(root.as_path().join(alloc, name)?, root))
        }
        Err(error) => Err(error),
    }
}

/// A given file with its own folder; the root is no file.
fn init_given(alloc: Global, config: &Config, file: &Utf8PathBuf) -> Result<Search, SearchError>
    ensures found { Answers (λ r. r ≡ init_given (given_path config.now file.now)) result }
    ensures unheard { IfErr result (λ e. entries_of e ≡ []) }
{
    let file = given_path(alloc, config, file)?;
    if file.as_str() == "/" {
        return Err(SearchError::JustfileHadNoParent { path: file });
    }
    let folder = folder_of(alloc, &file)?;
    Ok(search_at(file, folder))
}

/// A given file with a given working folder.
fn init_both_given(
    alloc: Global,
    config: &Config,
    file: &Utf8PathBuf,
    folder: &Utf8PathBuf,
) -> Result<Search, SearchError>
    ensures found { Answers (λ r. r ≡ Ok (search_at (given_path config.now file.now) (given_path config.now folder.now))) result }
    ensures unheard { IfErr result (λ e. entries_of e ≡ []) }
{
    let file = given_path(alloc, config, file)?;
    Ok(search_at(file, given_path(alloc, config, folder)?))
}

/// In the root of the project that a given folder is in.
#[tactic(auto, using(crate::proofs::Writing::inits_at))]
fn init_in_folder<H: Host>(
    alloc: Global,
    host: &mut H,
    config: &Config,
    folder: &Utf8PathBuf,
) -> Result<Search, SearchError>
    ensures found { Answers (InitsIn (H.told host.old).world config.now (given_path config.now folder.now)) result }
    ensures entries { (H.told host.new).entries ≡ (H.told host.old).entries ++ told_entries result }
    ensures world { (H.told host.new).world ≡ (H.told host.old).world }
{
    let start = given_path(alloc, config, folder)?;
    init_in(alloc, host, config, start.as_path())
}

/// Where the justfile that a setting means is to be written.
#[tactic(auto, using(crate::proofs::Deciding::told_none))]
fn init_by<H: Host>(
    alloc: Global,
    config: &Config,
    setting: &SearchConfig,
    host: &mut H,
) -> Result<Search, SearchError>
    ensures found { Answers (InitsBy (H.told host.old).world config.now setting.now) result }
    ensures entries { (H.told host.new).entries ≡ (H.told host.old).entries ++ told_entries result }
    ensures world { (H.told host.new).world ≡ (H.told host.old).world }
{
    match setting {
        SearchConfig::FromInvocationDirectory => init_in(
            alloc,
            host,
            config,
            config.invocation_directory.as_path(),
        ),
        SearchConfig::FromSearchDirectory(folder) => init_in_folder(alloc, host, config, folder),
        SearchConfig::GlobalJustfile => Err(SearchError::GlobalJustfileInit),
        SearchConfig::StandardInput(_) => Err(SearchError::InitWithJustfileFromStandardInput),
        SearchConfig::WithJustfile(file) => init_given(alloc, config, file),
        SearchConfig::WithJustfileAndWorkingDirectory(file, folder) => init_both_given(
            alloc, config, file, folder,
        ),
    }
}

impl Search {
    /// Where the justfile of a configuration is to be written: in the root of the project, or where it is given. Nothing is written, and whether
    /// a file stands there isn't asked.
    pub fn init<H: Host>(
        alloc: Global,
        config: &Config,
        host: &mut H,
    ) -> Result<Search, SearchError>
        ensures found { Answers (Inits (H.told host.old).world config.now) result }
        ensures entries { (H.told host.new).entries ≡ (H.told host.old).entries ++ told_entries result }
        ensures world { (H.told host.new).world ≡ (H.told host.old).world }
    {
        init_by(alloc, config, &config.search_config, host)
    }
}
