//! Where the justfile of a configuration is.

ghost use Rattle.std.specs.Prelude.{◌≡◌, ◌++◌, ◌∷◌, ◌⊎◌, [], IfOk, IfErr, OnOk, Ok, Err};
ghost use Rattle.std.specs.Option.{option_copied};
ghost use Rattle.just_path.specs.Ancestors.{ancestors_left};
ghost use Rattle.just_path.specs.Path.{text_of};
ghost use Rattle.just_env.specs.Answers.{Answers, entries_of, told_entries};
ghost use Rattle.just_search.specs.Climb.{up_to, folders_from, FindsIn};
ghost use Rattle.just_search.specs.Finding.{given_path, folder_of, is_md, is_markdown, wanted_names, as_file, origin_of, as_origin, with_file, given_or_own, input_at, FindsFrom, FindsOwnOver, FindsOwn, FindsBy, Finds};
ghost use Rattle.just_search.specs.Record.{Leaves, FindGains, GainsLast};

use super::SearchError;
use super::climb::climb;
use super::global::own_justfile;
use super::location::{Location, Origin};
use super::root::root_of;
use just_config::{Config, SearchConfig};
use just_env::environment;
use just_host_record::Host;
use just_path::{Utf8Ancestors, Utf8Path, Utf8PathBuf};
use just_path_text::{Environ, NoMemory, Seq, Text};
use std::alloc::Global;

/// A path that is given: under the folder in which the program was called, and clean.
pub fn given_path(
    alloc: Global,
    config: &Config,
    path: &Utf8PathBuf,
) -> Result<Utf8PathBuf, NoMemory>
    ensures { IfOk result (λ given. given ≡ given_path config.now path.now) }
{
    let joined = config
        .invocation_directory
        .as_path()
        .join(alloc, path.as_path())?;
    joined.as_path().clean(alloc)
}

/// The folder of a file; the path itself where it has no parent.
pub fn folder_of(alloc: Global, file: &Utf8PathBuf) -> Result<Utf8PathBuf, NoMemory>
    ensures { IfOk result (λ folder. folder ≡ folder_of file.now) }
{
    match file.as_path().parent() {
        Some(folder) => folder.to_path_buf(alloc),
        None => file.try_clone(),
    }
}

fn is_md(extension: Option<&str>) -> bool
    ensures { result ≡ is_md (option_copied extension.entry) }
{
    match extension {
        Some(extension) => extension.eq_ignore_ascii_case("md"),
        None => false,
    }
}

/// Whether a file's extension is `md` in any case of its letters.
fn is_markdown(file: &Utf8PathBuf) -> bool
    ensures { result ≡ is_markdown file.now }
{
    is_md(file.as_path().extension())
}

fn push_name(alloc: Global, names: &mut Vec<Text>, name: &str) -> Result<(), NoMemory>
    ensures { OnOk result (names.new.items ≡ names.old.items ++ name.now ∷ []) }
{
    names.push(Text::from_str(alloc, name)?)?;
    Ok(())
}

/// The names under which a justfile is looked for.
fn wanted_names(alloc: Global, config: &Config) -> Result<Seq<Text>, NoMemory>
    ensures { IfOk result (λ names. names ≡ wanted_names config.now) }
{
    if !config.justfile_name.is_empty() {
        return config.justfile_name.try_clone();
    }
    let mut names = Vec::new(alloc);
    push_name(alloc, &mut names, "justfile")?;
    push_name(alloc, &mut names, ".justfile")?;
    Ok(Seq::from(names))
}

/// A file, with its folder.
fn as_file(alloc: Global, file: Utf8PathBuf) -> Result<Location, NoMemory>
    ensures { IfOk result (λ location. location ≡ as_file file) }
{
    let working_directory = folder_of(alloc, &file)?;
    Ok(Location {
        origin: Origin::File(file),
        working_directory,
    })
}

/// A file, which is tangled where it is markdown.
fn origin_of(file: Utf8PathBuf) -> Origin
    ensures { result ≡ origin_of file }
{
    if is_markdown(&file) {
        Origin::Markdown(file)
    } else {
        Origin::File(file)
    }
}

/// A file, which is tangled where it is markdown, with its folder.
pub(crate) fn as_origin(alloc: Global, file: Utf8PathBuf) -> Result<Location, NoMemory>
    ensures { IfOk result (λ location. location ≡ as_origin file) }
{
    let working_directory = folder_of(alloc, &file)?;
    Ok(Location {
        origin: origin_of(file),
        working_directory,
    })
}

/// A given file with a working folder; the root is no file.
fn with_file(file: Utf8PathBuf, folder: Utf8PathBuf) -> Result<Location, SearchError>
    ensures found { result ≡ with_file file folder }
    ensures unheard { IfErr result (λ e. entries_of e ≡ []) }
{
    if file.as_str() == "/" {
        return Err(SearchError::JustfileHadNoParent { path: file });
    }
    Ok(Location {
        origin: origin_of(file),
        working_directory: folder,
    })
}

/// A given folder, else the one in which the program was called.
fn given_or_own(
    alloc: Global,
    config: &Config,
    folder: &Option<Utf8PathBuf>,
) -> Result<Utf8PathBuf, NoMemory>
    ensures { IfOk result (λ given. given ≡ given_or_own config.now folder.now) }
{
    match folder {
        Some(folder) => given_path(alloc, config, folder),
        None => config.invocation_directory.try_clone(),
    }
}

/// Standard input, with a given working folder, else the one in which the program was called.
fn input_in(
    alloc: Global,
    config: &Config,
    folder: &Option<Utf8PathBuf>,
) -> Result<Location, SearchError>
    ensures found { Answers (λ r. r ≡ Ok (input_at (given_or_own config.now folder.now))) result }
    ensures unheard { IfErr result (λ e. entries_of e ≡ []) }
{
    Ok(Location {
        origin: Origin::StandardInput,
        working_directory: given_or_own(alloc, config, folder)?,
    })
}

/// The justfile in the first of some folders, up to the ceiling, that has a candidate.
pub(crate) fn climb_for<H: Host>(
    alloc: Global,
    host: &mut H,
    config: &Config,
    folders: Utf8Ancestors<'_>,
) -> Result<Utf8PathBuf, SearchError>
    ensures found { Answers (FindsIn (H.told host.old).world (wanted_names config.now)
        (up_to config.now.ceiling (ancestors_left folders.entry))) result }
    ensures entries { (H.told host.new).entries ≡ (H.told host.old).entries ++ told_entries result }
    ensures world { (H.told host.new).world ≡ (H.told host.old).world }
{
    let names = wanted_names(alloc, config)?;
    climb(alloc, host, names.as_slice(), &config.ceiling, folders)
}

/// The justfile in the first folder from one upwards that has a candidate.
#[tactic(auto, using(crate::proofs::Climbs::from_all))]
fn find_from<H: Host>(
    alloc: Global,
    host: &mut H,
    config: &Config,
    start: Utf8Path<'_>,
) -> Result<Utf8PathBuf, SearchError>
    ensures found { Answers (FindsIn (H.told host.old).world (wanted_names config.now) (folders_from config.now.ceiling (text_of start.entry))) result }
    ensures entries { (H.told host.new).entries ≡ (H.told host.old).entries ++ told_entries result }
    ensures world { (H.told host.new).world ≡ (H.told host.old).world }
{
    climb_for(alloc, host, config, start.ancestors())
}

/// The justfile that is looked for from the folder in which the program was called.
fn find_from_invocation<H: Host>(
    alloc: Global,
    host: &mut H,
    config: &Config,
) -> Result<Location, SearchError>
    ensures found { Answers (FindsFrom (H.told host.old).world config.now config.now.invocation_directory as_origin) result }
    ensures entries { (H.told host.new).entries ≡ (H.told host.old).entries ++ told_entries result }
    ensures world { (H.told host.new).world ≡ (H.told host.old).world }
{
    let start = config.invocation_directory.as_path();
    match find_from(alloc, host, config, start) {
        Ok(file) => Ok(as_origin(alloc, file)?),
        Err(error) => Err(error),
    }
}

/// The justfile that is looked for from a folder upwards, as a file.
fn find_file_from<H: Host>(
    alloc: Global,
    host: &mut H,
    config: &Config,
    start: Utf8Path<'_>,
) -> Result<Location, SearchError>
    ensures found { Answers (FindsFrom (H.told host.old).world config.now (text_of start.entry) as_file) result }
    ensures entries { (H.told host.new).entries ≡ (H.told host.old).entries ++ told_entries result }
    ensures world { (H.told host.new).world ≡ (H.told host.old).world }
{
    match find_from(alloc, host, config, start) {
        Ok(file) => Ok(as_file(alloc, file)?),
        Err(error) => Err(error),
    }
}

/// The justfile that is looked for from a folder that is given.
#[tactic(auto, using(crate::proofs::Owning::from_given))]
fn find_from_folder<H: Host>(
    alloc: Global,
    host: &mut H,
    config: &Config,
    folder: &Utf8PathBuf,
) -> Result<Location, SearchError>
    ensures found { Answers (FindsFrom (H.told host.old).world config.now (given_path config.now folder.now) as_file) result }
    ensures entries { (H.told host.new).entries ≡ (H.told host.old).entries ++ told_entries result }
    ensures world { (H.told host.new).world ≡ (H.told host.old).world }
{
    let start = given_path(alloc, config, folder)?;
    find_file_from(alloc, host, config, start.as_path())
}

/// The user's own justfile over an environment, with the root of the project that the program was called in.
#[tactic(auto, using(crate::proofs::Owning::last_unheard, crate::proofs::Owning::last_told))]
fn find_own_over<H: Host>(
    alloc: Global,
    host: &mut H,
    config: &Config,
    environ: &Environ,
) -> Result<Location, SearchError>
    ensures found { Answers (λ r. Leaves (λ gained. FindsOwnOver (H.told host.old).world config.now environ.now.pairs gained r) (H.told host.old).entries (H.told host.new).entries) result }
    ensures entries { GainsLast (H.told host.old).entries (H.told host.new).entries result }
    ensures world { (H.told host.new).world ≡ (H.told host.old).world }
{
    let file = match own_justfile(alloc, host, environ) {
        Ok(file) => file,
        Err(error) => return Err(error),
    };
    let start = config.invocation_directory.as_path();
    match root_of(alloc, host, &config.ceiling, start) {
        Ok(working_directory) => Ok(Location {
            origin: Origin::File(file),
            working_directory,
        }),
        Err(error) => Err(error),
    }
}

/// The user's own justfile, with the root of the project that the program was called in.
#[tactic(auto, using(crate::proofs::Owning::last_alone, crate::proofs::Owning::last_behind))]
fn find_own<H: Host>(alloc: Global, host: &mut H, config: &Config) -> Result<Location, SearchError>
    ensures found { Answers (λ r. Leaves (λ gained. FindsOwn (H.told host.old).world config.now gained r) (H.told host.old).entries (H.told host.new).entries) result }
    ensures entries { GainsLast (H.told host.old).entries (H.told host.new).entries result }
    ensures world { (H.told host.new).world ≡ (H.told host.old).world }
{
    match environment(alloc, host) {
        Ok(environ) => find_own_over(alloc, host, config, &environ),
        Err(error) => Err(error),
    }
}

/// A given file with its own folder.
#[tactic(auto, using(crate::proofs::Deciding::answers_same))]
fn find_given(alloc: Global, config: &Config, file: &Utf8PathBuf) -> Result<Location, SearchError>
    ensures found { Answers (λ r. r ≡ with_file (given_path config.now file.now) (folder_of (given_path config.now file.now))) result }
    ensures unheard { IfErr result (λ e. entries_of e ≡ []) }
{
    let file = given_path(alloc, config, file)?;
    let folder = folder_of(alloc, &file)?;
    with_file(file, folder)
}

/// A given file with a given folder.
#[tactic(auto, using(crate::proofs::Deciding::answers_same))]
fn find_both_given(
    alloc: Global,
    config: &Config,
    file: &Utf8PathBuf,
    folder: &Utf8PathBuf,
) -> Result<Location, SearchError>
    ensures found { Answers (λ r. r ≡ with_file (given_path config.now file.now) (given_path config.now folder.now)) result }
    ensures unheard { IfErr result (λ e. entries_of e ≡ []) }
{
    let file = given_path(alloc, config, file)?;
    let folder = given_path(alloc, config, folder)?;
    with_file(file, folder)
}

/// Where the justfile is that a setting means.
#[tactic(auto, using(crate::proofs::Deciding::told_none))]
fn find_by<H: Host>(
    alloc: Global,
    config: &Config,
    setting: &SearchConfig,
    host: &mut H,
) -> Result<Location, SearchError>
    ensures found { Answers
        (FindsBy (H.told host.old) (H.told host.new) config.now setting.now) result }
    ensures entries { FindGains setting.now (H.told host.old).entries (H.told host.new).entries result }
    ensures world { (H.told host.new).world ≡ (H.told host.old).world }
{
    match setting {
        SearchConfig::FromInvocationDirectory => find_from_invocation(alloc, host, config),
        SearchConfig::FromSearchDirectory(folder) => find_from_folder(alloc, host, config, folder),
        SearchConfig::GlobalJustfile => find_own(alloc, host, config),
        SearchConfig::StandardInput(folder) => input_in(alloc, config, folder),
        SearchConfig::WithJustfile(file) => find_given(alloc, config, file),
        SearchConfig::WithJustfileAndWorkingDirectory(file, folder) => find_both_given(
            alloc, config, file, folder,
        ),
    }
}

/// Where the justfile of a configuration is: in the first folder upwards that has one candidate, at a place of the user's own, on standard
/// input, or where it is given. Nothing is read of it.
pub fn find<H: Host>(alloc: Global, config: &Config, host: &mut H) -> Result<Location, SearchError>
    ensures found { Answers (Finds (H.told host.old) (H.told host.new) config.now) result }
    ensures entries { FindGains config.now.search_config (H.told host.old).entries (H.told host.new).entries result }
    ensures world { (H.told host.new).world ≡ (H.told host.old).world }
{
    find_by(alloc, config, &config.search_config, host)
}
