//! What the host gives to a request: the environment, the current folder, the place of the justfile, and the sources of its project.

ghost use Rattle.std.specs.Prelude.{◌≡◌, ◌++◌, ◌∷◌, [], List, Result, Ok, Err, IfOk, IfErr, MatchResult};
ghost use Rattle.just_path.specs.Path.{text_of};
ghost use Rattle.just_host_record.specs.declared.entry.Entry.{Entry};
ghost use Rattle.just_env.specs.declared.search_error.SearchError.{SearchError};
ghost use Rattle.just_search_load.specs.Loads.{Loads};
ghost use Rattle.just_search_load.specs.Shows.{sources_of};
ghost use Rattle.just_exec.specs.Refusals.{error_of_search};
ghost use Rattle.just_exec.specs.declared.error.Error.{Error};
ghost use Rattle.just_cli_plan.specs.Own.{OrMemory};
ghost use Rattle.just_cli_children.specs.Faults.{entries_of};
ghost use Rattle.just_config.specs.declared.search_config.SearchConfig.TheVariants.{GlobalJustfile};
ghost use Rattle.just_cli.specs.Preparing.{AreMisses, EndsWith};
ghost use Rattle.just_cli.specs.Asked.{EnvironGiven, FolderGiven};
ghost use Rattle.just_cli.specs.Request.{ArePassed};
ghost use Rattle.just_cli.specs.Words.{FindsLocation};

use super::Error;
use just_cli_children::{fault_of_path, folder_error, io_error};
use just_config::Config;
use just_host::Host;
use just_path::{Utf8Path, Utf8PathBuf};
use just_path_text::Environ;
use just_search::{Location, find};
use just_search_load::Loader;
use std::alloc::Global;

/// The environment.
#[tactic(auto, using(crate::proofs::Calls::io_entries, crate::proofs::Calls::environ_refused))]
pub(crate) fn environment<H: Host>(alloc: Global, host: &mut H) -> Result<Environ, Error>
    ensures grew { MatchResult result (λ _. (H.told host.new).entries ≡ (H.told host.old).entries) (λ e. (H.told host.new).entries ≡ (H.told host.old).entries ++ entries_of e) }
    ensures world { (H.told host.new).world ≡ (H.told host.old).world }
    ensures gives { IfOk result (λ e. EnvironGiven (H.told host.old).world (Ok e)) }
    ensures refused { IfErr result (OrMemory (λ e. EnvironGiven (H.told host.old).world (Err e))) }
{
    match host.environ() {
        Ok(environ) => Ok(environ),
        Err(fault) => Err(io_error(Utf8PathBuf::new(alloc), fault)),
    }
}

/// The current folder.
#[tactic(auto, using(crate::proofs::Calls::folder_entries, crate::proofs::Calls::folder_refused))]
pub(crate) fn current_folder<H: Host>(host: &mut H) -> Result<Utf8PathBuf, Error>
    ensures grew { MatchResult result (λ _. (H.told host.new).entries ≡ (H.told host.old).entries) (λ e. (H.told host.new).entries ≡ (H.told host.old).entries ++ entries_of e) }
    ensures world { (H.told host.new).world ≡ (H.told host.old).world }
    ensures gives { IfOk result (λ f. FolderGiven (H.told host.old).world (Ok f)) }
    ensures refused { IfErr result (OrMemory (λ e. FolderGiven (H.told host.old).world (Err e))) }
{
    match host.current() {
        Ok(folder) => Ok(folder),
        Err(fault) => Err(folder_error(fault_of_path(fault))),
    }
}

/// The place where the justfile of a configuration is. The record gains the entries of listings that were refused as the user's own justfile was looked
/// for, and the entry of the refused call.
pub(crate) fn locate<H: Host>(
    alloc: Global,
    host: &mut H,
    config: &Config,
) -> Result<Location, Error>
    ensures located { MatchResult result (λ l. (listings : List Entry) × ArePassed (config.now.search_config ≡ GlobalJustfile) listings × ((H.told host.new).entries ≡ (H.told host.old).entries ++ listings) × FindsLocation (H.told host.old).world listings config.now (Ok l)) (λ e. (listings : List Entry) × ArePassed (config.now.search_config ≡ GlobalJustfile) listings × ((H.told host.new).entries ≡ (H.told host.old).entries ++ (listings ++ entries_of e)) × OrMemory (λ x. FindsLocation (H.told host.old).world listings config.now (Err x)) e) }
    ensures world { (H.told host.new).world ≡ (H.told host.old).world }
{
    match find(alloc, config, host) {
        Ok(location) => Ok(location),
        Err(error) => Err(Error::from(error)),
    }
}

/// The sources of the project of a justfile. The record gains the misses of files that aren't there, and the entry of the refused call.
pub(crate) fn load<H: Host>(
    alloc: Global,
    host: &mut H,
    environ: &Environ,
    justfile: Utf8Path<'_>,
) -> Result<Loader, Error>
    ensures grew { (es : List Entry) × ((H.told host.new).entries ≡ (H.told host.old).entries ++ es) × MatchResult result (λ _. AreMisses es) (λ e. EndsWith [] e es) }
    ensures world { (H.told host.new).world ≡ (H.told host.old).world }
    ensures sources { IfOk result (λ l. Loads (H.told host.old).world environ.now.pairs [] (text_of justfile.entry ∷ []) (Ok (sources_of l))) }
    ensures refused { IfErr result (OrMemory (λ e. (f : SearchError) × Loads (H.told host.old).world environ.now.pairs [] (text_of justfile.entry ∷ []) (Err f) × (e ≡ error_of_search f))) }
{
    let mut loader = Loader::new(alloc);
    match loader.load_over(host, environ, justfile) {
        Ok(()) => Ok(loader),
        Err(error) => Err(Error::from(error)),
    }
}
