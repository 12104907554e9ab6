//! The project of the justfile in a place.

ghost use Rattle.std.specs.Prelude.{◌≡◌, ◌++◌, [], List, IfOk, IfErr, MatchResult, Ok, Err};
ghost use Rattle.just_path.specs.Path.{text_of};
ghost use Rattle.just_host_record.specs.declared.entry.Entry.{Entry};
ghost use Rattle.just_lang.specs.Assembled.{IsSoundlyMadeOf};
ghost use Rattle.just_cli_plan.specs.Own.{OrMemory};
ghost use Rattle.just_cli_plan.specs.Projects.{IsEnding};
ghost use Rattle.just_cli_texts.specs.Laid.{laid_by};
ghost use Rattle.just_cli.specs.Preparing.{AreMisses, EndsWith};
ghost use Rattle.just_cli.specs.Request.{FindsProjectOf};
ghost use Rattle.just_cli.specs.Taken.{as_laid, PerformsProject};

use super::Error;
use super::given::load;
use super::taken::take;
use just_cli_plan::Wanted;
use just_cli_texts::{LaidJustfile, laid_of_sources};
use just_config::Config;
use just_host::Host;
use just_path::{Utf8Path, Utf8PathBuf};
use just_path_text::Environ;
use just_search::Location;
use std::alloc::Global;

/// The project of a justfile, with the layout of its sources. The record gains the misses of files that aren't there, and the entry of the refused call.
fn laid_of<H: Host>(
    alloc: Global,
    host: &mut H,
    environ: &Environ,
    wanted: &Wanted,
    justfile: Utf8Path<'_>,
) -> Result<LaidJustfile, Error>
    ensures grew { (es : List Entry) × ((H.told host.new).entries ≡ (H.told host.old).entries ++ es)
        × MatchResult result (λ _. AreMisses es) (λ e. EndsWith [] e es) }
    ensures world { (H.told host.new).world ≡ (H.told host.old).world }
    ensures ending { IfOk result (λ l. IsEnding l.justfile) }
    ensures sound { IfOk result (λ l. IsSoundlyMadeOf environ.now.pairs l.layout l.justfile) }
    ensures project { IfOk result (λ l. FindsProjectOf (H.told host.old).world
        (record { wanted = wanted.now; environ = environ.now; justfile = text_of justfile.entry })
        (Ok (record { wanted = wanted.now; environ = environ.now; laid = laid_by l }))) }
    ensures refused { IfErr result (OrMemory (λ e. FindsProjectOf (H.told host.old).world
        (record { wanted = wanted.now; environ = environ.now; justfile = text_of justfile.entry })
        (Err e))) }
{
    let loader = match load(alloc, host, environ, justfile) {
        Ok(loader) => loader,
        Err(error) => return Err(error),
    };
    match laid_of_sources(alloc, loader.sources(), environ, wanted) {
        Ok(laid) => Ok(laid),
        Err(error) => Err(error),
    }
}

/// The project of the justfile in a place, and what is asked of it. The record gains the entries of temporary folders that are made, the misses of files that
/// aren't there, and the entry of the refused call.
pub(crate) fn project_at<H: Host>(
    alloc: Global,
    environ: &Environ,
    config: &Config,
    location: &Location,
    made: &mut Vec<Utf8PathBuf>,
    host: &mut H,
) -> Result<(Wanted, LaidJustfile), Error>
    ensures project { PerformsProject
        (record { config = config.now; environ = environ.now; location = location.now })
        (H.told host.old) (H.told host.new) made.old.items made.new.items
        (as_laid environ.now result) }
    ensures ending { IfOk result (λ x. IsEnding x.1.justfile) }
    ensures sound { IfOk result (λ x. IsSoundlyMadeOf environ.now.pairs x.1.layout x.1.justfile) }
{
    let (wanted, path) = match take(alloc, config, location, made, host) {
        Ok(taken) => taken,
        Err(error) => return Err(error),
    };
    match laid_of(alloc, host, environ, &wanted, path.as_path()) {
        Ok(laid) => Ok((wanted, laid)),
        Err(error) => {
            drop(wanted);
            Err(error)
        }
    }
}
