//! What is asked of the justfiles that are tried by words that are chosen.

ghost use Rattle.just_path_text.specs.declared.environ.Environ.{Environ as Variables};
ghost use Rattle.just_lang.specs.Assembled.{IsSoundlyMadeOf};
ghost use Rattle.just_cli_plan.specs.Projects.{IsEnding};
ghost use Rattle.just_cli.specs.Preparing.{as_asked, as_chosen};
ghost use Rattle.just_cli.specs.Taken.{laid_in, PerformsAnswer, PerformsChoosing, PerformsBehind, PerformsAllowed, PerformsWords, PerformsChoices};

use super::Error;
use super::place::project_at;
use super::replied::Replied;
use super::reply::reply_of;
use super::tried::{falls_back, is_allowed, plan_nothing, reply_from};
use just_cli_children::{choose, chooser_of, is_any, wanted_with, with_words};
use just_cli_plan::Wanted;
use just_cli_texts::{LaidJustfile, feed};
use just_config::Config;
use just_exec_work::shell;
use just_host::Host;
use just_path::Utf8PathBuf;
use just_path_text::{Environ, NoMemory, Seq, Text, TryClone};
use just_search::{Location, find_fallback};
use std::alloc::Global;

/// The words that a chooser answers for a project, which is fed that. The record gains the entry of its child, or that of the refused call.
fn answered<H: Host>(
    alloc: Global,
    host: &mut H,
    config: &Config,
    wanted: &Wanted,
    laid: &LaidJustfile,
    input: &str,
) -> Result<Seq<Text>, Error>
    // Whatever the environment is, of which nothing is asked.
    ensures { (environ : Variables)
        → PerformsAnswer config.now (laid_in wanted.now environ laid.now) input.now
        (H.told host.old) (H.told host.new) result }
{
    let shell = shell(alloc, &wanted.flags, &laid.justfile.settings)?;
    let chooser = chooser_of(alloc, config, laid.justfile.source.as_str())?;
    let folder = wanted.flags.folder.as_path();
    choose(alloc, host, &shell, folder, chooser, input)
}

/// The words that are chosen of a project. The record gains the entry of the chooser's child, or that of the refused call.
fn chosen_of<H: Host>(
    alloc: Global,
    host: &mut H,
    environ: &Environ,
    config: &Config,
    wanted: &Wanted,
    laid: &LaidJustfile,
) -> Result<Seq<Text>, Error>
    requires { IsSoundlyMadeOf environ.now.pairs laid.now.layout laid.now.justfile }
    ensures { PerformsChoosing config.now (laid_in wanted.now environ.now laid.now)
        (H.told host.old) (H.told host.new) result }
{
    let input = match feed(alloc, config, environ, laid) {
        Ok(input) => input,
        Err(error) => return Err(error),
    };
    match answered(alloc, host, config, wanted, laid, input.as_str()) {
        Ok(words) => Ok(words),
        Err(error) => Err(error),
    }
}

/// The reply of a project that was found in a place, and of the justfiles that are tried behind it. The record gains what asking them leaves.
fn reply_behind<H: Host>(
    alloc: Global,
    environ: &Environ,
    config: &Config,
    location: Location,
    wanted: Wanted,
    laid: LaidJustfile,
    made: &mut Vec<Utf8PathBuf>,
    host: &mut H,
) -> Result<Replied, Error>
    requires ending { IsEnding laid.justfile }
    requires sound { IsSoundlyMadeOf environ.now.pairs laid.layout laid.justfile }
    ensures { PerformsBehind (record { config = config.now; environ = environ.now }) location
        (laid_in wanted environ.now laid)
        (H.told host.old) (H.told host.new) made.old.items made.new.items (as_asked result) }
{
    let replied = reply_of(alloc, host, environ, config, &wanted, &laid);
    let fallback = laid.justfile.settings.fallback;
    drop(wanted);
    drop(laid);
    let error = match replied {
        Ok(replied) => return Ok(replied),
        Err(error) => error,
    };
    if !falls_back(fallback, &error) {
        return Err(error);
    }
    let folder = location.working_directory.as_path();
    match find_fallback(alloc, folder, config, host) {
        Ok(Some(next)) => {
            drop(error);
            reply_from(alloc, environ, config, next, made, host)
        }
        Ok(None) => Err(error),
        Err(refusal) => {
            drop(error);
            Err(Error::from(refusal))
        }
    }
}

/// The same; the plan of no node, where a name is missing and the words allow it.
fn reply_allowed<H: Host>(
    alloc: Global,
    environ: &Environ,
    config: &Config,
    location: Location,
    wanted: Wanted,
    laid: LaidJustfile,
    made: &mut Vec<Utf8PathBuf>,
    host: &mut H,
) -> Result<Replied, Error>
    requires ending { IsEnding laid.justfile }
    requires sound { IsSoundlyMadeOf environ.now.pairs laid.layout laid.justfile }
    ensures { PerformsAllowed (record { config = config.now; environ = environ.now }) location
        (laid_in wanted environ.now laid)
        (H.told host.old) (H.told host.new) made.old.items made.new.items (as_asked result) }
{
    match reply_behind(alloc, environ, config, location, wanted, laid, made, host) {
        Ok(replied) => Ok(replied),
        Err(error) => {
            if is_allowed(config, &error) {
                drop(error);
                return Ok(plan_nothing(alloc, config));
            }
            Err(error)
        }
    }
}

/// The reply to words, as those of one run, of a project that was found in a place; none where there is no word.
fn reply_to_words<H: Host>(
    alloc: Global,
    environ: &Environ,
    config: Config,
    words: Seq<Text>,
    location: Location,
    wanted: Wanted,
    laid: LaidJustfile,
    made: &mut Vec<Utf8PathBuf>,
    host: &mut H,
) -> Result<Option<Replied>, Error>
    requires ending { IsEnding laid.justfile }
    requires sound { IsSoundlyMadeOf environ.now.pairs laid.layout laid.justfile }
    ensures { PerformsWords (record { config = config; environ = environ.now; location = location })
        (laid_in wanted environ.now laid) words
        (H.told host.old) (H.told host.new) made.old.items made.new.items (as_chosen result) }
{
    if !is_any(&words) {
        return Ok(None);
    }
    let copies = match words.try_clone() {
        Ok(copies) => copies,
        Err(NoMemory) => return Err(Error::NoMemory),
    };
    let config = with_words(config, copies);
    let wanted = wanted_with(wanted, words);
    match reply_allowed(alloc, environ, &config, location, wanted, laid, made, host) {
        Ok(replied) => Ok(Some(replied)),
        Err(error) => Err(error),
    }
}

/// The reply to the words that are chosen of the justfile in a place; none where no word is. The project is found once: the chooser is run behind that, and the run
/// goes on from there. The record gains what asking leaves.
pub(crate) fn choose_tried<H: Host>(
    alloc: Global,
    environ: &Environ,
    config: Config,
    location: Location,
    made: &mut Vec<Utf8PathBuf>,
    host: &mut H,
) -> Result<Option<Replied>, Error>
    ensures { PerformsChoices
        (record { config = config; environ = environ.now; location = location })
        (H.told host.old) (H.told host.new) made.old.items made.new.items (as_chosen result) }
{
    let (wanted, laid) = match project_at(alloc, environ, &config, &location, made, host) {
        Ok(found) => found,
        Err(error) => return Err(error),
    };
    let words = match chosen_of(alloc, host, environ, &config, &wanted, &laid) {
        Ok(words) => words,
        Err(error) => return Err(error),
    };
    match reply_to_words(
        alloc, environ, config, words, location, wanted, laid, made, host,
    ) {
        Ok(replied) => Ok(replied),
        Err(error) => Err(error),
    }
}
