//! What is asked of the justfiles that are tried one behind the other: of each from its sources to the reply.

ghost use Rattle.std.specs.Prelude.{◌≡◌, ◌<◌, ◌&&◌, length, IfErr, MatchOption, MatchResult, Ok, Err};
ghost use Rattle.just_cli.specs.Options.{is_lacking, is_missing, empty_outline};
ghost use Rattle.just_cli.specs.Preparing.{Performs, reply_of, as_asked};
ghost use Rattle.just_cli.specs.Replies.{Reply};
ghost use Rattle.just_cli.specs.Request.{AnswersAt, BeginsAt};
ghost use Rattle.just_cli.specs.Taken.{PerformsFrom, PerformsFall, PerformsTries};

use super::Error;
use super::options::{is_lacking, is_missing};
use super::place::project_at;
use super::replied::Replied;
use super::reply::reply_of;
use super::show::empty_plan;
use just_config::Config;
use just_host::Host;
use just_path::Utf8PathBuf;
use just_path_text::{Environ, Seq};
use just_search::{Location, find_fallback};
use std::alloc::Global;

/// The reply of the justfile in a place, or why there is none; and whether that justfile sets fallback. The record gains the entries of
/// temporary folders that are made, the misses of files that aren't there, and the entry of the refused call.
fn reply_at<H: Host>(
    alloc: Global,
    environ: &Environ,
    config: &Config,
    location: &Location,
    made: &mut Vec<Utf8PathBuf>,
    host: &mut H,
) -> (Result<Replied, Error>, bool)
    ensures { Performs
        (λ acts after r. AnswersAt (H.told host.old).world acts after
        (record { config = config.now; environ = environ.now; location = location.now }) r result.1)
        (λ acts after. BeginsAt (H.told host.old).world acts after
        (record { config = config.now; environ = environ.now; location = location.now }))
        (H.told host.old) (H.told host.new) made.old.items made.new.items (as_asked result.0) }
{
    let (wanted, laid) = match project_at(alloc, environ, config, location, made, host) {
        Ok(found) => found,
        Err(error) => return (Err(error), false),
    };
    let replied = reply_of(alloc, host, environ, config, &wanted, &laid);
    let fallback = laid.justfile.settings.fallback;
    drop(wanted);
    drop(laid);
    (replied, fallback)
}

/// Whether another justfile is tried behind one that sets fallback, or doesn't, and is refused so.
pub(crate) fn falls_back(fallback: bool, error: &Error) -> bool
    ensures { result ≡ (fallback && is_lacking error.now) }
{
    fallback && is_lacking(error)
}

/// The reply of the justfile in a place; or why there is none, and the place of the justfile that is tried in its stead, if one is. The record
/// gains what asking one leaves.
fn reply_or_next<H: Host>(
    alloc: Global,
    environ: &Environ,
    config: &Config,
    location: &Location,
    made: &mut Vec<Utf8PathBuf>,
    host: &mut H,
) -> Result<Replied, (Error, Option<Location>)>
    ensures tries { MatchResult result
        (λ p. PerformsFrom (record { config = config.now; environ = environ.now }) location.now
        (H.told host.old) (H.told host.new) made.old.items made.new.items (Ok (reply_of p)))
        (λ e. MatchOption e.1
        (PerformsFrom (record { config = config.now; environ = environ.now }) location.now
        (H.told host.old) (H.told host.new) made.old.items made.new.items (Err e.0))
        (λ l. PerformsFall (record { config = config.now; environ = environ.now }) location.now
        (H.told host.old) (H.told host.new) made.old.items made.new.items l)) }
    ensures higher { IfErr result (λ e. MatchOption e.1 (Unit {0}) (λ l. length l.working_directory < length location.now.working_directory)) }
{
    let (replied, fallback) = reply_at(alloc, environ, config, location, made, host);
    let error = match replied {
        Ok(replied) => return Ok(replied),
        Err(error) => error,
    };
    if !falls_back(fallback, &error) {
        return Err((error, None));
    }
    match find_fallback(alloc, location.working_directory.as_path(), config, host) {
        Ok(next) => Err((error, next)),
        Err(refusal) => {
            drop(error);
            Err((Error::from(refusal), None))
        }
    }
}

/// The reply of the justfiles that are tried from a place on. The record gains what asking them leaves.
pub(crate) fn reply_from<H: Host>(
    alloc: Global,
    environ: &Environ,
    config: &Config,
    location: Location,
    made: &mut Vec<Utf8PathBuf>,
    host: &mut H,
) -> Result<Replied, Error>
    ensures { PerformsFrom (record { config = config.now; environ = environ.now }) location
        (H.told host.old) (H.told host.new) made.old.items made.new.items (as_asked result) }
{
    let mut place = location;
    'places: loop {
        let (error, next) = match reply_or_next(alloc, environ, config, &place, made, host) {
            Ok(replied) => return Ok(replied),
            Err(refused) => refused,
        };
        match next {
            None => return Err(error),
            Some(next) => {
                drop(error);
                place = next;
            }
        }
    }
}

/// Whether the words allow that a name is missing.
pub(crate) fn is_allowed(config: &Config, error: &Error) -> bool
    ensures { result ≡ (config.now.allow_missing && is_missing error.now) }
{
    config.allow_missing && is_missing(error)
}

/// The plan of no node.
pub(crate) fn plan_nothing(alloc: Global, config: &Config) -> Replied
    ensures { reply_of result ≡ Reply.runs (empty_outline config.now) }
{
    Replied::Plan(empty_plan(alloc), config.jobs, Seq::new(alloc))
}

/// The reply of the justfile in a place, and of those that are tried behind it; the plan of no node, where a name is missing and the words allow it. The
/// record gains what asking them leaves.
pub(crate) fn reply_tried<H: Host>(
    alloc: Global,
    environ: &Environ,
    config: &Config,
    location: Location,
    made: &mut Vec<Utf8PathBuf>,
    host: &mut H,
) -> Result<Replied, Error>
    ensures { PerformsTries
        (record { config = config.now; environ = environ.now; location = location })
        (H.told host.old) (H.told host.new) made.old.items made.new.items (as_asked result) }
{
    match reply_from(alloc, environ, config, location, made, host) {
        Ok(replied) => Ok(replied),
        Err(error) => {
            if is_allowed(config, &error) {
                drop(error);
                return Ok(plan_nothing(alloc, config));
            }
            Err(error)
        }
    }
}
