//! What a project answers to words without a command: a listing, or the plan of a run.

ghost use Rattle.std.specs.Prelude.{◌≡◌, ◌∷◌, [], List, Ok, Err, IfOk, IfErr};
ghost use Rattle.just_lang.specs.Assembled.{IsSoundlyMadeOf};
ghost use Rattle.just_lang_types.specs.declared.project.Justfile.{Justfile};
ghost use Rattle.just_lang_types.specs.Modules.{AreModules};
ghost use Rattle.just_cli_plan.specs.Own.{OrMemory};
ghost use Rattle.just_cli_plan.specs.Projects.{IsEnding};
ghost use Rattle.just_cli.specs.Preparing.{reply_of, as_asked};
ghost use Rattle.just_cli_plan.specs.Request.{Outline, PlansKeys};
ghost use Rattle.just_cli.specs.Replies.{Reply, Replies, RepliesLoaded};
ghost use Rattle.just_cli.specs.Taken.{laid_in, scopes_in, loaded_in, PerformsReply};

use super::Error;
use super::replied::Replied;
use just_cli_plan::{Wanted, load_pairs, plan_of_keys, scopes_of};
use just_cli_texts::{LaidJustfile, listed_by_default, listing};
use just_config::Config;
use just_host::Host;
use just_lang_types::{DotenvOf, Scopes};
use just_path_text::{Environ, NoMemory};
use std::alloc::Global;

/// The plan of what the words ask for.
fn planned(
    alloc: Global,
    wanted: &Wanted,
    laid: &LaidJustfile,
    scopes: &Scopes,
) -> Result<Replied, Error>
    requires { IsEnding laid.now.justfile }
    ensures plan { IfOk result (λ x. (modules : List Justfile)
        → AreModules (laid.now.justfile ∷ []) modules
        → (o : Outline)
        × PlansKeys (scopes_in wanted.now laid.now modules scopes.now) (Ok o)
        × (reply_of x ≡ Reply.runs o)) }
    ensures refused { IfErr result (OrMemory (λ e. (modules : List Justfile)
        → AreModules (laid.now.justfile ∷ []) modules
        → PlansKeys (scopes_in wanted.now laid.now modules scopes.now) (Err e))) }
{
    match plan_of_keys(alloc, &laid.justfile, scopes, wanted) {
        Ok((plan, messages)) => Ok(Replied::Plan(plan, wanted.jobs, messages)),
        Err(error) => Err(error),
    }
}

/// The reply behind the values of the variables.
fn reply_behind(
    alloc: Global,
    environ: &Environ,
    config: &Config,
    wanted: &Wanted,
    laid: &LaidJustfile,
    scopes: &Scopes,
) -> Result<Replied, Error>
    requires ending { IsEnding laid.now.justfile }
    requires sound { IsSoundlyMadeOf environ.now.pairs laid.now.layout laid.now.justfile }
    ensures reply { IfOk result (λ x. (modules : List Justfile)
        → AreModules (laid.now.justfile ∷ []) modules
        → Replies config.now (laid_in wanted.now environ.now laid.now)
        (scopes_in wanted.now laid.now modules scopes.now) (Ok (reply_of x))) }
    ensures refused { IfErr result (OrMemory (λ e. (modules : List Justfile)
        → AreModules (laid.now.justfile ∷ []) modules
        → Replies config.now (laid_in wanted.now environ.now laid.now)
        (scopes_in wanted.now laid.now modules scopes.now) (Err e))) }
{
    let words = wanted.words.as_slice();
    match listed_by_default(alloc, config.default_list, &laid.justfile, words) {
        Ok(None) => match planned(alloc, wanted, laid, scopes) {
            Ok(replied) => Ok(replied),
            Err(error) => Err(error),
        },
        Ok(Some(names)) => match listing(alloc, config, environ, laid, names.as_slice()) {
            Ok(printed) => Ok(Replied::List(printed)),
            Err(error) => Err(error),
        },
        Err(NoMemory) => Err(Error::NoMemory),
    }
}

/// The reply behind the dotenv pairs.
fn reply_loaded(
    alloc: Global,
    environ: &Environ,
    config: &Config,
    wanted: &Wanted,
    laid: &LaidJustfile,
    dotenv: &[DotenvOf],
) -> Result<Replied, Error>
    requires ending { IsEnding laid.now.justfile }
    requires sound { IsSoundlyMadeOf environ.now.pairs laid.now.layout laid.now.justfile }
    ensures reply { IfOk result (λ x. (modules : List Justfile)
        → AreModules (laid.now.justfile ∷ []) modules
        → RepliesLoaded config.now (laid_in wanted.now environ.now laid.now)
        (loaded_in wanted.now environ.now laid.now modules dotenv.now) (Ok (reply_of x))) }
    ensures refused { IfErr result (OrMemory (λ e. (modules : List Justfile)
        → AreModules (laid.now.justfile ∷ []) modules
        → RepliesLoaded config.now (laid_in wanted.now environ.now laid.now)
        (loaded_in wanted.now environ.now laid.now modules dotenv.now) (Err e))) }
{
    let scopes = match scopes_of(alloc, &laid.justfile, dotenv, environ, wanted) {
        Ok(scopes) => scopes,
        Err(error) => return Err(error),
    };
    match reply_behind(alloc, environ, config, wanted, laid, &scopes) {
        Ok(replied) => Ok(replied),
        Err(error) => Err(error),
    }
}

/// The reply of a project. The record gains the entries of children that are run for its dotenv
/// pairs, the misses of files that aren't there, and the entry of the refused call.
pub(crate) fn reply_of<H: Host>(
    alloc: Global,
    host: &mut H,
    environ: &Environ,
    config: &Config,
    wanted: &Wanted,
    laid: &LaidJustfile,
) -> Result<Replied, Error>
    requires ending { IsEnding laid.now.justfile }
    requires sound { IsSoundlyMadeOf environ.now.pairs laid.now.layout laid.now.justfile }
    ensures { PerformsReply config.now (laid_in wanted.now environ.now laid.now)
        (H.told host.old) (H.told host.new) (as_asked result) }
{
    let pairs = match load_pairs(alloc, host, &laid.justfile, environ, wanted) {
        Ok(pairs) => pairs,
        Err(error) => return Err(error),
    };
    match reply_loaded(alloc, environ, config, wanted, laid, pairs.as_slice()) {
        Ok(replied) => Ok(replied),
        Err(error) => Err(error),
    }
}
