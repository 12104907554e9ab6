//! From the values of a project's variables to the plan of a run.

ghost use Rattle.std.specs.Prelude.{◌≡◌, ◌≢◌, ◌<◌, ◌^◌, ◌∷◌, [], List, length, map, option_map, Ok, Err, IfOk, IfErr};
ghost use Rattle.std.specs.Int.NonZero.{non_zero_u64_get};
ghost use Rattle.just_lang_types.specs.declared.project.Justfile.{Justfile};
ghost use Rattle.just_lang_types.specs.declared.project.LangError.{LangError};
ghost use Rattle.just_eval_closure.specs.WellFormed.{IsWellFormed};
ghost use Rattle.just_eval_closure.specs.Requests.{IsIndexed};
ghost use Rattle.just_lang_types.specs.Modules.{AreModules};
ghost use Rattle.just_cli_plan.specs.Own.{OrMemory};
ghost use Rattle.just_cli_plan.specs.Projects.{IsEnding};
ghost use Rattle.just_cli_plan.specs.Request.{outline_of, AsksKeys, MakesPlan, PlansKeys};

use super::Wanted;
use super::closure_plan::plan_of;
use just_eval_closure::{Request, closure_within};
use just_eval_words::{invocations, within_one};
use just_exec::Error;
use just_lang_types::project::{Justfile, LangError};
use just_lang_types::{Closure, Key, Scopes};
use just_path_text::Seq;
use just_sched_history::Plan;
use std::alloc::Global;

/// The keys that the words ask for.
fn keys_of(
    alloc: Global,
    justfile: &Justfile,
    scopes: &Scopes,
    wanted: &Wanted,
) -> Result<Seq<Key>, LangError>
    ensures keys { IfOk result (λ keys. (modules : List Justfile) → AreModules (justfile.now ∷ []) modules → AsksKeys (record { wanted = wanted.now; justfile = justfile.now; modules = modules; scopes = scopes.now }) (Ok keys)) }
    ensures refused { IfErr result (λ e. e ≢ LangError.NoMemory → (modules : List Justfile) → AreModules (justfile.now ∷ []) modules → AsksKeys (record { wanted = wanted.now; justfile = justfile.now; modules = modules; scopes = scopes.now }) (Err e)) }
{
    let keys = match invocations(alloc, justfile, scopes, wanted.words.as_slice()) {
        Ok(keys) => keys,
        Err(error) => return Err(error),
    };
    match within_one(wanted.one, keys) {
        Ok(keys) => Ok(keys),
        Err(error) => Err(error),
    }
}

/// The plan of the closure of what the words ask for.
fn plan_of_closure(
    alloc: Global,
    request: &Request<'_>,
    wanted: &Wanted,
    closure: Closure,
) -> Result<(Plan, Seq<bool>), Error>
    requires indexed { IsIndexed request.now }
    requires formed { IsWellFormed closure.nodes closure.invocations }
    requires few { length closure.nodes < 2 ^ 32 }
    ensures plan { IfOk result (λ p. MakesPlan (record { wanted = wanted.now; modules = map (λ m. m.now) request.now.modules.items; scopes = request.now.scopes.now; closure = closure }) (Ok (outline_of p.0 (option_map non_zero_u64_get wanted.now.jobs) p.1))) }
    ensures refused { IfErr result (OrMemory (λ e. MakesPlan (record { wanted = wanted.now; modules = map (λ m. m.now) request.now.modules.items; scopes = request.now.scopes.now; closure = closure }) (Err e))) }
{
    let folder = wanted.cache_folder.as_path();
    match plan_of(alloc, request, &wanted.flags, folder, closure) {
        Ok(planned) => Ok(planned),
        Err(error) => Err(error),
    }
}

/// The plan of what the words ask for, with of each node whether the message of its exit code is told.
pub fn plan_of_keys(
    alloc: Global,
    justfile: &Justfile,
    scopes: &Scopes,
    wanted: &Wanted,
) -> Result<(Plan, Seq<bool>), Error>
    requires { IsEnding justfile.now }
    ensures plan { IfOk result (λ p. (modules : List Justfile) → AreModules (justfile.now ∷ []) modules → PlansKeys (record { wanted = wanted.now; justfile = justfile.now; modules = modules; scopes = scopes.now }) (Ok (outline_of p.0 (option_map non_zero_u64_get wanted.now.jobs) p.1))) }
    ensures refused { IfErr result (OrMemory (λ e. (modules : List Justfile) → AreModules (justfile.now ∷ []) modules → PlansKeys (record { wanted = wanted.now; justfile = justfile.now; modules = modules; scopes = scopes.now }) (Err e))) }
{
    let keys = match keys_of(alloc, justfile, scopes, wanted) {
        Ok(keys) => keys,
        Err(error) => return Err(Error::from(error)),
    };
    let request = Request::new(alloc, justfile, scopes)?;
    let closure = match closure_within(alloc, &request, keys.as_slice(), wanted.no_deps) {
        Ok(closure) => closure,
        Err(error) => return Err(Error::from(error)),
    };
    match plan_of_closure(alloc, &request, wanted, closure) {
        Ok(planned) => Ok(planned),
        Err(error) => Err(error),
    }
}
