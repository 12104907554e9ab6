//! From the sources of a project to the plan of a run.

ghost use Rattle.std.specs.Prelude.{◌≡◌, ◌∷◌, [], List, map, None, Some, option_map, Ok, Err, IfOk, IfErr};
ghost use Rattle.std.specs.Int.NonZero.{non_zero_u64_get};
ghost use Rattle.just_lang_types.specs.declared.unstable_feature.UnstableFeature.{UnstableFeature as Feature};
ghost use Rattle.just_lang_types.specs.declared.project.Justfile.{Justfile};
ghost use Rattle.just_lang_types.specs.declared.project.LangError.{LangError};
ghost use Rattle.just_lang_types.specs.Modules.{AreModules};
ghost use Rattle.just_eval.specs.Evaluations.{IsEvaluation};
ghost use Rattle.just_exec.specs.Refusals.{error_of_lang};
ghost use Rattle.just_exec.specs.declared.error.Error.TheVariants as error;
ghost use Rattle.just_cli_plan.specs.Own.{OrMemory};
ghost use Rattle.just_cli_plan.specs.Features.{unstable_feature as feature_used};
ghost use Rattle.just_cli_plan.specs.Projects.{IsEnding};
ghost use Rattle.just_cli_plan.specs.Request.{outline_of, FindsProject, PlansProject};

use super::Wanted;
use super::features::unstable_feature;
use super::keys::plan_of_keys;
use crate::projects_end;
use just_eval::evaluate;
use just_exec::Error;
use just_lang::assemble;
use just_lang_types::project::Justfile;
use just_lang_types::{DotenvOf, Scopes, Source, all_modules};
use just_path_text::{Environ, Seq};
use just_sched_history::Plan;
use std::alloc::Global;

/// Refuses an unstable feature that a module uses and that neither it nor the words allow.
fn check_features(allowed: bool, modules: &[&Justfile]) -> Result<(), Error>
    ensures stable { IfOk result (λ _. feature_used allowed (map (λ m. m.now) modules.now) ≡ None) }
    ensures refused { IfErr result (λ e. (u : Feature) × (feature_used allowed (map (λ m. m.now) modules.now) ≡ Some u) × (e ≡ error.UnstableFeature u)) }
{
    match unstable_feature(allowed, modules) {
        Some(feature) => Err(Error::UnstableFeature(feature)),
        None => Ok(()),
    }
}

/// Refuses an unstable feature that a module of a project uses and that neither it nor the words allow.
pub fn check_project(alloc: Global, allowed: bool, justfile: &Justfile) -> Result<(), Error>
    ensures stable { IfOk result (λ _. (modules : List Justfile) → AreModules (justfile.now ∷ []) modules → feature_used allowed modules ≡ None) }
    ensures refused { IfErr result (OrMemory (λ e. (modules : List Justfile) × AreModules (justfile.now ∷ []) modules × (u : Feature) × (feature_used allowed modules ≡ Some u) × (e ≡ error.UnstableFeature u))) }
{
    let modules = all_modules(alloc, justfile)?;
    match check_features(allowed, modules.as_slice()) {
        Ok(()) => Ok(()),
        Err(error) => Err(error),
    }
}

/// The values of a project's variables, whose modules have these dotenv pairs.
pub fn scopes_of(
    alloc: Global,
    justfile: &Justfile,
    dotenv: &[DotenvOf],
    environ: &Environ,
    wanted: &Wanted,
) -> Result<Scopes, Error>
    requires { IsEnding justfile.now }
    ensures scopes { IfOk result (λ s. (modules : List Justfile) → AreModules (justfile.now ∷ []) modules → IsEvaluation modules dotenv.now environ.now wanted.now.overrides (Ok s)) }
    ensures refused { IfErr result (OrMemory (λ e. (l : LangError) × ((modules : List Justfile) → AreModules (justfile.now ∷ []) modules → IsEvaluation modules dotenv.now environ.now wanted.now.overrides (Err l)) × (e ≡ error_of_lang l))) }
{
    match evaluate(
        alloc,
        justfile,
        dotenv,
        environ,
        wanted.overrides.as_slice(),
    ) {
        Ok(scopes) => Ok(scopes),
        Err(error) => Err(Error::from(error)),
    }
}

/// The justfile of the sources of a project, the first of which is its own, where no unstable feature is used without leave.
pub fn project_of_sources(
    alloc: Global,
    sources: &[Source],
    environ: &Environ,
    wanted: &Wanted,
) -> Result<Justfile, Error>
    ensures project { IfOk result (λ j. (modules : List Justfile) → AreModules (j ∷ []) modules → FindsProject (record { wanted = wanted.now; environ = environ.now; sources = sources.now }) (Ok (record { wanted = wanted.now; environ = environ.now; justfile = j; modules = modules }))) }
    ensures ending { IfOk result IsEnding }
    ensures refused { IfErr result (OrMemory (λ e. FindsProject (record { wanted = wanted.now; environ = environ.now; sources = sources.now }) (Err e))) }
{
    let justfile = match assemble(alloc, sources, environ) {
        Ok(justfile) => justfile,
        Err(error) => return Err(Error::from(error)),
    };
    projects_end();
    match check_project(alloc, wanted.unstable, &justfile) {
        Ok(()) => Ok(justfile),
        Err(error) => {
            drop(justfile);
            Err(error)
        }
    }
}

/// The plan that is asked of a justfile whose modules have these dotenv pairs, with of each node whether the message of its exit code is told.
pub fn plan_of_project(
    alloc: Global,
    justfile: &Justfile,
    dotenv: &[DotenvOf],
    environ: &Environ,
    wanted: &Wanted,
) -> Result<(Plan, Seq<bool>), Error>
    requires { IsEnding justfile.now }
    ensures plan { IfOk result (λ p. (modules : List Justfile) → AreModules (justfile.now ∷ []) modules → PlansProject (record { wanted = wanted.now; environ = environ.now; justfile = justfile.now; modules = modules; dotenv = dotenv.now }) (Ok (outline_of p.0 (option_map non_zero_u64_get wanted.now.jobs) p.1))) }
    ensures refused { IfErr result (OrMemory (λ e. (modules : List Justfile) → AreModules (justfile.now ∷ []) modules → PlansProject (record { wanted = wanted.now; environ = environ.now; justfile = justfile.now; modules = modules; dotenv = dotenv.now }) (Err e))) }
{
    let scopes = match scopes_of(alloc, justfile, dotenv, environ, wanted) {
        Ok(scopes) => scopes,
        Err(error) => return Err(error),
    };
    match plan_of_keys(alloc, justfile, &scopes, wanted) {
        Ok(planned) => Ok(planned),
        Err(error) => Err(error),
    }
}
