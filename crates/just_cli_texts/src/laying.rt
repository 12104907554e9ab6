//! A project as commands print of it.

ghost use Rattle.std.specs.Prelude.{IfOk, IfErr, Ok, Err};
ghost use Rattle.just_lang.specs.Assembled.{IsSoundlyMadeOf};
ghost use Rattle.just_cli_plan.specs.Own.{OrMemory};
ghost use Rattle.just_cli_plan.specs.Projects.{IsEnding};
ghost use Rattle.just_cli_plan.specs.Request.{FindsProject};
ghost use Rattle.just_cli_texts.specs.Laid.{laid_by, FindsLaid};

use just_cli_plan::{Wanted, check_project, projects_end};
use just_exec::Error;
use just_lang::{LaidJustfile, assemble_laid};
use just_lang_types::Source;
use just_path_text::Environ;
use std::alloc::Global;

/// The justfile of the sources of a project, the first of which is its own, with their layout, where no unstable feature is used without leave.
pub fn laid_of_sources(
    alloc: Global,
    sources: &[Source],
    environ: &Environ,
    wanted: &Wanted,
) -> Result<LaidJustfile, Error>
    ensures laid { IfOk result (λ l. FindsLaid
        (record { wanted = wanted.now; environ = environ.now; sources = sources.now })
        (Ok (record { wanted = wanted.now; environ = environ.now; laid = laid_by l }))) }
    ensures ending { IfOk result (λ l. IsEnding l.justfile) }
    ensures sound { IfOk result (λ l. IsSoundlyMadeOf environ.now.pairs l.layout l.justfile) }
    ensures refused { IfErr result (OrMemory (λ e. FindsProject
        (record { wanted = wanted.now; environ = environ.now; sources = sources.now }) (Err e))) }
{
    let laid = match assemble_laid(alloc, sources, environ) {
        Ok(laid) => laid,
        Err(error) => return Err(Error::from(error)),
    };
    projects_end();
    match check_project(alloc, wanted.unstable, &laid.justfile) {
        Ok(()) => Ok(laid),
        Err(error) => {
            drop(laid);
            Err(error)
        }
    }
}
