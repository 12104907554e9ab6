//! The dotenv pairs of a project.

ghost use Rattle.just_env.specs.Loads.{IsShellOf};
ghost use Rattle.just_cli_plan.specs.Pairs.{LoadsPairs, BeginsLoading, Runs};

use super::Wanted;
use just_env::load_modules;
use just_exec::Error;
use just_host_record::Host;
use just_lang_types::DotenvOf;
use just_lang_types::project::Justfile;
use just_path_text::{Environ, Seq};
use std::alloc::Global;

/// The dotenv pairs of the modules of a justfile, from files and from what commands print.
pub fn load_pairs<H: Host>(
    alloc: Global,
    host: &mut H,
    justfile: &Justfile,
    environ: &Environ,
    wanted: &Wanted,
) -> Result<Seq<DotenvOf>, Error>
    // The pairs are those that the settings of the modules and the words ask for, or the first refusal. The record gains the entries of the children that were
    // run to their end for them, misses among these, and the entry of the refused call; only these children may touch the files. They are those
    // that the commands of the modules start, in their order, want of memory too. One that is refused has the program of a module's shell.
    ensures loaded { Runs
        (LoadsPairs (H.told host.old).world wanted.now environ.now justfile.now)
        (BeginsLoading (H.told host.old).world wanted.now environ.now justfile.now)
        (IsShellOf wanted.now.flags justfile.now)
        (H.told host.old) (H.told host.new) result }
{
    match load_modules(
        alloc,
        host,
        &wanted.dotenv,
        &wanted.flags,
        environ,
        justfile,
    ) {
        Ok(pairs) => Ok(pairs),
        Err(error) => Err(Error::from(error)),
    }
}
