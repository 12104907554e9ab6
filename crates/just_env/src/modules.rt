//! The dotenv pairs of all modules of a project.

ghost use Rattle.std.specs.Prelude.{◌≡◌, ◌++◌, ◌∷◌, [], List, map, reverse, length, IfOk, OnOk, OnErr};
ghost use Rattle.just_env.specs.DotenvAnswers.{EndsBy, Runs};
ghost use Rattle.just_env.specs.Loads.{LoadsOwn, LoadsProject, BeginsOwn, BeginsProject, following, folder_of, shell_program, IsShellOf};
ghost use Rattle.just_env.specs.Turns.{LoadsNext, seen};

use super::module::load_dotenv;
use super::pairs::{Pairs, behind};
use super::{DotenvAsk, EnvError};
use just_exec_work::{RunFlags, module_folder};
use just_host_record::Host;
use just_lang_types::DotenvOf;
use just_lang_types::project::Justfile;
use just_path_text::{Environ, NoMemory, Seq, TryClone};
use std::alloc::Global;

/// The dotenv pairs of a module of a project that is run in a working folder, without those of the modules around it.
fn load_own<H: Host>(
    alloc: Global,
    host: &mut H,
    ask: &DotenvAsk,
    flags: &RunFlags,
    environ: &Environ,
    justfile: &Justfile,
) -> Result<Pairs, EnvError>
    ensures loaded { Runs
        (LoadsOwn (H.told host.old).world ask.now flags.now environ.now.pairs
        (folder_of flags.now.folder justfile.now) justfile.now)
        (BeginsOwn (H.told host.old).world ask.now flags.now environ.now.pairs
        (folder_of flags.now.folder justfile.now) justfile.now)
        (H.told host.old) (H.told host.new) result }
    ensures program { EndsBy (λ p. p ≡ shell_program flags.now justfile.now)
        (H.told host.new).entries result }
{
    let folder = module_folder(
        flags.folder.as_path(),
        &justfile.module_path,
        justfile.source.as_path(),
    );
    load_dotenv(alloc, host, ask, flags, environ, folder, justfile)
}

/// A module, and the pairs that it follows.
type Pending<'j> = (&'j Justfile, Pairs);

/// Puts modules that follow the same pairs on a stack, the first one on top.
fn push_modules<'j>(
    pending: &mut Vec<Pending<'j>>,
    modules: &'j [Justfile],
    before: &Pairs,
) -> Result<(), NoMemory>
    ensures { OnOk result (seen pending.new.items ≡ seen pending.old.items ++ reverse (following before.now modules.now)) }
{
    let mut left = modules.len();
    'modules: while left > 0 {
        left -= 1;
        let one = (&modules[left], before.try_clone()?);
        pending.push(one)?;
    }
    Ok(())
}

/// The pairs of a module, behind those that it follows; the modules within it are put on the stack.
fn load_next<'j, H: Host>(
    alloc: Global,
    host: &mut H,
    ask: &DotenvAsk,
    flags: &RunFlags,
    environ: &Environ,
    next: Pending<'j>,
    pending: &mut Vec<Pending<'j>>,
) -> Result<DotenvOf, EnvError>
    ensures loaded { Runs
        (LoadsNext (H.told host.old).world ask.now flags.now environ.now.pairs next.entry.0.now
        next.entry.1 (seen pending.old.items) (seen pending.new.items))
        (BeginsOwn (H.told host.old).world ask.now flags.now environ.now.pairs
        (folder_of flags.now.folder next.entry.0.now) next.entry.0.now)
        (H.told host.old) (H.told host.new) result }
    ensures program { EndsBy (λ p. p ≡ shell_program flags.now next.entry.0.now)
        (H.told host.new).entries result }
{
    let (justfile, before) = next;
    let own = match load_own(alloc, host, ask, flags, environ, justfile) {
        Ok(own) => own,
        Err(error) => return Err(error),
    };
    let path = justfile.module_path.try_clone()?;
    let pairs = behind(before, own)?;
    push_modules(pending, justfile.modules.as_slice(), &pairs)?;
    Ok(DotenvOf {
        module: path,
        pairs,
    })
}

/// The dotenv pairs of each module of a project: its own behind those of the module around it, so that they count
/// before these. A module comes before those within it, in the order of the sources; the first that is refused refuses all.
pub fn load_modules<H: Host>(
    alloc: Global,
    host: &mut H,
    ask: &DotenvAsk,
    flags: &RunFlags,
    environ: &Environ,
    justfile: &Justfile,
) -> Result<Seq<DotenvOf>, EnvError>
    // The pairs are those that the settings of the modules and the words ask for, or the first refusal. The record gains the entries of the children
    // that were run to their end for them, misses among these, and the entry of the refused call; only these children may touch the files.
    ensures loaded { Runs
        (LoadsProject (H.told host.old).world ask.now flags.now environ.now.pairs justfile.now)
        (BeginsProject (H.told host.old).world ask.now flags.now environ.now.pairs justfile.now)
        (H.told host.old) (H.told host.new) result }
    // The entry of a refused child names the shell of one of the modules.
    ensures program { EndsBy (IsShellOf flags.now justfile.now) (H.told host.new).entries result }
{
    let mut loaded = Vec::new(alloc);
    let mut pending: Vec<Pending<'_>> = Vec::new(alloc);
    pending.push((justfile, Seq::new(alloc)))?;
    'modules: while let Some(next) = pending.pop() {
        match load_next(alloc, host, ask, flags, environ, next, &mut pending) {
            Ok(one) => loaded.push(one)?,
            Err(error) => return Err(error),
        }
    }
    Ok(Seq::from(loaded))
}
