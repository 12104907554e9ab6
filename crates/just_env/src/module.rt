//! The dotenv pairs of one module.

ghost use Rattle.std.specs.Prelude.{◌≡◌, [], Ok, IfErr};
ghost use Rattle.just_path.specs.Path.{text_of};
ghost use Rattle.just_exec_work.specs.Shells.{shell};
ghost use Rattle.just_env.specs.DotenvAnswers.{Answers, EndsBy, Gains, Runs, entries_of};
ghost use Rattle.just_env.specs.Commands.{BeginsCommands};
ghost use Rattle.just_env.specs.Loads.{BeginsOwn, FoundPairs, PrintedPairs, LoadsOwn, pairs_of_found, shell_program};

use super::ask::{Sources, commands_of, names_wanted, paths_given, sources_of};
use super::climb::find_files;
use super::command::run_commands;
use super::pairs::{Pairs, kept};
use super::{DotenvAsk, EnvError};
use just_exec_work::{RunFlags, shell};
use just_host_record::Host;
use just_lang_types::Settings;
use just_lang_types::project::Justfile;
use just_path::Utf8Path;
use just_path_text::{Environ, Seq, Text};
use std::alloc::Global;

/// What a module has of the pairs of its files. A file may be required.
fn pairs_of_found(
    alloc: Global,
    settings: &Settings,
    environ: &Environ,
    found: Option<Pairs>,
) -> Result<Pairs, EnvError>
    ensures pairs { Answers (λ r. r ≡ pairs_of_found settings.now environ.now.pairs (Ok found)) result }
    ensures unheard { IfErr result (λ e. entries_of [] e ≡ []) }
{
    match found {
        Some(pairs) => Ok(kept(alloc, settings.dotenv_override, environ, pairs)?),
        None => {
            if settings.dotenv_required {
                Err(EnvError::DotenvRequired)
            } else {
                Ok(Seq::new(alloc))
            }
        }
    }
}

/// The pairs of the files of a module in that folder, which are looked for.
fn load_found<H: Host>(
    alloc: Global,
    host: &mut H,
    ask: &DotenvAsk,
    environ: &Environ,
    folder: Utf8Path<'_>,
    settings: &Settings,
) -> Result<Pairs, EnvError>
    ensures loaded { Answers (λ r. FoundPairs (H.told host.old).world ask.now environ.now.pairs (text_of folder.entry) settings.now r) result }
    ensures gains { Gains (H.told host.old).entries (H.told host.new).entries result }
    ensures world { (H.told host.new).world ≡ (H.told host.old).world }
{
    let paths = paths_given(alloc, ask, settings)?;
    let names = names_wanted(alloc, ask, settings)?;
    match find_files(
        alloc,
        host,
        environ,
        paths.as_slice(),
        names.as_slice(),
        folder,
    ) {
        Ok(found) => pairs_of_found(alloc, settings, environ, found),
        Err(error) => Err(error),
    }
}

/// The pairs of the commands of a module, which are run in that folder.
fn load_printed<H: Host>(
    alloc: Global,
    host: &mut H,
    flags: &RunFlags,
    environ: &Environ,
    folder: Utf8Path<'_>,
    settings: &Settings,
    commands: &Seq<Text>,
) -> Result<Pairs, EnvError>
    ensures loaded { Runs
        (PrintedPairs (H.told host.old).world flags.now environ.now.pairs (text_of folder.entry)
        settings.now commands.now)
        (BeginsCommands environ.now.pairs (shell flags.now settings.now) (text_of folder.entry)
        (H.told host.old).world commands.now)
        (H.told host.old) (H.told host.new) result }
    ensures program { EndsBy (λ p. p ≡ (shell flags.now settings.now).command)
        (H.told host.new).entries result }
{
    let shell = shell(alloc, flags, settings)?;
    match run_commands(alloc, host, environ, &shell, folder, commands.as_slice()) {
        Ok(pairs) => {
            let kept = kept(alloc, settings.dotenv_override, environ, pairs)?;
            Ok(kept)
        }
        Err(error) => Err(error),
    }
}

/// The dotenv pairs of a module in a folder, without those of the modules around it: of the files that its settings and the words ask for, or of what
/// commands print there. A name that the environment has is left out, unless the module sets `dotenv-override`; of several pairs of one name the last
/// counts.
pub fn load_dotenv<H: Host>(
    alloc: Global,
    host: &mut H,
    ask: &DotenvAsk,
    flags: &RunFlags,
    environ: &Environ,
    folder: Utf8Path<'_>,
    justfile: &Justfile,
) -> Result<Pairs, EnvError>
    // The pairs are those that the module's settings and the words ask for, or the first refusal. The record gains the entries of the children that
    // were run to their end for them, misses among these, and the entry of the refused call; only these children may touch the files.
    ensures loaded { Runs
        (LoadsOwn (H.told host.old).world ask.now flags.now environ.now.pairs (text_of folder.entry)
        justfile.now)
        (BeginsOwn (H.told host.old).world ask.now flags.now environ.now.pairs
        (text_of folder.entry) justfile.now)
        (H.told host.old) (H.told host.new) result }
    // The entry of a refused child names the module's shell.
    ensures program { EndsBy (λ p. p ≡ shell_program flags.now justfile.now)
        (H.told host.new).entries result }
{
    let commands = commands_of(alloc, ask, justfile)?;
    match sources_of(ask, justfile, &commands) {
        Ok(Sources::Nothing) => Ok(Seq::new(alloc)),
        Ok(Sources::Commands) => load_printed(
            alloc,
            host,
            flags,
            environ,
            folder,
            &justfile.settings,
            &commands,
        ),
        Ok(Sources::Files) => load_found(alloc, host, ask, environ, folder, &justfile.settings),
        Err(error) => Err(error),
    }
}
