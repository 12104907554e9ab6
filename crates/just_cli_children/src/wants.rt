//! What a configuration asks of a justfile.

ghost use Rattle.std.specs.Prelude.{◌≡◌, ◌||◌, if◌then◌else◌, Some, None, option_map, IfOk};
ghost use Rattle.just_path.specs.Path.{text_of};
ghost use Rattle.just_search.specs.Finding.{given_path};
ghost use Rattle.just_cli_children.specs.Configs.{is_any, is_summary, allows_unstable, dotenv_of, flags_of, cache_beside, wanted_of};

use just_cache::Cache;
use just_cli_plan::Wanted;
use just_config::{Config, Subcommand};
use just_env::DotenvAsk;
use just_exec_work::RunFlags;
use just_lang_types::Override;
use just_path::{Utf8Path, Utf8PathBuf};
use just_path_text::{NoMemory, Seq, Text, TryClone};
use just_search::given_path;
use std::alloc::Global;

/// Whether there is a text.
pub fn is_any(texts: &Seq<Text>) -> bool
    ensures { result ≡ is_any texts.now }
{
    match texts.as_slice() {
        [] => false,
        [_, ..] => true,
    }
}

/// Whether a command prints the paths of recipes.
fn is_summary(command: &Option<Subcommand>) -> bool
    ensures { result ≡ is_summary command.now }
{
    matches!(command, Some(Subcommand::Summary(_)))
}

/// Whether unstable features are allowed: by the words, or for the paths of recipes alone.
fn allows_unstable(config: &Config) -> bool
    ensures { result ≡ allows_unstable config.now }
{
    config.unstable || is_summary(&config.subcommand)
}

/// The arguments of the shell, where some are given or all are cleared.
fn shell_args(clear: bool, given: Seq<Text>) -> Option<Seq<Text>>
    ensures { result ≡ (if clear || is_any given then Some given else None) }
{
    if clear || is_any(&given) {
        Some(given)
    } else {
        None
    }
}

/// The folder that the words give for temporary ones: under the folder in which the program was called, and clean.
fn tempdir_of(alloc: Global, config: &Config) -> Result<Option<Utf8PathBuf>, NoMemory>
    ensures { IfOk result (λ p. p ≡ option_map (given_path config.now) config.now.tempdir) }
{
    match &config.tempdir {
        Some(folder) => {
            let folder = Utf8PathBuf::from_str(alloc, folder.as_str())?;
            Ok(Some(given_path(alloc, config, &folder)?))
        }
        None => Ok(None),
    }
}

/// Which dotenv files a configuration asks for.
fn dotenv_ask(config: &Config) -> Result<DotenvAsk, NoMemory>
    ensures { IfOk result (λ a. a ≡ dotenv_of config.now) }
{
    let commands = config.dotenv_command.try_clone()?;
    let filenames = config.dotenv_filename.try_clone()?;
    let paths = config.dotenv_path.try_clone()?;
    Ok(DotenvAsk {
        commands,
        filenames,
        paths,
        load: !config.no_dotenv,
        dry_run: config.dry_run,
    })
}

/// How a configuration runs recipes in that folder.
fn run_flags(alloc: Global, config: &Config, folder: &Utf8PathBuf) -> Result<RunFlags, NoMemory>
    ensures { IfOk result (λ f. f ≡ flags_of config.now folder.now) }
{
    let shell = config.shell.try_clone()?;
    let arguments = config.shell_arg.try_clone()?;
    let tempdir = tempdir_of(alloc, config)?;
    let folder = folder.try_clone()?;
    Ok(RunFlags {
        shell,
        shell_args: shell_args(config.clear_shell_args, arguments),
        quiet: config.verbosity.quiet(),
        loquacious: config.verbosity.loquacious(),
        dry_run: config.dry_run,
        no_cache: config.no_cache,
        yes: config.yes,
        explain: config.explain,
        tempdir,
        folder,
    })
}

/// A copy of what the words give to a variable.
fn copied(given: &Override) -> Result<Override, NoMemory>
    ensures { IfOk result (λ copy. copy ≡ given.now) }
{
    let module = given.module.try_clone()?;
    let name = given.name.try_clone()?;
    let value = given.value.try_clone()?;
    Ok(Override {
        module,
        name,
        value,
    })
}

/// A copy of what the words give to variables.
fn all_copied(alloc: Global, overrides: &[Override]) -> Result<Seq<Override>, NoMemory>
    ensures { IfOk result (λ copies. copies ≡ overrides.now) }
{
    let mut copies = Vec::new(alloc);
    for given in overrides {
        let copy = copied(given)?;
        copies.push(copy)?;
    }
    Ok(Seq::from(copies))
}

/// The folder of the cache of a justfile's recipes.
fn cache_beside(alloc: Global, file: Utf8Path<'_>) -> Result<Utf8PathBuf, NoMemory>
    ensures { IfOk result (λ p. p ≡ cache_beside (text_of file.entry)) }
{
    match file.parent() {
        Some(folder) => Cache::dir(alloc, folder),
        None => Cache::dir(alloc, file),
    }
}

/// What a configuration asks of the justfile in a file that is run in that folder.
pub fn wanted(
    alloc: Global,
    config: &Config,
    folder: &Utf8PathBuf,
    file: Utf8Path<'_>,
) -> Result<Wanted, NoMemory>
    ensures { IfOk result (λ w. w ≡ wanted_of config.now folder.now (cache_beside (text_of file.entry))) }
{
    let words = config.arguments.try_clone()?;
    let cache_folder = cache_beside(alloc, file)?;
    let overrides = all_copied(alloc, config.overrides.as_slice())?;
    let dotenv = dotenv_ask(config)?;
    let flags = run_flags(alloc, config, folder)?;
    Ok(Wanted {
        words,
        overrides,
        one: config.one,
        no_deps: config.no_deps,
        dotenv,
        unstable: allows_unstable(config),
        jobs: config.jobs,
        cache_folder,
        flags,
    })
}
