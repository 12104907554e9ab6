//! The configuration that arguments give.
ghost use Rattle.std.specs.Prelude.{◌≡◌, ◌++◌, IfOk, IfErr, None};
ghost use Rattle.just_config.specs.Positional.{positional_of};
ghost use Rattle.just_config.specs.Config.{pairs_of, named_values, overrides_of, by_justfile, search_config_of, verbosity_of, refusal, config_with, config_of, IsRefusedBy};

use super::overrides::{add_named, add_pairs, overrides_of};
use super::refusal::later_refusal;
use super::{Arguments, ConfigError, Positional, SearchConfig, Subcommand, Verbosity};
use just_lang_types::Override;
use just_path::Utf8PathBuf;
use just_path_text::{NoMemory, Seq, Text};
use std::alloc::Global;
use std::num::NonZeroU64;

/// What a run is asked to do, and how: the fields of [`Arguments`], and what follows from them.
pub struct Config {
    /// Whether unknown recipes and modules are passed over.
    pub allow_missing: bool,
    /// Whether `--fmt` only compares.
    pub check: bool,
    /// Whether the arguments of the shell are cleared, and none is given behind that.
    pub clear_shell_args: bool,
    /// Whether words that name a module, or none, list it.
    pub default_list: bool,
    /// Whether nothing is run.
    pub dry_run: bool,
    /// Whether a recipe's doc is printed with its banner.
    pub explain: bool,
    /// Whether the global justfile is taken.
    pub global_justfile: bool,
    /// Whether `--list` lists modules too.
    pub list_submodules: bool,
    /// Whether `--list` leaves aliases out.
    pub no_aliases: bool,
    /// Whether the cache is left alone.
    pub no_cache: bool,
    /// Whether recipes are run without their dependencies.
    pub no_deps: bool,
    /// Whether no dotenv file is loaded.
    pub no_dotenv: bool,
    /// Whether only one recipe may be asked for.
    pub one: bool,
    /// Whether nothing is printed beside what recipes print.
    pub quiet: bool,
    /// Whether `--command` goes through the shell.
    pub shell_command: bool,
    /// Whether listings are in source order.
    pub unsorted: bool,
    /// Whether unstable features may be used.
    pub unstable: bool,
    /// How often more is to be printed, up to 255.
    pub verbose: u8,
    /// Whether all questions are answered by yes.
    pub yes: bool,
    /// It has no effect.
    pub complete_aliases: bool,
    /// It has no effect.
    pub highlight: bool,
    /// It has no effect.
    pub no_highlight: bool,
    /// How `--list` shows aliases: `left`, `right` or `separate`.
    pub alias_style: Option<Text>,
    /// The last folder in which a justfile is looked for.
    pub ceiling: Option<Text>,
    /// The command that chooses recipes.
    pub chooser: Option<Text>,
    /// The format of `--dump`: `just`.
    pub dump_format: Option<Text>,
    /// The format of `--evaluate`: `just` or `shell`.
    pub evaluate_format: Option<Text>,
    /// How bodies are indented: `tab`, or so many blanks.
    pub indentation: Option<Text>,
    /// How many bodies may be open at once.
    pub jobs: Option<NonZeroU64>,
    /// The path of the justfile; `-` for standard input.
    pub justfile: Option<Text>,
    /// What `--list` prints first.
    pub list_heading: Option<Text>,
    /// What `--list` prints before each line.
    pub list_prefix: Option<Text>,
    /// The shell that runs lines.
    pub shell: Option<Text>,
    /// The folder of temporary files.
    pub tempdir: Option<Text>,
    /// The folder in which the justfile is run.
    pub working_directory: Option<Text>,
    /// It has no effect.
    pub color: Option<Text>,
    /// It has no effect.
    pub command_color: Option<Text>,
    /// It has no effect.
    pub cygpath: Option<Text>,
    /// Commands whose output is read as dotenv texts.
    pub dotenv_command: Seq<Text>,
    /// Names of dotenv files.
    pub dotenv_filename: Seq<Text>,
    /// Paths of dotenv files.
    pub dotenv_path: Seq<Text>,
    /// The groups that are listed.
    pub group: Seq<Text>,
    /// The names under which a justfile is looked for.
    pub justfile_name: Seq<Text>,
    /// The shell's arguments.
    pub shell_arg: Seq<Text>,
    /// The words of `--set`: names and values by turns.
    pub set: Seq<Text>,
    /// The positional words behind overrides and search folder.
    pub arguments: Seq<Text>,
    /// What is done in place of a run.
    pub subcommand: Option<Subcommand>,
    /// How the justfile is found.
    pub search_config: SearchConfig,
    /// The values that the words give to variables; of several for one variable the last counts.
    pub overrides: Seq<Override>,
    /// How much is printed.
    pub verbosity: Verbosity,
    /// The folder in which the program was called.
    pub invocation_directory: Utf8PathBuf,
}

impl Drop for Config {
    fn drop(self) {
        let Config {
            allow_missing: _,
            check: _,
            clear_shell_args: _,
            default_list: _,
            dry_run: _,
            explain: _,
            global_justfile: _,
            list_submodules: _,
            no_aliases: _,
            no_cache: _,
            no_deps: _,
            no_dotenv: _,
            one: _,
            quiet: _,
            shell_command: _,
            unsorted: _,
            unstable: _,
            verbose: _,
            yes: _,
            complete_aliases: _,
            highlight: _,
            no_highlight: _,
            alias_style: _,
            ceiling: _,
            chooser: _,
            dump_format: _,
            evaluate_format: _,
            indentation: _,
            jobs: _,
            justfile: _,
            list_heading: _,
            list_prefix: _,
            shell: _,
            tempdir: _,
            working_directory: _,
            color: _,
            command_color: _,
            cygpath: _,
            dotenv_command: _,
            dotenv_filename: _,
            dotenv_path: _,
            group: _,
            justfile_name: _,
            shell_arg: _,
            set: _,
            arguments: _,
            subcommand: _,
            search_config: _,
            overrides: _,
            verbosity: _,
            invocation_directory: _,
        } = self;
    }
}

/// The path of a text, where there is one.
fn path_if_given(alloc: Global, text: &Option<Text>) -> Result<Option<Utf8PathBuf>, NoMemory>
    ensures { IfOk result (λ p. p ≡ text.now) }
{
    match text {
        Some(text) => Ok(Some(path(alloc, text)?)),
        None => Ok(None),
    }
}

/// The justfile and the working folder that options give.
fn by_justfile(
    alloc: Global,
    justfile: &Option<Text>,
    folder: &Option<Text>,
) -> Result<SearchConfig, NoMemory>
    ensures { IfOk result (λ s. s ≡ by_justfile justfile.now folder.now) }
{
    let Some(file) = justfile else {
        return Ok(SearchConfig::FromInvocationDirectory);
    };
    let folder = path_if_given(alloc, folder)?;
    if file.as_str() == "-" {
        return Ok(SearchConfig::StandardInput(folder));
    }
    let file = path(alloc, file)?;
    match folder {
        Some(folder) => Ok(SearchConfig::WithJustfileAndWorkingDirectory(file, folder)),
        None => Ok(SearchConfig::WithJustfile(file)),
    }
}

/// The path of a text.
fn path(alloc: Global, text: &Text) -> Result<Utf8PathBuf, NoMemory>
    ensures { IfOk result (λ p. p ≡ text.now) }
{
    Utf8PathBuf::from_str(alloc, text.as_str())
}

/// How the justfile is found: the search folder, where there is one, else what the options say.
fn search_config(
    alloc: Global,
    arguments: &Arguments,
    search_directory: &Option<Text>,
) -> Result<SearchConfig, NoMemory>
    ensures { IfOk result (λ s. s ≡ search_config_of arguments.now search_directory.now) }
{
    if let Some(folder) = search_directory {
        return Ok(SearchConfig::FromSearchDirectory(path(alloc, folder)?));
    }
    if arguments.global_justfile {
        return Ok(SearchConfig::GlobalJustfile);
    }
    by_justfile(alloc, &arguments.justfile, &arguments.working_directory)
}

/// How much is printed.
fn verbosity_of(arguments: &Arguments) -> Verbosity
    ensures { result ≡ verbosity_of arguments.now }
{
    if arguments.quiet {
        Verbosity::Quiet
    } else {
        Verbosity::from_flag_occurrences(arguments.verbose)
    }
}

/// The names and values of overrides: those of `--set`, then the positional ones.
fn named_values(
    alloc: Global,
    set: &[Text],
    positional: &[(Text, Text)],
) -> Result<Vec<(Text, Text)>, NoMemory>
    ensures { IfOk result (λ v. v.items ≡ pairs_of set.now ++ positional.now) }
{
    let mut named = Vec::new(alloc);
    add_pairs(&mut named, set)?;
    add_named(&mut named, positional)?;
    Ok(named)
}

/// A configuration with these fields of its own, and the fields of arguments under the same names.
macro_rules! config {
    ($arguments:ident, $($field:ident)*; $($own:ident: $value:expr,)*) => {
        Config {
            $($field: $arguments.$field,)*
            $($own: $value,)*
        }
    };
}

/// The configuration of arguments that nothing is wrong with.
#[rattlefmt::skip]
fn whole(
    arguments: Arguments,
    words: Seq<Text>,
    search_config: SearchConfig,
    overrides: Vec<Override>,
    invocation_directory: Utf8PathBuf,
) -> Config
    ensures { result ≡ config_with arguments words search_config overrides.items invocation_directory }
{
    let verbosity = verbosity_of(&arguments);
    config!(arguments,
        allow_missing check clear_shell_args default_list dry_run explain global_justfile list_submodules no_aliases no_cache no_deps
        no_dotenv one quiet shell_command unsorted unstable verbose yes complete_aliases highlight no_highlight alias_style ceiling
        chooser dump_format evaluate_format indentation jobs justfile list_heading list_prefix shell tempdir working_directory color
        command_color cygpath dotenv_command dotenv_filename dotenv_path group justfile_name shell_arg set subcommand;
        arguments: words,
        search_config: search_config,
        overrides: Seq::from(overrides),
        verbosity: verbosity,
        invocation_directory: invocation_directory,
    )
}

/// The arguments behind overrides and search folder, how the justfile is found, and the overrides; or the first refusal.
fn judged(
    alloc: Global,
    arguments: &Arguments,
) -> Result<(Seq<Text>, SearchConfig, Vec<Override>), ConfigError>
    ensures sound { IfOk result
        (λ f. (refusal arguments.now ≡ None)
        × (f.0 ≡ (positional_of arguments.now.arguments).arguments)
        × (f.1 ≡ search_config_of arguments.now
        (positional_of arguments.now.arguments).search_directory)
        × (f.2.items ≡ overrides_of (named_values arguments.now))) }
    ensures refused { IfErr result (IsRefusedBy arguments.now) }
{
    let positional = Positional::from_values(alloc, arguments.arguments.as_slice())?;
    let named = named_values(
        alloc,
        arguments.set.as_slice(),
        positional.overrides.as_slice(),
    )?;
    let overrides = match overrides_of(alloc, named.as_slice())? {
        Ok(overrides) => overrides,
        Err(path) => return Err(ConfigError::OverridePath { path }),
    };
    if let Some(error) = later_refusal(alloc, arguments, &positional, overrides.as_slice())? {
        return Err(error);
    }
    let search = search_config(alloc, arguments, &positional.search_directory)?;
    Ok((positional.into_arguments(), search, overrides))
}

impl Config {
    /// The configuration of arguments; or the first refusal, in the order of the errors.
    ///
    /// ```
    /// // of `--set a 1 x/y`: the override of `a`, a search from `x/`, the argument `y`
    /// ```
    pub fn from_arguments(
        alloc: Global,
        arguments: Arguments,
        invocation_directory: Utf8PathBuf,
    ) -> Result<Config, ConfigError>
        ensures config { IfOk result (λ c. (refusal arguments ≡ None) × (c ≡ config_of arguments invocation_directory)) }
        ensures refused { IfErr result (IsRefusedBy arguments) }
    {
        match judged(alloc, &arguments) {
            Ok((words, search, overrides)) => {
                Ok(whole(arguments, words, search, overrides, invocation_directory))
            }
            Err(error) => Err(error),
        }
    }
}
