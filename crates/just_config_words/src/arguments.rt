//! What the words of the command line and the variables give, option by option.
ghost use Rattle.std.specs.Prelude.{◌≡◌, ◌&&◌, not, codes, flat_map, IfOk, Ok, true};
ghost use Rattle.std.specs.Option.{option_map};
ghost use Rattle.std.specs.Int.NonZero.{non_zero_u64_get};
ghost use Rattle.just_config_words.specs.Occurrences.{is_given, value_in, values_in, behind};
ghost use Rattle.just_config_words.specs.Arguments.{AreArguments, comma, verbosity, jobs_in};
ghost use Rattle.just_config_words.specs.Cuts.{parts};

use super::cut::add_parts;
use super::occurrence::{behind, is_given, times, value_in, values_in};
use super::subcommand::subcommand_in;
use super::{Occurrence, Subcommand};
use just_lang_read::decimal;
use just_path_text::{NoMemory, Seq, Text};
use std::alloc::Global;
use std::num::NonZeroU64;

/// What the words of the command line and the variables give: a field for each option, under its first long name.
#[derive(Drop)]
pub struct Arguments {
    /// Whether unknown recipes and modules are passed over.
    pub allow_missing: bool,
    /// Whether `--fmt` only compares.
    pub check: bool,
    /// Whether the arguments of the shell are cleared, and none is given behind that.
    pub clear_shell_args: bool,
    /// Whether words that name a module, or none, list it.
    pub default_list: bool,
    /// Whether nothing is run.
    pub dry_run: bool,
    /// Whether a recipe's doc is printed with its banner.
    pub explain: bool,
    /// Whether the global justfile is taken.
    pub global_justfile: bool,
    /// Whether `--list` lists modules too.
    pub list_submodules: bool,
    /// Whether `--list` leaves aliases out.
    pub no_aliases: bool,
    /// Whether the cache is left alone.
    pub no_cache: bool,
    /// Whether recipes are run without their dependencies.
    pub no_deps: bool,
    /// Whether no dotenv file is loaded.
    pub no_dotenv: bool,
    /// Whether only one recipe may be asked for.
    pub one: bool,
    /// Whether nothing is printed beside what recipes print.
    pub quiet: bool,
    /// Whether `--command` goes through the shell.
    pub shell_command: bool,
    /// Whether listings are in source order.
    pub unsorted: bool,
    /// Whether unstable features may be used.
    pub unstable: bool,
    /// How often more is to be printed, up to 255.
    pub verbose: u8,
    /// Whether all questions are answered by yes.
    pub yes: bool,
    /// It has no effect.
    pub complete_aliases: bool,
    /// It has no effect.
    pub highlight: bool,
    /// It has no effect.
    pub no_highlight: bool,
    /// How `--list` shows aliases: `left`, `right` or `separate`.
    pub alias_style: Option<Text>,
    /// The last folder in which a justfile is looked for.
    pub ceiling: Option<Text>,
    /// The command that chooses recipes.
    pub chooser: Option<Text>,
    /// The format of `--dump`: `just`.
    pub dump_format: Option<Text>,
    /// The format of `--evaluate`: `just` or `shell`.
    pub evaluate_format: Option<Text>,
    /// How bodies are indented: `tab`, or so many blanks.
    pub indentation: Option<Text>,
    /// How many bodies may be open at once.
    pub jobs: Option<NonZeroU64>,
    /// The path of the justfile; `-` for standard input.
    pub justfile: Option<Text>,
    /// What `--list` prints first.
    pub list_heading: Option<Text>,
    /// What `--list` prints before each line.
    pub list_prefix: Option<Text>,
    /// The shell that runs lines.
    pub shell: Option<Text>,
    /// The folder of temporary files.
    pub tempdir: Option<Text>,
    /// The folder in which the justfile is run.
    pub working_directory: Option<Text>,
    /// It has no effect.
    pub color: Option<Text>,
    /// It has no effect.
    pub command_color: Option<Text>,
    /// It has no effect.
    pub cygpath: Option<Text>,
    /// Commands whose output is read as dotenv texts.
    pub dotenv_command: Seq<Text>,
    /// Names of dotenv files.
    pub dotenv_filename: Seq<Text>,
    /// Paths of dotenv files.
    pub dotenv_path: Seq<Text>,
    /// The groups that are listed.
    pub group: Seq<Text>,
    /// The names under which a justfile is looked for.
    pub justfile_name: Seq<Text>,
    /// The shell's arguments.
    pub shell_arg: Seq<Text>,
    /// The words of `--set`: names and values by turns.
    pub set: Seq<Text>,
    /// The positional words.
    pub arguments: Seq<Text>,
    /// What is done in place of a run.
    pub subcommand: Option<Subcommand>,
}

/// How often `--verbose` is given, up to 255; or the number that its variable gives.
fn verbosity(filled: &[Occurrence]) -> u8
    ensures { result ≡ verbosity filled.now }
{
    match value_in("verbose", filled) {
        Some(text) => match decimal(text) {
            Some(number) => u8::try_from(number).unwrap_or(u8::MAX),
            None => 0,
        },
        None => times("verbose", filled),
    }
}

/// Whether `--clear-shell-args` is given and no `--shell-arg` behind it.
fn clears_shell_args(filled: &[Occurrence]) -> bool
    ensures { result ≡ (is_given (codes "clear-shell-args") filled.now && not (is_given (codes "shell-arg") (behind (codes "clear-shell-args") filled.now))) }
{
    is_given("clear-shell-args", filled)
        && !is_given("shell-arg", behind("clear-shell-args", filled))
}

/// The number of `--jobs`.
fn jobs(filled: &[Occurrence]) -> Option<NonZeroU64>
    ensures { option_map non_zero_u64_get result ≡ jobs_in (value_in (codes "jobs") filled.now) }
{
    NonZeroU64::new(decimal(value_in("jobs", filled)?)?)
}

/// The names under which a justfile is looked for.
fn names(alloc: Global, filled: &[Occurrence]) -> Result<Seq<Text>, NoMemory>
    ensures { IfOk result
        (λ v. v ≡ flat_map (parts comma) (values_in (codes "justfile-name") filled.now)) }
{
    let values = values_in(alloc, "justfile-name", filled)?;
    let mut names = Vec::new(alloc);
    'values: for value in values.as_slice() {
        add_parts(alloc, &mut names, value.as_str(), ',')?;
    }
    Ok(Seq::from(names))
}

/// A copy of the option's value. Where memory is wanting it is none, and `is_whole` turns false: who asks for many values
/// needs no way out behind each.
fn copied(alloc: Global, name: &str, filled: &[Occurrence], is_whole: &mut bool) -> Option<Text>
    ensures { (is_whole.new ≡ true)
        → (is_whole.old ≡ true) × (result ≡ value_in name.now filled.now) }
{
    match Text::from_str(alloc, value_in(name, filled)?) {
        Ok(text) => Some(text),
        Err(NoMemory) => {
            *is_whole = false;
            None
        }
    }
}

/// The texts that were made. Where memory was wanting they are none, and `is_whole` turns false.
fn made(alloc: Global, texts: Result<Seq<Text>, NoMemory>, is_whole: &mut bool) -> Seq<Text>
    ensures { (is_whole.new ≡ true) → (is_whole.old ≡ true) × (texts ≡ Ok result) }
{
    match texts {
        Ok(texts) => texts,
        Err(NoMemory) => {
            *is_whole = false;
            Seq::from(Vec::new(alloc))
        }
    }
}

impl Arguments {
    /// What the options that are given or filled in say, with these positional words.
    pub(crate) fn new(
        alloc: Global,
        filled: &[Occurrence],
        positional: Seq<Text>,
    ) -> Result<Arguments, NoMemory>
        ensures { IfOk result (AreArguments filled.now positional) }
    {
        let subcommand = subcommand_in(filled)?;
        let mut is_whole = true;
        let arguments = Arguments {
            allow_missing: is_given("allow-missing", filled),
            check: is_given("check", filled),
            clear_shell_args: clears_shell_args(filled),
            default_list: is_given("default-list", filled),
            dry_run: is_given("dry-run", filled),
            explain: is_given("explain", filled),
            global_justfile: is_given("global-justfile", filled),
            list_submodules: is_given("list-submodules", filled),
            no_aliases: is_given("no-aliases", filled),
            no_cache: is_given("no-cache", filled),
            no_deps: is_given("no-deps", filled),
            no_dotenv: is_given("no-dotenv", filled),
            one: is_given("one", filled),
            quiet: is_given("quiet", filled),
            shell_command: is_given("shell-command", filled),
            unsorted: is_given("unsorted", filled),
            unstable: is_given("unstable", filled),
            verbose: verbosity(filled),
            yes: is_given("yes", filled),
            complete_aliases: is_given("complete-aliases", filled),
            highlight: is_given("highlight", filled),
            no_highlight: is_given("no-highlight", filled),
            alias_style: copied(alloc, "alias-style", filled, &mut is_whole),
            ceiling: copied(alloc, "ceiling", filled, &mut is_whole),
            chooser: copied(alloc, "chooser", filled, &mut is_whole),
            dump_format: copied(alloc, "dump-format", filled, &mut is_whole),
            evaluate_format: copied(alloc, "evaluate-format", filled, &mut is_whole),
            indentation: copied(alloc, "indentation", filled, &mut is_whole),
            jobs: jobs(filled),
            justfile: copied(alloc, "justfile", filled, &mut is_whole),
            list_heading: copied(alloc, "list-heading", filled, &mut is_whole),
            list_prefix: copied(alloc, "list-prefix", filled, &mut is_whole),
            shell: copied(alloc, "shell", filled, &mut is_whole),
            tempdir: copied(alloc, "tempdir", filled, &mut is_whole),
            working_directory: copied(alloc, "working-directory", filled, &mut is_whole),
            color: copied(alloc, "color", filled, &mut is_whole),
            command_color: copied(alloc, "command-color", filled, &mut is_whole),
            cygpath: copied(alloc, "cygpath", filled, &mut is_whole),
            dotenv_command: made(
                alloc,
                values_in(alloc, "dotenv-command", filled),
                &mut is_whole,
            ),
            dotenv_filename: made(
                alloc,
                values_in(alloc, "dotenv-filename", filled),
                &mut is_whole,
            ),
            dotenv_path: made(
                alloc,
                values_in(alloc, "dotenv-path", filled),
                &mut is_whole,
            ),
            group: made(alloc, values_in(alloc, "group", filled), &mut is_whole),
            justfile_name: made(alloc, names(alloc, filled), &mut is_whole),
            shell_arg: made(
                alloc,
                values_in(alloc, "shell-arg", behind("clear-shell-args", filled)),
                &mut is_whole,
            ),
            set: made(alloc, values_in(alloc, "set", filled), &mut is_whole),
            arguments: positional,
            subcommand,
        };
        if is_whole {
            Ok(arguments)
        } else {
            drop(arguments);
            Err(NoMemory)
        }
    }
}
