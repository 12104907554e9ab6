//! From the words to the task: the steps of a request, in their order.

ghost use Rattle.std.specs.Prelude.{◌≡◌, ◌++◌, true, false, [], List, None, map, option_map, IfOk, IfErr, MatchResult, Ok, Err, Option};
ghost use Rattle.std.specs.Int.NonZero.{non_zero_u64_get};
ghost use Rattle.just_host_record.specs.declared.entry.Entry.{Entry};
ghost use Rattle.just_host_record.specs.World.{World};
ghost use Rattle.just_cli_plan.specs.Own.{OrMemory};
ghost use Rattle.just_cli_plan.specs.Request.{outline_of};
ghost use Rattle.just_cli_texts.specs.Kinds.{kind_of, is_choice, is_new, reads_justfile};
ghost use Rattle.just_cli_texts.specs.declared.kind.Kind.TheVariants as kind;
ghost use Rattle.just_cli.specs.Asked.{AsksAlone, Responds, as_other, as_run, as_reply, as_choice};
ghost use Rattle.just_cli_children.specs.Faults.{entries_of};
ghost use Rattle.just_cli.specs.Preparing.{AreMisses, EndsWith, reply_of, as_chosen};
ghost use Rattle.just_cli.specs.Quiet.{AskQuiet};
ghost use Rattle.just_cli.specs.Tasks.{as_task, quiet_in, IsCommand, IsNoQuestion, IsTask, PerformsAsked, PreparesConfig, PreparesArguments, PreparesWords};

use super::Error;
use super::choose::choose_tried;
use super::commands::command_at;
use super::configured::{configure, read};
use super::given::{current_folder, environment, locate};
use super::init::find_free;
use super::replied::Replied;
use super::task::{Other, Task};
use super::tried::reply_tried;
use just_cli_texts::{
    alone, is_choice, is_new, is_placed, is_vectors, kind_of, reads_justfile, respond, words_of,
};
use just_cli_vectors::count_of;
use just_config::{Arguments, Config, Read};
use just_host::Host;
use just_path::Utf8PathBuf;
use just_path_text::{Environ, Seq};
use just_sched::Plan;
use just_search::Location;
use std::alloc::Global;
use std::num::NonZeroU64;

/// The path of a new justfile. The record gains the miss of the path, and the entry of the refused call.
fn new_alone<H: Host>(
    alloc: Global,
    environ: &Environ,
    config: &Config,
    host: &mut H,
) -> Result<Other, Error>
    ensures grew { (es : List Entry) × ((H.told host.new).entries ≡ (H.told host.old).entries ++ es)
        × MatchResult result (λ _. AreMisses es) (λ e. EndsWith [] e es) }
    ensures world { (H.told host.new).world ≡ (H.told host.old).world }
    ensures asked { IfOk result (λ x. AsksAlone kind.New (H.told host.old).world
        (record { config = config.now; environ = environ.now }) (as_other (Ok x))) }
    ensures refused { IfErr result (OrMemory (λ e. AsksAlone kind.New (H.told host.old).world
        (record { config = config.now; environ = environ.now }) (Err e))) }
    ensures found { IfOk result IsCommand }
{
    match find_free(alloc, host, config) {
        Ok(path) => Ok(Other::Init(path)),
        Err(error) => Err(error),
    }
}

/// The response to a request.
fn respond_alone(alloc: Global, environ: &Environ, config: &Config) -> Result<Other, Error>
    ensures asked { IfOk result (λ x. Responds
        (record { config = config.now; environ = environ.now }) (as_other (Ok x))) }
    ensures refused { IfErr result (OrMemory (λ e. Responds
        (record { config = config.now; environ = environ.now }) (Err e))) }
    ensures found { IfOk result IsCommand }
    ensures silent { IfErr result (λ e. entries_of e ≡ []) }
{
    match respond(alloc, environ, words_of(&config.subcommand)) {
        Ok(text) => Ok(Other::Show(alone(text))),
        Err(error) => Err(error),
    }
}

/// What a command asks for that reads nothing of the host: the response to a request, or the run of so many recipes.
fn answer_alone(alloc: Global, environ: &Environ, config: &Config) -> Result<Other, Error>
    requires alone { reads_justfile (kind_of config.now.subcommand) ≡ false }
    requires old { is_new (kind_of config.now.subcommand) ≡ false }
    ensures asked { IfOk result (λ x. (told : Option World) →
        AsksAlone (kind_of config.now.subcommand) told
        (record { config = config.now; environ = environ.now }) (as_other (Ok x))) }
    ensures refused { IfErr result (λ e. (told : Option World) → OrMemory (λ f.
        AsksAlone (kind_of config.now.subcommand) told
        (record { config = config.now; environ = environ.now }) (Err f)) e) }
    ensures found { IfOk result IsCommand }
    ensures silent { IfErr result (λ e. entries_of e ≡ []) }
{
    if is_vectors(kind_of(&config.subcommand)) {
        return Ok(Other::Vectors(count_of(words_of(&config.subcommand))));
    }
    match respond_alone(alloc, environ, config) {
        Ok(other) => Ok(other),
        Err(error) => Err(error),
    }
}

/// What a command asks for that reads no justfile. The record gains the miss of the path of a new justfile, and the entry of the refused call.
fn asked_alone<H: Host>(
    alloc: Global,
    environ: &Environ,
    config: &Config,
    host: &mut H,
) -> Result<Other, Error>
    requires alone { reads_justfile (kind_of config.now.subcommand) ≡ false }
    ensures grew { (es : List Entry) × ((H.told host.new).entries ≡ (H.told host.old).entries ++ es)
        × MatchResult result (λ _. AreMisses es) (λ e. EndsWith [] e es) }
    ensures world { (H.told host.new).world ≡ (H.told host.old).world }
    ensures asked { IfOk result (λ x. AsksAlone (kind_of config.now.subcommand)
        (H.told host.old).world (record { config = config.now; environ = environ.now })
        (as_other (Ok x))) }
    ensures refused { IfErr result (OrMemory (λ e. AsksAlone (kind_of config.now.subcommand)
        (H.told host.old).world (record { config = config.now; environ = environ.now })
        (Err e))) }
    ensures found { IfOk result IsCommand }
{
    if is_new(kind_of(&config.subcommand)) {
        return new_alone(alloc, environ, config, host);
    }
    match answer_alone(alloc, environ, config) {
        Ok(other) => Ok(other),
        Err(error) => Err(error),
    }
}

/// The task of a plan, which is run or only told.
fn task_of_plan(
    plan: Plan,
    jobs: Option<NonZeroU64>,
    messages: Seq<bool>,
    dry: bool,
    quiet: bool,
) -> Task
    ensures asked { as_task (Ok result)
        ≡ Ok (as_run dry (outline_of plan (option_map non_zero_u64_get jobs) messages)) }
    ensures quiet { quiet_in result ≡ quiet }
    ensures found { IsNoQuestion result }
{
    if dry {
        Task::Dry(plan, jobs, messages, quiet)
    } else {
        Task::Run(plan, jobs, messages, quiet)
    }
}

/// The task of a reply.
fn task_of(replied: Replied, dry: bool, quiet: bool) -> Task
    ensures asked { as_task (Ok result) ≡ as_reply dry (Ok (reply_of replied)) }
    ensures quiet { quiet_in result ≡ quiet }
    ensures found { IsNoQuestion result }
{
    match replied {
        Replied::List(printed) => Task::List(printed, quiet),
        Replied::Plan(plan, jobs, messages) => task_of_plan(plan, jobs, messages, dry, quiet),
    }
}

/// The task of the reply to words that are chosen; nothing is left to be done where none are.
fn task_of_choice(chosen: Option<Replied>, dry: bool, quiet: bool) -> Task
    ensures asked { as_task (Ok result) ≡ as_choice dry (as_chosen (Ok chosen)) }
    ensures quiet { quiet_in result ≡ quiet }
    ensures found { IsNoQuestion result }
{
    match chosen {
        Some(replied) => task_of(replied, dry, quiet),
        None => Task::Other(Other::Nothing, quiet),
    }
}

/// What is asked of the justfile in a place, and of those that are tried behind it. The record gains what asking them leaves.
fn asked_at<H: Host>(
    alloc: Global,
    environ: &Environ,
    config: &Config,
    location: Location,
    quiet: bool,
    made: &mut Vec<Utf8PathBuf>,
    host: &mut H,
) -> Result<Task, Error>
    requires reads { reads_justfile (kind_of config.now.subcommand) ≡ true }
    requires given { is_choice (kind_of config.now.subcommand) ≡ false }
    ensures asked { PerformsAsked
        (record { config = config.now; environ = environ.now; location = location })
        (H.told host.old) (H.told host.new) made.old.items made.new.items (as_task result) }
    ensures quiet { IfOk result (λ t. quiet_in t ≡ quiet) }
    ensures found { IfOk result IsNoQuestion }
{
    let kind = kind_of(&config.subcommand);
    if !is_placed(kind) {
        match reply_tried(alloc, environ, config, location, made, host) {
            Ok(replied) => return Ok(task_of(replied, config.dry_run, quiet)),
            Err(error) => return Err(error),
        }
    }
    let asked = command_at(alloc, environ, config, kind, &location, made, host);
    drop(location);
    match asked {
        Ok(other) => Ok(Task::Other(other, quiet)),
        Err(error) => Err(error),
    }
}

/// What is asked of the justfile in a place, and of those that are tried behind it, by words that are chosen or by others. The record gains what asking them
/// leaves.
fn asked_of<H: Host>(
    alloc: Global,
    environ: &Environ,
    config: Config,
    location: Location,
    quiet: bool,
    made: &mut Vec<Utf8PathBuf>,
    host: &mut H,
) -> Result<Task, Error>
    requires reads { reads_justfile (kind_of config.subcommand) ≡ true }
    ensures asked { PerformsAsked
        (record { config = config; environ = environ.now; location = location })
        (H.told host.old) (H.told host.new) made.old.items made.new.items (as_task result) }
    ensures quiet { IfOk result (λ t. quiet_in t ≡ quiet) }
    ensures found { IfOk result IsNoQuestion }
{
    if !is_choice(kind_of(&config.subcommand)) {
        match asked_at(alloc, environ, &config, location, quiet, made, host) {
            Ok(task) => return Ok(task),
            Err(error) => return Err(error),
        }
    }
    let dry = config.dry_run;
    match choose_tried(alloc, environ, config, location, made, host) {
        Ok(chosen) => Ok(task_of_choice(chosen, dry, quiet)),
        Err(error) => Err(error),
    }
}

/// What a configuration asks for. The record gains the entries of listings that were refused as the user's own justfile was looked for, and what asking the
/// justfile leaves.
fn asked_by<H: Host>(
    alloc: Global,
    environ: &Environ,
    config: Config,
    quiet: bool,
    made: &mut Vec<Utf8PathBuf>,
    host: &mut H,
) -> Result<Task, Error>
    ensures asked { PreparesConfig (record { config = config; environ = environ.now })
        (H.told host.old) (H.told host.new) made.old.items made.new.items (as_task result) }
    ensures quiet { IfOk result (λ t. quiet_in t ≡ quiet) }
    ensures found { IfOk result IsNoQuestion }
{
    if !reads_justfile(kind_of(&config.subcommand)) {
        match asked_alone(alloc, environ, &config, host) {
            Ok(other) => return Ok(Task::Other(other, quiet)),
            Err(error) => return Err(error),
        }
    }
    let location = match locate(alloc, host, &config) {
        Ok(location) => location,
        Err(error) => return Err(error),
    };
    match asked_of(alloc, environ, config, location, quiet, made, host) {
        Ok(task) => Ok(task),
        Err(error) => Err(error),
    }
}

/// What arguments ask for: a run, or what is no run.
fn serve<H: Host>(
    alloc: Global,
    arguments: Arguments,
    environ: &Environ,
    made: &mut Vec<Utf8PathBuf>,
    host: &mut H,
) -> Result<Task, Error>
    ensures asked { PreparesArguments (record { arguments = arguments; environ = environ.now })
        (H.told host.old) (H.told host.new) made.old.items made.new.items (as_task result) }
    ensures quiet { IfOk result (λ t. quiet_in t ≡ arguments.quiet) }
    ensures found { IfOk result IsNoQuestion }
{
    let quiet = arguments.quiet;
    let folder = match current_folder(host) {
        Ok(folder) => folder,
        Err(error) => {
            drop(arguments);
            return Err(error);
        }
    };
    let config = match configure(alloc, arguments, folder) {
        Ok(config) => config,
        Err(error) => return Err(error),
    };
    match asked_by(alloc, environ, config, quiet, made, host) {
        Ok(task) => Ok(task),
        Err(error) => Err(error),
    }
}

/// What the words ask for; or why they are refused, with whether they ask for quiet. The paths of temporary folders are put behind those in `made`: they are the
/// caller's to remove. The record gains the entries of listings that were refused as the user's own justfile was looked for, those of the temporary
/// folders, the misses of files that aren't there, and the entry of the refused call, where one was refused.
pub(crate) fn prepare<H: Host>(
    alloc: Global,
    words: &[&str],
    made: &mut Vec<Utf8PathBuf>,
    host: &mut H,
) -> Result<Task, (Error, bool)>
    ensures asked { IfOk result (IsTask (map (λ x. x.now) words.now)
        (H.told host.old) (H.told host.new) made.old.items made.new.items) }
    ensures refused { IfErr result (λ e. PreparesWords (map (λ x. x.now) words.now)
        (H.told host.old) (H.told host.new) made.old.items made.new.items (Err e.0)) }
    ensures quiet { IfErr result (λ e.
        AskQuiet (map (λ x. x.now) words.now) (H.told host.old).world e.1 e.0) }
{
    let environ = match environment(alloc, host) {
        Ok(environ) => environ,
        Err(error) => return Err((error, false)),
    };
    match read(alloc, words, &environ) {
        Ok(Read::Go(arguments)) => {
            let quiet = arguments.quiet;
            match serve(alloc, arguments, &environ, made, host) {
                Ok(task) => Ok(task),
                Err(error) => Err((error, quiet)),
            }
        }
        Ok(Read::Help) => Ok(Task::Other(Other::Help, false)),
        Ok(Read::Version) => Ok(Task::Other(Other::Version, false)),
        Err(error) => Err((error, false)),
    }
}
