//! What commands ask of the justfile in a place.

ghost use Rattle.std.specs.Prelude.{ℕ, true, ◌≡◌, ◌++◌, ◌∷◌, [], List, Result, Ok, Err, IfOk, IfErr, MatchResult};
ghost use Rattle.just_path.specs.Path.{text_of};
ghost use Rattle.just_host_record.specs.declared.entry.Entry.{Entry};
ghost use Rattle.just_lang_types.specs.declared.project.Justfile.{Justfile};
ghost use Rattle.just_lang_types.specs.Modules.{AreModules};
ghost use Rattle.just_lang_types.specs.declared.source.Source.{Source as SourceRead};
ghost use Rattle.just_env.specs.declared.search_error.SearchError.{SearchError};
ghost use Rattle.just_search_load.specs.Loads.{source_at};
ghost use Rattle.just_search_load.specs.Shown.{ReadsText};
ghost use Rattle.just_search_load.specs.Shows.{sources_of};
ghost use Rattle.just_exec.specs.Refusals.{error_of_search};
ghost use Rattle.just_cli_plan.specs.Own.{OrMemory};
ghost use Rattle.just_cli_plan.specs.Projects.{IsEnding};
ghost use Rattle.just_cli_plan.specs.Request.{EvaluatesVariables};
ghost use Rattle.just_cli_plan.specs.Steps.{Then};
ghost use Rattle.just_cli_texts.specs.Kinds.{kind_of, is_placed, words_of};
ghost use Rattle.just_cli_texts.specs.Targets.{names_of};
ghost use Rattle.just_cli_texts.specs.declared.kind.Kind.TheVariants as kind;
ghost use Rattle.just_cli_texts.specs.Formatted.{Formats};
ghost use Rattle.just_cli.specs.Commands.{is_file, path_if, anew, anew_or, EvaluatesIt, FormatsFile, InvokesIt};
ghost use Rattle.just_cli_children.specs.Faults.{entries_of};
ghost use Rattle.just_cli.specs.declared.task.Other.TheVariants as no_run;
ghost use Rattle.just_cli.specs.Preparing.{AreMisses, EndsWith};
ghost use Rattle.just_cli.specs.Taken.{laid_in, loaded_in, PerformsValues, PerformsInvocation, PerformsCommand};
ghost use Rattle.just_cli.specs.Tasks.{IsCommand};
ghost use Rattle.just_exec.specs.declared.error.Error.{Error};

use super::Error;
use super::place::project_at;
use super::taken::take;
use super::task::Other;
use just_cli_children::{editor_child, is_any, words_child};
use just_cli_plan::{Wanted, load_pairs, scopes_of};
use just_cli_texts::{Kind, LaidJustfile, alone, evaluate, formatted, names_of, prints, words_of};
use just_config::Config;
use just_host::Host;
use just_lang_types::{DotenvOf, Modulepath, Source};
use just_path::{Utf8Path, Utf8PathBuf};
use just_path_text::{Environ, NoMemory, Seq, Text};
use just_search::{Location, Origin};
use just_search_load::Loader;
use std::alloc::Global;

/// What a command prints of the project in a place.
fn print_at<H: Host>(
    alloc: Global,
    environ: &Environ,
    config: &Config,
    location: &Location,
    made: &mut Vec<Utf8PathBuf>,
    host: &mut H,
) -> Result<Other, Error>
    requires kind { kind_of config.now.subcommand ≡ kind.Print }
    ensures prints { PerformsCommand kind.Print
        (record { config = config.now; environ = environ.now; location = location.now })
        (H.told host.old) (H.told host.new) made.old.items made.new.items result }
    ensures found { IfOk result IsCommand }
{
    let (wanted, laid) = match project_at(alloc, environ, config, location, made, host) {
        Ok(found) => found,
        Err(error) => return Err(error),
    };
    drop(wanted);
    match prints(alloc, config, environ, &laid) {
        Ok(printed) => Ok(Other::Show(printed)),
        Err(error) => Err(error),
    }
}

/// What is printed of the values of a project's variables, whose modules have these dotenv pairs.
fn values_loaded(
    alloc: Global,
    environ: &Environ,
    config: &Config,
    wanted: &Wanted,
    laid: &LaidJustfile,
    dotenv: &[DotenvOf],
) -> Result<Other, Error>
    requires { IsEnding laid.now.justfile }
    ensures text { IfOk result (λ x. (modules : List Justfile)
        → AreModules (laid.now.justfile ∷ []) modules
        → Then EvaluatesVariables (EvaluatesIt config.now)
        (loaded_in wanted.now environ.now laid.now modules dotenv.now) (Ok x)) }
    ensures refused { IfErr result (OrMemory (λ e. (modules : List Justfile)
        → AreModules (laid.now.justfile ∷ []) modules
        → Then EvaluatesVariables (EvaluatesIt config.now)
        (loaded_in wanted.now environ.now laid.now modules dotenv.now) (Err e))) }
    ensures found { IfOk result IsCommand }
{
    let scopes = match scopes_of(alloc, &laid.justfile, dotenv, environ, wanted) {
        Ok(scopes) => scopes,
        Err(error) => return Err(error),
    };
    match evaluate(
        alloc,
        config,
        &laid.justfile,
        &scopes,
        wanted.words.as_slice(),
    ) {
        Ok(text) => Ok(Other::Show(alone(text))),
        Err(error) => Err(error),
    }
}

/// What is printed of the values of a project's variables. The record gains the entries of children that are run for its dotenv pairs, the misses of files
/// that aren't there, and the entry of the refused call.
fn values_of<H: Host>(
    alloc: Global,
    host: &mut H,
    environ: &Environ,
    config: &Config,
    wanted: &Wanted,
    laid: &LaidJustfile,
) -> Result<Other, Error>
    requires { IsEnding laid.now.justfile }
    ensures values { PerformsValues config.now (laid_in wanted.now environ.now laid.now)
        (H.told host.old) (H.told host.new) result }
    ensures found { IfOk result IsCommand }
{
    let pairs = match load_pairs(alloc, host, &laid.justfile, environ, wanted) {
        Ok(pairs) => pairs,
        Err(error) => return Err(error),
    };
    match values_loaded(alloc, environ, config, wanted, laid, pairs.as_slice()) {
        Ok(other) => Ok(other),
        Err(error) => Err(error),
    }
}

/// What is printed of the values of the variables of the project in a place.
fn evaluate_at<H: Host>(
    alloc: Global,
    environ: &Environ,
    config: &Config,
    location: &Location,
    made: &mut Vec<Utf8PathBuf>,
    host: &mut H,
) -> Result<Other, Error>
    ensures values { PerformsCommand kind.Evaluate
        (record { config = config.now; environ = environ.now; location = location.now })
        (H.told host.old) (H.told host.new) made.old.items made.new.items result }
    ensures found { IfOk result IsCommand }
{
    let (wanted, laid) = match project_at(alloc, environ, config, location, made, host) {
        Ok(found) => found,
        Err(error) => return Err(error),
    };
    let values = values_of(alloc, host, environ, config, &wanted, &laid);
    drop(wanted);
    drop(laid);
    values
}

/// The path of the recipes whose entries go, where names are given.
fn path_if(names: Seq<Text>) -> Option<Modulepath>
    ensures { result ≡ path_if names }
{
    if is_any(&names) {
        Some(Modulepath { components: names })
    } else {
        None
    }
}

/// The cache of a project's recipes, and which of its entries are to go.
fn clean_of(alloc: Global, config: &Config, wanted: &Wanted) -> Result<Other, NoMemory>
    ensures cleans { IfOk result (λ x.
        x ≡ no_run.Clean wanted.now.cache_folder
        (path_if (names_of (words_of config.now.subcommand)))) }
{
    let folder = wanted.cache_folder.try_clone()?;
    let names = names_of(alloc, words_of(&config.subcommand))?;
    Ok(Other::Clean(folder, path_if(names)))
}

/// What of the cache of the project in a place is to go.
fn clean_at<H: Host>(
    alloc: Global,
    environ: &Environ,
    config: &Config,
    location: &Location,
    made: &mut Vec<Utf8PathBuf>,
    host: &mut H,
) -> Result<Other, Error>
    ensures cleans { PerformsCommand kind.Clean
        (record { config = config.now; environ = environ.now; location = location.now })
        (H.told host.old) (H.told host.new) made.old.items made.new.items result }
    ensures found { IfOk result IsCommand }
{
    let (wanted, laid) = match project_at(alloc, environ, config, location, made, host) {
        Ok(found) => found,
        Err(error) => return Err(error),
    };
    drop(laid);
    match clean_of(alloc, config, &wanted) {
        Ok(other) => Ok(other),
        Err(NoMemory) => Err(Error::NoMemory),
    }
}

/// Whether a justfile is a file of its own.
fn is_file(origin: &Origin) -> bool
    ensures { result ≡ is_file origin.now }
{
    matches!(origin, Origin::File(_))
}

/// The source of a file. The record gains the entry of the refused call.
fn read_source<H: Host>(alloc: Global, host: &mut H, path: Utf8Path<'_>) -> Result<Loader, Error>
    ensures grew { (es : List Entry) × ((H.told host.new).entries ≡ (H.told host.old).entries ++ es)
        × MatchResult result (λ _. AreMisses es) (λ e. EndsWith [] e es) }
    ensures world { (H.told host.new).world ≡ (H.told host.old).world }
    ensures source { IfOk result (λ l. (text : List ℕ)
        × ReadsText (H.told host.old).world (text_of path.entry) (Ok text)
        × (sources_of l ≡ source_at (text_of path.entry) text ∷ [])) }
    ensures refused { IfErr result (OrMemory (λ e. (f : SearchError)
        × ReadsText (H.told host.old).world (text_of path.entry) (Err f)
        × (e ≡ error_of_search f))) }
{
    let mut loader = Loader::new(alloc);
    match loader.load(host, path) {
        Ok(_) => Ok(loader),
        Err(error) => Err(Error::from(error)),
    }
}

/// The source that stands alone.
fn only(sources: &[Source]) -> &Source
    requires { (source : SourceRead) × (sources.now ≡ source ∷ []) }
    ensures { sources.now ≡ result.now ∷ [] }
{
    match sources {
        [source, ..] => source,
        [] => unreachable!(),
    }
}

/// What is done with the new text of a file, beside the old one.
fn anew(check: bool, file: bool, path: Utf8PathBuf, old: &str, new: Text) -> Result<Other, Error>
    ensures anew { result ≡ anew check file path old.now new }
    ensures found { IfOk result IsCommand }
{
    let same = new.as_str() == old;
    if check {
        if same {
            return Ok(Other::Nothing);
        }
        return Err(Error::FormatCheckFoundDiff);
    }
    if !file {
        return Ok(Other::Show(alone(new)));
    }
    if same {
        return Ok(Other::Nothing);
    }
    Ok(Other::Write(path, new))
}

/// What is done with a source whose text is made anew.
fn formatted_anew(
    alloc: Global,
    environ: &Environ,
    config: &Config,
    file: bool,
    path: Utf8PathBuf,
    source: &Source,
) -> Result<Other, Error>
    ensures anew { IfOk result (λ x. (y : Result (List ℕ) Error)
        × Formats config.now environ.now.pairs source.now y
        × (Ok x ≡ anew_or config.now.check file path source.now.text y)) }
    ensures refused { IfErr result (OrMemory (λ e. (y : Result (List ℕ) Error)
        × Formats config.now environ.now.pairs source.now y
        × (Err e ≡ anew_or config.now.check file path source.now.text y))) }
    ensures found { IfOk result IsCommand }
    ensures silent { IfErr result (λ e. entries_of e ≡ []) }
{
    match formatted(alloc, config, environ, source) {
        Ok(text) => match anew(config.check, file, path, source.text.as_str(), text) {
            Ok(other) => Ok(other),
            Err(error) => Err(error),
        },
        Err(error) => {
            drop(path);
            Err(error)
        }
    }
}

/// What is done with the text of a file that is made anew.
fn format_file<H: Host>(
    alloc: Global,
    host: &mut H,
    environ: &Environ,
    config: &Config,
    origin: &Origin,
    wanted: &Wanted,
    path: Utf8PathBuf,
) -> Result<Other, Error>
    ensures grew { (es : List Entry) × ((H.told host.new).entries ≡ (H.told host.old).entries ++ es)
        × MatchResult result (λ _. AreMisses es) (λ e. EndsWith [] e es) }
    ensures world { (H.told host.new).world ≡ (H.told host.old).world }
    ensures formats { IfOk result (λ x. FormatsFile (H.told host.old).world config.now origin.now
        (record { wanted = wanted.now; environ = environ.now; justfile = path }) (Ok x)) }
    ensures refused { IfErr result (OrMemory (λ e. FormatsFile (H.told host.old).world config.now
        origin.now (record { wanted = wanted.now; environ = environ.now; justfile = path })
        (Err e))) }
    ensures found { IfOk result IsCommand }
{
    let loader = match read_source(alloc, host, path.as_path()) {
        Ok(loader) => loader,
        Err(error) => {
            drop(path);
            return Err(error);
        }
    };
    let source = only(loader.sources());
    match formatted_anew(alloc, environ, config, is_file(origin), path, source) {
        Ok(other) => Ok(other),
        Err(error) => Err(error),
    }
}

/// What is done with the text of the justfile in a place that is made anew.
fn format_at<H: Host>(
    alloc: Global,
    environ: &Environ,
    config: &Config,
    location: &Location,
    made: &mut Vec<Utf8PathBuf>,
    host: &mut H,
) -> Result<Other, Error>
    ensures formats { PerformsCommand kind.Format
        (record { config = config.now; environ = environ.now; location = location.now })
        (H.told host.old) (H.told host.new) made.old.items made.new.items result }
    ensures found { IfOk result IsCommand }
{
    let (wanted, path) = match take(alloc, config, location, made, host) {
        Ok(taken) => taken,
        Err(error) => return Err(error),
    };
    let made_anew = format_file(
        alloc,
        host,
        environ,
        config,
        &location.origin,
        &wanted,
        path,
    );
    drop(wanted);
    made_anew
}

/// The editor of the justfile in a place.
fn edit_at<H: Host>(
    alloc: Global,
    environ: &Environ,
    config: &Config,
    location: &Location,
    made: &mut Vec<Utf8PathBuf>,
    host: &mut H,
) -> Result<Other, Error>
    ensures edits { PerformsCommand kind.Edit
        (record { config = config.now; environ = environ.now; location = location.now })
        (H.told host.old) (H.told host.new) made.old.items made.new.items result }
    ensures found { IfOk result IsCommand }
{
    let (wanted, path) = match take(alloc, config, location, made, host) {
        Ok(taken) => taken,
        Err(error) => return Err(error),
    };
    let child = editor_child(alloc, environ, &wanted.flags.folder, path.as_path());
    drop(wanted);
    drop(path);
    match child {
        Ok(child) => Ok(Other::Invoke(child)),
        Err(NoMemory) => Err(Error::NoMemory),
    }
}

/// The child of a command's words in the environment of a project, whose modules have these dotenv pairs.
fn invocation_loaded(
    alloc: Global,
    environ: &Environ,
    config: &Config,
    wanted: &Wanted,
    laid: &LaidJustfile,
    dotenv: &[DotenvOf],
) -> Result<Other, Error>
    requires { IsEnding laid.now.justfile }
    ensures child { IfOk result (λ x. (modules : List Justfile)
        → AreModules (laid.now.justfile ∷ []) modules
        → Then EvaluatesVariables (InvokesIt config.now)
        (loaded_in wanted.now environ.now laid.now modules dotenv.now) (Ok x)) }
    ensures refused { IfErr result (OrMemory (λ e. (modules : List Justfile)
        → AreModules (laid.now.justfile ∷ []) modules
        → Then EvaluatesVariables (InvokesIt config.now)
        (loaded_in wanted.now environ.now laid.now modules dotenv.now) (Err e))) }
    ensures found { IfOk result IsCommand }
{
    let scopes = match scopes_of(alloc, &laid.justfile, dotenv, environ, wanted) {
        Ok(scopes) => scopes,
        Err(error) => return Err(error),
    };
    match words_child(alloc, config, &wanted.flags, &scopes, &laid.justfile) {
        Ok(child) => Ok(Other::Invoke(child)),
        Err(NoMemory) => Err(Error::NoMemory),
    }
}

/// The child of a command's words in the environment of a project. The record gains the entries of children that are run for its dotenv pairs, the misses of
/// files that aren't there, and the entry of the refused call.
fn invocation_of<H: Host>(
    alloc: Global,
    host: &mut H,
    environ: &Environ,
    config: &Config,
    wanted: &Wanted,
    laid: &LaidJustfile,
) -> Result<Other, Error>
    requires { IsEnding laid.now.justfile }
    ensures child { PerformsInvocation config.now (laid_in wanted.now environ.now laid.now)
        (H.told host.old) (H.told host.new) result }
    ensures found { IfOk result IsCommand }
{
    let pairs = match load_pairs(alloc, host, &laid.justfile, environ, wanted) {
        Ok(pairs) => pairs,
        Err(error) => return Err(error),
    };
    match invocation_loaded(alloc, environ, config, wanted, laid, pairs.as_slice()) {
        Ok(other) => Ok(other),
        Err(error) => Err(error),
    }
}

/// The child of a command's words in the environment of the project in a place.
fn invoke_at<H: Host>(
    alloc: Global,
    environ: &Environ,
    config: &Config,
    location: &Location,
    made: &mut Vec<Utf8PathBuf>,
    host: &mut H,
) -> Result<Other, Error>
    ensures child { PerformsCommand kind.Command
        (record { config = config.now; environ = environ.now; location = location.now })
        (H.told host.old) (H.told host.new) made.old.items made.new.items result }
    ensures found { IfOk result IsCommand }
{
    let (wanted, laid) = match project_at(alloc, environ, config, location, made, host) {
        Ok(found) => found,
        Err(error) => return Err(error),
    };
    let invocation = invocation_of(alloc, host, environ, config, &wanted, &laid);
    drop(wanted);
    drop(laid);
    invocation
}

/// What a command asks of the justfile in a place.
pub(crate) fn command_at<H: Host>(
    alloc: Global,
    environ: &Environ,
    config: &Config,
    kind: Kind,
    location: &Location,
    made: &mut Vec<Utf8PathBuf>,
    host: &mut H,
) -> Result<Other, Error>
    requires kind { kind ≡ kind_of config.now.subcommand }
    requires placed { is_placed kind ≡ true }
    ensures asked { PerformsCommand kind
        (record { config = config.now; environ = environ.now; location = location.now })
        (H.told host.old) (H.told host.new) made.old.items made.new.items result }
    ensures found { IfOk result IsCommand }
{
    match kind {
        Kind::Print => print_at(alloc, environ, config, location, made, host),
        Kind::Evaluate => evaluate_at(alloc, environ, config, location, made, host),
        Kind::Clean => clean_at(alloc, environ, config, location, made, host),
        Kind::Format => format_at(alloc, environ, config, location, made, host),
        Kind::Edit => edit_at(alloc, environ, config, location, made, host),
        Kind::Command => invoke_at(alloc, environ, config, location, made, host),
        Kind::Run | Kind::New | Kind::Respond | Kind::Vectors | Kind::Choose => unreachable!(),
    }
}
