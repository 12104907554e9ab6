//! What the words ask of dotenv files.

ghost use Rattle.std.specs.Prelude.{◌≡◌, [], IfOk, IfErr};
ghost use Rattle.just_env.specs.DotenvAnswers.{Answers, entries_of};
ghost use Rattle.just_env.specs.Asked.{is_any, is_several, given, paths_given, or_default, names_wanted, is_root, commands_asked, commands_of, has_several, has_flag, has_given, sources_of};

use super::EnvError;
use just_exec_work::one_text;
use just_lang_types::Settings;
use just_lang_types::project::Justfile;
use just_path_text::{NoMemory, Seq, Text};
use std::alloc::Global;

/// From where a module has its pairs.
#[derive(Clone, Copy)]
pub enum Sources {
    Nothing,
    Commands,
    Files,
}

/// What the words ask of dotenv files.
#[derive(Drop)]
pub struct DotenvAsk {
    /// Commands whose output gives the root module its pairs.
    pub commands: Seq<Text>,
    /// Names under which files are looked for.
    pub filenames: Seq<Text>,
    /// Paths of files, each under the folder of a module.
    pub paths: Seq<Text>,
    /// Whether anything is loaded.
    pub load: bool,
    /// Whether no command is run: those of a module give nothing then.
    pub dry_run: bool,
}

fn is_any(texts: &Seq<Text>) -> bool
    ensures { result ≡ is_any texts.now }
{
    match texts.as_slice() {
        [] => false,
        [_, ..] => true,
    }
}

fn is_several(texts: &Seq<Text>) -> bool
    ensures { result ≡ is_several texts.now }
{
    match texts.as_slice() {
        [] => false,
        [_] => false,
        [_, _, ..] => true,
    }
}

/// The texts of an option, where it is given; else that of a setting, where it is set.
fn given(alloc: Global, option: &Seq<Text>, setting: &Option<Text>) -> Result<Seq<Text>, NoMemory>
    ensures { IfOk result (λ texts. texts ≡ given option.now setting.now) }
{
    if is_any(option) {
        return option.try_clone();
    }
    match setting {
        Some(text) => one_text(alloc, text.as_str()),
        None => Ok(Seq::new(alloc)),
    }
}

/// The paths of a module's files.
pub(crate) fn paths_given(
    alloc: Global,
    ask: &DotenvAsk,
    settings: &Settings,
) -> Result<Seq<Text>, NoMemory>
    ensures { IfOk result (λ paths. paths ≡ paths_given ask.now settings.now) }
{
    given(alloc, &ask.paths, &settings.dotenv_path)
}

/// Some names, or the one that holds where there are none.
fn or_default(alloc: Global, names: Seq<Text>) -> Result<Seq<Text>, NoMemory>
    ensures { IfOk result (λ all. all ≡ or_default names) }
{
    if is_any(&names) {
        return Ok(names);
    }
    one_text(alloc, ".env")
}

/// The names under which a module's files are looked for.
pub(crate) fn names_wanted(
    alloc: Global,
    ask: &DotenvAsk,
    settings: &Settings,
) -> Result<Seq<Text>, NoMemory>
    ensures { IfOk result (λ names. names ≡ names_wanted ask.now settings.now) }
{
    or_default(
        alloc,
        given(alloc, &ask.filenames, &settings.dotenv_filename)?,
    )
}

/// Whether a module is the root.
fn is_root(justfile: &Justfile) -> bool
    ensures { result ≡ is_root justfile.now }
{
    justfile.module_path.components.len() == 0
}

/// The commands of the words for a module: the root has them, and no other.
fn commands_asked(
    alloc: Global,
    ask: &DotenvAsk,
    justfile: &Justfile,
) -> Result<Seq<Text>, NoMemory>
    ensures { IfOk result (λ commands. commands ≡ commands_asked ask.now justfile.now) }
{
    if is_root(justfile) {
        ask.commands.try_clone()
    } else {
        Ok(Seq::new(alloc))
    }
}

/// The commands whose output gives a module its pairs.
pub(crate) fn commands_of(
    alloc: Global,
    ask: &DotenvAsk,
    justfile: &Justfile,
) -> Result<Seq<Text>, NoMemory>
    ensures { IfOk result (λ commands. commands ≡ commands_of ask.now justfile.now) }
{
    let asked = commands_asked(alloc, ask, justfile)?;
    given(alloc, &asked, &justfile.settings.dotenv_command)
}

/// Whether an option or a setting gives the names or the paths of a module's files.
fn has_given(ask: &DotenvAsk, settings: &Settings) -> bool
    ensures { result ≡ has_given ask.now settings.now }
{
    is_any(&ask.filenames)
        || settings.dotenv_filename.is_some()
        || is_any(&ask.paths)
        || settings.dotenv_path.is_some()
}

/// Whether a setting asks for dotenv files, whatever their names.
fn has_flag(settings: &Settings) -> bool
    ensures { result ≡ has_flag settings.now }
{
    settings.dotenv_load || settings.dotenv_override || settings.dotenv_required
}

/// Whether the options give several names or several paths.
fn has_several(ask: &DotenvAsk) -> bool
    ensures { result ≡ has_several ask.now }
{
    is_several(&ask.filenames) || is_several(&ask.paths)
}

/// From where a module has its pairs, whose commands are those; or why it is refused before anything is read or run.
pub(crate) fn sources_of(
    ask: &DotenvAsk,
    justfile: &Justfile,
    commands: &Seq<Text>,
) -> Result<Sources, EnvError>
    requires { commands.now ≡ commands_of ask.now justfile.now }
    ensures sources { result ≡ sources_of ask.now justfile.now }
    ensures unheard { IfErr result (λ e. entries_of [] e ≡ []) }
{
    if !ask.load {
        return Ok(Sources::Nothing);
    }
    if is_any(commands) {
        if ask.dry_run {
            return Ok(Sources::Nothing);
        }
        return Ok(Sources::Commands);
    }
    if has_several(ask) && !justfile.settings.lists {
        return Err(EnvError::DotenvArgumentsRequireLists);
    }
    if has_flag(&justfile.settings) || has_given(ask, &justfile.settings) {
        return Ok(Sources::Files);
    }
    Ok(Sources::Nothing)
}
