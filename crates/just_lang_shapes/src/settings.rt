//! The settings that the items of a module make.
ghost use Rattle.std.specs.Prelude.{◌≡◌, filter, filter_map, codes, IfOk};
ghost use Rattle.std.specs.Option.{option_copied};
ghost use Rattle.just_lang_spots.specs.Entries.{entry, entries};
ghost use Rattle.just_lang_spots.specs.Items.{is_set};
ghost use Rattle.just_lang_shapes.specs.Settings.{is_setting, value_in, setting_value, text_in, interpreter_of, interpreter_in, text_setting, list_setting, settings_with, settings_of};

use just_lang_spots::{Entry, is_set, push_some};
use just_lang_syntax::{AstItem, SettingValue, StringLiteral};
use just_lang_types::{Interpreter, Settings, Texts, const_text};
use just_path_text::{NoMemory, Seq, Text};
use std::alloc::Global;

fn is_setting(one: &Entry<'_>) -> bool
    ensures { result ≡ is_setting (entry one.now) }
{
    matches!(one.item, AstItem::Setting { .. })
}

/// The settings among some items.
#[tactic(auto, using(just_lang_spots::proofs::ListLaws::entries_more))]
fn setting_items<'a>(alloc: Global, items: &[Entry<'a>]) -> Result<Vec<Entry<'a>>, NoMemory>
    ensures { IfOk result (λ v. entries v.items ≡ filter is_setting (entries items.now)) }
{
    let mut kept = Vec::new(alloc);
    'items: for one in items {
        if is_setting(one) {
            kept.push(*one)?;
        }
    }
    Ok(kept)
}

/// The value that an item gives to the setting of that name.
fn value_in<'a>(wanted: &str, item: &'a AstItem) -> Option<&'a SettingValue>
    ensures { option_copied result ≡ value_in wanted.now item.now }
{
    match item {
        AstItem::Setting { name, value, .. } => {
            if name.text.as_str() != wanted {
                return None;
            }
            match value {
                Some(value) => Some(value),
                None => None,
            }
        }
        _ => None,
    }
}

/// The value of the setting of that name.
fn setting_value<'a>(name: &str, items: &[Entry<'a>]) -> Option<&'a SettingValue>
    ensures { option_copied result ≡ setting_value name.now (entries items.now) }
{
    'items: for one in items {
        if let Some(value) = value_in(name, one.item) {
            return Some(value);
        }
    }
    None
}

/// The text that a value is.
fn text_in<T: Texts>(
    alloc: Global,
    texts: &T,
    value: &SettingValue,
) -> Result<Option<Text>, NoMemory>
    ensures { IfOk result (λ t. t ≡ text_in (T.text_of texts.now) value.now) }
{
    match value {
        SettingValue::Text(expr) => const_text(alloc, texts, expr),
        SettingValue::Bool(_) | SettingValue::List(_) => Ok(None),
    }
}

/// The text of the setting of that name.
fn text_setting<T: Texts>(
    alloc: Global,
    texts: &T,
    name: &str,
    items: &[Entry<'_>],
) -> Result<Option<Text>, NoMemory>
    ensures { IfOk result (λ t. t ≡ text_setting (T.text_of texts.now) name.now (entries items.now)) }
{
    match setting_value(name, items) {
        None => Ok(None),
        Some(value) => text_in(alloc, texts, value),
    }
}

/// The texts of some strings.
fn texts_of<T: Texts>(
    alloc: Global,
    texts: &T,
    literals: &[StringLiteral],
) -> Result<Seq<Text>, NoMemory>
    ensures { IfOk result (λ all. all ≡ filter_map (T.text_of texts.now) literals.now) }
{
    let mut all = Vec::new(alloc);
    'literals: for literal in literals {
        let text = texts.text(alloc, literal)?;
        push_some(&mut all, text)?;
    }
    Ok(Seq::from(all))
}

/// The interpreter that some strings are: a command, and its arguments behind it.
fn interpreter_of<T: Texts>(
    alloc: Global,
    texts: &T,
    literals: &[StringLiteral],
) -> Result<Option<Interpreter>, NoMemory>
    ensures { IfOk result (λ i. i ≡ interpreter_of (T.text_of texts.now) literals.now) }
{
    match literals {
        [] => Ok(None),
        [first, rest @ ..] => match texts.text(alloc, first)? {
            None => Ok(None),
            Some(command) => {
                let arguments = texts_of(alloc, texts, rest)?;
                Ok(Some(Interpreter { command, arguments }))
            }
        },
    }
}

/// The interpreter that a value is.
fn interpreter_in<T: Texts>(
    alloc: Global,
    texts: &T,
    value: &SettingValue,
) -> Result<Option<Interpreter>, NoMemory>
    ensures { IfOk result (λ i. i ≡ interpreter_in (T.text_of texts.now) value.now) }
{
    match value {
        SettingValue::List(literals) => interpreter_of(alloc, texts, literals.as_slice()),
        SettingValue::Bool(_) | SettingValue::Text(_) => Ok(None),
    }
}

/// The interpreter of the setting of that name.
fn list_setting<T: Texts>(
    alloc: Global,
    texts: &T,
    name: &str,
    items: &[Entry<'_>],
) -> Result<Option<Interpreter>, NoMemory>
    ensures { IfOk result (λ i. i ≡ list_setting (T.text_of texts.now) name.now (entries items.now)) }
{
    match setting_value(name, items) {
        None => Ok(None),
        Some(value) => interpreter_in(alloc, texts, value),
    }
}

/// The texts of the settings of three names.
fn three_texts<T: Texts>(
    alloc: Global,
    texts: &T,
    items: &[Entry<'_>],
    first: &str,
    second: &str,
    third: &str,
) -> Result<(Option<Text>, Option<Text>, Option<Text>), NoMemory>
    ensures first { IfOk result (λ t. t.0 ≡ text_setting (T.text_of texts.now) first.now (entries items.now)) }
    ensures second { IfOk result (λ t. t.1 ≡ text_setting (T.text_of texts.now) second.now (entries items.now)) }
    ensures third { IfOk result (λ t. t.2 ≡ text_setting (T.text_of texts.now) third.now (entries items.now)) }
{
    let first = text_setting(alloc, texts, first, items)?;
    let second = text_setting(alloc, texts, second, items)?;
    let third = text_setting(alloc, texts, third, items)?;
    Ok((first, second, third))
}

/// The settings that are texts.
#[derive(Drop)]
struct TextSettings {
    dotenv_command: Option<Text>,
    dotenv_filename: Option<Text>,
    dotenv_path: Option<Text>,
    indentation: Option<Text>,
    tempdir: Option<Text>,
    working_directory: Option<Text>,
}

/// The settings among some items that are texts.
fn text_settings<T: Texts>(
    alloc: Global,
    texts: &T,
    items: &[Entry<'_>],
) -> Result<TextSettings, NoMemory>
    ensures dotenv_command { IfOk result (λ s. s.dotenv_command ≡ text_setting (T.text_of texts.now) (codes "dotenv-command") (entries items.now)) }
    ensures dotenv_filename { IfOk result (λ s. s.dotenv_filename ≡ text_setting (T.text_of texts.now) (codes "dotenv-filename") (entries items.now)) }
    ensures dotenv_path { IfOk result (λ s. s.dotenv_path ≡ text_setting (T.text_of texts.now) (codes "dotenv-path") (entries items.now)) }
    ensures indentation { IfOk result (λ s. s.indentation ≡ text_setting (T.text_of texts.now) (codes "indentation") (entries items.now)) }
    ensures tempdir { IfOk result (λ s. s.tempdir ≡ text_setting (T.text_of texts.now) (codes "tempdir") (entries items.now)) }
    ensures working_directory { IfOk result (λ s. s.working_directory ≡ text_setting (T.text_of texts.now) (codes "working-directory") (entries items.now)) }
{
    let (dotenv_command, dotenv_filename, dotenv_path) = three_texts(
        alloc,
        texts,
        items,
        "dotenv-command",
        "dotenv-filename",
        "dotenv-path",
    )?;
    let (indentation, tempdir, working_directory) = three_texts(
        alloc,
        texts,
        items,
        "indentation",
        "tempdir",
        "working-directory",
    )?;
    Ok(TextSettings {
        dotenv_command,
        dotenv_filename,
        dotenv_path,
        indentation,
        tempdir,
        working_directory,
    })
}

/// The settings that are lists.
#[derive(Drop)]
struct ListSettings {
    shell: Option<Interpreter>,
    script_interpreter: Option<Interpreter>,
    windows_shell: Option<Interpreter>,
}

/// The settings among some items that are lists.
fn list_settings<T: Texts>(
    alloc: Global,
    texts: &T,
    items: &[Entry<'_>],
) -> Result<ListSettings, NoMemory>
    ensures shell { IfOk result (λ s. s.shell ≡ list_setting (T.text_of texts.now) (codes "shell") (entries items.now)) }
    ensures script_interpreter { IfOk result (λ s. s.script_interpreter ≡ list_setting (T.text_of texts.now) (codes "script-interpreter") (entries items.now)) }
    ensures windows_shell { IfOk result (λ s. s.windows_shell ≡ list_setting (T.text_of texts.now) (codes "windows-shell") (entries items.now)) }
{
    let shell = list_setting(alloc, texts, "shell", items)?;
    let script_interpreter = list_setting(alloc, texts, "script-interpreter", items)?;
    let windows_shell = list_setting(alloc, texts, "windows-shell", items)?;
    Ok(ListSettings {
        shell,
        script_interpreter,
        windows_shell,
    })
}

/// The settings that are flags.
#[derive(Clone, Copy)]
struct FlagSettings {
    allow_duplicate_recipes: bool,
    allow_duplicate_variables: bool,
    default_list: bool,
    dotenv_load: bool,
    dotenv_override: bool,
    dotenv_required: bool,
    export: bool,
    fallback: bool,
    guards: bool,
    ignore_comments: bool,
    lists: bool,
    no_cd: bool,
    no_exit_message: bool,
    positional_arguments: bool,
    quiet: bool,
    unstable: bool,
    windows_powershell: bool,
}

/// The settings among some items that are flags.
fn flag_settings(items: &[Entry<'_>]) -> FlagSettings
    ensures allow_duplicate_recipes { result.allow_duplicate_recipes ≡ is_set (codes "allow-duplicate-recipes") (entries items.now) }
    ensures allow_duplicate_variables { result.allow_duplicate_variables ≡ is_set (codes "allow-duplicate-variables") (entries items.now) }
    ensures default_list { result.default_list ≡ is_set (codes "default-list") (entries items.now) }
    ensures dotenv_load { result.dotenv_load ≡ is_set (codes "dotenv-load") (entries items.now) }
    ensures dotenv_override { result.dotenv_override ≡ is_set (codes "dotenv-override") (entries items.now) }
    ensures dotenv_required { result.dotenv_required ≡ is_set (codes "dotenv-required") (entries items.now) }
    ensures export { result.export ≡ is_set (codes "export") (entries items.now) }
    ensures fallback { result.fallback ≡ is_set (codes "fallback") (entries items.now) }
    ensures guards { result.guards ≡ is_set (codes "guards") (entries items.now) }
    ensures ignore_comments { result.ignore_comments ≡ is_set (codes "ignore-comments") (entries items.now) }
    ensures lists { result.lists ≡ is_set (codes "lists") (entries items.now) }
    ensures no_cd { result.no_cd ≡ is_set (codes "no-cd") (entries items.now) }
    ensures no_exit_message { result.no_exit_message ≡ is_set (codes "no-exit-message") (entries items.now) }
    ensures positional_arguments { result.positional_arguments ≡ is_set (codes "positional-arguments") (entries items.now) }
    ensures quiet { result.quiet ≡ is_set (codes "quiet") (entries items.now) }
    ensures unstable { result.unstable ≡ is_set (codes "unstable") (entries items.now) }
    ensures windows_powershell { result.windows_powershell ≡ is_set (codes "windows-powershell") (entries items.now) }
{
    FlagSettings {
        allow_duplicate_recipes: is_set("allow-duplicate-recipes", items),
        allow_duplicate_variables: is_set("allow-duplicate-variables", items),
        default_list: is_set("default-list", items),
        dotenv_load: is_set("dotenv-load", items),
        dotenv_override: is_set("dotenv-override", items),
        dotenv_required: is_set("dotenv-required", items),
        export: is_set("export", items),
        fallback: is_set("fallback", items),
        guards: is_set("guards", items),
        ignore_comments: is_set("ignore-comments", items),
        lists: is_set("lists", items),
        no_cd: is_set("no-cd", items),
        no_exit_message: is_set("no-exit-message", items),
        positional_arguments: is_set("positional-arguments", items),
        quiet: is_set("quiet", items),
        unstable: is_set("unstable", items),
        windows_powershell: is_set("windows-powershell", items),
    }
}

/// The settings that are these.
#[tactic(auto, unfolding(crate::specs::Settings::settings_with))]
fn settings_with(flags: &FlagSettings, texts: TextSettings, lists: ListSettings) -> Settings
    ensures { result ≡ settings_with flags.now texts lists }
{
    Settings {
        allow_duplicate_recipes: flags.allow_duplicate_recipes,
        allow_duplicate_variables: flags.allow_duplicate_variables,
        default_list: flags.default_list,
        dotenv_load: flags.dotenv_load,
        dotenv_override: flags.dotenv_override,
        dotenv_required: flags.dotenv_required,
        export: flags.export,
        fallback: flags.fallback,
        guards: flags.guards,
        ignore_comments: flags.ignore_comments,
        lists: flags.lists,
        no_cd: flags.no_cd,
        no_exit_message: flags.no_exit_message,
        positional_arguments: flags.positional_arguments,
        quiet: flags.quiet,
        unstable: flags.unstable,
        windows_powershell: flags.windows_powershell,
        dotenv_command: texts.dotenv_command,
        dotenv_filename: texts.dotenv_filename,
        dotenv_path: texts.dotenv_path,
        indentation: texts.indentation,
        tempdir: texts.tempdir,
        working_directory: texts.working_directory,
        shell: lists.shell,
        script_interpreter: lists.script_interpreter,
        windows_shell: lists.windows_shell,
    }
}

/// The settings that some items make, which are settings all.
fn settings_in<T: Texts>(
    alloc: Global,
    texts: &T,
    items: &[Entry<'_>],
) -> Result<Settings, NoMemory>
    ensures { IfOk result (λ s. s ≡ settings_of (T.text_of texts.now) (entries items.now)) }
{
    let of_lists = list_settings(alloc, texts, items)?;
    let of_texts = text_settings(alloc, texts, items)?;
    let of_flags = flag_settings(items);
    Ok(settings_with(&of_flags, of_texts, of_lists))
}

/// The settings that the items of a module make.
#[tactic(auto, using(crate::proofs::Kept::settings_kept))]
pub fn settings_of<T: Texts>(
    alloc: Global,
    texts: &T,
    items: &[Entry<'_>],
) -> Result<Settings, NoMemory>
    ensures { IfOk result (λ s. s ≡ settings_of (T.text_of texts.now) (entries items.now)) }
{
    let settings = setting_items(alloc, items)?;
    settings_in(alloc, texts, settings.as_slice())
}
