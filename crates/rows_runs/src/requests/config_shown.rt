//! The configuration of words, as a text.

use super::page::Page;
use just_config::{Config, ConfigError, SearchConfig, Verbosity};
use just_lang_types::Override;
use just_path::Utf8PathBuf;
use just_path_text::Text;
use rows_common::Wrong;
use std::alloc::Global;

/// What words give as a configuration, as a text. It promises nothing beyond safety.
pub(crate) fn config_shown(
    alloc: Global,
    answer: &Result<Config, ConfigError>,
) -> Result<String, Wrong> {
    let mut page = Page::new(alloc);
    match answer {
        Ok(config) => push_config(&mut page, config),
        Err(error) => push_error(&mut page, error),
    }
    page.finished()
}

/// Adds a configuration.
fn push_config(page: &mut Page, config: &Config) {
    push_search(page, &config.search_config);
    page.push(verbosity_shown(config.verbosity));
    push_overrides(page, config.overrides.as_slice());
    push_texts(page, ";arguments=", config.arguments.as_slice());
}

/// How much is printed.
fn verbosity_shown(verbosity: Verbosity) -> &'static str {
    match verbosity {
        Verbosity::Quiet => ";quiet",
        Verbosity::Taciturn => "",
        Verbosity::Loquacious => ";loquacious",
        Verbosity::Grandiloquent => ";grandiloquent",
    }
}

/// How the justfile is found: a name, and up to two paths.
fn search_parts(
    search: &SearchConfig,
) -> (&'static str, Option<&Utf8PathBuf>, Option<&Utf8PathBuf>) {
    match search {
        SearchConfig::FromInvocationDirectory => ("here", None, None),
        SearchConfig::FromSearchDirectory(path) => ("from ", Some(path), None),
        SearchConfig::GlobalJustfile => ("global", None, None),
        SearchConfig::StandardInput(None) => ("input", None, None),
        SearchConfig::StandardInput(Some(path)) => ("input in ", Some(path), None),
        SearchConfig::WithJustfile(path) => ("file ", Some(path), None),
        SearchConfig::WithJustfileAndWorkingDirectory(path, folder) => {
            ("file ", Some(path), Some(folder))
        }
    }
}

/// Adds a path behind a name, where there is one.
fn push_path(page: &mut Page, name: &str, path: Option<&Utf8PathBuf>) {
    if let Some(path) = path {
        page.push(name);
        page.push(path.as_str());
    }
}

/// Adds how the justfile is found.
fn push_search(page: &mut Page, search: &SearchConfig) {
    let (name, path, folder) = search_parts(search);
    page.push(name);
    push_path(page, "", path);
    push_path(page, " in ", folder);
}

/// Adds texts with commas between, where there are some.
fn push_texts(page: &mut Page, name: &str, texts: &[Text]) {
    let mut mark = name;
    for one in texts {
        page.push(mark);
        page.push(one.as_str());
        mark = ",";
    }
}

/// Adds an override.
fn push_override(page: &mut Page, one: &Override) {
    for component in one.module.components.as_slice() {
        page.push(component.as_str());
        page.push("::");
    }
    page.push(one.name.as_str());
    page.push("=");
    page.push(one.value.as_str());
}

/// Adds overrides with commas between, where there are some.
fn push_overrides(page: &mut Page, all: &[Override]) {
    let mut mark = ";overrides=";
    for one in all {
        page.push(mark);
        push_override(page, one);
        mark = ",";
    }
}

/// The name of an error, and the text that it is about, where there is one.
fn error_parts(error: &ConfigError) -> (&'static str, Option<&Text>) {
    match error {
        ConfigError::OverridePath { path } => ("OverridePath ", Some(path)),
        ConfigError::Internal { message } => ("Internal ", Some(message)),
        ConfigError::SearchDirConflict => ("SearchDirConflict", None),
        ConfigError::ModulePath { path } => ("ModulePath ", Some(path)),
        ConfigError::RequestParse => ("RequestParse", None),
        ConfigError::SubcommandArguments { subcommand, .. } => {
            ("SubcommandArguments ", Some(subcommand))
        }
        ConfigError::SubcommandOverrides { subcommand, .. } => {
            ("SubcommandOverrides ", Some(subcommand))
        }
        ConfigError::SubcommandOverridesAndArguments { subcommand, .. } => {
            ("SubcommandOverridesAndArguments ", Some(subcommand))
        }
        ConfigError::NoMemory => ("NoMemory", None),
    }
}

/// The overrides that a command doesn't take.
fn surplus_overrides(error: &ConfigError) -> &[Text] {
    match error {
        ConfigError::SubcommandOverrides { overrides, .. } => overrides.as_slice(),
        ConfigError::SubcommandOverridesAndArguments { overrides, .. } => overrides.as_slice(),
        _ => &[],
    }
}

/// The arguments that a command doesn't take.
fn surplus_arguments(error: &ConfigError) -> &[Text] {
    match error {
        ConfigError::SubcommandArguments { arguments, .. } => arguments.as_slice(),
        ConfigError::SubcommandOverridesAndArguments { arguments, .. } => arguments.as_slice(),
        _ => &[],
    }
}

/// Adds an error.
fn push_error(page: &mut Page, error: &ConfigError) {
    let (name, about) = error_parts(error);
    page.push(name);
    if let Some(about) = about {
        page.push(about.as_str());
    }
    push_texts(page, ";overrides=", surplus_overrides(error));
    push_texts(page, ";arguments=", surplus_arguments(error));
}
