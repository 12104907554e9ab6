//! How a configuration lists a project.

ghost use Rattle.std.specs.Prelude.{◌≡◌};
ghost use Rattle.std.specs.Option.{unwrap_or};
ghost use Rattle.just_cli_texts.specs.ListOptions.{style_named, style_of, prefix_of, AreOptionsOf};

use just_config::Config;
use just_path_text::Text;
use just_print_entries::{AliasStyle, ListOptions};

/// The style of other names that a word means.
fn style_named(word: &str) -> AliasStyle
    ensures { result ≡ style_named word.now }
{
    match word {
        "left" => AliasStyle::Left,
        "separate" => AliasStyle::Separate,
        _ => AliasStyle::Right,
    }
}

/// The style in which a configuration shows other names.
fn style_of(config: &Config) -> AliasStyle
    ensures { result ≡ style_of config.now }
{
    if config.no_aliases {
        return AliasStyle::Hidden;
    }
    match &config.alias_style {
        Some(word) => style_named(word.as_str()),
        None => AliasStyle::Right,
    }
}

/// A text, or another one where there is none.
fn text_or<'t>(text: &'t Option<Text>, other: &'t str) -> &'t str
    ensures { result.now ≡ unwrap_or text.now other.now }
{
    match text {
        Some(text) => text.as_str(),
        None => other,
    }
}

/// What stands before each line of a listing.
pub(crate) fn prefix_of(config: &Config) -> &str
    ensures { result.now ≡ prefix_of config.now }
{
    text_or(&config.list_prefix, "    ")
}

/// How a configuration lists a project.
pub(crate) fn list_options(config: &Config) -> ListOptions<'_>
    ensures { AreOptionsOf config.now result }
{
    ListOptions {
        heading: text_or(&config.list_heading, "Available recipes:\n"),
        prefix: prefix_of(config),
        groups: config.group.as_slice(),
        unsorted: config.unsorted,
        alias_style: style_of(config),
        list_submodules: config.list_submodules,
    }
}
