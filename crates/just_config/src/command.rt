//! What a command takes.
ghost use Rattle.std.specs.Prelude.{◌≡◌};
ghost use Rattle.std.specs.Option.{option_copied};
ghost use Rattle.just_config.specs.Commands.{name_of, path_words, is_empty_command, request_words, surplus_arguments, surplus_overrides};

use super::Subcommand;
use just_lang_types::Override;
use just_path_text::{Seq, Text};

/// Its name in texts: the first long one, but `format` for `--fmt`.
pub(crate) fn name_of(subcommand: &Subcommand) -> &'static str
    ensures { result.now ≡ name_of subcommand.now }
{
    match subcommand {
        Subcommand::Choose(_) => "choose",
        Subcommand::Clean(_) => "clean",
        Subcommand::Command(_) => "command",
        Subcommand::Dump(_) => "dump",
        Subcommand::Edit(_) => "edit",
        Subcommand::Evaluate(_) => "evaluate",
        Subcommand::Fmt(_) => "format",
        Subcommand::Groups(_) => "groups",
        Subcommand::Init(_) => "init",
        Subcommand::List(_) => "list",
        Subcommand::Request(_) => "request",
        Subcommand::Show(_) => "show",
        Subcommand::Summary(_) => "summary",
        Subcommand::Usage(_) => "usage",
        Subcommand::Variables(_) => "variables",
        Subcommand::Vectors(_) => "vectors",
    }
}

/// The words that are to be a module path.
pub(crate) fn path_words(subcommand: &Subcommand) -> Option<&Seq<Text>>
    ensures { option_copied result ≡ path_words subcommand.now }
{
    match subcommand {
        Subcommand::Clean(words)
        | Subcommand::List(words)
        | Subcommand::Show(words)
        | Subcommand::Usage(words) => Some(words),
        _ => None,
    }
}

/// Whether it is `--command` without words.
pub(crate) fn is_empty_command(subcommand: &Subcommand) -> bool
    ensures { result ≡ is_empty_command subcommand.now }
{
    match subcommand {
        Subcommand::Command(words) => words.is_empty(),
        _ => false,
    }
}

/// The arguments that it doesn't take.
pub(crate) fn surplus_arguments<'a>(subcommand: &Subcommand, arguments: &'a [Text]) -> &'a [Text]
    ensures { result.now ≡ surplus_arguments subcommand.now arguments.now }
{
    match subcommand {
        Subcommand::Clean(_)
        | Subcommand::Command(_)
        | Subcommand::List(_)
        | Subcommand::Show(_)
        | Subcommand::Usage(_) => &[],
        Subcommand::Evaluate(_) => match arguments {
            [_, others @ ..] => others,
            [] => &[],
        },
        Subcommand::Choose(_)
        | Subcommand::Dump(_)
        | Subcommand::Edit(_)
        | Subcommand::Fmt(_)
        | Subcommand::Groups(_)
        | Subcommand::Init(_)
        | Subcommand::Request(_)
        | Subcommand::Summary(_)
        | Subcommand::Variables(_)
        | Subcommand::Vectors(_) => arguments,
    }
}

/// The words that are to be one request.
pub(crate) fn request_words(subcommand: &Subcommand) -> Option<&Seq<Text>>
    ensures { option_copied result ≡ request_words subcommand.now }
{
    match subcommand {
        Subcommand::Request(words) => Some(words),
        _ => None,
    }
}

/// The overrides that it doesn't take.
pub(crate) fn surplus_overrides<'a>(
    subcommand: &Subcommand,
    overrides: &'a [Override],
) -> &'a [Override]
    ensures { result.now ≡ surplus_overrides subcommand.now overrides.now }
{
    match subcommand {
        Subcommand::Choose(_)
        | Subcommand::Clean(_)
        | Subcommand::Command(_)
        | Subcommand::Evaluate(_)
        | Subcommand::List(_)
        | Subcommand::Show(_)
        | Subcommand::Usage(_) => &[],
        Subcommand::Dump(_)
        | Subcommand::Edit(_)
        | Subcommand::Fmt(_)
        | Subcommand::Groups(_)
        | Subcommand::Init(_)
        | Subcommand::Request(_)
        | Subcommand::Summary(_)
        | Subcommand::Variables(_)
        | Subcommand::Vectors(_) => overrides,
    }
}
