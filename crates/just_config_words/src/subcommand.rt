//! What is done in place of a run.
ghost use Rattle.std.specs.Prelude.{◌≡◌, IfOk};
ghost use Rattle.just_config_words.specs.Arguments.{subcommand_named, subcommand_in};

use super::Occurrence;
use just_path_text::{NoMemory, Seq, Text};

/// What is done in place of a run, with the words of the command.
pub enum Subcommand {
    /// `--choose`.
    Choose(Seq<Text>),
    /// `--clean`.
    Clean(Seq<Text>),
    /// `--command`.
    Command(Seq<Text>),
    /// `--dump`.
    Dump(Seq<Text>),
    /// `--edit`.
    Edit(Seq<Text>),
    /// `--evaluate`.
    Evaluate(Seq<Text>),
    /// `--fmt`.
    Fmt(Seq<Text>),
    /// `--groups`.
    Groups(Seq<Text>),
    /// `--init`.
    Init(Seq<Text>),
    /// `--list`.
    List(Seq<Text>),
    /// `--request`.
    Request(Seq<Text>),
    /// `--show`.
    Show(Seq<Text>),
    /// `--summary`.
    Summary(Seq<Text>),
    /// `--usage`.
    Usage(Seq<Text>),
    /// `--variables`.
    Variables(Seq<Text>),
    /// `--vectors`.
    Vectors(Seq<Text>),
}

impl Drop for Subcommand {
    fn drop(self) {
        match self {
            Subcommand::Choose(_)
            | Subcommand::Clean(_)
            | Subcommand::Command(_)
            | Subcommand::Dump(_)
            | Subcommand::Edit(_)
            | Subcommand::Evaluate(_)
            | Subcommand::Fmt(_)
            | Subcommand::Groups(_)
            | Subcommand::Init(_)
            | Subcommand::List(_)
            | Subcommand::Request(_)
            | Subcommand::Show(_)
            | Subcommand::Summary(_)
            | Subcommand::Usage(_)
            | Subcommand::Variables(_)
            | Subcommand::Vectors(_) => {}
        }
    }
}

/// The command of that name, with these words.
fn subcommand_named(name: &str, words: Seq<Text>) -> Option<Subcommand>
    ensures { result ≡ subcommand_named name.now words }
{
    match name {
        "choose" => Some(Subcommand::Choose(words)),
        "clean" => Some(Subcommand::Clean(words)),
        "command" => Some(Subcommand::Command(words)),
        "dump" => Some(Subcommand::Dump(words)),
        "edit" => Some(Subcommand::Edit(words)),
        "evaluate" => Some(Subcommand::Evaluate(words)),
        "fmt" => Some(Subcommand::Fmt(words)),
        "groups" => Some(Subcommand::Groups(words)),
        "init" => Some(Subcommand::Init(words)),
        "list" => Some(Subcommand::List(words)),
        "request" => Some(Subcommand::Request(words)),
        "show" => Some(Subcommand::Show(words)),
        "summary" => Some(Subcommand::Summary(words)),
        "usage" => Some(Subcommand::Usage(words)),
        "variables" => Some(Subcommand::Variables(words)),
        "vectors" => Some(Subcommand::Vectors(words)),
        _ => None,
    }
}

/// The command that is given, with its words.
pub(crate) fn subcommand_in(filled: &[Occurrence]) -> Result<Option<Subcommand>, NoMemory>
    ensures { IfOk result (λ c. c ≡ subcommand_in filled.now) }
{
    'filled: for occurrence in filled {
        if occurrence.option.kind.is_command() {
            let words = occurrence.values.try_clone()?;
            return Ok(subcommand_named(occurrence.option.name.as_str(), words));
        }
    }
    Ok(None)
}
