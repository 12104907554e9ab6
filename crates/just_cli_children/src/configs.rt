//! The configuration of a run in the place of a command.

ghost use Rattle.std.specs.Prelude.{◌≡◌};
ghost use Rattle.just_cli_children.specs.Configs.{with_words, wanted_with};

use just_cli_plan::Wanted;
use just_config::Config;
use just_path_text::{Seq, Text};

/// A configuration whose command is gone, and whose words are these.
pub fn with_words(config: Config, words: Seq<Text>) -> Config
    ensures { result ≡ with_words config words }
{
    let mut config = config;
    config.arguments = words;
    config.subcommand = None;
    config
}

/// What is asked of a justfile, by these words.
pub fn wanted_with(wanted: Wanted, words: Seq<Text>) -> Wanted
    ensures { result ≡ wanted_with wanted words }
{
    let mut wanted = wanted;
    wanted.words = words;
    wanted
}
