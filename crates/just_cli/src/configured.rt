//! From the words to their configuration.

ghost use Rattle.std.specs.Prelude.{◌≡◌, None, map, IfOk, IfErr, Ok, Err};
ghost use Rattle.just_path_text.specs.declared.environ.Environ.{Environ};
ghost use Rattle.just_config_words.specs.Words.{Means};
ghost use Rattle.just_config.specs.Config.{refusal, config_of};
ghost use Rattle.just_cli_plan.specs.Own.{OrMemory};
ghost use Rattle.just_cli.specs.Words.{ReadsWords, Configures};

use super::Error;
use just_config::{Arguments, Config, Read, read_words};
use just_path::Utf8PathBuf;
use just_path_text::Environ;
use std::alloc::Global;

/// What the words ask for, with the variables of the environment.
#[tactic(auto, using(crate::proofs::Refusals::words_refused_by))]
pub(crate) fn read(alloc: Global, words: &[&str], environ: &Environ) -> Result<Read, Error>
    ensures read { IfOk result (λ r. Means (map (λ w. w.now) words.now) environ.now.pairs (Ok r)) }
    ensures refused { IfErr result (OrMemory (λ e. ReadsWords (record { words = map (λ w. w.now) words.now; environ = environ.now }) (Err e))) }
{
    match read_words(alloc, words, environ) {
        Ok(read) => Ok(read),
        Err(usage) => Err(Error::from(usage)),
    }
}

/// The configuration that arguments give in the folder where they were given.
pub(crate) fn configure(
    alloc: Global,
    arguments: Arguments,
    folder: Utf8PathBuf,
) -> Result<Config, Error>
    ensures gives { IfOk result (λ c. (refusal arguments ≡ None) × (c ≡ config_of arguments folder)) }
    ensures config { IfOk result (λ c. (environ : Environ) → Configures (record { arguments = arguments; environ = environ; folder = folder }) (Ok (record { config = c; environ = environ }))) }
    ensures refused { IfErr result (OrMemory (λ e. (environ : Environ) → Configures (record { arguments = arguments; environ = environ; folder = folder }) (Err e))) }
{
    match Config::from_arguments(alloc, arguments, folder) {
        Ok(config) => Ok(config),
        Err(error) => Err(Error::from(error)),
    }
}
