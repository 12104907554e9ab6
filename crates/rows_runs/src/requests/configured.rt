//! The configuration of words.

use just_config::{Config, ConfigError, Read, read_words};
use just_path::Utf8PathBuf;
use just_path_text::Environ;
use rows_common::{Wrong, words};
use std::alloc::Global;

/// What words give as a configuration.
pub(crate) struct Configured {
    pub(crate) answer: Result<Config, ConfigError>,
}

impl Drop for Configured {
    fn drop(self) {
        let Configured { answer: _ } = self;
    }
}

impl Configured {
    /// What the words of a field, which have no fault, give in a folder. It promises nothing beyond safety.
    pub(crate) fn new(
        alloc: Global,
        field: &str,
        environ: &Environ,
        folder: &str,
    ) -> Result<Configured, Wrong> {
        let texts = words(alloc, field)?;
        let words = lent(alloc, texts.as_slice())?;
        let folder = Utf8PathBuf::from_str(alloc, folder)?;
        of_words(alloc, words.as_slice(), environ, folder)
    }

    /// The configuration; a row without one isn't of the form of its kind. It promises nothing beyond safety.
    pub(crate) fn config(&self) -> Result<&Config, Wrong> {
        match &self.answer {
            Ok(config) => Ok(config),
            Err(_) => Err(Wrong::Form),
        }
    }
}

/// Words, lent.
fn lent(alloc: Global, texts: &[String]) -> Result<Vec<&str>, Wrong> {
    let mut words = Vec::new(alloc);
    for text in texts {
        words.push(text.as_str())?;
    }
    Ok(words)
}

/// What words without a fault give in a folder.
fn of_words(
    alloc: Global,
    words: &[&str],
    environ: &Environ,
    folder: Utf8PathBuf,
) -> Result<Configured, Wrong> {
    match read_words(alloc, words, environ) {
        Ok(Read::Go(arguments)) => {
            let answer = Config::from_arguments(alloc, arguments, folder);
            Ok(Configured { answer })
        }
        other => {
            drop(other);
            Err(Wrong::Form)
        }
    }
}
