//! The search for a justfile over two hosts.

use just_config::{Config, ConfigError, Read, read_words};
use just_env::SearchError;
use just_host::Host;
use just_path::Utf8PathBuf;
use just_path_text::{Environ, NoMemory, Seq};
use just_search::{Location, Origin, find};
use std::alloc::Global;

/// A search from a folder upwards.
pub(crate) struct Asked {
    /// The folder in which the program is called.
    pub(crate) called: String,
    /// The path in front of the words, which ends with a slash; empty where the search is from the folder of the call.
    pub(crate) prefix: String,
    /// The last folder that is searched.
    pub(crate) ceiling: String,
    /// Names that are looked for, with commas between; empty where the usual ones are.
    pub(crate) names: String,
}

impl Drop for Asked {
    fn drop(self) {
        let Asked {
            called: _,
            prefix: _,
            ceiling: _,
            names: _,
        } = self;
    }
}

/// What words give as a configuration.
struct Configured {
    answer: Result<Config, ConfigError>,
}

impl Drop for Configured {
    fn drop(self) {
        let Configured { answer: _ } = self;
    }
}

/// How a search ended.
struct Ended {
    answer: Result<Location, SearchError>,
}

impl Drop for Ended {
    fn drop(self) {
        let Ended { answer: _ } = self;
    }
}

/// The configuration of a search.
fn searching(alloc: Global, asked: &Asked) -> Result<Configured, NoMemory> {
    let folder = Utf8PathBuf::from_str(alloc, asked.called.as_str())?;
    let (ceiling, prefix) = (asked.ceiling.as_str(), asked.prefix.as_str());
    let names = asked.names.as_str();
    match (names.is_empty(), prefix.is_empty()) {
        (true, true) => of_words(alloc, &["--ceiling", ceiling], folder),
        (true, false) => of_words(alloc, &["--ceiling", ceiling, prefix], folder),
        (false, true) => {
            let words = ["--ceiling", ceiling, "--justfile-name", names];
            of_words(alloc, &words, folder)
        }
        (false, false) => {
            let words = ["--ceiling", ceiling, "--justfile-name", names, prefix];
            of_words(alloc, &words, folder)
        }
    }
}

/// The configuration of words in a folder; where they have none, memory is told to be wanting, so that the test fails.
fn of_words(alloc: Global, words: &[&str], folder: Utf8PathBuf) -> Result<Configured, NoMemory> {
    let environ = Environ {
        pairs: Seq::new(alloc),
    };
    match read_words(alloc, words, &environ) {
        Ok(Read::Go(arguments)) => {
            let answer = Config::from_arguments(alloc, arguments, folder);
            Ok(Configured { answer })
        }
        other => {
            drop(other);
            Err(NoMemory)
        }
    }
}

/// Whether two searches found the same file.
fn same_places(a: &Location, b: &Location) -> bool {
    match (&a.origin, &b.origin) {
        (Origin::File(one), Origin::File(other)) => {
            one.as_str() == other.as_str()
                && a.working_directory.as_str() == b.working_directory.as_str()
        }
        _ => false,
    }
}

/// Whether two searches were refused for the same reason.
fn same_refusals(a: &SearchError, b: &SearchError) -> bool {
    match (a, b) {
        (
            SearchError::FilesystemIo { path: one, io: x },
            SearchError::FilesystemIo { path: other, io: y },
        ) => one.as_str() == other.as_str() && x == y,
        (
            SearchError::MultipleCandidates {
                folder: one,
                candidates: xs,
            },
            SearchError::MultipleCandidates {
                folder: other,
                candidates: ys,
            },
        ) => one.as_str() == other.as_str() && xs.as_slice() == ys.as_slice(),
        (SearchError::NotFound, SearchError::NotFound) => true,
        _ => false,
    }
}

/// Whether two searches ended alike.
fn same_ends(a: &Ended, b: &Ended) -> bool {
    match (&a.answer, &b.answer) {
        (Ok(a), Ok(b)) => same_places(a, b),
        (Err(a), Err(b)) => same_refusals(a, b),
        _ => false,
    }
}

/// How a search ends over a host.
fn end_of<H: Host>(alloc: Global, config: &Config, host: &mut H) -> Ended {
    let answer = find(alloc, config, host);
    Ended { answer }
}

/// Whether a search of a configuration ends alike over two hosts.
fn same_over<A: Host, B: Host>(alloc: Global, config: &Config, one: &mut A, other: &mut B) -> bool {
    let first = end_of(alloc, config, one);
    let second = end_of(alloc, config, other);
    same_ends(&first, &second)
}

/// Whether a search ends alike over two hosts.
pub(crate) fn search_alike<A: Host, B: Host>(
    alloc: Global,
    one: &mut A,
    other: &mut B,
    asked: &Asked,
) -> Result<bool, NoMemory> {
    let configured = searching(alloc, asked)?;
    match &configured.answer {
        Ok(config) => Ok(same_over(alloc, config, one, other)),
        Err(_) => Err(NoMemory),
    }
}
