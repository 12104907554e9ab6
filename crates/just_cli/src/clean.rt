//! A cache that is cleaned.

ghost use Rattle.std.specs.Prelude.{◌≡◌, ◌++◌, IfOk, IfErr, string_bytes};
ghost use Rattle.std.specs.Option.{option_copied};
ghost use Rattle.just_cli.specs.Cleaning.{cleaned_line, IsCleaned, IsTidied, IsUntidied};
ghost use Rattle.just_cli_children.specs.Faults.{entries_of};
ghost use Rattle.just_cli.specs.Printing.{told_line, IsUntold};
ghost use Rattle.just_cli.specs.Tasks.{IsPathOrNone};

use super::failure::fail;
use super::printing::{done, tell_line};
use super::{Ended, Error};
use just_cache_clean::{Cleaned, clean_entries};
use just_host::Host;
use just_lang_types::Modulepath;
use just_path::Utf8PathBuf;
use just_path_text::{NoMemory, Seq};
use std::alloc::Global;

/// The line that tells of a cleaned cache.
#[tactic(auto, using(crate::proofs::CleaningLaws::one_entry, crate::proofs::CleaningLaws::more_entries))]
fn cleaned_line(alloc: Global, cleaned: Cleaned) -> Result<String, NoMemory>
    ensures { IfOk result (λ line. string_bytes line ≡ cleaned_line cleaned) }
{
    match cleaned {
        Cleaned::NotFound => Ok(String::from_str(alloc, "recipe cache not found\n")?),
        Cleaned::Removed(count) => {
            if count == 1 {
                return Ok(format!(in alloc; "removed {count} cache entry\n")?);
            }
            Ok(format!(in alloc; "removed {count} cache entries\n")?)
        }
    }
}

/// A path where there is one, borrowed.
fn borrowed(path: &Option<Modulepath>) -> Option<&Modulepath>
    ensures { option_copied result ≡ path.now }
{
    match path {
        Some(path) => Some(path),
        None => None,
    }
}

/// Tells of a cleaned cache.
fn tell_cleaned<H: Host>(
    alloc: Global,
    host: &mut H,
    cleaned: Cleaned,
    quiet: bool,
) -> Result<(), Error>
    ensures told { IfOk result (λ _. (H.told host.new).entries
        ≡ (H.told host.old).entries ++ told_line quiet (cleaned_line cleaned)) }
    ensures untold { IfErr result (λ e. IsUntold quiet e
        × ((H.told host.new).entries ≡ (H.told host.old).entries ++ entries_of e)) }
    ensures world { (H.told host.new).world ≡ (H.told host.old).world }
{
    let line = match cleaned_line(alloc, cleaned) {
        Ok(line) => line,
        Err(NoMemory) => return Err(Error::NoMemory),
    };
    match tell_line(host, quiet, line.as_str()) {
        Ok(()) => Ok(()),
        Err(error) => Err(error),
    }
}

/// The entries of a cache go, and it is told of.
fn tidy<H: Host>(
    alloc: Global,
    host: &mut H,
    folder: &Utf8PathBuf,
    path: &Option<Modulepath>,
    quiet: bool,
) -> Result<(), Error>
    requires { IsPathOrNone path.now }
    ensures tidied { IfOk result (λ _. IsTidied folder.now path.now quiet
        (H.told host.old) (H.told host.new)) }
    ensures untidied { IfErr result (IsUntidied folder.now path.now quiet
        (H.told host.old) (H.told host.new)) }
{
    match clean_entries(alloc, folder.as_path(), borrowed(path), host) {
        Ok(cleaned) => tell_cleaned(alloc, host, cleaned, quiet),
        Err(refused) => Err(Error::from(refused)),
    }
}

/// Cleans a cache in the place of a run, and tells of it on standard error, unless the words ask for quiet.
pub(crate) fn clean<H: Host>(
    alloc: Global,
    host: H,
    folder: Utf8PathBuf,
    path: Option<Modulepath>,
    quiet: bool,
) -> Ended<H>
    requires path { IsPathOrNone path }
    ensures { IsCleaned folder path quiet (H.told host) (H.told result.host) result.result }
{
    let mut host = host;
    let tidied = tidy(alloc, &mut host, &folder, &path, quiet);
    drop(folder);
    drop(path);
    match tidied {
        Ok(()) => done(alloc, host),
        Err(error) => fail(alloc, host, error, quiet, None, Seq::new(alloc)),
    }
}
