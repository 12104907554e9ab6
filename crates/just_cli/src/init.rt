//! A justfile that is written: the one of `--init`, or one that is written anew.

ghost use Rattle.std.specs.Prelude.{◌≡◌, ◌++◌, [], List, Result, Ok, Err, IfOk, IfErr, MatchResult, string_bytes};
ghost use Rattle.just_path.specs.Path.{text_of};
ghost use Rattle.just_host_record.specs.declared.entry.Entry.{Entry};
ghost use Rattle.just_cli_plan.specs.Own.{OrMemory};
ghost use Rattle.just_cli_children.specs.Faults.{entries_of};
ghost use Rattle.just_cli.specs.NewPath.{is_written_to, FindsPath, IsFree, FindsFree};
ghost use Rattle.just_cli.specs.Preparing.{AreMisses, EndsWith};
ghost use Rattle.just_cli.specs.Printing.{told_line};
ghost use Rattle.just_cli.specs.Written.{written_line, Writes, IsUnwritten, IsWritten};

use super::failure::fail;
use super::printing::{done, tell_line};
use super::{Ended, Error};
use just_cli_children::write_error;
use just_config::Config;
use just_host::{Call, Host, HostFault};
use just_path::{Kind, PathFault, Utf8Path, Utf8PathBuf};
use just_path_text::{NoMemory, Seq};
use just_search::Search;
use std::alloc::Global;

/// Whether it is a file, or what is written as one.
fn is_written_to(kind: Kind) -> bool
    ensures { result ≡ is_written_to kind }
{
    match kind {
        Kind::File | Kind::Other => true,
        Kind::Folder | Kind::Link => false,
    }
}

/// The path where a new justfile is to be written.
#[tactic(auto, using(crate::proofs::NewPath::path_found, crate::proofs::NewPath::path_refused))]
fn find_path<H: Host>(alloc: Global, host: &mut H, config: &Config) -> Result<Utf8PathBuf, Error>
    ensures grew { MatchResult result (λ _. (H.told host.new).entries ≡ (H.told host.old).entries) (λ e. (H.told host.new).entries ≡ (H.told host.old).entries ++ entries_of e) }
    ensures world { (H.told host.new).world ≡ (H.told host.old).world }
    ensures path { IfOk result (λ p. FindsPath (H.told host.old).world config.now (Ok p)) }
    ensures refused { IfErr result (OrMemory (λ e. FindsPath (H.told host.old).world config.now (Err e))) }
{
    match Search::init(alloc, config, host) {
        Ok(search) => Ok(search.justfile),
        Err(error) => Err(Error::from(error)),
    }
}

/// The path, where no file stands at it. The record gains the miss of a path at which nothing stands.
#[tactic(auto, using(crate::proofs::NewPath::shows_found, crate::proofs::NewPath::shows_missed, crate::proofs::NewPath::leaves_nothing, crate::proofs::NewPath::leaves_miss, crate::proofs::NewPath::leaves_refusal))]
fn if_free<H: Host>(host: &mut H, path: Utf8PathBuf) -> Result<Utf8PathBuf, Error>
    ensures grew { (es : List Entry) × ((H.told host.new).entries ≡ (H.told host.old).entries ++ es) × MatchResult result (λ _. AreMisses es) (λ e. EndsWith [] e es) }
    ensures world { (H.told host.new).world ≡ (H.told host.old).world }
    ensures free { IfOk result (λ p. IsFree (H.told host.old).world path (Ok p)) }
    ensures refused { IfErr result (OrMemory (λ e. IsFree (H.told host.old).world path (Err e))) }
{
    match host.meta(path.as_path(), true) {
        Ok(meta) => if is_written_to(meta.kind) {
            Err(Error::InitExists { justfile: path })
        } else {
            Ok(path)
        },
        Err(PathFault::Missed(_)) => Ok(path),
        Err(PathFault::Failed) => Err(Error::FilesystemIo {
            path,
            io: HostFault::Failed(Call::Meta),
        }),
        Err(PathFault::NoMemory) => Err(Error::NoMemory),
    }
}

/// The path where a new justfile is to be written, at which no file stands. The record gains its miss where nothing stands there, and the entry of
/// the refused call.
#[tactic(auto, using(crate::proofs::NewPath::behind_nothing, crate::proofs::NewPath::leaves_refusal))]
pub(crate) fn find_free<H: Host>(
    alloc: Global,
    host: &mut H,
    config: &Config,
) -> Result<Utf8PathBuf, Error>
    ensures grew { (es : List Entry) × ((H.told host.new).entries ≡ (H.told host.old).entries ++ es) × MatchResult result (λ _. AreMisses es) (λ e. EndsWith [] e es) }
    ensures world { (H.told host.new).world ≡ (H.told host.old).world }
    ensures free { IfOk result (λ p. FindsFree (H.told host.old).world config.now (Ok p)) }
    ensures refused { IfErr result (OrMemory (λ e. FindsFree (H.told host.old).world config.now (Err e))) }
{
    let path = match find_path(alloc, host, config) {
        Ok(path) => path,
        Err(error) => return Err(error),
    };
    match if_free(host, path) {
        Ok(path) => Ok(path),
        Err(error) => Err(error),
    }
}

/// The line that tells of a written justfile.
fn written_line(alloc: Global, path: &str) -> Result<String, NoMemory>
    ensures { IfOk result (λ line. string_bytes line ≡ written_line path.now) }
{
    Ok(format!(in alloc; "wrote justfile to `{path}`\n")?)
}

/// Writes a text to the justfile at a path, and tells of it.
fn write<H: Host>(
    alloc: Global,
    host: &mut H,
    path: Utf8PathBuf,
    text: &str,
    quiet: bool,
) -> Result<(), Error>
    ensures written { IfOk result (λ _.
        Writes path text.now (H.told host.old).world (H.told host.new).world (Ok tt)
        × ((H.told host.new).entries
        ≡ (H.told host.old).entries ++ told_line quiet (written_line path))) }
    ensures unwritten { IfErr result (λ e.
        IsUnwritten path text.now quiet (H.told host.old).world (H.told host.new).world e
        × ((H.told host.new).entries ≡ (H.told host.old).entries ++ entries_of e)) }
{
    let line = match written_line(alloc, path.as_str()) {
        Ok(line) => line,
        Err(NoMemory) => return Err(Error::NoMemory),
    };
    match host.write(path.as_path(), text.as_bytes()) {
        Ok(()) => tell_line(host, quiet, line.as_str()),
        Err(fault) => Err(write_error(path, fault)),
    }
}

/// Writes a text to the justfile at a path, in the place of a run, and tells of it on standard error, unless the words ask for quiet.
pub(crate) fn write_justfile<H: Host>(
    alloc: Global,
    host: H,
    path: Utf8PathBuf,
    text: &str,
    quiet: bool,
) -> Ended<H>
    ensures { IsWritten path text.now quiet (H.told host) (H.told result.host) result.result }
{
    let mut host = host;
    match write(alloc, &mut host, path, text, quiet) {
        Ok(()) => done(alloc, host),
        Err(error) => fail(alloc, host, error, quiet, None, Seq::new(alloc)),
    }
}
