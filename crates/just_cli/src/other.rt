//! What is done for words that ask for no run.

ghost use Rattle.std.specs.Prelude.{◌≡◌, IfOk};
ghost use Rattle.just_cli.specs.Other.{Does};
ghost use Rattle.just_cli.specs.Questions.{version_line, IsShown};
ghost use Rattle.just_cli.specs.Tasks.{HasPath};

use super::clean::clean;
use super::failure::fail;
use super::init::write_justfile;
use super::init_text::INIT_JUSTFILE;
use super::invoke::invoke;
use super::printing::{done, print};
use super::show::show;
use super::task::Other;
use super::vectors::show_vectors;
use super::{Ended, Error};
use just_config::{HELP, Version};
use just_host::Host;
use just_path_text::{NoMemory, Seq, Text};
use std::alloc::Global;
use std::sync::Wait;
use std::thread::Threads;

/// The line of the version.
fn version(alloc: Global) -> Result<Text, NoMemory>
    ensures { IfOk result (λ t. t ≡ version_line) }
{
    Ok(Text::from(format!(in alloc; "just {}\n", Version::current())?))
}

/// Prints the line of the version to standard output.
fn show_version<H: Host>(alloc: Global, host: H) -> Ended<H>
    ensures { IsShown version_line (H.told host) (H.told result.host) result.result }
{
    match version(alloc) {
        Ok(line) => show(alloc, host, line.as_str()),
        Err(NoMemory) => fail(alloc, host, Error::NoMemory, false, None, Seq::new(alloc)),
    }
}

/// Does what words ask for that is no run: prints a text to standard output, that of a run over a host in memory too,
/// writes a justfile, cleans a cache, or runs a child alone. It waits for that child.
pub(crate) fn do_other<R: Threads + Wait + Sync, H: Host>(
    rt: &R,
    alloc: Global,
    host: H,
    other: Other,
    quiet: bool,
) -> Ended<H>
    requires path { HasPath other }
    ensures { Does other quiet (H.told host) (H.told result.host) result.result }
{
    match other {
        Other::Help => show(alloc, host, HELP),
        Other::Version => show_version(alloc, host),
        Other::Init(path) => write_justfile(alloc, host, path, INIT_JUSTFILE, quiet),
        Other::Show(printed) => print(alloc, host, printed, quiet),
        Other::Nothing => done(alloc, host),
        Other::Write(path, text) => write_justfile(alloc, host, path, text.as_str(), quiet),
        Other::Clean(folder, path) => clean(alloc, host, folder, path, quiet),
        Other::Invoke(child) => invoke(alloc, host, child, quiet),
        Other::Vectors(count) => show_vectors(rt, alloc, host, count, quiet),
    }
}
