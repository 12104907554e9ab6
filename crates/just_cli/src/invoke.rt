//! A child that is run alone in the place of a run.

ghost use Rattle.just_cli.specs.Invoked.{IsInvoked};
ghost use Rattle.just_cli.specs.Tasks.{HasNoScript};

use super::Ended;
use super::failure::fail;
use super::printing::done;
use just_cli_children::{Child, run_alone};
use just_host::Host;
use just_path_text::Seq;
use std::alloc::Global;

/// Runs a child alone, in the place of a run, and waits for it.
pub(crate) fn invoke<H: Host>(alloc: Global, host: H, child: Child, quiet: bool) -> Ended<H>
    requires alone { HasNoScript child }
    ensures { IsInvoked child quiet (H.told host) (H.told result.host) result.result }
{
    let mut host = host;
    match run_alone(&mut host, child) {
        Ok(()) => done(alloc, host),
        Err(error) => fail(alloc, host, error, quiet, None, Seq::new(alloc)),
    }
}
