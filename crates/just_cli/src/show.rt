//! What is printed in the place of a run.

ghost use Rattle.std.specs.Prelude.{◌≡◌, []};
ghost use Rattle.just_cli.specs.Questions.{IsShown};

use super::failure::fail;
use super::{Ended, Error, Report};
use just_cli_children::print_error;
use just_host::{Host, Stream};
use just_path_text::Seq;
use just_sched::Plan;
use std::alloc::Global;

/// The plan of no node.
pub(crate) fn empty_plan(alloc: Global) -> Plan
    ensures nodes { result.nodes ≡ [] }
    ensures invocations { result.invocations ≡ [] }
{
    Plan {
        nodes: Seq::new(alloc),
        invocations: Seq::new(alloc),
    }
}

/// Prints a text to standard output, in the place of a run.
pub(crate) fn show<H: Host>(alloc: Global, host: H, text: &str) -> Ended<H>
    ensures { IsShown text.now (H.told host) (H.told result.host) result.result }
{
    let mut host = host;
    match host.print(Stream::Out, text) {
        Ok(()) => Ended {
            host,
            result: Ok(Report {
                plan: empty_plan(alloc),
                history: Seq::new(alloc),
            }),
        },
        Err(fault) => fail(
            alloc,
            host,
            print_error(fault),
            false,
            None,
            Seq::new(alloc),
        ),
    }
}
