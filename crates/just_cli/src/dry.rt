//! A plan that is told, and not run.

ghost use Rattle.just_cli.specs.Dry.{IsPlanTold};

use super::failure::fail;
use super::{Ended, Report};
use just_cli_children::tell_plan;
use just_host::Host;
use just_path_text::Seq;
use just_sched::Plan;
use std::alloc::Global;

/// Tells on standard error what a run of a plan would, whose commands all end with the code 0, and runs nothing.
pub(crate) fn dry_run<H: Host>(alloc: Global, host: H, plan: Plan, quiet: bool) -> Ended<H>
    ensures { IsPlanTold plan quiet (H.told host) (H.told result.host) result.result }
{
    let mut host = host;
    match tell_plan(&mut host, &plan) {
        Ok(()) => Ended {
            host,
            result: Ok(Report {
                plan,
                history: Seq::new(alloc),
            }),
        },
        Err(error) => {
            drop(plan);
            fail(alloc, host, error, quiet, None, Seq::new(alloc))
        }
    }
}
