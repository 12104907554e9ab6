//! A text that a command prints.

ghost use Rattle.std.specs.Prelude.{ℕ, List, Some, ◌≡◌, ◌++◌, ◌∷◌, false, IfOk, IfErr};
ghost use Rattle.just_host_record.specs.declared.entry.Entry.TheVariants as entry;
ghost use Rattle.just_host_record.specs.declared.entry.Stream.TheVariants as stream;
ghost use Rattle.just_cli_children.specs.Faults.{entries_of};
ghost use Rattle.just_cli.specs.Printing.{told_line, told_beside, IsPrintError, IsUnprintedBy, IsPrinted, IsIdle};

use super::failure::fail;
use super::show::empty_plan;
use super::{Ended, Error, Report};
use just_cli_children::print_error;
use just_cli_texts::Printed;
use just_host::{Host, Stream};
use just_path_text::{Seq, Text};
use std::alloc::Global;

/// Tells a line on standard error, unless the words ask for quiet.
#[tactic(auto, using(crate::proofs::NewJustfile::line_quiet, crate::proofs::NewJustfile::line_told))]
pub(crate) fn tell_line<H: Host>(host: &mut H, quiet: bool, line: &str) -> Result<(), Error>
    ensures told { IfOk result (λ _. (H.told host.new).entries
        ≡ (H.told host.old).entries ++ told_line quiet line.now) }
    ensures untold { IfErr result (λ e. (quiet ≡ false) × IsPrintError e
        × ((H.told host.new).entries ≡ (H.told host.old).entries ++ entries_of e)) }
    ensures world { (H.told host.new).world ≡ (H.told host.old).world }
{
    if quiet {
        return Ok(());
    }
    match host.print(Stream::Err, line) {
        Ok(()) => Ok(()),
        Err(fault) => Err(print_error(fault)),
    }
}

/// Tells what is told beside a text, if something is.
fn tell_beside<H: Host>(host: &mut H, quiet: bool, told: &Option<Text>) -> Result<(), Error>
    ensures told { IfOk result (λ _. (H.told host.new).entries
        ≡ (H.told host.old).entries ++ told_beside quiet told.now) }
    ensures untold { IfErr result (λ e. (line : List ℕ) × (told.now ≡ Some line)
        × (quiet ≡ false) × IsPrintError e
        × ((H.told host.new).entries ≡ (H.told host.old).entries ++ entries_of e)) }
    ensures world { (H.told host.new).world ≡ (H.told host.old).world }
{
    match told {
        Some(line) => tell_line(host, quiet, line.as_str()),
        None => Ok(()),
    }
}

/// Prints a text to standard output, and tells what is told beside it.
fn print_both<H: Host>(host: &mut H, printed: &Printed, quiet: bool) -> Result<(), Error>
    ensures printed { IfOk result (λ _. (H.told host.new).entries ≡ (H.told host.old).entries
        ++ entry.Printed stream.Out printed.now.text ∷ told_beside quiet printed.now.told) }
    ensures unprinted { IfErr result (λ e. IsUnprintedBy printed.now quiet e
        (H.told host.old).entries (H.told host.new).entries) }
    ensures world { (H.told host.new).world ≡ (H.told host.old).world }
{
    match host.print(Stream::Out, printed.text.as_str()) {
        Ok(()) => tell_beside(host, quiet, &printed.told),
        Err(fault) => Err(print_error(fault)),
    }
}

/// The end of what is no run, and was done.
pub(crate) fn done<H: Host>(alloc: Global, host: H) -> Ended<H>
    ensures { IsIdle (H.told host) (H.told result.host) result.result }
{
    Ended {
        host,
        result: Ok(Report {
            plan: empty_plan(alloc),
            history: Seq::new(alloc),
        }),
    }
}

/// Prints what a command prints, in the place of a run.
pub(crate) fn print<H: Host>(alloc: Global, host: H, printed: Printed, quiet: bool) -> Ended<H>
    ensures { IsPrinted printed quiet (H.told host) (H.told result.host) result.result }
{
    let mut host = host;
    let shown = print_both(&mut host, &printed, quiet);
    drop(printed);
    match shown {
        Ok(()) => done(alloc, host),
        Err(error) => fail(alloc, host, error, quiet, None, Seq::new(alloc)),
    }
}
