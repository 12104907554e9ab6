//! What a run answers that doesn't end well: its error, what is told of it, and its exit code.

ghost use Rattle.std.specs.Prelude.{◌≡◌, ◌++◌, ◌∷◌, [], List, Option, IfOk, string_bytes};
ghost use Rattle.just_host_record.specs.declared.entry.Entry.{Entry};
ghost use Rattle.just_exec.specs.Texts.{error_text};
ghost use Rattle.just_exec.specs.Codes.{exit_code as code_for};
ghost use Rattle.just_cli.specs.Quiet.{tells};
ghost use Rattle.just_cli.specs.Record.{IsTold};

use super::{Ended, Error, Failure};
use just_host::{Host, Stream};
use just_path_text::{NoMemory, Seq};
use just_sched::{Event, Plan};
use std::alloc::Global;

/// The error's text and a newline.
fn message(alloc: Global, error: &Error) -> Result<String, NoMemory>
    ensures { IfOk result (λ s. string_bytes s ≡ error_text error.now ++ 10 ∷ []) }
{
    let mut text = error.text(alloc)?;
    text.push_str("\n")?;
    Ok(text)
}

/// Whether the error is told, where the words ask for quiet or don't.
fn tells(quiet: bool, error: &Error) -> bool
    ensures { result ≡ tells quiet error.now }
{
    error.print_message() && (error.prints_always() || !quiet)
}

/// Tells the error on standard error, unless it is one that isn't told. A failed print changes nothing of the answer.
fn tell<H: Host>(alloc: Global, host: &mut H, error: &Error, quiet: bool)
    ensures told { (es : List Entry) × ((H.told host.new).entries ≡ (H.told host.old).entries ++ es) × IsTold quiet error.now es }
    ensures world { (H.told host.new).world ≡ (H.told host.old).world }
{
    if !tells(quiet, error) {
        return;
    }
    match message(alloc, error) {
        Ok(text) => {
            let _ = host.print(Stream::Err, text.as_str());
        }
        Err(NoMemory) => {}
    }
}

/// The end of a run with an error, which is told.
pub(crate) fn fail<H: Host>(
    alloc: Global,
    host: H,
    error: Error,
    quiet: bool,
    plan: Option<Plan>,
    history: Seq<Event>,
) -> Ended<H>
    ensures failed { result.result ≡ Err (record { error = error; plan = plan; history = history; code = code_for error }) }
    ensures told { (es : List Entry) × ((H.told result.host).entries ≡ (H.told host).entries ++ es) × IsTold quiet error es }
    ensures world { (H.told result.host).world ≡ (H.told host).world }
{
    let mut host = host;
    tell(alloc, &mut host, &error, quiet);
    let code = error.exit_code();
    Ended {
        host,
        result: Err(Failure {
            error,
            plan,
            history,
            code,
        }),
    }
}
