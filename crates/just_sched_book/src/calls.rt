//! The calls of a host that the events of a body stand for.

ghost use Rattle.std.specs.Prelude.{◌≡◌, ◌<◌, ◌++◌, List, length, Option, Some, is_some, true, false, IfOk};
ghost use Rattle.std.specs.List.{list_any};
ghost use Rattle.std.specs.Option.{option_copied};
ghost use Rattle.std.specs.Str.{str_eq_ignore_ascii_case};
ghost use Rattle.just_host_record.specs.declared.entry.Entry.{Entry};
ghost use Rattle.just_host_record.specs.Record.{children, is_failed};
ghost use Rattle.just_sched_history.specs.Match.{is_yes as confirms};
ghost use Rattle.just_sched_history.specs.Nodes.{prompt_at, banner_at, command_at};
ghost use Rattle.just_sched_book.specs.Gains.{Gains, TellGains, AskGains, StartGains, IfRefused};

use just_exec_work::command;
use just_host_record::{Call, Host, HostFault, Stream};
use just_sched_history::{Command, Plan, Reason};

/// What is printed as the node's body begins.
pub(crate) fn banner(plan: &Plan, node: u32) -> &str
    requires { node < length plan.now.nodes }
    ensures { result.now ≡ banner_at plan.now.nodes node }
{
    plan.nodes.as_slice()[node as usize].banner.as_str()
}

/// The command of a node at a place.
pub(crate) fn planned(plan: &Plan, node: u32, place: usize) -> Option<&Command>
    ensures { option_copied result ≡ command_at plan.now.nodes node place }
{
    match plan.nodes.as_slice().get(node as usize) {
        Some(planned) => command(&planned.work, place),
        None => None,
    }
}

/// Prints a text to standard error, where it isn't empty.
pub(crate) fn tell<H: Host>(host: &mut H, text: &str) -> Result<(), Reason>
    ensures gains { Gains (H.told host.old) (H.told host.new) (TellGains text.now result) }
    ensures world { (H.told host.new).world ≡ (H.told host.old).world }
    ensures spare { H.spare host.new ≡ H.spare host.old }
{
    if text.is_empty() {
        return Ok(());
    }
    match host.print(Stream::Err, text) {
        Ok(()) => Ok(()),
        Err(HostFault::Failed(_)) => Err(Reason::Fault(Call::Print)),
        Err(HostFault::Missed(_)) | Err(HostFault::NoMemory) => Err(Reason::NoMemory),
    }
}

/// What the node asks.
pub(crate) fn prompt(plan: &Plan, node: u32) -> &str
    requires within { node < length plan.now.nodes }
    requires prompted { is_some (prompt_at plan.now.nodes node) ≡ true }
    ensures { prompt_at plan.now.nodes node ≡ Some result.now }
{
    match &plan.nodes.as_slice()[node as usize].prompt {
        Some(prompt) => prompt.as_str(),
        None => unreachable!(),
    }
}

/// Whether the text is the word, but for the case of its letters.
fn is_word(text: &str, word: &str) -> bool
    ensures { result ≡ str_eq_ignore_ascii_case text.now word.now }
{
    text.eq_ignore_ascii_case(word)
}

/// Whether the answer to a prompt confirms.
fn is_yes(answer: &str) -> bool
    ensures { result ≡ confirms answer.now }
{
    let word = answer.trim();
    let short = is_word(word, "y");
    let long = is_word(word, "yes");
    short || long
}

/// Asks a prompt; whether the answer confirms.
pub(crate) fn ask<H: Host>(host: &mut H, prompt: &str) -> Result<bool, Reason>
    ensures gains { Gains (H.told host.old) (H.told host.new) (AskGains prompt.now result) }
    ensures world { (H.told host.new).world ≡ (H.told host.old).world }
    ensures spare { H.spare host.new ≡ H.spare host.old }
{
    match host.ask(prompt) {
        Ok(answer) => Ok(is_yes(answer.as_str())),
        Err(HostFault::Failed(_)) => Err(Reason::Fault(Call::Ask)),
        Err(HostFault::Missed(miss)) => Err(Reason::Place(Call::Ask, miss)),
        Err(HostFault::NoMemory) => Err(Reason::NoMemory),
    }
}

/// Prints a command's echo, and starts its child.
pub(crate) fn start_child<H: Host>(host: &mut H, command: &Command) -> Result<H::Child, Reason>
    ensures gains { (es : List Entry) × ((H.told host.new).entries ≡ (H.told host.old).entries ++ es)
        × StartGains H.child_number command.now result es
        × IfRefused result (list_any is_failed es ≡ false → (H.told host.new).world ≡ (H.told host.old).world) }
    ensures number { IfOk result (λ c. H.child_number c ≡ children (H.told host.old).entries) }
    ensures spare { H.spare host.new ≡ H.spare host.old }
{
    if let Err(reason) = tell(host, command.echo.as_str()) {
        return Err(reason);
    }
    match host.start(&command.spec) {
        Ok(child) => Ok(child),
        Err(HostFault::Failed(call)) => Err(Reason::Fault(call)),
        Err(HostFault::Missed(miss)) => Err(Reason::Place(Call::Temp, miss)),
        Err(HostFault::NoMemory) => Err(Reason::NoMemory),
    }
}
