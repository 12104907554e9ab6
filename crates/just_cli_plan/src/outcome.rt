//! The error of a node that failed.

ghost use Rattle.std.specs.Prelude.{◌≡◌, true, [], None, codes, length, IfOk, IfErr};
ghost use Rattle.std.specs.Option.{option_copied};
ghost use Rattle.std.specs.List.{last_or};
ghost use Rattle.just_host_record.specs.Record.{text_or_empty};
ghost use Rattle.just_cli_plan.specs.Outcome.{shown_at, name_of as recipe_name, code_error as error_of_code, status_error as error_of_status, last_error as error_of_last, shell_of as node_shell, script_error as error_of_script, lost_error as error_of_lost, is_told, miss_error as error_of_miss, fault_error as error_of_fault, failure_error as error_of_failure, node_error, copies_text, IsToldAs, IsErrorFor};
ghost use Rattle.just_sched_history.specs.State.{statuses, reason_of as failure_of};

use super::cache_errors::{entry_seen, folder_error, input_error, output_at, saved_error};
use just_exec::{Error, first_of, spaced};
use just_exec_work::{Command, Work, command};
use just_host_record::{Call, HostFault, Spec, Status};
use just_path::{Miss, Utf8PathBuf};
use just_path_text::{NoMemory, Text};
use just_sched_history::{
    Event, Plan, PlanNode, Reason, Verdict, last_status, reason_of, status_count,
};
use std::alloc::Global;

/// The name of a node's recipe.
fn name_of(alloc: Global, node: &PlanNode) -> Result<Text, NoMemory>
    ensures { IfOk result (λ t. t ≡ recipe_name node.now) }
{
    let path = node.node.key.recipe.components.as_slice();
    match path.get(path.len().saturating_sub(1)) {
        Some(name) => name.try_clone(),
        None => Text::from_str(alloc, ""),
    }
}

/// The error of a code of a command that is a guard or none, and stands in a line or in none.
fn code_error(recipe: Text, message: bool, guard: bool, line: Option<usize>, code: i32) -> Error
    ensures { result ≡ error_of_code recipe message guard line code }
{
    match line {
        Some(line) if guard => Error::GuardCode { recipe, line, code },
        _ => Error::Code {
            recipe,
            line,
            code,
            message,
        },
    }
}

/// The error of a recipe one of whose commands ended so.
fn status_error(recipe: Text, message: bool, command: Option<&Command>, status: Status) -> Error
    ensures { result ≡ error_of_status recipe message (option_copied command.entry) status }
{
    let (guard, line) = match command {
        Some(command) => (command.guard, command.line),
        None => (false, None),
    };
    match status {
        Status::Code(code) => code_error(recipe, message, guard, line, code),
        Status::Signal(signal) => Error::Signal {
            recipe,
            line,
            signal,
        },
        Status::Unknown => Error::Unknown { recipe, line },
    }
}

/// The error of the command of the node that ended last.
fn last_error(
    alloc: Global,
    node: &PlanNode,
    message: bool,
    history: &[Event],
    number: u32,
) -> Result<Error, NoMemory>
    ensures error { IfOk result (λ e. e ≡ error_of_last node.now message (statuses history.now number) (last_or None (statuses history.now number))) }
    ensures wanting { IfErr result (λ _. copies_text (error_of_last node.now message (statuses history.now number) (last_or None (statuses history.now number))) ≡ true) }
{
    let Some(status) = last_status(history, number) else {
        return Ok(Error::NoMemory);
    };
    let recipe = name_of(alloc, node)?;
    let last = command(&node.work, status_count(history, number).saturating_sub(1));
    Ok(status_error(recipe, message, last, status))
}

/// The program of the command of the node that was to start, or that ran.
fn shell_of(
    alloc: Global,
    node: &PlanNode,
    history: &[Event],
    number: u32,
) -> Result<Text, NoMemory>
    ensures { IfOk result (λ t. t ≡ node_shell node.now (statuses history.now number)) }
{
    match command(&node.work, status_count(history, number)) {
        Some(command) => command.spec.program.try_clone(),
        None => Text::from_str(alloc, ""),
    }
}

/// The error of a script that couldn't be started or waited for.
fn script_error(alloc: Global, recipe: Text, spec: &Spec, io: HostFault) -> Result<Error, NoMemory>
    ensures error { IfOk result (λ e. e ≡ error_of_script recipe spec.now spec.now.script io) }
{
    let arguments = spec.arguments.as_slice();
    match &spec.script {
        Some(script) if script.run => Ok(Error::Shebang {
            recipe,
            command: spec.program.try_clone()?,
            argument: first_of(arguments)?,
            io,
        }),
        _ => Ok(Error::Script {
            recipe,
            command: spaced(alloc, &spec.program, arguments)?,
            io,
        }),
    }
}

/// The error of a child of the node that couldn't be started or waited for.
fn lost_error(
    alloc: Global,
    node: &PlanNode,
    history: &[Event],
    number: u32,
    io: HostFault,
) -> Result<Error, NoMemory>
    ensures error { IfOk result (λ e. e ≡ error_of_lost node.now (statuses history.now number) node.now.work io) }
    ensures wanting { IfErr result (λ _. copies_text (error_of_lost node.now (statuses history.now number) node.now.work io) ≡ true) }
{
    let recipe = name_of(alloc, node)?;
    match &node.work {
        Work::Script(command) => script_error(alloc, recipe, &command.get().spec, io),
        Work::Lines(_) | Work::Empty => {
            let shell = shell_of(alloc, node, history, number)?;
            Ok(Error::ShellIo { recipe, shell, io })
        }
    }
}

/// The error of a prompt whose answer was missed, on standard input.
fn answer_error(alloc: Global, miss: Miss) -> Result<Error, NoMemory>
    ensures { IfOk result (λ e. e ≡ Error.FilesystemIo (codes "-") (HostFault.Missed miss)) }
{
    Ok(Error::FilesystemIo {
        path: Utf8PathBuf::from(String::from_str(alloc, "-")?),
        io: HostFault::Missed(miss),
    })
}

/// The error of a node's body that a miss of that call ended.
fn miss_error(
    alloc: Global,
    node: &PlanNode,
    history: &[Event],
    number: u32,
    call: Call,
    miss: Miss,
) -> Result<Error, NoMemory>
    ensures error { IfOk result (λ e. e ≡ error_of_miss node.now (shown_at history.now number) call miss) }
    ensures wanting { IfErr result (λ _. copies_text (error_of_miss node.now (shown_at history.now number) call miss) ≡ true) }
{
    match call {
        Call::Ask => answer_error(alloc, miss),
        Call::Temp => Ok(Error::TempdirIo {
            recipe: name_of(alloc, node)?,
            io: HostFault::Missed(miss),
        }),
        Call::Save => saved_error(alloc, node, history, number, miss),
        _ => folder_error(alloc, &node.cache, HostFault::Missed(miss)),
    }
}

/// The error of the node's body that a failure of that call ended.
fn fault_error(
    alloc: Global,
    node: &PlanNode,
    history: &[Event],
    number: u32,
    call: Call,
) -> Result<Error, NoMemory>
    ensures error { IfOk result (λ e. e ≡ error_of_fault node.now (shown_at history.now number) call) }
    ensures wanting { IfErr result (λ _. copies_text (error_of_fault node.now (shown_at history.now number) call) ≡ true) }
{
    let io = HostFault::Failed(call);
    match call {
        Call::Ask => Ok(Error::GetConfirmation { io }),
        Call::Print => Ok(Error::StdoutIo { io }),
        Call::Temp => Ok(Error::TempdirIo {
            recipe: name_of(alloc, node)?,
            io,
        }),
        Call::Start | Call::Wait => lost_error(alloc, node, history, number, io),
        Call::Save => Ok(Error::CacheEntryWrite {
            path: entry_seen(alloc, &node.cache, history, number)?,
            io,
        }),
        _ => folder_error(alloc, &node.cache, io),
    }
}

/// The error of the node that failed for that reason.
fn failure_error(
    alloc: Global,
    node: &PlanNode,
    message: bool,
    history: &[Event],
    number: u32,
    reason: Option<Reason>,
) -> Result<Error, NoMemory>
    ensures error { IfOk result (λ e. e ≡ error_of_failure node.now message (shown_at history.now number) reason) }
    ensures wanting { IfErr result (λ _. copies_text (error_of_failure node.now message (shown_at history.now number) reason) ≡ true) }
{
    match reason {
        Some(Reason::Status) => last_error(alloc, node, message, history, number),
        Some(Reason::NotConfirmed) => Ok(Error::NotConfirmed {
            recipe: name_of(alloc, node)?,
        }),
        Some(Reason::Input(place, miss)) => input_error(alloc, &node.cache, place, miss),
        Some(Reason::Output(place)) => Ok(Error::CacheOutputMissing {
            recipe: name_of(alloc, node)?,
            output: output_at(alloc, &node.cache, place)?,
        }),
        Some(Reason::Place(call, miss)) => miss_error(alloc, node, history, number, call, miss),
        Some(Reason::Fault(call)) => fault_error(alloc, node, history, number, call),
        _ => Ok(Error::NoMemory),
    }
}

/// Whether the message of a node's exit code is told.
fn is_told(messages: &[bool], number: u32) -> bool
    ensures { result ≡ is_told messages.now number }
{
    match messages.get(number as usize) {
        Some(message) => *message,
        None => true,
    }
}

/// The error of the node of that number, which failed.
fn error_of(alloc: Global, plan: &Plan, messages: &[bool], history: &[Event], number: u32) -> Error
    ensures { IsToldAs (node_error plan.now.nodes messages.now history.now number) result }
{
    let Some(node) = plan.nodes.as_slice().get(number as usize) else {
        return Error::NoMemory;
    };
    let message = is_told(messages, number);
    let reason = reason_of(history, number);
    match failure_error(alloc, node, message, history, number, reason) {
        Ok(error) => error,
        Err(NoMemory) => Error::NoMemory,
    }
}

/// The error of a run of that verdict; none where it went well. `messages` says of each node whether the message of its exit code is told.
pub fn error_for(
    alloc: Global,
    plan: &Plan,
    messages: &[bool],
    history: &[Event],
    verdict: Verdict,
) -> Option<Error>
    ensures { IsErrorFor plan.now.nodes messages.now history.now verdict result }
{
    match verdict {
        Verdict::Well => None,
        Verdict::Failed(node) => Some(error_of(alloc, plan, messages, history, node)),
        Verdict::Interrupted(signal) => Some(Error::Interrupted(signal)),
        Verdict::NoMemory => Some(Error::NoMemory),
    }
}
