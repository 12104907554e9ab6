//! How a node came to its end, how a command did, and what a look showed, added to a line.
ghost use Rattle.std.specs.Prelude.{◌≡◌, ◌++◌, IfOk, codes, string_bytes};
ghost use Rattle.std.specs.List.{flat_map};
ghost use Rattle.just_sched_lines.specs.Names.{call_name, miss_name};
ghost use Rattle.just_sched_lines.specs.Lines.{look_text, outcome_text, reason_text};
ghost use Rattle.just_sched_lines.specs.Lines.{status_text, sum_text};

use super::names::{call_name, miss_name};
use super::pieces::{push_number, push_signed, push_two};
use just_host_record::{Call, Look, Status};
use just_path::Miss;
use just_sched_history::{Outcome, Reason};
use std::alloc::{AllocError, Global};

/// Adds a blank, and what a look showed.
pub fn push_look(alloc: Global, out: &mut String, look: Look) -> Result<(), AllocError>
    ensures { IfOk result
        (λ _. string_bytes out.new ≡ string_bytes out.old ++ (codes " " ++ look_text look)) }
{
    match look {
        Look::Empty => out.push_str(" empty"),
        Look::OutputMissing(place) => push_number(alloc, out, " missing:", place),
        Look::Full => out.push_str(" full"),
    }
}

/// Adds the digits of sums, a blank before each.
pub fn push_sums(alloc: Global, out: &mut String, sums: &[[u8; 32]]) -> Result<(), AllocError>
    ensures { IfOk result
        (λ _. string_bytes out.new ≡ string_bytes out.old ++ flat_map sum_text sums.now) }
{
    'sums: for sum in sums {
        push_sum(alloc, out, sum)?;
    }
    Ok(())
}

fn push_sum(alloc: Global, out: &mut String, sum: &[u8; 32]) -> Result<(), AllocError>
    ensures { IfOk result
        (λ _. string_bytes out.new ≡ string_bytes out.old ++ sum_text sum.now) }
{
    let digits = hex::encode(alloc, *sum)?;
    push_two(out, " ", digits.as_str())
}

/// Adds a blank, and how a command ended.
pub fn push_status(out: &mut String, status: Status) -> Result<(), AllocError>
    ensures { IfOk result
        (λ _. string_bytes out.new
        ≡ string_bytes out.old ++ (codes " " ++ status_text status)) }
{
    match status {
        Status::Code(code) => push_signed(out, " code:", code),
        Status::Signal(number) => push_signed(out, " signal:", number),
        Status::Unknown => out.push_str(" unknown"),
    }
}

/// Adds a blank, and how a node came to its end.
pub fn push_outcome(alloc: Global, out: &mut String, outcome: Outcome) -> Result<(), AllocError>
    ensures { IfOk result
        (λ _. string_bytes out.new
        ≡ string_bytes out.old ++ (codes " " ++ outcome_text outcome)) }
{
    match outcome {
        Outcome::Well => out.push_str(" well"),
        Outcome::Failed(reason) => push_reason(alloc, out, reason),
    }
}

fn push_reason(alloc: Global, out: &mut String, reason: Reason) -> Result<(), AllocError>
    ensures { IfOk result
        (λ _. string_bytes out.new
        ≡ string_bytes out.old ++ (codes " " ++ reason_text reason)) }
{
    match reason {
        Reason::Status => out.push_str(" status"),
        Reason::NotConfirmed => out.push_str(" not-confirmed"),
        Reason::Input(place, miss) => {
            push_number(alloc, out, " input:", place)?;
            push_two(out, ":", miss_name(miss))
        }
        Reason::Output(place) => push_number(alloc, out, " output:", place),
        Reason::Place(call, miss) => push_place(out, call, miss),
        Reason::Fault(call) => push_two(out, " fault:", call_name(call)),
        Reason::Interrupted => out.push_str(" interrupted"),
        Reason::NoMemory => out.push_str(" no-memory"),
    }
}

fn push_place(out: &mut String, call: Call, miss: Miss) -> Result<(), AllocError>
    ensures { IfOk result
        (λ _. string_bytes out.new
        ≡ string_bytes out.old
        ++ (codes " place:" ++ (call_name call ++ (codes ":" ++ miss_name miss)))) }
{
    push_two(out, " place:", call_name(call))?;
    push_two(out, ":", miss_name(miss))
}
