//! The lines of events, added to a text.
ghost use Rattle.std.specs.Prelude.{◌≡◌, ◌++◌, IfOk, codes, decimal, string_bytes};
ghost use Rattle.std.specs.List.{flat_map};
ghost use Rattle.just_host_record.specs.Signals.{name_of};
ghost use Rattle.just_sched_lines.specs.Lines.{answer_text, look_text, sum_text, line_of};

use super::outcome::{push_look, push_outcome, push_status, push_sums};
use super::pieces::{push_number, push_numbers};
use just_host_record::{Look, Signal};
use just_sched_history::Event;
use std::alloc::{AllocError, Global};

/// Adds the line of an event, and a newline.
pub fn push_line(alloc: Global, out: &mut String, event: &Event) -> Result<(), AllocError>
    ensures { IfOk result
        (λ _. string_bytes out.new ≡ string_bytes out.old ++ (line_of event.now ++ codes "\n")) }
{
    push_event(alloc, out, event)?;
    out.push_str("\n")
}

fn push_event(alloc: Global, out: &mut String, event: &Event) -> Result<(), AllocError>
    ensures { IfOk result
        (λ _. string_bytes out.new ≡ string_bytes out.old ++ line_of event.now) }
{
    match event {
        Event::Asked(node, yes) => push_asked(alloc, out, *node, *yes),
        Event::Took(node) => push_number(alloc, out, "took ", *node),
        Event::Looked(node, sums, look) => push_looked(alloc, out, *node, sums.as_slice(), *look),
        Event::Skipped(node) => push_number(alloc, out, "skipped ", *node),
        Event::Begun(node) => push_number(alloc, out, "begun ", *node),
        Event::Started(node, place, child) => {
            push_numbers(alloc, out, "started ", *node, *place, *child)
        }
        Event::Ended(node, place, child, status) => {
            push_numbers(alloc, out, "ended ", *node, *place, *child)?;
            push_status(out, *status)
        }
        Event::Saved(node) => push_number(alloc, out, "saved ", *node),
        Event::Done(node, outcome) => {
            push_number(alloc, out, "done ", *node)?;
            push_outcome(alloc, out, *outcome)
        }
        Event::Gave(node) => push_number(alloc, out, "gave ", *node),
        Event::Caught(signal) => push_caught(alloc, out, *signal),
    }
}

fn push_asked(alloc: Global, out: &mut String, node: u32, yes: bool) -> Result<(), AllocError>
    ensures { IfOk result
        (λ _. string_bytes out.new
        ≡ string_bytes out.old
        ++ (codes "asked " ++ (decimal node ++ (codes " " ++ answer_text yes)))) }
{
    push_number(alloc, out, "asked ", node)?;
    out.push_str(if yes { " yes" } else { " no" })
}

fn push_looked(
    alloc: Global,
    out: &mut String,
    node: u32,
    sums: &[[u8; 32]],
    look: Look,
) -> Result<(), AllocError>
    ensures { IfOk result
        (λ _. string_bytes out.new
        ≡ string_bytes out.old
        ++ (codes "looked " ++ (decimal node
        ++ (codes " " ++ (look_text look ++ flat_map sum_text sums.now))))) }
{
    push_number(alloc, out, "looked ", node)?;
    push_look(alloc, out, look)?;
    push_sums(alloc, out, sums)
}

fn push_caught(alloc: Global, out: &mut String, signal: Signal) -> Result<(), AllocError>
    ensures { IfOk result
        (λ _. string_bytes out.new ≡ string_bytes out.old ++ (codes "caught " ++ name_of signal)) }
{
    let text = format!(in alloc; "caught {signal}")?;
    out.push_str(text.as_str())
}
