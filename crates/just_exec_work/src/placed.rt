//! Lines of a script, each at its number.

ghost use Rattle.std.specs.Prelude.{◌≡◌, ◌≤◌, ◌+◌, ◌++◌, ◌∷◌, [], IfOk, OnOk, string_bytes, length, replicate};
ghost use Rattle.just_exec_work.specs.Scripts.{ended, shebang_count, shebang_lines, is_shebang_line, gap, placed};

use just_host_record::ScriptText;
use just_lang_types::BodyLine;
use just_path_text::{NoMemory, Text};
use std::alloc::Global;

/// Whether a line begins with `#!`.
fn is_shebang_line(line: &BodyLine) -> bool
    ensures { result ≡ is_shebang_line line.now }
{
    line.text.as_str().as_bytes().starts_with(b"#!")
}

/// How many lines in front begin with `#!`.
#[tactic(auto, using(crate::proofs::Placing::count_more, crate::proofs::Placing::count_ends, crate::proofs::Placing::count_all))]
pub(crate) fn shebang_count(lines: &[BodyLine]) -> usize
    ensures count { result ≡ shebang_count lines.now }
    ensures within { result ≤ length lines.now }
{
    let mut count = 0;
    'lines: for line in lines {
        if !is_shebang_line(line) {
            return count;
        }
        count += 1;
    }
    count
}

/// Adds a text and the end of its line.
pub(crate) fn push_ended(text: &mut String, line: &str) -> Result<(), NoMemory>
    ensures { OnOk result (string_bytes text.new ≡ string_bytes text.old ++ ended line.now) }
{
    text.push_str(line)?;
    text.push_str("\n")?;
    Ok(())
}

/// Lines, or as many blank ones.
#[tactic(auto, using(crate::proofs::Placing::shebang_more, crate::proofs::Placing::shebang_all))]
pub(crate) fn shebang_text(alloc: Global, kept: bool, lines: &[BodyLine]) -> Result<Text, NoMemory>
    ensures { IfOk result (λ t. t ≡ shebang_lines kept lines.now) }
{
    let mut text = String::new(alloc);
    'lines: for line in lines {
        push_ended(&mut text, if kept { line.text.as_str() } else { "" })?;
    }
    Ok(Text::from(text))
}

/// Adds blank lines.
fn push_blank_lines(text: &mut String, count: usize) -> Result<(), NoMemory>
    ensures { OnOk result (string_bytes text.new ≡ string_bytes text.old ++ replicate count 10) }
{
    'count: for _at in 0..count {
        text.push_str("\n")?;
    }
    Ok(())
}

/// How many blank lines stand in front of a line behind so many others.
fn gap(above: usize, line: &BodyLine) -> usize
    ensures { result ≡ gap above line.now }
{
    line.number.saturating_sub(1).saturating_sub(above)
}

/// How many lines there are with a line that comes to its number behind so many others.
fn behind(above: usize, line: &BodyLine) -> Result<usize, NoMemory>
    ensures { IfOk result (λ n. n ≡ above + gap above line.now + 1) }
{
    let Some(last) = above.checked_add(gap(above, line)) else {
        return Err(NoMemory);
    };
    match last.checked_add(1) {
        Some(count) => Ok(count),
        None => Err(NoMemory),
    }
}

/// Adds a line that comes to its number behind so many others.
#[tactic(auto, using(crate::proofs::Placing::two_texts))]
fn push_placed_line(text: &mut String, above: usize, line: &BodyLine) -> Result<(), NoMemory>
    ensures { OnOk result (string_bytes text.new ≡ string_bytes text.old ++ (replicate (gap above line.now) 10 ++ ended line.now.text)) }
{
    push_blank_lines(text, gap(above, line))?;
    push_ended(text, line.text.as_str())
}

/// Adds lines behind so many others, each at its number.
#[tactic(auto, using(crate::proofs::Placing::placed_more, crate::proofs::Placing::placed_all))]
fn push_placed(text: &mut String, above: usize, lines: &[BodyLine]) -> Result<(), NoMemory>
    ensures { OnOk result (string_bytes text.new ≡ string_bytes text.old ++ placed above lines.now) }
{
    let mut count = above;
    'lines: for line in lines {
        push_placed_line(text, count, line)?;
        count = behind(count, line)?;
    }
    Ok(())
}

/// How many bytes some lines have, each with the end of its line. No clause: it is the room that they are given.
fn room_of(lines: &[BodyLine]) -> usize {
    let mut room = 0usize;
    for line in lines {
        room = room
            .saturating_add(line.text.as_str().len())
            .saturating_add(1);
    }
    room
}

/// The first of some lines behind so many others, without the blank lines in front of it, and those that follow, each at its number.
fn placed_rest(
    alloc: Global,
    above: usize,
    first: &BodyLine,
    others: &[BodyLine],
) -> Result<Text, NoMemory>
    ensures { IfOk result (λ t. t ≡ ended first.now.text ++ placed (above + gap above first.now + 1) others.now) }
{
    let line = first.text.as_str();
    let room = room_of(others).saturating_add(line.len()).saturating_add(1);
    let mut text = String::with_capacity(alloc, room)?;
    push_ended(&mut text, line)?;
    push_placed(&mut text, behind(above, first)?, others)?;
    Ok(Text::from(text))
}

/// A front, and behind it lines behind so many others, each at its number.
#[tactic(auto, using(crate::proofs::Placing::no_line))]
pub(crate) fn placed_behind(
    alloc: Global,
    front: Text,
    above: usize,
    lines: &[BodyLine],
) -> Result<ScriptText, NoMemory>
    ensures { IfOk result (λ t. t ≡ front ++ placed above lines.now) }
{
    match lines {
        [first, others @ ..] => {
            let rest = placed_rest(alloc, above, first, others)?;
            Ok(ScriptText::new(front, gap(above, first), rest))
        }
        [] => Ok(ScriptText::from_text(alloc, front)),
    }
}
