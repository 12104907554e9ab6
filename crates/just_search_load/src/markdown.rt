//! The justfile of a markdown text.

ghost use Rattle.std.specs.Prelude.{◌≡◌, ◌++◌, ◌∷◌, [], None, map, IfOk, OnOk, string_bytes, if◌then◌else◌};
ghost use Rattle.std.specs.Str.Lines.{lines};
ghost use Rattle.just_search_load.specs.Running.{line_out, fence_behind, out_of};
ghost use Rattle.just_search_load.specs.Tangles.{text_of_lines, IsTangled};

use super::fence::{Fence, closes, fence_of};
use just_path_text::NoMemory;
use std::alloc::{AllocError, Global};

/// The fence of the block that is open behind a line.
fn fence_behind(block: Option<Fence>, line: &str) -> Option<Fence>
    ensures { result ≡ fence_behind block line.now }
{
    match block {
        None => fence_of(line.as_bytes()),
        Some(fence) => {
            if closes(fence, line.as_bytes()) {
                None
            } else {
                Some(fence)
            }
        }
    }
}

/// Whether a line in a block, or outside of all, is kept.
fn is_kept(block: Option<Fence>, line: &str) -> bool
    ensures { (if result then line.now else []) ≡ line_out block line.now }
{
    match block {
        None => false,
        Some(fence) => fence.is_just && !closes(fence, line.as_bytes()),
    }
}

/// The lines of a text.
fn lines_of(alloc: Global, text: &str) -> Result<Vec<&str>, AllocError>
    ensures { IfOk result (λ found. map (λ line. line.now) found.items ≡ lines text.now) }
{
    text.lines().collect(alloc)
}

/// Writes what a line becomes, with its end.
fn push_line(text: &mut String, block: Option<Fence>, line: &str) -> Result<(), NoMemory>
    ensures { OnOk result (string_bytes text.new ≡ string_bytes text.old ++ (line_out block line.now ++ 10 ∷ [])) }
{
    if is_kept(block, line) {
        text.push_str(line)?;
    }
    text.push_str("\n")?;
    Ok(())
}

/// The text of lines that are tangled one by one.
#[tactic(auto, using(crate::proofs::Running::lines_begun, crate::proofs::Running::lines_more, crate::proofs::Running::lines_ended))]
fn tangle_lines(alloc: Global, lines: &[&str]) -> Result<String, NoMemory>
    ensures { IfOk result (λ text. string_bytes text ≡ text_of_lines (out_of None (map (λ line. line.now) lines.now))) }
{
    let mut text = String::new(alloc);
    let mut block: Option<Fence> = None;
    'lines: for line in lines {
        push_line(&mut text, block, line)?;
        block = fence_behind(block, line);
    }
    Ok(text)
}

/// The justfile in the code blocks of a markdown text whose first word of information is `just`. It has as many lines as the text: a line
/// of such a block stands at its own number, and every other line is empty.
///
/// ```
/// assert!(tangle(alloc, "```just\na:\n```\n")?.as_str() == "\na:\n\n");
/// ```
#[tactic(auto, using(crate::proofs::Blocks::tangled, crate::proofs::Blocks::places))]
pub fn tangle(alloc: Global, markdown: &str) -> Result<String, NoMemory>
    ensures { IfOk result (λ text. IsTangled markdown.now (string_bytes text)) }
{
    let lines = lines_of(alloc, markdown)?;
    tangle_lines(alloc, lines.as_slice())
}
