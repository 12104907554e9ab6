//! Lines that go on in the next ones.

ghost use Rattle.std.specs.Prelude.{◌≡◌, ◌++◌, ◌∷◌, List, map, IfOk, OnOk};
ghost use Rattle.std.specs.Option.{option_map};
ghost use Rattle.just_lang_syntax.specs.declared.ast.Line.{Line};
ghost use Rattle.just_eval.specs.Bodies.{before_mark, is_blank, behind_blanks, is_marked, goes_on, joined};
ghost use Rattle.just_eval.specs.Parts.{fragment_of, fragments_of, line_of, front_piece, end_piece, pieces, behind_unfinished, with_rest};

use super::part::{Joined, Part, part_of};
use just_lang_syntax::{Fragment, Line};
use just_path_text::NoMemory;
use std::alloc::Global;

/// A text without one `\` at its end.
fn before_mark(text: &str) -> &str
    ensures { result.now ≡ before_mark text.now }
{
    match text.strip_suffix('\\') {
        Some(front) => front,
        None => text,
    }
}

fn is_blank(byte: u8) -> bool
    ensures { result ≡ is_blank byte }
{
    byte == b' ' || byte == b'\t'
}

/// A text without the blanks at its front.
#[tactic(auto, using(crate::proofs::Marks::blank_more, crate::proofs::Marks::no_blank, crate::proofs::Marks::all_blanks))]
fn behind_blanks(text: &str) -> &str
    ensures { result.now ≡ behind_blanks text.now }
{
    let bytes = text.as_bytes();
    'bytes: for at in 0..bytes.len() {
        if !is_blank(bytes[at]) {
            return &text[at..];
        }
    }
    ""
}

/// Whether a line goes on with the next one when this is its last fragment.
fn is_marked(fragment: &Fragment) -> bool
    ensures { result ≡ is_marked fragment.now }
{
    match fragment {
        Fragment::Text(text) => text.as_str().as_bytes().ends_with(b"\\"),
        Fragment::Value(_) => false,
    }
}

/// Whether a line goes on with the next one.
#[tactic(auto, using(crate::proofs::Marks::nothing_goes_on, crate::proofs::Marks::last_goes_on))]
fn goes_on(fragments: &[Fragment]) -> bool
    ensures { result ≡ goes_on fragments.now }
{
    let count = fragments.len();
    if count == 0 {
        return false;
    }
    is_marked(&fragments[count - 1])
}

/// A part without the blanks at its front, where it stands at the front of a line.
fn front_piece(at_front: bool, part: Part<'_>) -> Part<'_>
    ensures { fragment_of result ≡ front_piece at_front (fragment_of part.entry) }
{
    if !at_front {
        return part;
    }
    match part {
        Part::Text(text) => Part::Text(behind_blanks(text)),
        Part::Value(_) => part,
    }
}

/// A part without the `\` at its end, where it stands at the end of a line.
fn end_piece(at_end: bool, part: Part<'_>) -> Part<'_>
    ensures { fragment_of result ≡ end_piece at_end (fragment_of part.entry) }
{
    if !at_end {
        return part;
    }
    match part {
        Part::Text(text) => Part::Text(before_mark(text)),
        Part::Value(_) => part,
    }
}

/// Adds the fragments of a line without the `\` at their end and, where it stands behind another one, without its
/// indentation.
#[tactic(auto, using(crate::proofs::Pieces::piece_more, crate::proofs::Pieces::no_piece))]
fn push_pieces<'p>(
    parts: &mut Vec<Part<'p>>,
    fragments: &'p [Fragment],
    behind: bool,
) -> Result<(), NoMemory>
    ensures { OnOk result (fragments_of parts.new.items ≡ fragments_of parts.old.items ++ pieces behind fragments.now) }
{
    let mut at_front = behind;
    'fragments: for at in 0..fragments.len() {
        let piece = end_piece(at + 1 == fragments.len(), part_of(&fragments[at]));
        parts.push(front_piece(at_front, piece))?;
        at_front = false;
    }
    Ok(())
}

/// Lines that are whole, and one that is still to go on.
#[derive(Drop)]
pub(crate) struct Gathered<'p> {
    pub(crate) whole: Vec<Joined<'p>>,
    pub(crate) unfinished: Option<Joined<'p>>,
}

/// A line, behind the one that goes on in it.
fn behind_unfinished<'p>(
    alloc: Global,
    unfinished: Option<Joined<'p>>,
    line: &'p Line,
) -> Result<Joined<'p>, NoMemory>
    ensures { IfOk result (λ j. line_of j ≡ behind_unfinished (option_map line_of unfinished.entry) line.now) }
{
    match unfinished {
        None => {
            let mut parts = Vec::new(alloc);
            push_pieces(&mut parts, line.fragments.as_slice(), false)?;
            Ok(Joined {
                number: line.number,
                parts,
            })
        }
        Some(unfinished) => {
            let Joined { number, mut parts } = unfinished;
            push_pieces(&mut parts, line.fragments.as_slice(), true)?;
            Ok(Joined { number, parts })
        }
    }
}

/// Adds a line to those that were gathered.
#[tactic(auto, using(crate::proofs::Joins::line_goes_on, crate::proofs::Joins::line_ends))]
fn gather<'p>(alloc: Global, gathered: &mut Gathered<'p>, line: &'p Line) -> Result<(), NoMemory>
    ensures { OnOk result ((rest : List Line) → with_rest gathered.new (joined rest) ≡ with_rest gathered.old (joined (line.now ∷ rest))) }
{
    let current = behind_unfinished(alloc, gathered.unfinished.take(), line)?;
    if goes_on(line.fragments.as_slice()) {
        gathered.unfinished = Some(current);
    } else {
        gathered.whole.push(current)?;
    }
    Ok(())
}

/// Lines, each with those that it goes on with.
#[tactic(auto, using(crate::proofs::Joins::joined_more, crate::proofs::Joins::joined_all))]
pub(crate) fn joined<'p>(alloc: Global, lines: &'p [Line]) -> Result<Vec<Joined<'p>>, NoMemory>
    ensures { IfOk result (λ all. map line_of all.items ≡ joined lines.now) }
{
    let mut gathered = Gathered {
        whole: Vec::new(alloc),
        unfinished: None,
    };
    'lines: for line in lines {
        gather(alloc, &mut gathered, line)?;
    }
    let Gathered {
        mut whole,
        unfinished,
    } = gathered;
    if let Some(last) = unfinished {
        whole.push(last)?;
    }
    Ok(whole)
}
