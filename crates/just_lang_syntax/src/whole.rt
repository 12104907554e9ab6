//! A text whole: its tree, or its fault.
ghost use Rattle.std.specs.Prelude.{◌≡◌, IfOk, IfErr, MatchResult, List, None, chars};
ghost use Rattle.just_lang_syntax.specs.declared.ast.AstItem.{AstItem};
ghost use Rattle.just_lang_syntax.specs.File.{IsFile, items_of, first_left_out};
ghost use Rattle.just_lang_syntax.specs.Faults.{Refuses};
ghost use Rattle.just_lang_syntax.specs.EntryReaders.{entry_or_fault, ReadsEntry};

use super::entry::{Body, Entry, gather, read_entry};
use super::left_out::first_left_out;
use super::{Ast, Fault, FaultKind, ParseError};
use just_lang_read::{Cursor, ReadError, characters_of};
use std::alloc::Global;

/// The tree of a justfile's text. A text that has none is refused at the line at which its longest front of items and
/// body lines ends; one that has a tree with a left-out setting or attribute is refused at its name.
#[tactic(auto, using(crate::proofs::FileFaults::only_memory, crate::proofs::FileFaults::only_tree, crate::proofs::FileFaults::left_out_refuses, crate::proofs::FileFaults::only_left_out))]
pub fn parse(alloc: Global, text: &str) -> Result<Ast, ParseError>
    // What is answered is the tree of the text, and has no left-out name.
    ensures found { IfOk result (λ a. IsFile (chars text.now) a.items × (first_left_out a.items ≡ None)) }
    // The tree of the text is answered, unless memory is wanting: so it has one tree at most.
    ensures only { (items : List AstItem) → IsFile (chars text.now) items → first_left_out items ≡ None → MatchResult result (λ a. a.items ≡ items) (λ e. e ≡ ParseError.NoMemory) }
    // A fault is where the text stops being entries, or the first left-out name of its tree.
    ensures refused { IfErr result (Refuses (chars text.now)) }
{
    let entries = match entries_of(alloc, text) {
        Ok(entries) => entries,
        Err(refusal) => return Err(refusal),
    };
    let items = gather(alloc, entries)?;
    match first_left_out(items.as_slice()) {
        Some(name) => Err(ParseError::Fault(Fault {
            kind: FaultKind::Unsupported,
            line: name.line,
            column: name.column,
        })),
        None => Ok(Ast { items }),
    }
}

/// The entries of a text, or the fault where it stops being entries.
#[tactic(auto, using(crate::proofs::FileFaults::entries_more, crate::proofs::FileFaults::entry_shorter, crate::proofs::FileFaults::entries_end, crate::proofs::FileFaults::stop_refuses))]
fn entries_of(alloc: Global, text: &str) -> Result<Vec<Entry>, ParseError>
    ensures found { IfOk result (λ v. IsFile (chars text.now) (items_of v.items)) }
    ensures refused { IfErr result (Refuses (chars text.now)) }
{
    let characters = characters_of(alloc, text)?;
    let mut cursor = Cursor::new(characters.as_slice());
    let mut body = Body::Closed;
    let mut entries = Vec::new(alloc);
    'entries: while !cursor.is_at_end() {
        match next(alloc, &mut cursor, body) {
            Ok((entry, behind)) => {
                entries.push(entry)?;
                body = behind;
            }
            Err(refusal) => return Err(refusal),
        }
    }
    Ok(entries)
}

/// The entry that begins here and the body behind it, or the fault where it begins.
#[tactic(auto, unfolding(crate::specs::EntryReaders::entry_or_fault))]
fn next(alloc: Global, cursor: &mut Cursor<'_>, body: Body) -> Result<(Entry, Body), ParseError>
    ensures { ReadsEntry (entry_or_fault body cursor.old) result cursor.new }
{
    let line = cursor.line();
    let column = cursor.column();
    match read_entry(alloc, cursor, body) {
        Ok(read) => Ok(read),
        Err(ReadError::NoMemory) => Err(ParseError::NoMemory),
        Err(ReadError::Syntax) => Err(ParseError::Fault(Fault {
            kind: FaultKind::Syntax,
            line,
            column,
        })),
        Err(ReadError::Depth) => Err(ParseError::Fault(Fault {
            kind: FaultKind::Depth,
            line,
            column,
        })),
    }
}
