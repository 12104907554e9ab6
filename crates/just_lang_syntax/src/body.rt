//! Lines of bodies.
ghost use Rattle.std.specs.Prelude.{◌≡◌, IfOk};
ghost use Rattle.just_lang_read.specs.Place.{run};
ghost use Rattle.just_lang_read.specs.Reader.{Reads};
ghost use Rattle.just_lang_read.specs.Characters.{is_blank};
ghost use Rattle.just_lang_syntax.specs.Bodies.{opens, is_text, is_body_line};
ghost use Rattle.just_lang_syntax.specs.Collected.{ReadsLetter};
ghost use Rattle.just_lang_syntax.specs.ItemReaders as read;

use super::expr::{LEVELS, expr};
use super::list::{add, list_of};
use super::{Fragment, Line};
use just_lang_read::{Blank, Cursor, ReadError, ends_line, newline, skip, token};
use just_path_text::{Seq, Text};
use std::alloc::{AllocError, Global};

/// The blanks that stand here.
#[tactic(auto, using(crate::proofs::Blanks::space_more, crate::proofs::Blanks::tab_more, crate::proofs::Blanks::blanks_done, just_lang_read::proofs::Laws::next_shorter))]
pub fn blanks(alloc: Global, cursor: &Cursor<'_>) -> Result<Seq<u8>, AllocError>
    ensures { IfOk result (λ s. s ≡ run is_blank cursor.now.rest) }
{
    let mut ahead = cursor.copied();
    let mut found = Vec::new(alloc);
    'blanks: while ahead.starts::<Blank>() {
        let blank = if ahead.sees(' ') { b' ' } else { b'\t' };
        found.push(blank)?;
        ahead.step();
    }
    Ok(Seq::from(found))
}

/// Whether a line with this indentation stands here that isn't blank.
pub fn is_body_line(cursor: &Cursor<'_>, indentation: &[u8]) -> bool
    ensures { result ≡ is_body_line indentation.now cursor.now }
{
    if !cursor.begins(indentation) {
        return false;
    }
    let mut ahead = cursor.copied();
    skip(&mut ahead);
    !ends_line(&ahead)
}

/// A body line with this indentation.
#[tactic(auto, unfolding(crate::specs::ItemReaders::body_line))]
pub fn body_line(
    alloc: Global,
    cursor: &mut Cursor<'_>,
    indentation: &[u8],
) -> Result<Line, ReadError>
    ensures { Reads (read.body_line indentation.now cursor.old) result cursor.new }
{
    let number = cursor.line();
    cursor.pass_text(indentation);
    let fragments = fragments(alloc, cursor)?;
    newline(cursor)?;
    Ok(Line { number, fragments })
}

/// Whether the line goes on here.
fn goes_on(cursor: &Cursor<'_>) -> bool
    ensures { result ≡ read.line_goes_on cursor.now }
{
    !ends_line(cursor)
}

/// The fragments up to the line's end.
#[tactic(auto, using(crate::proofs::Loops::fragments_begin, crate::proofs::Loops::fragments_more, crate::proofs::Loops::fragments_done, crate::proofs::Loops::fragments_wrong, crate::proofs::Loops::fragments_shorter))]
fn fragments(alloc: Global, cursor: &mut Cursor<'_>) -> Result<Seq<Fragment>, ReadError>
    ensures { Reads (read.fragments cursor.old) result cursor.new }
{
    let mut found = Vec::new(alloc);
    'fragments: while goes_on(cursor) {
        match fragment(alloc, cursor) {
            Ok(next) => add(&mut found, next)?,
            Err(refused) => return Err(refused),
        }
    }
    Ok(list_of(found))
}

/// Whether an interpolation opens here.
fn opens(cursor: &Cursor<'_>) -> bool
    ensures { result ≡ opens cursor.now }
{
    cursor.begins(b"{{") && !cursor.begins(b"{{{{")
}

/// A value in double braces, or the text up to the next one or to the line's end.
#[tactic(auto, unfolding(crate::specs::ItemReaders::fragment_at))]
fn fragment(alloc: Global, cursor: &mut Cursor<'_>) -> Result<Fragment, ReadError>
    ensures { Reads (read.fragment_at cursor.old) result cursor.new }
{
    if !opens(cursor) {
        let text = text(alloc, cursor)?;
        return Ok(Fragment::Text(text));
    }
    token(cursor, b"{{")?;
    let value = expr(alloc, cursor, LEVELS)?;
    if !cursor.begins(b"}}") {
        drop(value);
        return Err(ReadError::Syntax);
    }
    cursor.pass_text(b"}}");
    Ok(Fragment::Value(value))
}

/// Whether text stands here.
fn is_text(cursor: &Cursor<'_>) -> bool
    ensures { result ≡ is_text cursor.now }
{
    !ends_line(cursor) && !opens(cursor)
}

/// Text, in which `{{{{` means `{{`.
#[tactic(auto, using(crate::proofs::TextLoop::begin, crate::proofs::TextLoop::more_letter, crate::proofs::TextLoop::more_braces, crate::proofs::TextLoop::done, crate::proofs::TextLoop::wrong, crate::proofs::TextLoop::shorter))]
fn text(alloc: Global, cursor: &mut Cursor<'_>) -> Result<Text, ReadError>
    ensures { Reads (read.text cursor.old) result cursor.new }
{
    let mut text = String::new(alloc);
    'letters: while is_text(cursor) {
        match letter(cursor) {
            Ok(Some(c)) => text.push(c)?,
            Ok(None) => text.push_str("{{")?,
            Err(refused) => return Err(refused),
        }
    }
    Ok(Text::from(text))
}

/// A letter of a text, or None where `{{{{` stands.
#[tactic(auto, unfolding(crate::specs::ItemReaders::letter))]
fn letter(cursor: &mut Cursor<'_>) -> Result<Option<char>, ReadError>
    ensures { ReadsLetter (read.letter cursor.old) result cursor.new }
{
    if cursor.begins(b"{{{{") {
        cursor.pass_text(b"{{{{");
        return Ok(None);
    }
    let Some(c) = cursor.peek() else {
        return Err(ReadError::Syntax);
    };
    cursor.step();
    Ok(Some(c))
}
