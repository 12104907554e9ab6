//! Tokens and words of a grammar, and the ends of lines. Whatever is read here takes the blanks behind it.
ghost use Rattle.std.specs.Prelude.{◌≡◌, Ok, Err, IfOk};
ghost use Rattle.just_lang_read.specs.Place.{past, run, begins};
ghost use Rattle.just_lang_read.specs.Reader.{Reads};
ghost use Rattle.just_lang_read.specs.Characters.{in_line};
ghost use Rattle.just_lang_read.specs.Lines.{skip, is_word, behind_word, ends_line, is_blank_line, is_rest, without_returns};
ghost use Rattle.just_lang_read.specs.Tokens as tokens;

use super::{Blank, Cursor, InLine, InName, ReadError};
use std::alloc::{AllocError, Global};

/// Goes behind the blanks.
pub fn skip(cursor: &mut Cursor<'_>)
    ensures { cursor.new ≡ skip cursor.old }
{
    cursor.pass::<Blank>();
}

/// A token of this text.
#[tactic(auto, unfolding(crate::specs::Tokens::token))]
pub fn token(cursor: &mut Cursor<'_>, text: &[u8]) -> Result<(), ReadError>
    ensures { Reads (tokens.token text.now cursor.old) result cursor.new }
{
    if cursor.begins(text) {
        cursor.pass_text(text);
        skip(cursor);
        Ok(())
    } else {
        Err(ReadError::Syntax)
    }
}

/// A token of this text, or nothing.
#[tactic(auto, unfolding(crate::specs::Tokens::maybe))]
pub fn maybe(cursor: &mut Cursor<'_>, text: &[u8]) -> Result<bool, ReadError>
    ensures { Reads (tokens.maybe text.now cursor.old) result cursor.new }
{
    if cursor.begins(text) {
        token(cursor, text)?;
        Ok(true)
    } else {
        Ok(false)
    }
}

/// Whether this word stands here, whole.
pub fn is_word(cursor: &Cursor<'_>, word: &[u8]) -> bool
    ensures { result ≡ is_word word.now cursor.now }
{
    if !cursor.begins(word) {
        return false;
    }
    let mut ahead = cursor.copied();
    ahead.pass_text(word);
    !ahead.starts::<InName>()
}

/// A word, whole.
#[tactic(auto, unfolding(crate::specs::Tokens::word))]
pub fn word(cursor: &mut Cursor<'_>, text: &[u8]) -> Result<(), ReadError>
    ensures { Reads (tokens.word text.now cursor.old) result cursor.new }
{
    if is_word(cursor, text) {
        cursor.pass_text(text);
        skip(cursor);
        Ok(())
    } else {
        Err(ReadError::Syntax)
    }
}

/// The place behind the word that stands here, and its blanks.
pub fn behind_word<'a>(cursor: &Cursor<'a>) -> Cursor<'a>
    ensures { result ≡ behind_word cursor.now }
{
    let mut ahead = cursor.copied();
    ahead.pass::<InName>();
    skip(&mut ahead);
    ahead
}

/// Whether a line or the text ends here.
pub fn ends_line(cursor: &Cursor<'_>) -> bool
    ensures { result ≡ ends_line cursor.now }
{
    cursor.is_at_end() || cursor.sees('\n') || cursor.begins(b"\r\n")
}

/// The end of a line or of the text.
#[tactic(auto, unfolding(crate::specs::Tokens::newline))]
pub fn newline(cursor: &mut Cursor<'_>) -> Result<(), ReadError>
    ensures { Reads (tokens.newline cursor.old) result cursor.new }
{
    if cursor.is_at_end() {
        return Ok(());
    }
    if cursor.sees('\n') {
        cursor.step();
        return Ok(());
    }
    if cursor.begins(b"\r\n") {
        cursor.pass_text(b"\r\n");
        return Ok(());
    }
    Err(ReadError::Syntax)
}

/// Whether a line with nothing but blanks begins here.
pub fn is_blank_line(cursor: &Cursor<'_>) -> bool
    ensures { result ≡ is_blank_line cursor.now }
{
    if cursor.is_at_end() {
        return false;
    }
    let mut ahead = cursor.copied();
    skip(&mut ahead);
    ends_line(&ahead)
}

/// A line with nothing but blanks.
#[tactic(auto, unfolding(crate::specs::Tokens::blank_line))]
pub fn blank_line(cursor: &mut Cursor<'_>) -> Result<(), ReadError>
    ensures { Reads (tokens.blank_line cursor.old) result cursor.new }
{
    skip(cursor);
    newline(cursor)
}

/// The characters up to the line feed, behind which the cursor stands.
#[tactic(auto, using(crate::proofs::Steps::past_next, crate::proofs::Steps::past_stays, crate::proofs::Steps::next_shorter, crate::proofs::Steps::collected_more, crate::proofs::Steps::collected_all))]
pub fn line_characters(alloc: Global, cursor: &mut Cursor<'_>) -> Result<Vec<char>, AllocError>
    ensures { IfOk result (λ v. (v.items ≡ run in_line cursor.old.rest) × (cursor.new ≡ past in_line cursor.old)) }
{
    let mut found = Vec::new(alloc);
    'characters: while let Some(c) = cursor.next_of::<InLine>() {
        found.push(c)?;
    }
    Ok(found)
}

/// Takes away the carriage returns at a text's end.
#[tactic(auto, using(crate::proofs::Lines::returns_end, crate::proofs::Lines::returns_none))]
pub fn drop_returns(text: &mut Vec<char>) -> Result<(), AllocError>
    ensures { IfOk result (λ u. text.new.items ≡ without_returns text.old.items) }
{
    'returns: while let Some(c) = text.pop() {
        if c != '\r' {
            text.push(c)?;
            return Ok(());
        }
    }
    Ok(())
}

/// Whether the rest of a line stands here: a comment, or the line's end.
pub fn is_rest(cursor: &Cursor<'_>) -> bool
    ensures { result ≡ is_rest cursor.now }
{
    cursor.sees('#') || ends_line(cursor)
}
