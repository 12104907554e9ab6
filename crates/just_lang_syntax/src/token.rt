//! The tokens of the grammar, names, and the ends of lines. Whatever is read here takes the blanks behind it.
ghost use Rattle.std.specs.Prelude.{Ok, Err};
ghost use Rattle.just_lang_read.specs.Place.{begins};
ghost use Rattle.just_lang_read.specs.Reader.{Reads};
ghost use Rattle.just_lang_read.specs.Lines.{skip};
ghost use Rattle.just_lang_syntax.specs.Readers as read;

use super::Name;
use super::list::{add, list_of};
use super::text::text_of;
use just_lang_read::{
    Blank, Cursor, InLine, InName, NameStart, ReadError, drop_returns, line_characters, newline,
    skip, token,
};
use just_path_text::{Seq, Text};
use std::alloc::{AllocError, Global};

/// A name.
#[tactic(auto, unfolding(crate::specs::Readers::name))]
pub fn name(alloc: Global, cursor: &mut Cursor<'_>) -> Result<Name, ReadError>
    ensures { Reads (read.name cursor.old) result cursor.new }
{
    if !cursor.starts::<NameStart>() {
        return Err(ReadError::Syntax);
    }
    let line = cursor.line();
    let column = cursor.column();
    let text = cursor.take::<InName>(alloc)?;
    skip(cursor);
    Ok(Name {
        text: Text::from(text),
        line,
        column,
    })
}

/// `::` and a name.
#[tactic(auto, unfolding(crate::specs::Readers::further_name))]
fn further_name(alloc: Global, cursor: &mut Cursor<'_>) -> Result<Name, ReadError>
    ensures { Reads (read.further_name cursor.old) result cursor.new }
{
    token(cursor, b"::")?;
    name(alloc, cursor)
}

/// Names with `::` between them.
#[tactic(auto, using(crate::proofs::PathLoop::begin, crate::proofs::PathLoop::more, crate::proofs::PathLoop::done, crate::proofs::PathLoop::wrong, crate::proofs::PathLoop::path_wrong, crate::proofs::PathLoop::shorter))]
pub fn path(alloc: Global, cursor: &mut Cursor<'_>) -> Result<Seq<Name>, ReadError>
    ensures { Reads (read.path cursor.old) result cursor.new }
{
    let first = name(alloc, cursor)?;
    let mut names = Vec::new(alloc);
    add(&mut names, first)?;
    'names: while cursor.begins(b"::") {
        let next = further_name(alloc, cursor)?;
        add(&mut names, next)?;
    }
    Ok(list_of(names))
}

/// A comment from its `#` on, and the end of its line.
#[tactic(auto, unfolding(crate::specs::Readers::comment))]
pub fn comment(alloc: Global, cursor: &mut Cursor<'_>) -> Result<Text, ReadError>
    ensures { Reads (read.comment cursor.old) result cursor.new }
{
    let mut characters = line_characters(alloc, cursor)?;
    newline(cursor)?;
    drop_returns(&mut characters)?;
    Ok(text_of(alloc, characters.as_slice())?)
}

/// What may stand behind an item on its line: a comment, and the line's end.
#[tactic(auto, unfolding(crate::specs::Readers::rest))]
pub fn rest(alloc: Global, cursor: &mut Cursor<'_>) -> Result<Option<Text>, ReadError>
    ensures { Reads (read.rest cursor.old) result cursor.new }
{
    if cursor.sees('#') {
        let text = comment(alloc, cursor)?;
        Ok(Some(text))
    } else {
        newline(cursor)?;
        Ok(None)
    }
}
