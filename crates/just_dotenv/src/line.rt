//! Lines, and the pair that one may have.
ghost use Rattle.std.specs.Prelude.{◌≡◌, Ok, encode_utf8_all};
ghost use Rattle.just_lang_read.specs.Place.{past, run};
ghost use Rattle.just_lang_read.specs.Reader.{Reads};
ghost use Rattle.just_dotenv.specs.Characters.{in_name};
ghost use Rattle.just_dotenv.specs.Grammar.{word};
ghost use Rattle.just_dotenv.specs.Readers.{as_pair, as_line, assignment, pair, newline, rest, line};

use super::characters::InName;
use super::scope::Scope;
use super::value::value;
use just_lang_read::{Blank, Cursor, InLine, NameStart, ReadError};
use just_path_text::Text;
use std::alloc::Global;

/// The longest run of characters of a name.
fn name(alloc: Global, cursor: &mut Cursor<'_>) -> Result<Text, ReadError>
    ensures { Reads (Ok (word cursor.old, past in_name cursor.old)) result cursor.new }
{
    let text = cursor.take::<InName>(alloc)?;
    Ok(Text::from(text))
}

/// Blanks, the `=` behind a name, and the value.
#[tactic(auto, unfolding(crate::specs::Readers::assignment))]
fn assignment(
    alloc: Global,
    cursor: &mut Cursor<'_>,
    name: Text,
    scope: &Scope<'_>,
) -> Result<(Text, Text), ReadError>
    ensures { Reads (as_pair scope.now.environ.now.pairs scope.now.earlier.now (assignment name) cursor.old) result cursor.new }
{
    cursor.pass::<Blank>();
    match cursor.expect('=') {
        Ok(()) => {}
        Err(error) => {
            drop(name);
            return Err(error);
        }
    }
    match value(alloc, cursor, scope) {
        Ok(value) => Ok((name, value)),
        Err(error) => {
            drop(name);
            Err(error)
        }
    }
}

/// A pair, from its name or from `export` on.
#[tactic(auto, unfolding(crate::specs::Readers::pair, crate::specs::Readers::is_export))]
fn pair(
    alloc: Global,
    cursor: &mut Cursor<'_>,
    scope: &Scope<'_>,
) -> Result<(Text, Text), ReadError>
    ensures { Reads (as_pair scope.now.environ.now.pairs scope.now.earlier.now pair cursor.old) result cursor.new }
{
    let first = name(alloc, cursor)?;
    if first.as_str() == "export" && cursor.starts::<Blank>() {
        let mut ahead = cursor.copied();
        ahead.pass::<Blank>();
        if ahead.starts::<NameStart>() {
            *cursor = ahead;
            drop(first);
            let second = name(alloc, cursor)?;
            return assignment(alloc, cursor, second, scope);
        }
    }
    assignment(alloc, cursor, first, scope)
}

/// The end of a line, or of the text.
#[tactic(auto, unfolding(crate::specs::Readers::newline))]
fn newline(cursor: &mut Cursor<'_>) -> Result<(), ReadError>
    ensures { Reads (newline cursor.old) result cursor.new }
{
    if cursor.is_at_end() {
        return Ok(());
    }
    if cursor.sees('\n') {
        cursor.step();
        return Ok(());
    }
    if cursor.sees('\r') {
        cursor.step();
        return cursor.expect('\n');
    }
    Err(ReadError::Syntax)
}

/// Blanks, a comment where one may begin, and the end of the line.
#[tactic(auto, unfolding(crate::specs::Readers::rest))]
fn rest(cursor: &mut Cursor<'_>, at_start: bool) -> Result<(), ReadError>
    ensures { Reads (rest at_start cursor.old) result cursor.new }
{
    let may_begin = at_start || cursor.starts::<Blank>();
    cursor.pass::<Blank>();
    if may_begin && cursor.sees('#') {
        cursor.pass::<InLine>();
    }
    newline(cursor)
}

/// Reads a line, with its pair if it has one: of `export A=1 # one` that is `A` and `1`, and `# one` has none.
#[tactic(auto, unfolding(crate::specs::Readers::line))]
pub fn read_line(
    alloc: Global,
    cursor: &mut Cursor<'_>,
    scope: &Scope<'_>,
) -> Result<Option<(Text, Text)>, ReadError>
    ensures { Reads (as_line scope.now.environ.now.pairs scope.now.earlier.now line cursor.old) result cursor.new }
{
    let mut ahead = cursor.copied();
    ahead.pass::<Blank>();
    if !ahead.starts::<NameStart>() {
        rest(cursor, true)?;
        return Ok(None);
    }
    *cursor = ahead;
    let pair = pair(alloc, cursor, scope)?;
    match rest(cursor, false) {
        Ok(()) => Ok(Some(pair)),
        Err(error) => {
            drop(pair);
            Err(error)
        }
    }
}
