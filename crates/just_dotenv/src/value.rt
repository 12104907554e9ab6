//! Values: single quoted, double quoted, and bare.
ghost use Rattle.std.specs.Prelude.{◌≡◌, ◌&&◌, not};
ghost use Rattle.just_lang_read.specs.Place.{starts, sees};
ghost use Rattle.just_lang_read.specs.Reader.{Reads};
ghost use Rattle.just_dotenv.specs.Characters.{in_value, is_bare, is_blank, number_sign};
ghost use Rattle.just_dotenv.specs.Readers.{as_text, closed_parts, single_quoted_value, double_quoted_value, value};

use super::characters::{Bare, InSingleQuotes, is_in_value};
use super::part::read_part;
use super::scope::Scope;
use just_lang_read::{Blank, Cursor, ReadError};
use just_path_text::Text;
use std::alloc::Global;

/// Whether a double quoted or bare value goes on here.
fn goes_on(cursor: &Cursor<'_>, quoted: bool) -> bool
    ensures { result ≡ starts (in_value quoted) cursor.now }
{
    match cursor.peek() {
        Some(c) => is_in_value(quoted, c),
        None => false,
    }
}

/// The parts of a double quoted or bare value, joined; a `${` that no `}` follows among them is refused.
#[tactic(auto, using(crate::proofs::Values::start_is, crate::proofs::Values::more_is, crate::proofs::Values::end_is, crate::proofs::Values::wrong_is, crate::proofs::Parts::read_shorter))]
fn parts(
    alloc: Global,
    cursor: &mut Cursor<'_>,
    quoted: bool,
    scope: &Scope<'_>,
) -> Result<Text, ReadError>
    ensures { Reads (as_text scope.now.environ.now.pairs scope.now.earlier.now (closed_parts quoted) cursor.old) result cursor.new }
{
    let mut text = String::new(alloc);
    let mut waits = false;
    'parts: while goes_on(cursor, quoted) {
        let part = read_part(alloc, cursor, quoted)?;
        waits = part.waits(waits);
        part.add_to(&mut text, scope)?;
    }
    if waits {
        return Err(ReadError::Syntax);
    }
    Ok(Text::from(text))
}

/// What stands up to the next single quote; the cursor goes behind that.
#[tactic(auto, unfolding(crate::specs::Readers::single_quoted_value))]
fn single_quoted_value(
    alloc: Global,
    cursor: &mut Cursor<'_>,
    scope: &Scope<'_>,
) -> Result<Text, ReadError>
    ensures { Reads (as_text scope.now.environ.now.pairs scope.now.earlier.now single_quoted_value cursor.old) result cursor.new }
{
    let text = cursor.take::<InSingleQuotes>(alloc)?;
    cursor.expect('\'')?;
    Ok(Text::from(text))
}

/// The parts up to the next double quote; the cursor goes behind that.
#[tactic(auto, unfolding(crate::specs::Readers::double_quoted_value))]
fn double_quoted_value(
    alloc: Global,
    cursor: &mut Cursor<'_>,
    scope: &Scope<'_>,
) -> Result<Text, ReadError>
    ensures { Reads (as_text scope.now.environ.now.pairs scope.now.earlier.now double_quoted_value cursor.old) result cursor.new }
{
    let text = parts(alloc, cursor, true, scope)?;
    match cursor.expect('"') {
        Ok(()) => Ok(text),
        Err(error) => {
            drop(text);
            Err(error)
        }
    }
}

/// The value behind an `=`, as its text: of `A=$HOME/bin`, where the home is `/h`, that is `/h/bin`. Where there is none, it is
/// the empty text, and the cursor stays before the blanks.
#[tactic(auto, unfolding(crate::specs::Readers::value))]
pub fn value(alloc: Global, cursor: &mut Cursor<'_>, scope: &Scope<'_>) -> Result<Text, ReadError>
    ensures { Reads (as_text scope.now.environ.now.pairs scope.now.earlier.now value cursor.old) result cursor.new }
{
    let mut ahead = cursor.copied();
    ahead.pass::<Blank>();
    if ahead.sees('\'') {
        ahead.step();
        *cursor = ahead;
        return single_quoted_value(alloc, cursor, scope);
    }
    if ahead.sees('"') {
        ahead.step();
        *cursor = ahead;
        return double_quoted_value(alloc, cursor, scope);
    }
    if has_bare_value(cursor, &ahead) {
        *cursor = ahead;
        return parts(alloc, cursor, false, scope);
    }
    Ok(Text::from(String::new(alloc)))
}

/// Whether a bare value begins behind the blanks: behind a blank it doesn't begin with `#`.
fn has_bare_value(before: &Cursor<'_>, behind: &Cursor<'_>) -> bool
    ensures { result ≡ (starts is_bare behind.now && not (starts is_blank before.now && sees number_sign behind.now)) }
{
    behind.starts::<Bare>() && !(before.starts::<Blank>() && behind.sees('#'))
}
