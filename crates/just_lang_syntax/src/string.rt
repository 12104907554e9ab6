//! Strings: as they are written, and the texts that they mean.
ghost use Rattle.std.specs.Prelude.{◌<◌, Ok, Err, Some, None, true};
ghost use Rattle.just_lang_read.specs.Reader.{Reads};
ghost use Rattle.just_lang_read.specs.Quotes.{quote_at};
ghost use Rattle.just_lang_syntax.specs.Meanings.{cooked_text, text_of, TellsText};
ghost use Rattle.just_lang_syntax.specs.Readers as read;

use super::StringLiteral;
use super::text::text_of;
use just_lang_read::{
    Cursor, Quote, QuoteMark, ReadError, characters_of, piece, pieces, quote_at, skip, unindented,
};
use just_path_text::Text;
use std::alloc::Global;

/// A string, and the blanks behind it.
#[tactic(auto, unfolding(crate::specs::Readers::string))]
pub fn string(alloc: Global, cursor: &mut Cursor<'_>) -> Result<StringLiteral, ReadError>
    ensures { Reads (read.string cursor.old) result cursor.new }
{
    let line = cursor.line();
    let column = cursor.column();
    let expands = cursor.sees('x');
    if expands {
        cursor.step();
    }
    let Some(quote) = quote_at(cursor) else {
        return Err(ReadError::Syntax);
    };
    cursor.pass_text(quote.mark());
    let raw = raw_text(alloc, cursor, quote)?;
    skip(cursor);
    Ok(StringLiteral {
        expands,
        quote,
        raw,
        line,
        column,
    })
}

/// What stands up to the closing quote, and the quote.
#[tactic(auto, unfolding(crate::specs::Readers::raw_text))]
fn raw_text(alloc: Global, cursor: &mut Cursor<'_>, quote: Quote) -> Result<Text, ReadError>
    ensures { Reads (read.raw_text quote cursor.old) result cursor.new }
{
    let begin = cursor.copied();
    pieces(cursor, quote)?;
    let text = begin.text_up_to(alloc, cursor)?;
    if !cursor.begins(quote.mark()) {
        return Err(ReadError::Syntax);
    }
    cursor.pass_text(quote.mark());
    Ok(Text::from(text))
}

impl StringLiteral {
    /// The text that it means, before an `x` in front expands it: a block without its indentation, a double quoted one
    /// with its escapes' meanings. Where an escape is none it means no text.
    pub fn text(&self, alloc: Global) -> Result<Text, ReadError>
        ensures { TellsText (text_of self.now) result }
    {
        if !self.quote.is_block() && !self.quote.is_cooked() {
            return Ok(Text::from(String::from_str(alloc, self.raw.as_str())?));
        }
        let characters = if self.quote.is_block() {
            unindented(alloc, self.raw.as_str())?
        } else {
            characters_of(alloc, self.raw.as_str())?
        };
        if self.quote.is_cooked() {
            return cooked(alloc, characters.as_slice());
        }
        Ok(text_of(alloc, characters.as_slice())?)
    }
}

/// A text with the meanings of its escapes.
#[tactic(auto, using(crate::proofs::CookedLoop::more_letter, crate::proofs::CookedLoop::more_nothing, crate::proofs::CookedLoop::done, crate::proofs::CookedLoop::wrong, crate::proofs::CookedLoop::shorter))]
fn cooked(alloc: Global, text: &[char]) -> Result<Text, ReadError>
    ensures { TellsText (cooked_text text.now) result }
{
    let mut cursor = Cursor::new(text);
    let mut meant = String::new(alloc);
    'pieces: while !cursor.is_at_end() {
        match piece(&mut cursor, true) {
            Ok(Some(c)) => meant.push(c)?,
            Ok(None) => {}
            Err(ReadError::NoMemory) => return Err(ReadError::NoMemory),
            Err(ReadError::Syntax | ReadError::Depth) => return Err(ReadError::Syntax),
        }
    }
    Ok(Text::from(meant))
}
