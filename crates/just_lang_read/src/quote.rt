//! Quotes: which one stands at a place, and how far the text behind it goes.
ghost use Rattle.std.specs.Prelude.{◌≡◌, Ok, Some, None, true, false};
ghost use Rattle.just_lang_read.specs.Reader.{Reads};
ghost use Rattle.just_lang_read.specs.Quotes.{begins_string, quote_at, goes_on};
ghost use Rattle.just_lang_read.specs.Tokens as tokens;

use super::escape::piece;
use super::{Cursor, QuoteMark, ReadError};

/// The quotes of a string, by their characters.
#[derive(Clone, Copy)]
pub enum Quote {
    /// `'`
    Single,
    /// `"`
    Double,
    /// `'''`
    SingleBlock,
    /// `"""`
    DoubleBlock,
}

impl Quote {
    ghost use Rattle.just_lang_read.specs.Quotes.{mark, is_cooked, is_block};

    /// The characters before and behind a string.
    pub fn mark(self) -> &'static [u8]
        ensures { result.now ≡ mark self }
    {
        match self {
            Quote::Single => b"'",
            Quote::Double => b"\"",
            Quote::SingleBlock => b"'''",
            Quote::DoubleBlock => b"\"\"\"",
        }
    }

    /// Whether the string's escapes mean something.
    pub fn is_cooked(self) -> bool
        ensures { result ≡ is_cooked self }
    {
        match self {
            Quote::Single | Quote::SingleBlock => false,
            Quote::Double | Quote::DoubleBlock => true,
        }
    }

    /// Whether the string's lines lose their indentation.
    pub fn is_block(self) -> bool
        ensures { result ≡ is_block self }
    {
        match self {
            Quote::Single | Quote::Double => false,
            Quote::SingleBlock | Quote::DoubleBlock => true,
        }
    }
}

/// Whether a string begins here: a quote, or an `x` directly before one.
pub fn begins_string(cursor: &Cursor<'_>) -> bool
    ensures { result ≡ begins_string cursor.now }
{
    let mut ahead = cursor.copied();
    if ahead.sees('x') {
        ahead.step();
    }
    ahead.starts::<QuoteMark>()
}

/// The quote that stands here.
pub fn quote_at(cursor: &Cursor<'_>) -> Option<Quote>
    ensures { result ≡ quote_at cursor.now }
{
    if cursor.begins(b"'''") {
        Some(Quote::SingleBlock)
    } else if cursor.begins(b"'") {
        Some(Quote::Single)
    } else if cursor.begins(b"\"\"\"") {
        Some(Quote::DoubleBlock)
    } else if cursor.begins(b"\"") {
        Some(Quote::Double)
    } else {
        None
    }
}

/// Whether a string goes on here.
pub fn goes_on(cursor: &Cursor<'_>, quote: Quote) -> bool
    ensures { result ≡ goes_on quote cursor.now }
{
    !cursor.is_at_end() && !cursor.begins(quote.mark())
}

/// Goes behind the pieces of a string.
#[tactic(auto, using(crate::proofs::PieceLoop::more, crate::proofs::PieceLoop::done, crate::proofs::PieceLoop::wrong, crate::proofs::PieceLoop::shorter))]
pub fn pieces(cursor: &mut Cursor<'_>, quote: Quote) -> Result<(), ReadError>
    ensures { Reads (tokens.pieces quote cursor.old) result cursor.new }
{
    'pieces: while goes_on(cursor, quote) {
        let _given = piece(cursor, quote.is_cooked())?;
    }
    Ok(())
}
