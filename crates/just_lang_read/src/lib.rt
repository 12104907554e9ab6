//! The room of the language: reading a text character by character, by cursors, places, and readers that are proved against a grammar.
//!
//! A [`Cursor`] is a place in a text: the characters that are left, and the line and the column of the first of them, both
//! from 1. Contracts see it as a `Place`. A set of characters is a type with an implementation of [`Class`], so that a run of
//! digits is `cursor.take::<Digit>(alloc)`. To look ahead, take a copy, read from that, and put it in the cursor's place where
//! what it read is wanted:
//!
//! ```
//! let mut ahead = cursor.copied();
//! ahead.pass::<Blank>();
//! if ahead.sees('=') {
//!     cursor = ahead;
//! }
//! ```
//!
//! A reader of a grammar is a function from a cursor to a value or a [`ReadError`]. Its contract says `Reads (reader place)
//! result cursor.new`, where `reader` is a definition in specs: what it answers at a place, and where it leaves the cursor. That
//! such a definition reads what a grammar says is a matter of proofs; proofs/Laws.antt has the laws that they need.
//!
//! What a grammar of lines reads on a cursor alone stands here too: tokens and words with the blanks behind them ([`token`],
//! [`word`]), the ends of lines ([`newline`]), quotes ([`Quote`]), the pieces of the strings between them ([`piece`]), and texts
//! without the indentation that their lines share ([`unindented`]).
#![tactic(auto)]

mod boxed;
mod class;
mod classes;
mod cursor;
mod decimals;
mod error;
mod escape;
mod indentation;
mod prefix;
mod quote;
mod tokens;

pub use boxed::Boxed;
pub use class::Class;
pub use classes::{Blank, HexDigit, InLine, InName, NameStart, QuoteMark};
pub use cursor::Cursor;
pub use decimals::{decimal, is_within};
pub use error::ReadError;
pub use escape::piece;
pub use indentation::{characters_of, string_of, unindented};
pub use prefix::strip;
pub use quote::{Quote, begins_string, goes_on, pieces, quote_at};
pub use tokens::{
    behind_word, blank_line, drop_returns, ends_line, is_blank_line, is_rest, is_word,
    line_characters, maybe, newline, skip, token, word,
};
