//! What a cursor meets in a text, and boxes of one kind in another.

use crate::shown::says;
use just_lang_read::{Boxed, Class, Cursor, ReadError};
use just_path_text::NoMemory;
use std::alloc::Global;

/// The digits `0` to `9`.
struct Digit;

impl Class for Digit {
    ghost use Rattle.std.specs.Prelude.{nat_le, ◌&&◌};

    ghost members = { λ c. nat_le 48 c && nat_le c 57 };

    fn has(c: char) -> bool {
        matches!(c, '0'..='9')
    }
}

/// A list that holds itself through a box.
#[derive(Drop)]
enum Chain {
    End,
    Link(u8, Boxed<Chain>),
}

/// The number of its one link.
fn linked(alloc: Global, number: u8) -> Result<u8, NoMemory> {
    let end = Boxed::new(alloc, Chain::End)?;
    let link = Boxed::new(alloc, Chain::Link(number, end))?;
    Ok(match link.into_inner() {
        Chain::Link(number, rest) if matches!(rest.get(), Chain::End) => number,
        _ => 0,
    })
}

/// What follows behind one character: whether it is an `=`, and whether the text ends there.
fn follows(cursor: &Cursor<'_>) -> (bool, bool) {
    let mut ahead = cursor.copied();
    ahead.step();
    (ahead.expect('=').is_ok(), ahead.is_at_end())
}

/// The digits in front with the character and the column behind them; and of the next line whether an `é` stands first, the line
/// and the column, and what follows.
fn read(alloc: Global, text: &[char]) -> Result<String, ReadError> {
    let mut cursor = Cursor::new(text);
    let digits = cursor.take::<Digit>(alloc)?;
    let behind = (cursor.peek(), cursor.column());
    cursor.step();
    let ahead = follows(&cursor);
    let kept = (cursor.sees('é'), cursor.line(), cursor.column());
    Ok(format!(in alloc; "{digits} {behind:?} {kept:?} {ahead:?}")?)
}

#[test]
fn scanned_text(rt: HostRuntime) {
    says(
        &rt,
        read(rt.alloc(), &['1', '2', '\n', 'é', '=']),
        "12 (Some('\\n'), 3) (true, 2, 1) (true, true)",
    );
    assert_eq!(rt; linked(rt.alloc(), 7), Ok(7));
}
