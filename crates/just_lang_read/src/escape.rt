//! The pieces of a string: characters, and escapes.
ghost use Rattle.std.specs.Prelude.{◌≡◌, ◌<◌, ℕ, Ok, Err, Some, None, true, false, MatchOption};
ghost use Rattle.just_lang_read.specs.Place.{next, starts, first};
ghost use Rattle.just_lang_read.specs.Reader.{Reads};
ghost use Rattle.just_lang_read.specs.Characters.{is_hex};
ghost use Rattle.just_lang_read.specs.Quotes.{digit_value};
ghost use Rattle.just_lang_read.specs.Given.{ReadsSome};
ghost use Rattle.just_lang_read.specs.Tokens as tokens;

use super::{Cursor, ReadError};

/// A piece of a string, and the character that it gives, if it gives one.
#[tactic(auto, unfolding(crate::specs::Tokens::piece))]
pub fn piece(cursor: &mut Cursor<'_>, cooked: bool) -> Result<Option<char>, ReadError>
    ensures { ReadsSome (tokens.piece cooked cursor.old) result cursor.new }
{
    let Some(c) = cursor.peek() else {
        return Err(ReadError::Syntax);
    };
    cursor.step();
    if cooked && c == '\\' {
        escape(cursor)
    } else {
        Ok(Some(c))
    }
}

/// What a backslash and that which stands here give.
#[tactic(auto, unfolding(crate::specs::Tokens::escape))]
fn escape(cursor: &mut Cursor<'_>) -> Result<Option<char>, ReadError>
    ensures { ReadsSome (tokens.escape cursor.old) result cursor.new }
{
    let Some(c) = cursor.peek() else {
        return Err(ReadError::Syntax);
    };
    cursor.step();
    match c {
        'n' => Ok(Some('\n')),
        'r' => Ok(Some('\r')),
        't' => Ok(Some('\t')),
        '"' | '\\' => Ok(Some(c)),
        'u' => unicode(cursor),
        '\n' => Ok(None),
        '\r' => {
            cursor.expect('\n')?;
            Ok(None)
        }
        _ => Err(ReadError::Syntax),
    }
}

/// One to six hexadecimal digits in braces: the character with that number.
#[tactic(auto, unfolding(crate::specs::Tokens::unicode))]
fn unicode(cursor: &mut Cursor<'_>) -> Result<Option<char>, ReadError>
    ensures { ReadsSome (tokens.unicode cursor.old) result cursor.new }
{
    cursor.expect('{')?;
    let c = number(cursor)?;
    cursor.expect('}')?;
    Ok(Some(c))
}

/// One to six hexadecimal digits: the character with that number.
#[tactic(auto, using(crate::proofs::Digits::counts_begin, crate::proofs::Digits::counts_more, crate::proofs::Digits::number_done, crate::proofs::Digits::number_odd, crate::proofs::Digits::number_none, crate::proofs::Digits::number_long, crate::proofs::Digits::number_big, crate::proofs::Steps::next_shorter))]
fn number(cursor: &mut Cursor<'_>) -> Result<char, ReadError>
    ensures { Reads (tokens.number cursor.old) result cursor.new }
{
    let mut number: u32 = 0;
    let mut count: u32 = 0;
    'digits: while let Some(digit) = next_digit(cursor) {
        count += 1;
        number = number * 16 + digit;
        if count > 6 {
            return Err(ReadError::Syntax);
        }
        if number > 0x10_FFFF {
            return Err(ReadError::Syntax);
        }
    }
    if count == 0 {
        return Err(ReadError::Syntax);
    }
    match char::from_u32(number) {
        Some(c) => Ok(c),
        None => Err(ReadError::Syntax),
    }
}

/// The value of the digit that stands here, and behind it.
fn next_digit(cursor: &mut Cursor<'_>) -> Option<u32>
    ensures { MatchOption result ((starts is_hex cursor.old ≡ false) × (cursor.new ≡ cursor.old)) (λ d. (starts is_hex cursor.old ≡ true) × (d < 16) × (cursor.new ≡ next cursor.old) × ((c : ℕ) → first cursor.old ≡ Some c → d ≡ digit_value c)) }
{
    let c = cursor.peek()?;
    let value = match c {
        '0'..='9' => c as u32 - 48,
        'a'..='f' => c as u32 - 87,
        'A'..='F' => c as u32 - 55,
        _ => return None,
    };
    cursor.step();
    Some(value)
}
