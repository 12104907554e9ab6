//! A place in a text, and the steps from it.
ghost use Rattle.std.specs.Prelude.{◌≡◌, ℕ, ◌+◌, ◌<◌, ◌^◌, [], ◌∷◌, ◌↔◌, IsTrue, MatchOption, IfOk, IfErr, List, Bool, true, false, Some, None, Option, length, encode_utf8_all, string_bytes};
ghost use Rattle.just_lang_read.specs.Place.{Place, start, next, past, run, is_end, first, starts, sees, begins, behind_text, between};
ghost use Rattle.just_lang_read.specs.Reader.{Reads, expect};

use super::{Class, ReadError};
use std::alloc::Global;
use std::marker::Model;

/// The room that a text is given at first. Most names are no longer.
const SHORT: usize = 16;

/// A place in a text: the characters that are left, and the line and the column of the first of them. Contracts see it as a
/// `Place`.
///
/// ```
/// let text = ['1', '2', '='];
/// let mut cursor = Cursor::new(&text);
/// let digits = cursor.take::<Digit>(alloc)?; // "12"
/// cursor.expect('=')?;
/// assert!(rt; cursor.is_at_end() && cursor.column() == 4);
/// ```
#[derive(Drop)]
pub struct Cursor<'a> {
    rest: &'a [char],
    line: usize,
    column: usize,
}

impl<'a> Model for Cursor<'a> {
    ghost use Rattle.just_lang_read.specs.Place.{Place, place_code};

    ghost Value = { Place };

    ghost coded = { place_code };

    ghost use Rattle.just_lang_read.specs.Cursor.{place_of, HasRoom};

    ghost view = { place_of };

    ghost invariant = { HasRoom };
}

impl<'a> Cursor<'a> {
    /// The start of a text, on line 1 in column 1.
    pub fn new(text: &'a [char]) -> Cursor<'a>
        ensures { result ≡ start text.now }
    {
        Cursor {
            rest: text,
            line: 1,
            column: 1,
        }
    }

    /// The same place, to look ahead from: what is read from the copy leaves this cursor where it is.
    pub fn copied(&self) -> Cursor<'a>
        ensures { result ≡ self.now }
    {
        Cursor {
            rest: self.rest,
            line: self.line,
            column: self.column,
        }
    }

    /// The line of the place, from 1.
    pub fn line(&self) -> usize
        ensures { result ≡ self.now.line }
    {
        self.line
    }

    /// The column of the place in characters, from 1.
    pub fn column(&self) -> usize
        ensures { result ≡ self.now.column }
    {
        self.column
    }

    /// Whether no character is left.
    pub fn is_at_end(&self) -> bool
        ensures { result ≡ is_end self.now }
    {
        self.rest.is_empty()
    }

    /// The first character that is left, or nothing at the end of the text.
    pub fn peek(&self) -> Option<char>
        ensures { result ≡ first self.now }
    {
        match front(self.rest) {
            Some((c, _)) => Some(c),
            None => None,
        }
    }

    /// Whether a character of the class comes first: of `12=`, `starts::<Digit>()` is true, and at the end of the text false.
    pub fn starts<C: Class>(&self) -> bool
        ensures { result ≡ starts C.members self.now }
    {
        match self.peek() {
            Some(c) => C::has(c),
            None => false,
        }
    }

    /// Whether this character comes first.
    pub fn sees(&self, wanted: char) -> bool
        ensures { result ≡ sees wanted self.now }
    {
        match self.peek() {
            Some(c) => c == wanted,
            None => false,
        }
    }

    /// Whether these characters of ASCII come first.
    #[tactic(auto, using(crate::proofs::Steps::begins_none))]
    pub fn begins(&self, text: &[u8]) -> bool
        ensures { result ≡ begins text.now self.now }
    {
        let mut rest = self.rest;
        'letters: for letter in text {
            let Some((c, behind)) = front(rest) else {
                return false;
            };
            if c != char::from(*letter) {
                return false;
            }
            rest = behind;
        }
        true
    }

    /// Goes on by as many characters as the text has.
    #[tactic(auto, using(crate::proofs::Steps::behind_more))]
    pub fn pass_text(&mut self, text: &[u8])
        ensures { self.new ≡ behind_text text.now self.old }
    {
        'letters: for _letter in text {
            self.step();
        }
    }

    /// What stands from here to another place of the same text.
    pub fn text_up_to(&self, alloc: Global, end: &Cursor<'_>) -> Result<String, ReadError>
        ensures text { IfOk result (λ t. string_bytes t ≡ encode_utf8_all (between self.now end.now)) }
        ensures memory { IfErr result (λ e. e ≡ ReadError.NoMemory) }
    {
        let count = self.rest.len().saturating_sub(end.rest.len());
        let mut text = String::new(alloc);
        'letters: for c in &self.rest[..count] {
            text.push(*c)?;
        }
        Ok(text)
    }

    /// Goes behind the first character; at the end it stays. Behind a line feed, and behind nothing else, a line begins.
    #[tactic(auto, using(crate::proofs::Steps::next_line, crate::proofs::Steps::next_column, crate::proofs::Steps::next_end))]
    pub fn step(&mut self)
        ensures { self.new ≡ next self.old }
    {
        if let Some((c, rest)) = front(self.rest) {
            self.rest = rest;
            if c == '\n' {
                self.line += 1;
                self.column = 1;
            } else {
                self.column += 1;
            }
        }
    }

    /// Goes behind this character. Where another comes first, or none, that is `ReadError::Syntax`, and the cursor stays.
    #[tactic(auto, unfolding(crate::specs::Reader::expect))]
    pub fn expect(&mut self, wanted: char) -> Result<(), ReadError>
        ensures { Reads (expect wanted self.old) result self.new }
    {
        if self.sees(wanted) {
            self.step();
            Ok(())
        } else {
            Err(ReadError::Syntax)
        }
    }

    /// Goes behind the longest run of the class, which may be empty: from `12=`, `pass::<Digit>()` goes to the `=`.
    #[tactic(auto, using(crate::proofs::Steps::past_next, crate::proofs::Steps::past_stays, crate::proofs::Steps::next_shorter))]
    pub fn pass<C: Class>(&mut self)
        ensures { self.new ≡ past C.members self.old }
    {
        while self.starts::<C>() {
            self.step();
        }
    }

    /// Goes behind the longest run of the class, and gives it: from `12=`, `take::<Digit>(alloc)` is `12`, and it is the empty text
    /// where no character of the class comes first. It is never `ReadError::Syntax`. Where memory is wanting, the cursor stands
    /// within the run.
    #[tactic(auto, using(crate::proofs::Steps::past_next, crate::proofs::Steps::past_stays, crate::proofs::Steps::next_shorter, crate::proofs::Steps::run_text_next, crate::proofs::Steps::run_text_end))]
    pub fn take<C: Class>(&mut self, alloc: Global) -> Result<String, ReadError>
        ensures new { IfOk result (λ text. self.new ≡ past C.members self.old) }
        ensures text { IfOk result (λ text. string_bytes text ≡ encode_utf8_all (run C.members self.old.rest)) }
        ensures memory { IfErr result (λ e. e ≡ ReadError.NoMemory) }
    {
        let mut text = String::with_capacity(alloc, SHORT)?;
        while let Some(c) = self.next_of::<C>() {
            text.push(c)?;
        }
        Ok(text)
    }

    /// The first character, and behind it, where it is of the class.
    #[tactic(auto, using(crate::proofs::Steps::starts_at, crate::proofs::Steps::starts_none))]
    pub fn next_of<C: Class>(&mut self) -> Option<char>
        ensures { MatchOption result ((starts C.members self.old ≡ false) × (self.new ≡ self.old)) (λ c. (starts C.members self.old ≡ true) × (first self.old ≡ Some c) × (self.new ≡ next self.old)) }
    {
        let c = self.peek()?;
        if C::has(c) {
            self.step();
            Some(c)
        } else {
            None
        }
    }
}

/// The first character, and what follows it.
fn front(text: &[char]) -> Option<(char, &[char])>
    ensures { MatchOption result (text.now ≡ []) (λ f. text.now ≡ f.0 ∷ f.1.now) }
{
    match text {
        [] => None,
        [first, rest @ ..] => Some((*first, rest)),
    }
}
