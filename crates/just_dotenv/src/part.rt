//! The parts of a bare or double quoted value.
ghost use Rattle.std.specs.Prelude.{◌≡◌, ◌++◌, IfOk, string_bytes};
ghost use Rattle.just_lang_read.specs.Reader.{Reads};
ghost use Rattle.just_dotenv.specs.Meaning.{part_text};
ghost use Rattle.just_dotenv.specs.Readers.{part, dollar, brace, escape_at, waits};
ghost use Rattle.just_lang_read.specs.Place.{next};

use super::characters::{InWord, is_plain};
use super::scope::Scope;
use just_lang_read::{Cursor, ReadError};
use just_path_text::Text;
use std::alloc::{AllocError, Global};

/// One part of a double quoted or bare value, as it is written.
pub enum Part {
    /// A character that stands for itself, or the one that an escape makes.
    Letter(char),
    /// `$NAME`
    Name(Text),
    /// `${NAME}`
    Braced(Text),
    /// A `$` before any other `{`.
    Gap,
    /// A `$` before anything else.
    Sign,
}

impl Drop for Part {
    fn drop(self) {
        match self {
            Part::Name(_) | Part::Braced(_) => {}
            Part::Letter(_) | Part::Gap | Part::Sign => {}
        }
    }
}

impl Part {
    /// Whether a `${` still waits for a `}` behind this part.
    pub fn waits(&self, before: bool) -> bool
        ensures { result ≡ waits self.now before }
    {
        match self {
            Part::Letter(c) => before && *c != '}',
            Part::Braced(_) => false,
            Part::Gap => true,
            Part::Name(_) | Part::Sign => before,
        }
    }

    /// Adds what the part means.
    pub fn add_to(&self, text: &mut String, scope: &Scope<'_>) -> Result<(), AllocError>
        ensures { IfOk result (λ u. string_bytes text.new ≡ string_bytes text.old ++ part_text scope.now.environ.now.pairs scope.now.earlier.now self.now) }
    {
        match self {
            Part::Letter(c) => text.push(*c),
            Part::Name(name) | Part::Braced(name) => text.push_str(scope.look_up(name)),
            Part::Gap | Part::Sign => text.push_str("$"),
        }
    }
}

/// Reads the next part of a double quoted value (`quoted`) or of a bare one: of `$A/b` first the name `A`, then `/`, then `b`.
#[tactic(auto, unfolding(crate::specs::Readers::part))]
pub fn read_part(alloc: Global, cursor: &mut Cursor<'_>, quoted: bool) -> Result<Part, ReadError>
    ensures { Reads (part quoted cursor.old) result cursor.new }
{
    let Some(c) = cursor.peek() else {
        return Err(ReadError::Syntax);
    };
    if is_plain(quoted, c) {
        cursor.step();
        return Ok(Part::Letter(c));
    }
    if c == '$' {
        cursor.step();
        return dollar(alloc, cursor);
    }
    if quoted && c == '\\' {
        cursor.step();
        return escape(cursor);
    }
    Err(ReadError::Syntax)
}

/// What a `$` makes with what follows it.
#[tactic(auto, unfolding(crate::specs::Readers::dollar))]
fn dollar(alloc: Global, cursor: &mut Cursor<'_>) -> Result<Part, ReadError>
    ensures { Reads (dollar cursor.old) result cursor.new }
{
    if cursor.starts::<InWord>() {
        let name = cursor.take::<InWord>(alloc)?;
        Ok(Part::Name(Text::from(name)))
    } else if cursor.sees('{') {
        brace(alloc, cursor)
    } else {
        Ok(Part::Sign)
    }
}

/// What `${` makes with what follows it.
#[tactic(auto, unfolding(crate::specs::Readers::brace))]
fn brace(alloc: Global, cursor: &mut Cursor<'_>) -> Result<Part, ReadError>
    ensures { Reads (brace (next cursor.old) cursor.old) result cursor.new }
{
    let mut ahead = cursor.copied();
    ahead.step();
    if !ahead.starts::<InWord>() {
        return Ok(Part::Gap);
    }
    let name = ahead.take::<InWord>(alloc)?;
    if !ahead.sees('}') {
        return Ok(Part::Gap);
    }
    ahead.step();
    *cursor = ahead;
    Ok(Part::Braced(Text::from(name)))
}

/// What a backslash makes with the character behind it.
#[tactic(auto, unfolding(crate::specs::Readers::escape_at))]
fn escape(cursor: &mut Cursor<'_>) -> Result<Part, ReadError>
    ensures { Reads (escape_at cursor.old) result cursor.new }
{
    let Some(c) = cursor.peek() else {
        return Err(ReadError::Syntax);
    };
    let meant = match c {
        '\\' | '"' | '$' => c,
        'n' => '\n',
        _ => return Err(ReadError::Syntax),
    };
    cursor.step();
    Ok(Part::Letter(meant))
}
