//! The sets of characters of the grammar, besides those of [`just_lang_read`].
ghost use Rattle.std.specs.Prelude.{◌≡◌};
ghost use Rattle.just_dotenv.specs.Characters.{is_plain, in_value};

use just_lang_read::{Class, NameStart};

/// What a name that is looked up holds.
pub struct InWord;

impl Class for InWord {
    ghost use Rattle.just_dotenv.specs.Characters.{in_word};

    ghost members = { in_word };

    fn has(c: char) -> bool {
        NameStart::has(c) || matches!(c, '0'..='9')
    }
}

/// What the name of a pair holds.
pub struct InName;

impl Class for InName {
    ghost use Rattle.just_dotenv.specs.Characters.{in_name};

    ghost members = { in_name };

    fn has(c: char) -> bool {
        InWord::has(c) || c == '.'
    }
}

/// What stands between single quotes.
pub struct InSingleQuotes;

impl Class for InSingleQuotes {
    ghost use Rattle.just_dotenv.specs.Characters.{in_single_quotes};

    ghost members = { in_single_quotes };

    fn has(c: char) -> bool {
        c != '\''
    }
}

/// What a bare value holds.
pub struct Bare;

impl Class for Bare {
    ghost use Rattle.just_dotenv.specs.Characters.{is_bare};

    ghost members = { is_bare };

    fn has(c: char) -> bool {
        !matches!(c, ' ' | '\t' | '\r' | '\n' | '"' | '\'' | '\\')
    }
}

/// Whether a double quoted or a bare value may go on with this character.
pub fn is_in_value(quoted: bool, c: char) -> bool
    ensures { result ≡ in_value quoted c }
{
    if quoted { c != '"' } else { Bare::has(c) }
}

/// Whether it stands there for itself: neither a `$` nor a backslash does.
pub fn is_plain(quoted: bool, c: char) -> bool
    ensures { result ≡ is_plain quoted c }
{
    is_in_value(quoted, c) && c != '$' && c != '\\'
}
