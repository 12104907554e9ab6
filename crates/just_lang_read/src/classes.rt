//! The classes of characters that the grammar speaks of.
ghost use Rattle.std.specs.Prelude.{◌≡◌};

use super::Class;

/// A space or a tab.
pub struct Blank;

impl Class for Blank {
    ghost use Rattle.just_lang_read.specs.Characters.{is_blank};

    ghost members = { is_blank };

    fn has(c: char) -> bool {
        matches!(c, ' ' | '\t')
    }
}

/// What a name begins with.
pub struct NameStart;

impl Class for NameStart {
    ghost use Rattle.just_lang_read.specs.Characters.{begins_name};

    ghost members = { begins_name };

    fn has(c: char) -> bool {
        matches!(c, 'A'..='Z' | 'a'..='z' | '_')
    }
}

/// What a name holds.
pub struct InName;

impl Class for InName {
    ghost use Rattle.just_lang_read.specs.Characters.{in_name};

    ghost members = { in_name };

    fn has(c: char) -> bool {
        NameStart::has(c) || matches!(c, '0'..='9' | '-')
    }
}

/// A hexadecimal digit.
pub struct HexDigit;

impl Class for HexDigit {
    ghost use Rattle.just_lang_read.specs.Characters.{is_hex};

    ghost members = { is_hex };

    fn has(c: char) -> bool {
        matches!(c, '0'..='9' | 'a'..='f' | 'A'..='F')
    }
}

/// What a comment holds.
pub struct InLine;

impl Class for InLine {
    ghost use Rattle.just_lang_read.specs.Characters.{in_line};

    ghost members = { in_line };

    fn has(c: char) -> bool {
        c != '\n'
    }
}

/// A quote.
pub struct QuoteMark;

impl Class for QuoteMark {
    ghost use Rattle.just_lang_read.specs.Characters.{is_quote};

    ghost members = { is_quote };

    fn has(c: char) -> bool {
        matches!(c, '\'' | '"')
    }
}
