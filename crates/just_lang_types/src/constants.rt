//! The constants of the language.

ghost use Rattle.std.specs.Prelude.{◌≡◌, Some, None, MatchOption, map};
ghost use Rattle.just_lang_types.specs.Constants.{constants, constant_of};

/// Each constant's name, and its text.
static CONSTANTS: [(&str, &str); 29] = [
    ("HEX", "0123456789abcdef"),
    ("HEXLOWER", "0123456789abcdef"),
    ("HEXUPPER", "0123456789ABCDEF"),
    ("PATH_SEP", "/"),
    ("PATH_VAR_SEP", ":"),
    ("CLEAR", "\u{1b}c"),
    ("NORMAL", "\u{1b}[0m"),
    ("BOLD", "\u{1b}[1m"),
    ("ITALIC", "\u{1b}[3m"),
    ("UNDERLINE", "\u{1b}[4m"),
    ("INVERT", "\u{1b}[7m"),
    ("HIDE", "\u{1b}[8m"),
    ("STRIKETHROUGH", "\u{1b}[9m"),
    ("BLACK", "\u{1b}[30m"),
    ("RED", "\u{1b}[31m"),
    ("GREEN", "\u{1b}[32m"),
    ("YELLOW", "\u{1b}[33m"),
    ("BLUE", "\u{1b}[34m"),
    ("MAGENTA", "\u{1b}[35m"),
    ("CYAN", "\u{1b}[36m"),
    ("WHITE", "\u{1b}[37m"),
    ("BG_BLACK", "\u{1b}[40m"),
    ("BG_RED", "\u{1b}[41m"),
    ("BG_GREEN", "\u{1b}[42m"),
    ("BG_YELLOW", "\u{1b}[43m"),
    ("BG_BLUE", "\u{1b}[44m"),
    ("BG_MAGENTA", "\u{1b}[45m"),
    ("BG_CYAN", "\u{1b}[46m"),
    ("BG_WHITE", "\u{1b}[47m"),
];

/// The constants, in their order.
#[tactic(auto, unfolding(crate::specs::Constants::constants))]
fn rows() -> &'static [(&'static str, &'static str)]
    ensures { map (λ r. (r.0.now, r.1.now)) result.now ≡ constants }
{
    &CONSTANTS
}

/// The text of the constant with that name: digits, separators, and what styles the text of a terminal.
pub fn constant(name: &str) -> Option<&'static str>
    ensures { MatchOption result (constant_of name.now ≡ None) (λ text. constant_of name.now ≡ Some text.now) }
{
    'rows: for row in rows() {
        if name == row.0 {
            return Some(row.1);
        }
    }
    None
}
