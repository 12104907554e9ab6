//! A text in double quotes.
ghost use Rattle.std.specs.Prelude.{◌≡◌, Some};
ghost use Rattle.std.specs.Fmt.{WritesOnOk};
ghost use Rattle.std.specs.List.{flat_map};
ghost use Rattle.just_print_lists.specs.Evaluated.{escaped, element_text};

use std::fmt;

/// A text in double quotes, as the values of variables are printed: `\\`, `\"`, `\n`, `\r` and `\t` for what these stand for.
#[derive(Clone, Copy, Drop)]
pub struct Element<'a> {
    pub characters: &'a [char],
}

impl<'a> fmt::Display for Element<'a> {
    ghost output = { λ e. Some (element_text e.characters.now) };

    fn fmt<W: fmt::Write>(&self, f: &mut fmt::Formatter<W>) -> fmt::Result {
        f.write_char('"')?;
        write_escaped(self.characters, f)?;
        f.write_char('"')
    }
}

/// Writes a character of a text in double quotes.
fn write_one<W: fmt::Write>(letter: char, f: &mut fmt::Formatter<W>) -> fmt::Result
    ensures { WritesOnOk W.write_str_gives f.old result (escaped letter) f.new }
{
    match letter {
        '\\' => f.write_str("\\\\"),
        '"' => f.write_str("\\\""),
        '\n' => f.write_str("\\n"),
        '\r' => f.write_str("\\r"),
        '\t' => f.write_str("\\t"),
        _ => f.write_char(letter),
    }
}

/// Writes the characters of a text in double quotes.
fn write_escaped<W: fmt::Write>(characters: &[char], f: &mut fmt::Formatter<W>) -> fmt::Result
    ensures { WritesOnOk W.write_str_gives f.old result (flat_map escaped characters.now) f.new }
{
    'characters: for letter in characters {
        write_one(*letter, f)?;
    }
    Ok(())
}
