//! Blanks that can be seen.
ghost use Rattle.std.specs.Prelude.{◌≡◌, Some};
ghost use Rattle.std.specs.Fmt.{WritesOnOk};
ghost use Rattle.just_print.specs.SmallTexts.{seen, shown_all};

use std::fmt;

/// Characters that are printed with their blanks to be seen: `␠` for a space, `␉` for a tab.
#[derive(Clone, Copy, Drop)]
pub struct ShowWhitespace<'a> {
    pub characters: &'a [char],
}

impl<'a> fmt::Display for ShowWhitespace<'a> {
    ghost output = { λ s. Some (shown_all s.characters.now) };

    fn fmt<W: fmt::Write>(&self, f: &mut fmt::Formatter<W>) -> fmt::Result {
        write_shown(self.characters, f)
    }
}

/// A character, a blank to be seen.
fn seen(c: char) -> char
    ensures { result ≡ seen c }
{
    match c {
        ' ' => '␠',
        '\t' => '␉',
        _ => c,
    }
}

/// Writes characters with their blanks to be seen.
fn write_shown<W: fmt::Write>(characters: &[char], f: &mut fmt::Formatter<W>) -> fmt::Result
    ensures { WritesOnOk W.write_str_gives f.old result (shown_all characters.now) f.new }
{
    'characters: for at in 0..characters.len() {
        f.write_char(seen(characters[at]))?;
    }
    Ok(())
}
