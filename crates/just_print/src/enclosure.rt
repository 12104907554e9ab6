//! Texts between two marks.
ghost use Rattle.std.specs.Prelude.{◌≡◌, Some};
ghost use Rattle.just_print.specs.SmallTexts.{ticked};

use std::fmt;

/// A text that is printed in backquotes.
#[derive(Clone, Copy, Drop)]
pub struct Enclosure<'a> {
    pub text: &'a str,
}

impl<'a> Enclosure<'a> {
    /// The text in backquotes.
    pub fn tick(text: &'a str) -> Enclosure<'a>
        ensures { result.text.now ≡ text.now }
    {
        Enclosure { text }
    }
}

impl<'a> fmt::Display for Enclosure<'a> {
    ghost output = { λ e. Some (ticked e.text.now) };

    fn fmt<W: fmt::Write>(&self, f: &mut fmt::Formatter<W>) -> fmt::Result {
        write!(f, "`{}`", self.text)
    }
}
