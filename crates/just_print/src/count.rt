//! Nouns behind numbers.
ghost use Rattle.std.specs.Prelude.{◌≡◌, Some, true, false};
ghost use Rattle.just_print.specs.SmallTexts.{count_text};

use std::fmt;

/// A noun that is printed for a number of things: `recipe` for one, `recipes` for any other number.
#[derive(Clone, Copy, Drop)]
pub struct Count<'a> {
    pub noun: &'a str,
    pub number: usize,
    /// Whether the number stands in front.
    pub shows_number: bool,
}

impl<'a> Count<'a> {
    /// The number and the noun: `2 recipes`.
    pub fn numbered(noun: &'a str, number: usize) -> Count<'a>
        ensures noun { result.noun.now ≡ noun.now }
        ensures number { result.number ≡ number }
        ensures shown { result.shows_number ≡ true }
    {
        Count {
            noun,
            number,
            shows_number: true,
        }
    }

    /// The noun alone: `recipes`.
    pub fn unnumbered(noun: &'a str, number: usize) -> Count<'a>
        ensures noun { result.noun.now ≡ noun.now }
        ensures number { result.number ≡ number }
        ensures shown { result.shows_number ≡ false }
    {
        Count {
            noun,
            number,
            shows_number: false,
        }
    }
}

impl<'a> fmt::Display for Count<'a> {
    ghost output = { λ c. Some (count_text c.shows_number c.noun.now c.number) };

    fn fmt<W: fmt::Write>(&self, f: &mut fmt::Formatter<W>) -> fmt::Result {
        if self.shows_number {
            write!(f, "{} ", self.number)?;
        }
        f.write_str(self.noun)?;
        if self.number == 1 {
            Ok(())
        } else {
            f.write_str("s")
        }
    }
}
