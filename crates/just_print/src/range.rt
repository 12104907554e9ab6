//! Numbers of values that may be given.
ghost use Rattle.std.specs.Prelude.{◌≡◌, Some};
ghost use Rattle.just_print.specs.SmallTexts.{range_text};

use std::fmt;
use std::ops::RangeInclusive;

/// How many values may be given, from the least number to the greatest.
#[derive(Clone, Copy, Drop)]
pub struct DisplayRange {
    pub least: usize,
    pub greatest: usize,
}

/// Prints a range of numbers: `1` where it holds one, `2 to 3`, or `1 or more` where it ends with the greatest number there is.
pub fn display(range: &RangeInclusive<usize>) -> DisplayRange
    ensures least { result.least ≡ range.now.start }
    ensures greatest { result.greatest ≡ range.now.end }
{
    DisplayRange {
        least: *range.start(),
        greatest: *range.end(),
    }
}

impl fmt::Display for DisplayRange {
    ghost output = { λ r. Some (range_text r.least r.greatest) };

    fn fmt<W: fmt::Write>(&self, f: &mut fmt::Formatter<W>) -> fmt::Result {
        if self.least == self.greatest {
            write!(f, "{}", self.least)
        } else if self.greatest == usize::MAX {
            write!(f, "{} or more", self.least)
        } else {
            write!(f, "{} to {}", self.least, self.greatest)
        }
    }
}
