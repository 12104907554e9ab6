//! The places of what stands in a file.
ghost use Rattle.std.specs.Prelude.{◌≡◌};
ghost use Rattle.just_lang_spots.specs.Places.{name_spot, literal_spot, argument_spot};

use super::spot::Spot;
use just_lang_syntax::{Argument, Name, StringLiteral};

/// The place of a name.
pub fn name_spot(file: usize, name: &Name) -> Spot
    ensures { result ≡ name_spot file name.now }
{
    Spot {
        file,
        line: name.line,
        column: name.column,
    }
}

/// The place of a string.
pub fn literal_spot(file: usize, literal: &StringLiteral) -> Spot
    ensures { result ≡ literal_spot file literal.now }
{
    Spot {
        file,
        line: literal.line,
        column: literal.column,
    }
}

/// The place of an attribute's argument.
pub fn argument_spot(file: usize, argument: &Argument) -> Spot
    ensures { result ≡ argument_spot file argument.now }
{
    Spot {
        file,
        line: argument.line,
        column: argument.column,
    }
}
