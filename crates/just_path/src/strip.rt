//! The refusal of a base that a path doesn't begin with.
ghost use Rattle.std.specs.Prelude.{Some, codes};

use std::error::Error;
use std::fmt;

/// The components of a path don't begin with those that were to be stripped.
#[derive(Clone, Copy, Debug, PartialEq, Eq)]
pub struct StripPrefix;

impl fmt::Display for StripPrefix {
    ghost output = { λ _. Some (codes "prefix not found") };

    fn fmt<W: fmt::Write>(&self, f: &mut fmt::Formatter<W>) -> fmt::Result {
        f.write_str("prefix not found")
    }
}

impl Error for StripPrefix {}
