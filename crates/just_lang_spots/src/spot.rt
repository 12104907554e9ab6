//! Places in the files of a project, in the order of the sources.
ghost use Rattle.std.specs.Prelude.{◌≡◌};
ghost use Rattle.just_lang_spots.specs.Spots.{comes_before, earlier, spot_where, first_spot, IsFirstOf};

/// A place in a project: the number of a file, and a line and a column of it, from 1, columns in characters.
#[derive(Clone, Copy, Debug, PartialEq, Eq)]
pub struct Spot {
    pub file: usize,
    pub line: usize,
    pub column: usize,
}

/// Whether the one comes before the other: files by their numbers, then lines, then columns.
fn comes_before(some: Spot, other: Spot) -> bool
    ensures { result ≡ comes_before some other }
{
    if some.file != other.file {
        return some.file < other.file;
    }
    if some.line != other.line {
        return some.line < other.line;
    }
    some.column < other.column
}

/// The earlier of two places, where there are any.
pub fn earlier(some: Option<Spot>, other: Option<Spot>) -> Option<Spot>
    ensures { result ≡ earlier some other }
{
    match (some, other) {
        (None, other) => other,
        (some, None) => some,
        (Some(one), Some(two)) => {
            if comes_before(two, one) {
                Some(two)
            } else {
                Some(one)
            }
        }
    }
}

/// The place, where a test holds.
pub fn spot_where(test: bool, spot: Spot) -> Option<Spot>
    ensures { result ≡ first_spot (spot_where test spot) }
{
    if test { Some(spot) } else { None }
}

/// The first of some places in the order of the sources.
#[tactic(auto, using(crate::proofs::Spots::earlier_none))]
pub fn first_of(spots: &[Spot]) -> Option<Spot>
    ensures first { result ≡ first_spot spots.now }
    ensures least { IsFirstOf spots.now result }
{
    let mut found = None;
    'spots: for spot in spots {
        found = earlier(found, Some(*spot));
    }
    found
}
