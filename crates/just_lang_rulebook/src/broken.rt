//! A rule that is broken, and where.
ghost use Rattle.std.specs.Prelude.{◌≡◌, Some};
ghost use Rattle.just_lang_rulebook.specs.First.{broken_at};

use just_lang_spots::Spot;
use just_lang_types::CompileKind;

/// A rule that is broken, with its place.
#[derive(Clone, Copy)]
pub struct Broken {
    pub kind: CompileKind,
    pub spot: Spot,
}

/// The rule, broken at that place.
pub fn broken_at(kind: CompileKind, spot: Spot) -> Option<Broken>
    ensures { result ≡ broken_at kind (Some spot) }
{
    Some(Broken { kind, spot })
}
