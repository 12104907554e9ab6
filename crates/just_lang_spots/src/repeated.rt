//! Names that stand behind an equal one.
ghost use Rattle.std.specs.Prelude.{◌≡◌, map, IfOk};
ghost use Rattle.just_lang_spots.specs.Spots.{first_spot};
ghost use Rattle.just_lang_spots.specs.Repeated.{repeated, named};

use super::spot::{Spot, earlier, spot_where};
use just_path_text::NoMemory;
use std::alloc::Global;
use std::collections::HashSet;

/// A name, and its place.
#[derive(Clone, Copy, Drop)]
pub struct Named<'a> {
    pub name: &'a str,
    pub spot: Spot,
}

/// The first place of a name that stands behind an equal one.
#[tactic(auto, using(crate::proofs::Seen::sees_more, crate::proofs::Seen::names_more, crate::proofs::Spots::first_behind, crate::proofs::Spots::earlier_none, crate::proofs::Seen::two_repeated))]
pub fn first_repeated(alloc: Global, names: &[Named<'_>]) -> Result<Option<Spot>, NoMemory>
    ensures { IfOk result (λ s. s ≡ first_spot (repeated (map named names.now))) }
{
    // many lists have two names, for which no set is made
    if let [first, second] = names {
        return Ok(spot_where(first.name == second.name, second.spot));
    }
    let mut seen: HashSet<&str> = HashSet::with_capacity(alloc, names.len())?;
    let mut found = None;
    'names: for name in names {
        let is_new = seen.insert(name.name)?;
        found = earlier(found, spot_where(!is_new, name.spot));
    }
    Ok(found)
}
