//! Rules on single things, and the first place where one of many breaks a rule.
ghost use Rattle.std.specs.Prelude.{◌≡◌, IfOk};
ghost use Rattle.std.specs.List.{flat_map};
ghost use Rattle.just_lang_spots.specs.Spots.{first_spot};

use super::entries::Entry;
use super::spot::{Spot, earlier};
use just_path_text::NoMemory;
use std::alloc::Global;

/// A rule on one thing, as an item or an attribute: the places where the thing, which stands in the file of that number,
/// breaks it.
pub trait Rule<T> {
    ghost use Rattle.std.specs.Prelude.{◌≡◌, IfOk, List, ℕ};
    ghost use Rattle.just_lang_spots.specs.declared.spot.Spot.{Spot};
    ghost use Rattle.just_lang_spots.specs.Spots.{first_spot};

    ghost spots: { Self → ℕ → T → List Spot };

    /// The first of these places.
    fn first(&self, alloc: Global, file: usize, thing: &T) -> Result<Option<Spot>, NoMemory>
        ensures { IfOk result (λ s. s ≡ first_spot (spots self.now file thing.now)) };
}

/// A rule on the items of a module: the places where they break it.
pub trait ModuleRule {
    ghost use Rattle.std.specs.Prelude.{◌≡◌, IfOk, List, ℕ};
    ghost use Rattle.just_lang_syntax.specs.declared.ast.AstItem.{AstItem};
    ghost use Rattle.just_lang_spots.specs.declared.spot.Spot.{Spot};
    ghost use Rattle.just_lang_spots.specs.Spots.{first_spot};
    ghost use Rattle.just_lang_spots.specs.Entries.{entries};

    ghost spots: { Self → List (ℕ × AstItem) → List Spot };

    /// The first of these places.
    fn first(&self, alloc: Global, items: &[Entry<'_>]) -> Result<Option<Spot>, NoMemory>
        ensures { IfOk result (λ s. s ≡ first_spot (spots self.now (entries items.now))) };
}

/// The first place where one of the things breaks the rule.
#[tactic(auto, using(crate::proofs::Spots::first_behind, crate::proofs::Spots::earlier_none))]
pub fn first_among<T, R: Rule<T>>(
    alloc: Global,
    rule: &R,
    file: usize,
    things: &[T],
) -> Result<Option<Spot>, NoMemory>
    ensures { IfOk result (λ s. s ≡ first_spot (flat_map (R.spots rule.now file) things.now)) }
{
    let mut found = None;
    'things: for thing in things {
        let here = rule.first(alloc, file, thing)?;
        found = earlier(found, here);
    }
    Ok(found)
}
