//! The rule that a module has one default recipe.
use just_lang_rules::DuplicateDefault;
use just_lang_spots::{Entry, ModuleRule, Spot, standing_recipes};
use just_path_text::{NoMemory, Seq};
use std::alloc::Global;

/// The rule that of the recipes that stand in a module one at most has the attribute `default`. Its place is the second such
/// attribute. For each file `winners` has those that import it, straight or through others.
#[derive(Clone, Copy, Drop)]
pub struct StandingDuplicateDefault<'a> {
    pub winners: &'a [Seq<usize>],
}

impl<'a> ModuleRule for StandingDuplicateDefault<'a> {
    ghost use Rattle.just_lang_spots.specs.Winners.{wins_in};
    ghost use Rattle.just_lang_rulebook.specs.Rules.{standing_default_spots};

    ghost spots = { λ r items. standing_default_spots (wins_in r.winners.now) items };

    fn first(&self, alloc: Global, items: &[Entry<'_>]) -> Result<Option<Spot>, NoMemory> {
        let kept = standing_recipes(alloc, self.winners, items)?;
        DuplicateDefault.first(alloc, kept.as_slice())
    }
}
