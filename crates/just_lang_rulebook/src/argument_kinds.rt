//! Where `arg`, patterns, body lines and `default` break a rule, and where a text isn't constant.
ghost use Rattle.std.specs.Prelude.{◌≡◌, IfOk};
ghost use Rattle.just_lang_spots.specs.Spots.{first_spot};
ghost use Rattle.just_lang_spots.specs.Winners.{wins_in};
ghost use Rattle.just_lang_rulebook.specs.Patterns.{IsFirstTooBig};
ghost use Rattle.just_lang_rulebook.specs.Rules.{unknown_arg_parameter_spots, unread_pattern_spots, all_patterns, guard_and_infallible_spots, default_recipe_spots, not_constant_spots};

use super::item_lists::items_of_files;
use super::meanings::Meanings;
use super::modules::{first_in_files, first_in_modules};
use super::standing_default::StandingDuplicateDefault;
use crate::{ArgumentPatternRegex, GuardAndInfallible, first_too_big};
use just_lang_layout::Layout;
use just_lang_rules::{NotConstant, UnknownArgParameter};
use just_lang_spots::Spot;
use just_path_text::{Environ, NoMemory, Seq};
use std::alloc::Global;

/// The first `arg` for a parameter that there isn't.
#[tactic(auto, unfolding(crate::specs::Rules::unknown_arg_parameter_spots))]
pub fn first_unknown_arg_parameter(
    alloc: Global,
    environ: &Environ,
    layout: &Layout,
) -> Result<Option<Spot>, NoMemory>
    ensures { IfOk result (λ s. s ≡ first_spot (unknown_arg_parameter_spots environ.now.pairs layout.now)) }
{
    let texts = Meanings { environ };
    first_in_files(alloc, &UnknownArgParameter { texts: &texts }, layout)
}

/// The first pattern that is no regular expression.
#[tactic(auto, unfolding(crate::specs::Rules::unread_pattern_spots))]
pub fn first_unread_pattern(
    alloc: Global,
    environ: &Environ,
    layout: &Layout,
) -> Result<Option<Spot>, NoMemory>
    ensures { IfOk result (λ s. s ≡ first_spot (unread_pattern_spots environ.now.pairs layout.now)) }
{
    let texts = Meanings { environ };
    first_in_files(alloc, &ArgumentPatternRegex { texts: &texts }, layout)
}

/// The first body line that is a guard and infallible.
#[tactic(auto, unfolding(crate::specs::Rules::guard_and_infallible_spots))]
pub fn first_guard_and_infallible(alloc: Global, layout: &Layout) -> Result<Option<Spot>, NoMemory>
    ensures { IfOk result (λ s. s ≡ first_spot (guard_and_infallible_spots layout.now)) }
{
    first_in_modules(alloc, &GuardAndInfallible, layout)
}

/// The first attribute `default` that comes again in its module, among the recipes that stand. For each file `winners` has those that
/// import it, straight or through others.
#[tactic(auto, unfolding(crate::specs::Rules::default_recipe_spots))]
pub fn first_duplicate_default(
    alloc: Global,
    winners: &[Seq<usize>],
    layout: &Layout,
) -> Result<Option<Spot>, NoMemory>
    ensures { IfOk result (λ s. s ≡ first_spot (default_recipe_spots (wins_in winners.now) layout.now)) }
{
    first_in_modules(alloc, &StandingDuplicateDefault { winners }, layout)
}

/// The first name or `env` in a text that has to be constant.
#[tactic(auto, unfolding(crate::specs::Rules::not_constant_spots))]
pub fn first_not_constant(alloc: Global, layout: &Layout) -> Result<Option<Spot>, NoMemory>
    ensures { IfOk result (λ s. s ≡ first_spot (not_constant_spots layout.now)) }
{
    first_in_files(alloc, &NotConstant, layout)
}

/// The first pattern that is a regular expression, and too big to be built.
#[tactic(auto, unfolding(crate::specs::Rules::all_patterns))]
pub fn first_oversized_pattern(
    alloc: Global,
    environ: &Environ,
    layout: &Layout,
) -> Result<Option<Spot>, NoMemory>
    ensures { IfOk result (IsFirstTooBig (all_patterns environ.now.pairs layout.now)) }
{
    let texts = Meanings { environ };
    let items = items_of_files(alloc, layout.files.as_slice())?;
    first_too_big(alloc, &texts, items.as_slice())
}
