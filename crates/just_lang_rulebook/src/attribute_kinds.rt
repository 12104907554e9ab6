//! Where strings can't be expanded, and where settings and attributes break a rule.
ghost use Rattle.std.specs.Prelude.{◌≡◌, IfOk};
ghost use Rattle.just_lang_spots.specs.Spots.{first_spot};
ghost use Rattle.just_lang_rulebook.specs.Rules.{shell_expansion_spots, unknown_setting_spots, duplicate_setting_spots, unknown_attribute_spots, duplicate_attribute_spots, attribute_conflict_spots};

use super::meanings::Meanings;
use super::modules::{first_in_files, first_in_modules};
use just_lang_layout::Layout;
use just_lang_rules::{
    AttributeConflict, DuplicateAttribute, DuplicateSetting, ShellExpansion, UnknownAttribute,
    UnknownSetting,
};
use just_lang_spots::Spot;
use just_path_text::{Environ, NoMemory};
use std::alloc::Global;

/// The first string with an `x` in front that can't be expanded.
#[tactic(auto, unfolding(crate::specs::Rules::shell_expansion_spots))]
pub fn first_shell_expansion(
    alloc: Global,
    environ: &Environ,
    layout: &Layout,
) -> Result<Option<Spot>, NoMemory>
    ensures { IfOk result (λ s. s ≡ first_spot (shell_expansion_spots environ.now.pairs layout.now)) }
{
    let texts = Meanings { environ };
    first_in_files(alloc, &ShellExpansion { texts: &texts }, layout)
}

/// The first setting that there isn't.
#[tactic(auto, unfolding(crate::specs::Rules::unknown_setting_spots))]
pub fn first_unknown_setting(alloc: Global, layout: &Layout) -> Result<Option<Spot>, NoMemory>
    ensures { IfOk result (λ s. s ≡ first_spot (unknown_setting_spots layout.now)) }
{
    first_in_files(alloc, &UnknownSetting, layout)
}

/// The first setting that comes again in its module.
#[tactic(auto, unfolding(crate::specs::Rules::duplicate_setting_spots))]
pub fn first_duplicate_setting(alloc: Global, layout: &Layout) -> Result<Option<Spot>, NoMemory>
    ensures { IfOk result (λ s. s ≡ first_spot (duplicate_setting_spots layout.now)) }
{
    first_in_modules(alloc, &DuplicateSetting, layout)
}

/// The first attribute that there isn't.
#[tactic(auto, unfolding(crate::specs::Rules::unknown_attribute_spots))]
pub fn first_unknown_attribute(alloc: Global, layout: &Layout) -> Result<Option<Spot>, NoMemory>
    ensures { IfOk result (λ s. s ≡ first_spot (unknown_attribute_spots layout.now)) }
{
    first_in_files(alloc, &UnknownAttribute, layout)
}

/// The first attribute that comes again.
#[tactic(auto, unfolding(crate::specs::Rules::duplicate_attribute_spots))]
pub fn first_duplicate_attribute(
    alloc: Global,
    environ: &Environ,
    layout: &Layout,
) -> Result<Option<Spot>, NoMemory>
    ensures { IfOk result (λ s. s ≡ first_spot (duplicate_attribute_spots environ.now.pairs layout.now)) }
{
    let texts = Meanings { environ };
    first_in_files(alloc, &DuplicateAttribute { texts: &texts }, layout)
}

/// The first attribute that doesn't go with the body.
#[tactic(auto, unfolding(crate::specs::Rules::attribute_conflict_spots))]
pub fn first_attribute_conflict(alloc: Global, layout: &Layout) -> Result<Option<Spot>, NoMemory>
    ensures { IfOk result (λ s. s ≡ first_spot (attribute_conflict_spots layout.now)) }
{
    first_in_files(alloc, &AttributeConflict, layout)
}
