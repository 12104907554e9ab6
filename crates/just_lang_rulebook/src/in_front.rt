//! The rules in front of those on the names that are used.
ghost use Rattle.std.specs.Prelude.{◌≡◌, IfOk};
ghost use Rattle.just_lang_spots.specs.Winners.{wins_in};
ghost use Rattle.just_lang_rulebook.specs.First.{first_broken};
ghost use Rattle.just_lang_rulebook.specs.Rules.{rules_on_files, rules_on_attributes, rules_on_duplicates, rules_in_front};

use super::attribute_kinds::{
    first_attribute_conflict, first_duplicate_attribute, first_duplicate_setting,
    first_shell_expansion, first_unknown_attribute, first_unknown_setting,
};
use super::broken::{Broken, broken_at};
use super::duplicate_kinds::{
    first_duplicate_alias, first_duplicate_parameter, first_duplicate_recipe,
    first_duplicate_variable, first_required_parameter,
};
use super::files::{first_fault, first_source_limit};
use just_lang_layout::Layout;
use just_lang_syntax::FaultKind;
use just_lang_types::CompileKind;
use just_path_text::{Environ, NoMemory, Seq};
use std::alloc::Global;

/// The first broken rule on the texts of files and on their number.
pub fn first_on_files(layout: &Layout) -> Option<Broken>
    ensures { result ≡ first_broken (rules_on_files layout.now) }
{
    if let Some(spot) = first_fault(layout, FaultKind::Syntax) {
        return broken_at(CompileKind::Syntax, spot);
    }
    if let Some(spot) = first_fault(layout, FaultKind::Unsupported) {
        return broken_at(CompileKind::Unsupported, spot);
    }
    if let Some(spot) = first_fault(layout, FaultKind::Depth) {
        return broken_at(CompileKind::Depth, spot);
    }
    if let Some(spot) = first_source_limit(layout) {
        return broken_at(CompileKind::SourceLimit, spot);
    }
    None
}

/// The first broken rule on strings, settings and attributes.
fn first_on_attributes(
    alloc: Global,
    environ: &Environ,
    layout: &Layout,
) -> Result<Option<Broken>, NoMemory>
    ensures { IfOk result (λ b. b ≡ first_broken (rules_on_attributes environ.now.pairs layout.now)) }
{
    if let Some(spot) = first_shell_expansion(alloc, environ, layout)? {
        return Ok(broken_at(CompileKind::ShellExpansion, spot));
    }
    if let Some(spot) = first_unknown_setting(alloc, layout)? {
        return Ok(broken_at(CompileKind::UnknownSetting, spot));
    }
    if let Some(spot) = first_duplicate_setting(alloc, layout)? {
        return Ok(broken_at(CompileKind::DuplicateSetting, spot));
    }
    if let Some(spot) = first_unknown_attribute(alloc, layout)? {
        return Ok(broken_at(CompileKind::UnknownAttribute, spot));
    }
    if let Some(spot) = first_duplicate_attribute(alloc, environ, layout)? {
        return Ok(broken_at(CompileKind::DuplicateAttribute, spot));
    }
    if let Some(spot) = first_attribute_conflict(alloc, layout)? {
        return Ok(broken_at(CompileKind::AttributeConflict, spot));
    }
    Ok(None)
}

/// The first broken rule on names that come again and on parameters.
fn first_on_duplicates(
    alloc: Global,
    environ: &Environ,
    winners: &[Seq<usize>],
    layout: &Layout,
) -> Result<Option<Broken>, NoMemory>
    ensures { IfOk result (λ b. b ≡ first_broken (rules_on_duplicates environ.now.pairs (wins_in winners.now) layout.now)) }
{
    if let Some(spot) = first_duplicate_recipe(alloc, winners, layout)? {
        return Ok(broken_at(CompileKind::DuplicateRecipe, spot));
    }
    if let Some(spot) = first_duplicate_variable(alloc, winners, layout)? {
        return Ok(broken_at(CompileKind::DuplicateVariable, spot));
    }
    if let Some(spot) = first_duplicate_alias(alloc, layout)? {
        return Ok(broken_at(CompileKind::DuplicateAlias, spot));
    }
    if let Some(spot) = first_duplicate_parameter(alloc, layout)? {
        return Ok(broken_at(CompileKind::DuplicateParameter, spot));
    }
    if let Some(spot) = first_required_parameter(alloc, environ, layout)? {
        return Ok(broken_at(CompileKind::RequiredParameterFollowsDefault, spot));
    }
    Ok(None)
}

/// The first broken rule of those in front of the rules on the names that are used: on files, settings, attributes, names that come
/// again, and parameters. For each file `winners` has those that import it, straight or through others.
#[tactic(auto, using(crate::proofs::Orders::behind_first, crate::proofs::Orders::behind_second))]
pub fn first_broken_in_front(
    alloc: Global,
    environ: &Environ,
    winners: &[Seq<usize>],
    layout: &Layout,
) -> Result<Option<Broken>, NoMemory>
    ensures { IfOk result (λ b. b ≡ first_broken (rules_in_front environ.now.pairs (wins_in winners.now) layout.now)) }
{
    if let Some(broken) = first_on_files(layout) {
        return Ok(Some(broken));
    }
    if let Some(broken) = first_on_attributes(alloc, environ, layout)? {
        return Ok(Some(broken));
    }
    first_on_duplicates(alloc, environ, winners, layout)
}
