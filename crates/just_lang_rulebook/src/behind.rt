//! The rules behind those on the names that are used.
ghost use Rattle.std.specs.Prelude.{◌≡◌, IfOk};
ghost use Rattle.just_lang_spots.specs.Winners.{wins_in};
ghost use Rattle.just_lang_rulebook.specs.First.{first_broken};
ghost use Rattle.just_lang_rulebook.specs.Rules.{rules_on_arguments, rules_on_bodies};
ghost use Rattle.just_lang_rulebook.specs.Behind.{IsSizeOrBehind, IsFirstBehind};

use super::argument_kinds::{
    first_duplicate_default, first_guard_and_infallible, first_oversized_pattern,
    first_unknown_arg_parameter, first_unread_pattern,
};
use super::broken::{Broken, broken_at};
use just_lang_layout::Layout;
use just_lang_types::CompileKind;
use just_path_text::{Environ, NoMemory, Seq};
use std::alloc::Global;

/// The first broken rule on `arg`, up to patterns that are no regular expressions.
fn first_on_arguments(
    alloc: Global,
    environ: &Environ,
    layout: &Layout,
) -> Result<Option<Broken>, NoMemory>
    ensures { IfOk result (λ b. b ≡ first_broken (rules_on_arguments environ.now.pairs layout.now)) }
{
    if let Some(spot) = first_unknown_arg_parameter(alloc, environ, layout)? {
        return Ok(broken_at(CompileKind::UnknownArgParameter, spot));
    }
    if let Some(spot) = first_unread_pattern(alloc, environ, layout)? {
        return Ok(broken_at(CompileKind::ArgumentPatternRegex, spot));
    }
    Ok(None)
}

/// The first broken rule on body lines and on default recipes.
fn first_on_bodies(
    alloc: Global,
    winners: &[Seq<usize>],
    layout: &Layout,
) -> Result<Option<Broken>, NoMemory>
    ensures { IfOk result (λ b. b ≡ first_broken (rules_on_bodies (wins_in winners.now) layout.now)) }
{
    if let Some(spot) = first_guard_and_infallible(alloc, layout)? {
        return Ok(broken_at(CompileKind::GuardAndInfallible, spot));
    }
    if let Some(spot) = first_duplicate_default(alloc, winners, layout)? {
        return Ok(broken_at(CompileKind::DuplicateDefault, spot));
    }
    Ok(None)
}

/// The first pattern that is too big, else the first broken rule on bodies.
#[tactic(auto, using(crate::proofs::Behinds::size_found, crate::proofs::Behinds::size_missing))]
fn first_size_or_behind(
    alloc: Global,
    environ: &Environ,
    winners: &[Seq<usize>],
    layout: &Layout,
) -> Result<Option<Broken>, NoMemory>
    ensures { IfOk result (IsSizeOrBehind environ.now.pairs (wins_in winners.now) layout.now) }
{
    let size = first_oversized_pattern(alloc, environ, layout)?;
    if let Some(spot) = size {
        return Ok(broken_at(CompileKind::ArgumentPatternSize, spot));
    }
    first_on_bodies(alloc, winners, layout)
}

/// The first broken rule of those behind the rules on the names that are used: on `arg`, patterns, body lines and default recipes. For
/// each file `winners` has those that import it, straight or through others. When a pattern is too big is the library's answer.
#[tactic(auto, using(crate::proofs::Behinds::argument_found, crate::proofs::Behinds::argument_missing))]
pub fn first_broken_behind(
    alloc: Global,
    environ: &Environ,
    winners: &[Seq<usize>],
    layout: &Layout,
) -> Result<Option<Broken>, NoMemory>
    ensures { IfOk result (IsFirstBehind environ.now.pairs (wins_in winners.now) layout.now) }
{
    if let Some(broken) = first_on_arguments(alloc, environ, layout)? {
        return Ok(Some(broken));
    }
    first_size_or_behind(alloc, environ, winners, layout)
}
