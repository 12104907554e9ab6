//! The rules on the names that are used.
ghost use Rattle.std.specs.Prelude.{◌≡◌, IfOk};
ghost use Rattle.just_lang_spots.specs.Spots.{first_spot};
ghost use Rattle.just_lang_names.specs.Arities.{arities_of};
ghost use Rattle.just_lang_names.specs.Names.{AreNames, layout_of, wins_of};
ghost use Rattle.just_lang_names.specs.TargetSpots.{unknown_dependency_spots, dependency_argument_count_spots, dependency_is_option_spots};
ghost use Rattle.just_lang_rulebook.specs.First.{first_broken};
ghost use Rattle.just_lang_rulebook.specs.Meant.{meant};
ghost use Rattle.just_lang.specs.Rules.{rules_on_variables, rules_on_arities, rules_on_names};

use just_lang_names::{
    Arities, DependencySpots, Names, arities_of, first_dependency_spots, first_undefined_variable,
    first_unknown_alias_target,
};
use just_lang_rulebook::{Broken, Meanings, broken_at};
use just_lang_spots::Spot;
use just_lang_types::CompileKind;
use just_path_text::{Environ, NoMemory};
use std::alloc::Global;

/// The first places where the dependencies of the recipes that stand break rules.
#[tactic(auto, using(crate::proofs::Counts::miscounted, crate::proofs::Counts::on_option))]
fn spots_by(
    alloc: Global,
    environ: &Environ,
    names: &Names<'_>,
    arities: &Arities,
) -> Result<DependencySpots, NoMemory>
    requires names { AreNames names.now }
    requires arities { arities.now.modules.items ≡ arities_of (meant environ.now.pairs) names.now.modules.items }
    ensures unknown { IfOk result (λ r. r.unknown ≡ first_spot (unknown_dependency_spots (wins_of names.now) (layout_of names.now))) }
    ensures miscounted { IfOk result (λ r. r.miscounted ≡ first_spot (dependency_argument_count_spots (meant environ.now.pairs) (wins_of names.now) (layout_of names.now))) }
    ensures on_option { IfOk result (λ r. r.on_option ≡ first_spot (dependency_is_option_spots (meant environ.now.pairs) (wins_of names.now) (layout_of names.now))) }
{
    let spots = first_dependency_spots(alloc, names, arities)?;
    Ok(spots)
}

/// The first places where the dependencies of the recipes that stand break rules.
fn dependency_spots(
    alloc: Global,
    environ: &Environ,
    names: &Names<'_>,
) -> Result<DependencySpots, NoMemory>
    requires { AreNames names.now }
    ensures unknown { IfOk result (λ r. r.unknown ≡ first_spot (unknown_dependency_spots (wins_of names.now) (layout_of names.now))) }
    ensures miscounted { IfOk result (λ r. r.miscounted ≡ first_spot (dependency_argument_count_spots (meant environ.now.pairs) (wins_of names.now) (layout_of names.now))) }
    ensures on_option { IfOk result (λ r. r.on_option ≡ first_spot (dependency_is_option_spots (meant environ.now.pairs) (wins_of names.now) (layout_of names.now))) }
{
    let texts = Meanings { environ };
    let arities = arities_of(alloc, &texts, names)?;
    spots_by(alloc, environ, names, &arities)
}

/// The first broken rule on what names in expressions, aliases and dependencies stand for; the first unknown dependency is given.
fn first_on_variables(
    alloc: Global,
    names: &Names<'_>,
    unknown: Option<Spot>,
) -> Result<Option<Broken>, NoMemory>
    requires names { AreNames names.now }
    requires unknown { unknown ≡ first_spot (unknown_dependency_spots (wins_of names.now) (layout_of names.now)) }
    ensures { IfOk result (λ b. b ≡ first_broken (rules_on_variables (wins_of names.now) (layout_of names.now))) }
{
    if let Some(spot) = first_undefined_variable(alloc, names)? {
        return Ok(broken_at(CompileKind::UndefinedVariable, spot));
    }
    if let Some(spot) = first_unknown_alias_target(alloc, names)? {
        return Ok(broken_at(CompileKind::UnknownAliasTarget, spot));
    }
    if let Some(spot) = unknown {
        return Ok(broken_at(CompileKind::UnknownDependency, spot));
    }
    Ok(None)
}

/// The first broken rule on what dependencies give their recipes.
fn first_on_arities(environ: &Environ, names: &Names<'_>, spots: DependencySpots) -> Option<Broken>
    requires miscounted { spots.miscounted ≡ first_spot (dependency_argument_count_spots (meant environ.now.pairs) (wins_of names.now) (layout_of names.now)) }
    requires on_option { spots.on_option ≡ first_spot (dependency_is_option_spots (meant environ.now.pairs) (wins_of names.now) (layout_of names.now)) }
    ensures { result ≡ first_broken (rules_on_arities environ.now.pairs (wins_of names.now) (layout_of names.now)) }
{
    if let Some(spot) = spots.miscounted {
        return broken_at(CompileKind::DependencyArgumentCount, spot);
    }
    if let Some(spot) = spots.on_option {
        return broken_at(CompileKind::DependencyIsOption, spot);
    }
    None
}

/// The first broken rule on the names that are used.
#[tactic(auto, using(just_lang_rulebook::proofs::Orders::behind_first, just_lang_rulebook::proofs::Orders::behind_second))]
pub(crate) fn first_on_names(
    alloc: Global,
    environ: &Environ,
    names: &Names<'_>,
) -> Result<Option<Broken>, NoMemory>
    requires { AreNames names.now }
    ensures { IfOk result (λ b. b ≡ first_broken (rules_on_names environ.now.pairs (wins_of names.now) (layout_of names.now))) }
{
    let spots = dependency_spots(alloc, environ, names)?;
    if let Some(broken) = first_on_variables(alloc, names, spots.unknown)? {
        return Ok(Some(broken));
    }
    Ok(first_on_arities(environ, names, spots))
}
