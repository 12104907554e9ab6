//! What aliases and dependencies name that they may not.
ghost use Rattle.std.specs.Prelude.{◌≡◌, ℕ, List, Option, map, not, IfOk};
ghost use Rattle.std.specs.List.{flat_map};
ghost use Rattle.just_lang_syntax.specs.declared.ast.StringLiteral.{StringLiteral};
ghost use Rattle.just_lang_spots.specs.Spots.{first_spot};
ghost use Rattle.just_lang_names.specs.Arities.{AreArities};
ghost use Rattle.just_lang_names.specs.Names.{AreNames, layout_of, wins_of};
ghost use Rattle.just_lang_names.specs.TargetSpots.{unknown_of, unknown_alias_target, unknown_dependency, unknown_alias_target_spots, unknown_dependency_spots, last_spot, last_spot_where, miscounted_dependency, option_dependency, dependency_argument_count_spots, dependency_is_option_spots};
ghost use Rattle.just_lang_names.specs.Targets.{target, target_for, alias_in, dependency_of, IsPlaced};

use super::arity::Arities;
use super::listed::{ListedAlias, ListedDependency, all_aliases, all_dependencies};
use super::names::Names;
use super::target::{PathKind, Target, target_of};
use just_lang_spots::{Spot, earlier, name_spot};
use just_lang_syntax::Name;
use just_path_text::NoMemory;
use std::alloc::Global;

/// The place of the name that a path comes to and that isn't known.
fn unknown_of(file: usize, found: &Target<'_>) -> Option<Spot>
    ensures { result ≡ first_spot (unknown_of file (target found.now)) }
{
    match found {
        Target::Unknown(name) => Some(name_spot(file, *name)),
        _ => None,
    }
}

/// The first name in an alias's path that isn't known.
fn unknown_alias_target<'a>(names: &Names<'a>, one: &ListedAlias<'a>) -> Option<Spot>
    requires { AreNames names.now }
    ensures { result ≡ first_spot (unknown_alias_target (wins_of names.now) (layout_of names.now) (alias_in one.now)) }
{
    let found = target_of(names, PathKind::Alias, one.number, one.target);
    unknown_of(one.file, &found)
}

/// The first such name of some aliases.
fn unknown_among_aliases<'a>(names: &Names<'a>, aliases: &[ListedAlias<'a>]) -> Option<Spot>
    requires { AreNames names.now }
    ensures { result ≡ first_spot (flat_map (unknown_alias_target (wins_of names.now) (layout_of names.now)) (map alias_in aliases.now)) }
{
    let mut found = None;
    'aliases: for one in aliases {
        let here = unknown_alias_target(names, one);
        found = earlier(found, here);
    }
    found
}

/// The first name in an alias's path that isn't known.
pub fn first_unknown_alias_target(
    alloc: Global,
    names: &Names<'_>,
) -> Result<Option<Spot>, NoMemory>
    requires { AreNames names.now }
    ensures { IfOk result (λ s. s ≡ first_spot (unknown_alias_target_spots (wins_of names.now) (layout_of names.now))) }
{
    let aliases = all_aliases(alloc, names)?;
    Ok(unknown_among_aliases(names, aliases.as_slice()))
}

/// The place of the last name of a path.
#[tactic(auto, using(crate::proofs::TargetLaws::last_by))]
fn last_spot(file: usize, path: &[Name]) -> Option<Spot>
    ensures { result ≡ first_spot (last_spot file path.now) }
{
    match path.split_last() {
        None => None,
        Some((name, _)) => Some(name_spot(file, name)),
    }
}

/// That place, where the test holds.
fn last_spot_where(test: bool, file: usize, path: &[Name]) -> Option<Spot>
    ensures { result ≡ first_spot (last_spot_where test file path.now) }
{
    if test { last_spot(file, path) } else { None }
}

/// The first places where dependencies break rules.
#[derive(Clone, Copy)]
pub struct DependencySpots {
    /// The first name in a path that isn't known.
    pub unknown: Option<Spot>,
    /// The last name of the first one whose recipe doesn't take so many arguments.
    pub miscounted: Option<Spot>,
    /// The last name of the first one on a recipe that has an option.
    pub on_option: Option<Spot>,
}

/// The last name of a dependency's path, which comes to this: where the recipe doesn't take so many arguments, and where it
/// has an option.
fn arity_spots<'a>(
    names: &Names<'a>,
    arities: &Arities,
    one: &ListedDependency<'a>,
    found: &Target<'a>,
) -> (Option<Spot>, Option<Spot>)
    requires target { target found.now
        ≡ target_for PathKind.Dependency (wins_of names.now) (layout_of names.now) one.now.number one.now.dependency.now.path }
    requires place { IsPlaced names.now found.now }
    ensures miscounted { (text_of : StringLiteral → Option (List ℕ)) → AreArities text_of names.now arities.now
        → result.0 ≡ first_spot (miscounted_dependency text_of (wins_of names.now) (layout_of names.now) (dependency_of one.now)) }
    ensures on_option { (text_of : StringLiteral → Option (List ℕ)) → AreArities text_of names.now arities.now
        → result.1 ≡ first_spot (option_dependency text_of (wins_of names.now) (layout_of names.now) (dependency_of one.now)) }
{
    match found {
        Target::Recipe { number, place, .. } => match arities.at(*number, *place) {
            None => (None, None),
            Some(arity) => {
                let path = one.dependency.path.as_slice();
                let takes = arity.takes(one.dependency.arguments.len());
                let miscounted = last_spot_where(!takes, one.file, path);
                let on_option = last_spot_where(arity.options, one.file, path);
                (miscounted, on_option)
            }
        },
        _ => (None, None),
    }
}

/// Where a dependency breaks rules.
fn spots_of<'a>(names: &Names<'a>, arities: &Arities, one: &ListedDependency<'a>) -> DependencySpots
    requires { AreNames names.now }
    ensures unknown { result.unknown ≡ first_spot (unknown_dependency (wins_of names.now) (layout_of names.now) (dependency_of one.now)) }
    ensures miscounted { (text_of : StringLiteral → Option (List ℕ)) → AreArities text_of names.now arities.now → result.miscounted ≡ first_spot (miscounted_dependency text_of (wins_of names.now) (layout_of names.now) (dependency_of one.now)) }
    ensures on_option { (text_of : StringLiteral → Option (List ℕ)) → AreArities text_of names.now arities.now → result.on_option ≡ first_spot (option_dependency text_of (wins_of names.now) (layout_of names.now) (dependency_of one.now)) }
{
    let path = one.dependency.path.as_slice();
    let found = target_of(names, PathKind::Dependency, one.number, path);
    let (miscounted, on_option) = arity_spots(names, arities, one, &found);
    DependencySpots {
        unknown: unknown_of(one.file, &found),
        miscounted,
        on_option,
    }
}

/// The first places where some dependencies break rules.
fn first_spots_among<'a>(
    names: &Names<'a>,
    arities: &Arities,
    dependencies: &[ListedDependency<'a>],
) -> DependencySpots
    requires { AreNames names.now }
    ensures unknown { result.unknown ≡ first_spot (flat_map (unknown_dependency (wins_of names.now) (layout_of names.now)) (map dependency_of dependencies.now)) }
    ensures miscounted { (text_of : StringLiteral → Option (List ℕ)) → AreArities text_of names.now arities.now → result.miscounted ≡ first_spot (flat_map (miscounted_dependency text_of (wins_of names.now) (layout_of names.now)) (map dependency_of dependencies.now)) }
    ensures on_option { (text_of : StringLiteral → Option (List ℕ)) → AreArities text_of names.now arities.now → result.on_option ≡ first_spot (flat_map (option_dependency text_of (wins_of names.now) (layout_of names.now)) (map dependency_of dependencies.now)) }
{
    let mut unknown = None;
    let mut miscounted = None;
    let mut on_option = None;
    'dependencies: for one in dependencies {
        let here = spots_of(names, arities, one);
        unknown = earlier(unknown, here.unknown);
        miscounted = earlier(miscounted, here.miscounted);
        on_option = earlier(on_option, here.on_option);
    }
    DependencySpots {
        unknown,
        miscounted,
        on_option,
    }
}

/// The first places where the dependencies of the recipes that stand break rules. What each comes to is looked up once.
pub fn first_dependency_spots(
    alloc: Global,
    names: &Names<'_>,
    arities: &Arities,
) -> Result<DependencySpots, NoMemory>
    requires { AreNames names.now }
    ensures unknown { IfOk result (λ r. r.unknown ≡ first_spot (unknown_dependency_spots (wins_of names.now) (layout_of names.now))) }
    // By the texts of strings that the arities are by.
    ensures miscounted { IfOk result (λ r. (text_of : StringLiteral → Option (List ℕ)) → AreArities text_of names.now arities.now → r.miscounted ≡ first_spot (dependency_argument_count_spots text_of (wins_of names.now) (layout_of names.now))) }
    ensures on_option { IfOk result (λ r. (text_of : StringLiteral → Option (List ℕ)) → AreArities text_of names.now arities.now → r.on_option ≡ first_spot (dependency_is_option_spots text_of (wins_of names.now) (layout_of names.now))) }
{
    let dependencies = all_dependencies(alloc, names)?;
    Ok(first_spots_among(names, arities, dependencies.as_slice()))
}
