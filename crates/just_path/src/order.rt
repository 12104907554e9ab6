//! Components, one behind the other: compared, matched from either end, and hashed.
ghost use Rattle.std.specs.Prelude.{◌≡◌, fold};
ghost use Rattle.just_path.specs.Comps.{comps};
ghost use Rattle.just_path.specs.Component.{comp_of};
ghost use Rattle.just_path.specs.Order.{rank, comp_cmp, comp_eq, path_cmp, begins_with, ends_with};
ghost use Rattle.just_path.specs.Order.{path_hash};
ghost use Rattle.just_path.specs.Walk.{comps_left};
ghost use Rattle.std.specs.Cmp.Lexicographic.{slice_cmp};

use super::{Utf8Component, Utf8Components};
use std::cmp::Ordering;
use std::hash::{Hash, Hasher};

/// The rank of a component's kind.
fn rank(component: &Utf8Component<'_>) -> u8
    ensures { result ≡ rank (comp_of component.now) }
{
    match *component {
        Utf8Component::Prefix(_) => 0,
        Utf8Component::RootDir => 1,
        Utf8Component::CurDir => 2,
        Utf8Component::ParentDir => 3,
        Utf8Component::Normal(_) => 4,
    }
}

/// Whether two components are the same.
pub(crate) fn same(a: &Utf8Component<'_>, b: &Utf8Component<'_>) -> bool
    ensures { result ≡ comp_eq (comp_of a.now) (comp_of b.now) }
{
    rank(a) == rank(b) && a.as_str() == b.as_str()
}

/// The order of two components.
fn order(a: &Utf8Component<'_>, b: &Utf8Component<'_>) -> Ordering
    ensures { result ≡ comp_cmp (comp_of a.now) (comp_of b.now) }
{
    rank(a).cmp(&rank(b)).then(a.as_str().cmp(b.as_str()))
}

/// The order of two paths.
pub(crate) fn compare(a: &str, b: &str) -> Ordering
    ensures { result ≡ path_cmp a.now b.now }
{
    compare_left(Utf8Components::new(a), Utf8Components::new(b))
}

/// The order of what is left of two paths.
pub(crate) fn compare_left(a: Utf8Components<'_>, b: Utf8Components<'_>) -> Ordering
    ensures { result ≡ slice_cmp comp_cmp (comps_left a.entry) (comps_left b.entry) }
{
    let mut left = a;
    let mut right = b;
    'components: while let Some(c) = left.take_first() {
        match right.take_first() {
            None => return Ordering::Greater,
            Some(d) => match order(&c, &d) {
                Ordering::Less => return Ordering::Less,
                Ordering::Equal => {}
                Ordering::Greater => return Ordering::Greater,
            },
        }
    }
    match right.take_first() {
        None => Ordering::Equal,
        Some(_) => Ordering::Less,
    }
}

/// Whether the components of `a` begin with those of `b`.
pub(crate) fn begins_with(a: &str, b: &str) -> bool
    ensures { result ≡ begins_with (comps a.now) (comps b.now) }
{
    let mut left = Utf8Components::new(a);
    let mut wanted = Utf8Components::new(b);
    'components: while let Some(want) = wanted.take_first() {
        match left.take_first() {
            None => return false,
            Some(component) => {
                if !same(&component, &want) {
                    return false;
                }
            }
        }
    }
    true
}

/// Whether the components of `a` end with those of `b`.
pub(crate) fn ends_with(a: &str, b: &str) -> bool
    ensures { result ≡ ends_with (comps a.now) (comps b.now) }
{
    let mut left = Utf8Components::new(a);
    let mut wanted = Utf8Components::new(b);
    'components: while let Some(want) = wanted.take_last() {
        match left.take_last() {
            None => return false,
            Some(component) => {
                if !same(&component, &want) {
                    return false;
                }
            }
        }
    }
    true
}

/// Writes each component to a hasher: its kind's rank, and its text.
pub(crate) fn hash_components<H: Hasher>(text: &str, state: &mut H)
    ensures { state.new ≡ fold H.write state.old (path_hash text.now) }
{
    let mut left = Utf8Components::new(text);
    'components: while let Some(component) = left.take_first() {
        state.write_u8(rank(&component));
        component.as_str().hash(state);
    }
}
