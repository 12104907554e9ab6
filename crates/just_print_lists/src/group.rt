//! What is public, and the groups that it is in.
ghost use Rattle.std.specs.Prelude.{◌≡◌, map, filter, not, IfOk};
ghost use Rattle.just_print_lists.specs.Groups.{is_nil, has_name, public_in_order, ungrouped, grouped};

use super::listed::{ListedModule, ListedRecipe};
use super::order::{Named, in_order, push_where};
use just_path_text::{NoMemory, Text};
use std::alloc::Global;

/// What listings show in groups, or leave out.
pub trait Grouped {
    ghost use Rattle.std.specs.Prelude.{◌≡◌, Bool, List, ℕ};

    ghost private: { Self → Bool };

    ghost groups: { Self → List (List ℕ) };

    /// Whether listings leave it out.
    fn is_private(&self) -> bool
        ensures { result ≡ private self.now };

    /// The groups that it is in.
    fn groups(&self) -> &[Text]
        ensures { result.now ≡ groups self.now };
}

impl Grouped for ListedRecipe {
    ghost private = { λ r. r.private };

    ghost groups = { λ r. r.groups };

    fn is_private(&self) -> bool {
        self.private
    }

    fn groups(&self) -> &[Text] {
        self.groups.as_slice()
    }
}

impl Grouped for ListedModule {
    ghost use Rattle.just_print_lists.specs.Listed.{groups_of, is_private};

    ghost private = { is_private };

    ghost groups = { groups_of };

    fn is_private(&self) -> bool {
        self.private
    }

    fn groups(&self) -> &[Text] {
        self.groups.as_slice()
    }
}

/// Whether there is no item.
pub fn is_nil<T>(items: &[T]) -> bool
    ensures { result ≡ is_nil items.now }
{
    match items {
        [] => true,
        [_first, ..] => false,
    }
}

/// Whether one of some names is that name.
pub fn has_name(names: &[Text], name: &str) -> bool
    ensures { result ≡ has_name name.now names.now }
{
    'names: for other in names {
        if other.as_str() == name {
            return true;
        }
    }
    false
}

/// Those of some items that are public.
#[tactic(auto, using(crate::proofs::Keeping::kept_more))]
fn public_of<'j, T: Grouped>(alloc: Global, items: &[&'j T]) -> Result<Vec<&'j T>, NoMemory>
    ensures { IfOk result
        (λ v. map (λ it. it.now) v.items
        ≡ filter (λ x. not (T.private x)) (map (λ it. it.now) items.now)) }
{
    let mut kept = Vec::new(alloc);
    'items: for item in items {
        push_where(&mut kept, !item.is_private(), *item)?;
    }
    Ok(kept)
}

/// The public ones of some items, in the order of their names or as they stand.
pub fn public_in_order<'j, T: Named + Grouped>(
    alloc: Global,
    unsorted: bool,
    items: &'j [T],
) -> Result<Vec<&'j T>, NoMemory>
    ensures { IfOk result
        (λ v. map (λ it. it.now) v.items ≡ public_in_order T.name T.private unsorted items.now) }
{
    let ordered = in_order(alloc, unsorted, items)?;
    let kept = public_of(alloc, ordered.as_slice())?;
    Ok(kept)
}

/// Those of some items that are in no group.
#[tactic(auto, using(crate::proofs::Keeping::kept_more))]
pub fn ungrouped<'j, T: Grouped>(alloc: Global, items: &[&'j T]) -> Result<Vec<&'j T>, NoMemory>
    ensures { IfOk result
        (λ v. map (λ it. it.now) v.items ≡ ungrouped T.groups (map (λ it. it.now) items.now)) }
{
    let mut kept = Vec::new(alloc);
    'items: for item in items {
        push_where(&mut kept, is_nil(item.groups()), *item)?;
    }
    Ok(kept)
}

/// Those of some items that are in that group.
#[tactic(auto, using(crate::proofs::Keeping::kept_more))]
pub fn in_group<'j, T: Grouped>(
    alloc: Global,
    group: &str,
    items: &[&'j T],
) -> Result<Vec<&'j T>, NoMemory>
    ensures { IfOk result
        (λ v. map (λ it. it.now) v.items
        ≡ grouped T.groups group.now (map (λ it. it.now) items.now)) }
{
    let mut kept = Vec::new(alloc);
    'items: for item in items {
        push_where(&mut kept, has_name(item.groups(), group), *item)?;
    }
    Ok(kept)
}
