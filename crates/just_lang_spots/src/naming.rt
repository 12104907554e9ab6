//! Names that things may have once.
ghost use Rattle.std.specs.Prelude.{◌≡◌, IfOk, map, filter_map};
ghost use Rattle.just_lang_spots.specs.Spots.{first_spot};
ghost use Rattle.just_lang_spots.specs.Repeated.{repeated, named};
ghost use Rattle.just_lang_spots.specs.Entries.{entries};

use super::entries::Entry;
use super::repeated::{Named, first_repeated};
use super::spot::Spot;
use just_lang_syntax::AstItem;
use just_path_text::NoMemory;
use std::alloc::{AllocError, Global};

/// The name that a thing has or gives, with its place.
pub trait Naming<T> {
    ghost use Rattle.std.specs.Prelude.{◌≡◌, Option, option_map, List, ℕ};
    ghost use Rattle.just_lang_spots.specs.declared.spot.Spot.{Spot};
    ghost use Rattle.just_lang_spots.specs.Repeated.{named};

    ghost name_of: { Self → ℕ → T → Option (List ℕ × Spot) };

    /// That name, of a thing in the file of that number.
    fn name_of<'a>(&self, file: usize, thing: &'a T) -> Option<Named<'a>>
        ensures { option_map named result ≡ name_of self.now file thing.now };
}

/// The names of some things.
#[tactic(auto, using(crate::proofs::Names::one_more))]
fn names_among<'a, T, N: Naming<T>>(
    alloc: Global,
    naming: &N,
    file: usize,
    things: &'a [T],
) -> Result<Vec<Named<'a>>, AllocError>
    ensures { IfOk result (λ v. map named v.items ≡ filter_map (N.name_of naming.now file) things.now) }
{
    let mut names = Vec::new(alloc);
    'things: for thing in things {
        if let Some(name) = naming.name_of(file, thing) {
            names.push(name)?;
        }
    }
    Ok(names)
}

/// The first place of a name that one of the things before has too.
pub fn first_repeated_among<T, N: Naming<T>>(
    alloc: Global,
    naming: &N,
    file: usize,
    things: &[T],
) -> Result<Option<Spot>, NoMemory>
    ensures { IfOk result (λ s. s ≡ first_spot (repeated (filter_map (N.name_of naming.now file) things.now))) }
{
    let names = names_among(alloc, naming, file, things)?;
    first_repeated(alloc, names.as_slice())
}

/// The names of some items.
#[tactic(auto, using(crate::proofs::Names::one_more))]
fn names_in<'a, N: Naming<AstItem>>(
    alloc: Global,
    naming: &N,
    items: &[Entry<'a>],
) -> Result<Vec<Named<'a>>, AllocError>
    ensures { IfOk result (λ v. map named v.items ≡ filter_map (λ x. N.name_of naming.now x.0 x.1) (entries items.now)) }
{
    let mut names = Vec::new(alloc);
    'items: for one in items {
        if let Some(name) = naming.name_of(one.file, one.item) {
            names.push(name)?;
        }
    }
    Ok(names)
}

/// The first place of a name that one of the items before has too.
pub fn first_repeated_in<N: Naming<AstItem>>(
    alloc: Global,
    naming: &N,
    items: &[Entry<'_>],
) -> Result<Option<Spot>, NoMemory>
    ensures { IfOk result (λ s. s ≡ first_spot (repeated (filter_map (λ x. N.name_of naming.now x.0 x.1) (entries items.now)))) }
{
    let names = names_in(alloc, naming, items)?;
    first_repeated(alloc, names.as_slice())
}
