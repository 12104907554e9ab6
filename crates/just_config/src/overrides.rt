//! The overrides of arguments.
ghost use Rattle.std.specs.Prelude.{◌≡◌, ◌++◌, ◌∷◌, [], IfOk, Some, None, MatchResult};
ghost use Rattle.just_config.specs.Config.{pairs_of, as_override, override_of, overrides_of, ill_override};

use super::module_path::path_of_words;
use just_lang_types::{Modulepath, Override};
use just_path_text::{NoMemory, Seq, Text};
use std::alloc::Global;
use std::slice;

/// A name with its value.
type Named = (Text, Text);

/// Adds copies of a name and of its value.
fn add_copy(pairs: &mut Vec<Named>, name: &Text, value: &Text) -> Result<(), NoMemory>
    ensures { IfOk result
        (λ u. pairs.new.items ≡ pairs.old.items ++ (name.now, value.now) ∷ []) }
{
    let first = name.try_clone()?;
    let second = value.try_clone()?;
    pairs.push((first, second))?;
    Ok(())
}

/// Adds names and values that stand by turns, as pairs; a last name without a value gives none.
#[tactic(auto, using(crate::proofs::ConfigSteps::pairs_short))]
pub(crate) fn add_pairs(pairs: &mut Vec<Named>, texts: &[Text]) -> Result<(), NoMemory>
    ensures { IfOk result (λ u. pairs.new.items ≡ pairs.old.items ++ pairs_of texts.now) }
{
    let mut rest = texts;
    'texts: while let [name, value, others @ ..] = rest {
        add_copy(pairs, name, value)?;
        rest = others;
    }
    Ok(())
}

/// Adds copies of pairs.
pub(crate) fn add_named(pairs: &mut Vec<Named>, more: &[Named]) -> Result<(), NoMemory>
    ensures { IfOk result (λ u. pairs.new.items ≡ pairs.old.items ++ more.now) }
{
    'more: for pair in more {
        add_copy(pairs, &pair.0, &pair.1)?;
    }
    Ok(())
}

/// The override of a variable's path.
#[tactic(auto, using(crate::proofs::LastNames::override_last, crate::proofs::LastNames::none_last))]
fn as_override(alloc: Global, names: Seq<Text>, value: &Text) -> Result<Option<Override>, NoMemory>
    ensures { IfOk result (λ o. o ≡ as_override (Some names) value.now) }
{
    let mut components = names.into_vec();
    match components.pop() {
        Some(name) => Ok(Some(Override {
            module: Modulepath {
                components: Seq::from(components),
            },
            name,
            value: value.try_clone()?,
        })),
        None => Ok(None),
    }
}

/// The override of a name and a value, where the name is a path.
fn override_of(alloc: Global, pair: &Named) -> Result<Option<Override>, NoMemory>
    ensures { IfOk result (λ o. o ≡ override_of pair.now) }
{
    match path_of_words(alloc, slice::from_ref(&pair.0))? {
        Some(names) => as_override(alloc, names, &pair.1),
        None => Ok(None),
    }
}

/// The overrides of names and values; or the first name that is no path.
#[tactic(auto, using(crate::proofs::ConfigSteps::ill_at))]
pub(crate) fn overrides_of(
    alloc: Global,
    pairs: &[Named],
) -> Result<Result<Vec<Override>, Text>, NoMemory>
    ensures { IfOk result (λ r. MatchResult r (λ v. (ill_override pairs.now ≡ None) × (v.items ≡ overrides_of pairs.now)) (λ n. ill_override pairs.now ≡ Some n)) }
{
    let mut overrides = Vec::new(alloc);
    'pairs: for pair in pairs {
        match override_of(alloc, pair)? {
            Some(one) => overrides.push(one)?,
            None => return Ok(Err(pair.0.try_clone()?)),
        }
    }
    Ok(Ok(overrides))
}
