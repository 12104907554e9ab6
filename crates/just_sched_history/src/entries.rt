//! The entry of a cache: its path, which the key gives with the sums of the inputs, and its text.

ghost use Rattle.std.specs.Prelude.{◌≡◌, map, zip, IfOk, string_bytes};
ghost use Rattle.hex.specs.Hex.{encode_lower};
ghost use Rattle.just_sched_history.specs.Cached.{key_with, entry_of, saved_text};

use super::CachePlan;
use just_cache::{CacheEntry, entry_path, key_text_of_class};
use just_path::Utf8PathBuf;
use just_path_text::{NoMemory, Seq, Text, TryClone};
use std::alloc::Global;

/// A name with the digits of a sum.
fn with_digits(alloc: Global, name: &Text, sum: &[u8; 32]) -> Result<(Text, Text), NoMemory>
    ensures { IfOk result (λ p. p ≡ (name.now, encode_lower sum.now)) }
{
    let digits = Text::from(hex::encode(alloc, *sum)?);
    Ok((name.try_clone()?, digits))
}

/// The names of inputs, each with the digits of its sum.
fn digests(alloc: Global, names: &[Text], sums: &[[u8; 32]]) -> Result<Seq<(Text, Text)>, NoMemory>
    ensures { IfOk result (λ v. v ≡ zip names.now (map encode_lower sums.now)) }
{
    let mut pairs = Vec::with_capacity(alloc, names.len())?;
    'names: for at in 0..names.len() {
        if at < sums.len() {
            pairs.push(with_digits(alloc, &names[at], &sums[at])?)?;
        }
    }
    Ok(Seq::from(pairs))
}

/// The text of a cache's key with these sums of its inputs, from the text of its class.
fn key_text_at(alloc: Global, plan: &CachePlan, sums: &[[u8; 32]]) -> Result<String, NoMemory>
    ensures { IfOk result (λ s. string_bytes s ≡ key_with plan.now sums.now) }
{
    let pairs = Some(digests(alloc, plan.inputs.as_slice(), sums)?);
    key_text_of_class(alloc, plan.class.as_str(), plan.inputs_at, &pairs)
}

#[tactic(auto, unfolding(crate::specs::Cached::entry_of))]
/// The path of the entry of a cache's key, for these sums of its inputs.
pub fn entry_path_of(
    alloc: Global,
    plan: &CachePlan,
    sums: &[[u8; 32]],
) -> Result<Utf8PathBuf, NoMemory>
    ensures { IfOk result (λ p. p ≡ entry_of plan.now sums.now) }
{
    let text = key_text_at(alloc, plan, sums)?;
    entry_path(alloc, plan.folder.as_path(), text.as_str())
}

#[tactic(auto, unfolding(crate::specs::Cached::saved_text))]
/// What an entry of the cache holds that is saved.
pub fn text_of_entry(alloc: Global, plan: &CachePlan) -> Result<String, NoMemory>
    ensures { IfOk result (λ s. string_bytes s ≡ saved_text plan.now) }
{
    let entry = CacheEntry {
        recipe: plan.key.recipe.try_clone()?,
    };
    entry.text(alloc)
}
