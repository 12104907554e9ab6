//! The keys that words ask for.

ghost use Rattle.std.specs.Prelude.{◌≡◌, ◌≢◌, ◌≤◌, ◌<◌, ◌∷◌, [], Ok, Err, IfOk, IfErr, List, All, length, drop, map};
ghost use Rattle.just_lang_types.specs.declared.project.Justfile.{Justfile};
ghost use Rattle.just_lang_types.specs.declared.project.LangError.TheVariants as error;
ghost use Rattle.just_lang_types.specs.Modules.{AreModules};
ghost use Rattle.just_eval_words.specs.Invocations.{as_given, key_behind, first_key, Invokes, NamesRecipe, within_one, InvocationsAgree};
ghost use Rattle.just_eval_words.specs.Sights.{located_of};

use super::found::Found;
use super::sight::entry_of;
use super::target::chosen;
use crate::words_given;
use just_eval_closure::values_given;
use just_lang_types::project::{Justfile, LangError};
use just_lang_types::{Key, Scopes, all_modules};
use just_path_text::{NoMemory, Seq, Text, TryClone};
use std::alloc::Global;

/// What a parameter is given by its words: nothing, where there are none.
fn as_given(words: Seq<Text>) -> Option<Seq<Text>>
    ensures { result ≡ as_given words }
{
    if words.is_empty() { None } else { Some(words) }
}

/// What parameters are given by their words.
fn all_given(alloc: Global, words: Vec<Seq<Text>>) -> Result<Vec<Option<Seq<Text>>>, NoMemory>
    ensures { IfOk result (λ given. given.items ≡ map as_given words.items) }
{
    let mut given = Vec::with_capacity(alloc, words.len())?;
    'words: for one in words {
        given.push(as_given(one))?;
    }
    Ok(given)
}

/// The key of a recipe with the words behind its path, and how many of them it takes.
#[tactic(auto, using(crate::proofs::Keys::words_refused, crate::proofs::Keys::values_refused, crate::proofs::Keys::key_is))]
fn key_behind(
    alloc: Global,
    scopes: &Scopes,
    found: Found<'_>,
    words: &[Text],
) -> Result<(Key, usize), LangError>
    ensures count { IfOk result (λ r. r.1 ≤ length words.now) }
    ensures key { IfOk result (λ r. key_behind scopes.now (located_of found.entry) words.now ≡ Ok (r.0, drop r.1 words.now)) }
    ensures refused { IfErr result (λ e. e ≢ error.NoMemory → key_behind scopes.now (located_of found.entry) words.now ≡ Err e) }
{
    let (given, count) = words_given(alloc, found.recipe, words)?;
    let to = entry_of(scopes, found);
    let shares = all_given(alloc, given)?;
    let arguments = values_given(alloc, scopes, &to, shares.as_slice())?;
    let key = Key {
        recipe: found.recipe.path.try_clone()?,
        arguments: Seq::from(arguments),
    };
    Ok((key, count))
}

/// The key that the first of some words ask for, and how many of them do.
#[tactic(auto, using(crate::proofs::Keys::path_refused, crate::proofs::Keys::key_refused, crate::proofs::Keys::first_is))]
fn first_key<'p>(
    alloc: Global,
    modules: &[&'p Justfile],
    scopes: &Scopes,
    root: &'p Justfile,
    words: &[Text],
) -> Result<(Key, usize), LangError>
    ensures count { IfOk result (λ r. r.1 ≤ length words.now) }
    ensures some { IfOk result (λ r. 0 < length words.now → 0 < r.1) }
    ensures key { IfOk result (λ r. first_key (map (λ m. m.now) modules.now) scopes.now root.now words.now ≡ Ok (r.0, drop r.1 words.now)) }
    ensures refused { IfErr result (λ e. e ≢ error.NoMemory → first_key (map (λ m. m.now) modules.now) scopes.now root.now words.now ≡ Err e) }
{
    let (found, path) = chosen(alloc, modules, root, words)?;
    let (key, count) = key_behind(alloc, scopes, found, &words[path..])?;
    Ok((key, path + count))
}

/// The keys that words ask for.
#[tactic(auto, using(crate::proofs::Invoked::first_refused, crate::proofs::Invoked::first_done, crate::proofs::Invoked::next_refused, crate::proofs::Invoked::next_done, crate::proofs::Invoked::all_done))]
fn all_keys<'p>(
    alloc: Global,
    modules: &[&'p Justfile],
    scopes: &Scopes,
    root: &'p Justfile,
    words: &[Text],
) -> Result<Vec<Key>, LangError>
    ensures keys { IfOk result (λ keys. Invokes (map (λ m. m.now) modules.now) scopes.now root.now words.now (Ok keys.items)) }
    ensures refused { IfErr result (λ e. e ≢ error.NoMemory → Invokes (map (λ m. m.now) modules.now) scopes.now root.now words.now (Err e)) }
{
    let mut keys = Vec::new(alloc);
    let (first, count) = match first_key(alloc, modules, scopes, root, words) {
        Ok(first) => first,
        Err(refused) => return Err(refused),
    };
    keys.push(first)?;
    let mut at = count;
    'words: while at < words.len() {
        let (key, taken) = match first_key(alloc, modules, scopes, root, &words[at..]) {
            Ok(next) => next,
            Err(refused) => return Err(refused),
        };
        keys.push(key)?;
        at += taken;
    }
    Ok(keys)
}

/// The keys that words ask for, one for each invocation.
///
/// A path leads from the root to a recipe: names of modules, one a word or several in a word with `::` between them, and the name of a recipe
/// or of an alias. A path that ends in a module leads to its default recipe; so do no words at all. What stands behind a path are the recipe's
/// words, and what these leave is another invocation. The first refusal is told: of a path, of the words of its recipe, or of a default.
///
/// ```
/// // of `build x m::test`
/// let keys = invocations(alloc, &justfile, &scopes, &words)?;
/// assert!(keys.len() == 2);
/// ```
#[tactic(auto, using(crate::proofs::Invoked::same_answer, crate::proofs::Asked::named))]
pub fn invocations(
    alloc: Global,
    justfile: &Justfile,
    scopes: &Scopes,
    words: &[Text],
) -> Result<Seq<Key>, LangError>
    ensures keys { IfOk result (λ keys. (modules : List Justfile) → AreModules (justfile.now ∷ []) modules → Invokes modules scopes.now justfile.now words.now (Ok keys)) }
    ensures recipes { IfOk result (λ keys. (modules : List Justfile) → AreModules (justfile.now ∷ []) modules → All (NamesRecipe modules) keys) }
    ensures refused { IfErr result (λ e. e ≢ error.NoMemory → (modules : List Justfile) → AreModules (justfile.now ∷ []) modules → Invokes modules scopes.now justfile.now words.now (Err e)) }
{
    let modules = all_modules(alloc, justfile)?;
    match all_keys(alloc, modules.as_slice(), scopes, justfile, words) {
        Ok(keys) => Ok(Seq::from(keys)),
        Err(refused) => Err(refused),
    }
}

/// The keys of a request, of which one alone may be wanted: then more than one are refused.
pub fn within_one(one: bool, keys: Seq<Key>) -> Result<Seq<Key>, LangError>
    ensures { result ≡ within_one one keys }
{
    if one && keys.len() > 1 {
        return Err(LangError::ExcessInvocations {
            invocations: keys.len() as u64,
        });
    }
    Ok(keys)
}

/// Words ask for one thing: of two answers both are the same keys or the same refusal. So a refusal is answered exactly where the words have
/// it. It does nothing; its contract is a law.
pub fn invocations_agree()
    ensures { InvocationsAgree }
{}
