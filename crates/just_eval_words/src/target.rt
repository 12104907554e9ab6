//! The recipe that words lead to.

ghost use Rattle.std.specs.Prelude.{◌≡◌, ◌≢◌, ◌≤◌, ◌<◌, Ok, Err, IfOk, IfErr, length, drop, map, find};
ghost use Rattle.std.specs.Option.{option_copied};
ghost use Rattle.just_lang_types.specs.declared.project.LangError.TheVariants as error;
ghost use Rattle.just_eval_words.specs.Names.{last_target, no_module, target_of};
ghost use Rattle.just_eval_words.specs.Paths.{parts};
ghost use Rattle.just_eval_words.specs.Targets.{is_default, default_in, default_of, chosen};
ghost use Rattle.just_eval_words.specs.Sights.{located_of};
ghost use Rattle.just_eval_words.specs.Sights as sight;

use super::found::{Found, Target};
use super::name::{aliased_recipe, disabled_at, is_absent, module_named, names_recipe, recipe_in};
use super::path::{first_part, joined_path};
use crate::least_words;
use just_lang_types::project::{Justfile, LangError};
use just_lang_types::{Disabled, Recipe};
use just_path_text::{NoMemory, Text, TryClone};
use std::alloc::Global;

/// The refusal of a module that may be missing and is; want of memory, where there is none for its name.
fn module_absent(alloc: Global, name: &str) -> LangError
    ensures { result ≢ error.NoMemory → result ≡ error.ModuleAbsent name.now }
{
    match Text::from_str(alloc, name) {
        Ok(module) => LangError::ModuleAbsent { module },
        Err(NoMemory) => LangError::NoMemory,
    }
}

/// The refusal of a recipe that can't be run; want of memory, where there is none for its texts.
fn recipe_disabled(alloc: Global, name: &str, disabled: &Disabled) -> LangError
    ensures { result ≢ error.NoMemory → result ≡ error.RecipeDisabled name.now disabled.now.modules }
{
    let Ok(recipe) = Text::from_str(alloc, name) else {
        return LangError::NoMemory;
    };
    match disabled.modules.try_clone() {
        Ok(modules) => LangError::RecipeDisabled { recipe, modules },
        Err(NoMemory) => LangError::NoMemory,
    }
}

/// The refusal of an alias of a recipe that can't be run; want of memory, where there is none for its texts.
fn alias_disabled(alloc: Global, name: &str, disabled: &Disabled) -> LangError
    ensures { result ≢ error.NoMemory → result ≡ error.AliasDisabled name.now disabled.now.modules }
{
    let Ok(alias) = Text::from_str(alloc, name) else {
        return LangError::NoMemory;
    };
    match disabled.modules.try_clone() {
        Ok(modules) => LangError::AliasDisabled { alias, modules },
        Err(NoMemory) => LangError::NoMemory,
    }
}

/// The refusal of a word that leads to nothing; want of memory, where there is none for the word.
fn unknown_recipe(alloc: Global, word: &str) -> LangError
    ensures { result ≢ error.NoMemory → result ≡ error.UnknownRecipe word.now }
{
    match Text::from_str(alloc, word) {
        Ok(recipe) => LangError::UnknownRecipe { recipe },
        Err(NoMemory) => LangError::NoMemory,
    }
}

/// What the last name of a word leads to in a module.
#[tactic(auto, using(crate::proofs::Targets::module_is, crate::proofs::Targets::absent_is, crate::proofs::Targets::no_recipe_is, crate::proofs::Targets::recipe_is, crate::proofs::Targets::no_alias_is, crate::proofs::Targets::alias_is, crate::proofs::Targets::unknown_is))]
pub(crate) fn last_target<'p>(
    alloc: Global,
    modules: &[&'p Justfile],
    justfile: &'p Justfile,
    name: &str,
    word: &str,
) -> Result<Target<'p>, LangError>
    ensures target { IfOk result (λ t. last_target (map (λ m. m.now) modules.now) justfile.now name.now word.now ≡ Ok (sight.target_of t)) }
    ensures refused { IfErr result (λ e. e ≢ error.NoMemory → last_target (map (λ m. m.now) modules.now) justfile.now name.now word.now ≡ Err e) }
{
    if let Some(inside) = module_named(modules, justfile, name) {
        return Ok(Target::Module(inside));
    }
    if is_absent(justfile, name) {
        return Err(module_absent(alloc, name));
    }
    if let Some(disabled) = disabled_at(justfile.disabled_recipes.as_slice(), name) {
        return Err(recipe_disabled(alloc, name, disabled));
    }
    if let Some(recipe) = recipe_in(justfile, name) {
        return Ok(Target::Recipe(Found {
            parent: justfile,
            recipe,
        }));
    }
    if let Some(disabled) = disabled_at(justfile.disabled_aliases.as_slice(), name) {
        return Err(alias_disabled(alloc, name, disabled));
    }
    match aliased_recipe(modules, justfile, name) {
        Some(found) => Ok(Target::Recipe(found)),
        None => Err(unknown_recipe(alloc, word)),
    }
}

/// Why a name in front of `::` is no module's.
#[tactic(auto, using(crate::proofs::Named::module_absent, crate::proofs::Named::recipe_found, crate::proofs::Named::nothing_found))]
fn no_module(alloc: Global, justfile: &Justfile, name: &str) -> Result<LangError, NoMemory>
    ensures { IfOk result (λ e. e ≡ no_module justfile.now name.now) }
{
    if is_absent(justfile, name) {
        return Ok(LangError::ModuleAbsent {
            module: Text::from_str(alloc, name)?,
        });
    }
    let path = joined_path(alloc, justfile.module_path.components.as_slice(), name)?;
    if names_recipe(justfile, name) {
        return Ok(LangError::ExpectedSubmoduleButFoundRecipe { path });
    }
    Ok(LangError::UnknownSubmodule { path })
}

/// What a word leads to in a module.
#[tactic(auto, using(crate::proofs::Targets::last_part, crate::proofs::Targets::part_inside, crate::proofs::Targets::part_refused))]
fn target<'p>(
    alloc: Global,
    modules: &[&'p Justfile],
    justfile: &'p Justfile,
    word: &str,
) -> Result<Target<'p>, LangError>
    ensures target { IfOk result (λ t. target_of (map (λ m. m.now) modules.now) (parts word.now) word.now justfile.now ≡ Ok (sight.target_of t)) }
    ensures refused { IfErr result (λ e. e ≢ error.NoMemory → target_of (map (λ m. m.now) modules.now) (parts word.now) word.now justfile.now ≡ Err e) }
{
    let mut inside = justfile;
    let mut rest = word;
    'parts: while let Some((name, behind)) = first_part(rest) {
        match module_named(modules, inside, name) {
            Some(next) => inside = next,
            None => return Err(no_module(alloc, inside, name)?),
        }
        rest = behind;
    }
    let target = last_target(alloc, modules, inside, rest, word)?;
    Ok(target)
}

/// Whether a recipe is its module's default one.
fn is_default(recipe: &Recipe) -> bool
    ensures { result ≡ is_default recipe.now }
{
    recipe
        .attributes
        .as_slice()
        .iter()
        .any(|a| a.name.text.as_str() == "default")
}

/// The first of some recipes that is the default one.
fn first_default(recipes: &[Recipe]) -> Option<&Recipe>
    ensures { option_copied result ≡ find is_default recipes.now }
{
    'recipes: for recipe in recipes {
        if is_default(recipe) {
            return Some(recipe);
        }
    }
    None
}

/// The recipe that is a module's default one, else the first one.
#[tactic(auto, using(crate::proofs::Named::marked, crate::proofs::Named::first_recipe, crate::proofs::Named::none_there))]
fn default_in(justfile: &Justfile) -> Option<&Recipe>
    ensures { option_copied result ≡ default_in justfile.now }
{
    let recipes = justfile.recipes.as_slice();
    if let Some(recipe) = first_default(recipes) {
        return Some(recipe);
    }
    match recipes.split_first() {
        None => None,
        Some((first, _)) => Some(first),
    }
}

/// The default recipe of a module.
#[tactic(auto, using(crate::proofs::Targets::none_default, crate::proofs::Targets::default_disabled, crate::proofs::Targets::default_needs, crate::proofs::Targets::default_is))]
fn default_of(alloc: Global, justfile: &Justfile) -> Result<Found<'_>, LangError>
    ensures found { IfOk result (λ f. default_of justfile.now ≡ Ok (located_of f)) }
    ensures refused { IfErr result (λ e. e ≢ error.NoMemory → default_of justfile.now ≡ Err e) }
{
    let Some(recipe) = default_in(justfile) else {
        return Err(LangError::NoRecipes);
    };
    let disabled = disabled_at(justfile.disabled_recipes.as_slice(), recipe.name.as_str());
    let least = least_words(recipe.parameters.as_slice());
    if let Some(disabled) = disabled {
        return Err(recipe_disabled(alloc, recipe.name.as_str(), disabled));
    }
    if least != 0 {
        return Err(LangError::DefaultRecipeRequiresArguments {
            recipe: recipe.name.try_clone()?,
            min_arguments: least as u64,
        });
    }
    Ok(Found {
        parent: justfile,
        recipe,
    })
}

/// The recipe that words lead to from a module, and how many of them lead there.
#[tactic(auto, using(crate::proofs::Targets::word_refused, crate::proofs::Targets::word_inside, crate::proofs::Targets::word_found, crate::proofs::Targets::words_end, crate::proofs::Targets::words_refused))]
pub(crate) fn chosen<'p>(
    alloc: Global,
    modules: &[&'p Justfile],
    root: &'p Justfile,
    words: &[Text],
) -> Result<(Found<'p>, usize), LangError>
    ensures count { IfOk result (λ r. r.1 ≤ length words.now) }
    ensures some { IfOk result (λ r. 0 < length words.now → 0 < r.1) }
    ensures found { IfOk result (λ r. chosen (map (λ m. m.now) modules.now) words.now root.now ≡ Ok (located_of r.0, drop r.1 words.now)) }
    ensures refused { IfErr result (λ e. e ≢ error.NoMemory → chosen (map (λ m. m.now) modules.now) words.now root.now ≡ Err e) }
{
    let mut justfile = root;
    'words: for at in 0..words.len() {
        match target(alloc, modules, justfile, words[at].as_str())? {
            Target::Module(inside) => justfile = inside,
            Target::Recipe(found) => return Ok((found, at + 1)),
        }
    }
    Ok((default_of(alloc, justfile)?, words.len()))
}
