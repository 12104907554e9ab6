//! How many arguments recipes take.
ghost use Rattle.std.specs.Prelude.{◌≡◌, map, filter, not, IfOk};
ghost use Rattle.std.specs.List.{list_any};
ghost use Rattle.just_lang_spots.specs.Entries.{entry, entries};
ghost use Rattle.just_lang_rules.specs.ParameterSpots.{wants_value};
ghost use Rattle.just_lang_names.specs.Arities.{has_option_name, arity_of, arity_of_item, arities_of, arity_in, takes};
ghost use Rattle.just_lang_types.specs.ParameterKinds.{is_variadic};

use super::names::Names;
use super::options::{Options, options_of};
use just_lang_spots::Entry;
use just_lang_syntax::{AstItem, AstParameter, AstRecipe, ParameterKind};
use just_lang_types::{Texts, is_variadic};
use just_path_text::{NoMemory, Seq};
use std::alloc::{AllocError, Global};

/// How many arguments a recipe takes.
#[derive(Clone, Copy)]
pub struct Arity {
    /// How many of its positional parameters want an argument.
    pub wanted: usize,
    /// How many positional parameters it has.
    pub positional: usize,
    /// Whether one of them takes any number of arguments.
    pub variadic: bool,
    /// Whether a parameter is an option.
    pub options: bool,
}

/// The arities of the recipes that stand in each module, at their places in the module's table.
#[derive(Drop)]
pub struct Arities {
    pub modules: Vec<Seq<Arity>>,
}

/// Whether the parameter has no default, and isn't one of any number.
fn wants_value(parameter: &AstParameter) -> bool
    ensures { result ≡ wants_value parameter.now }
{
    match parameter.kind {
        ParameterKind::Singular | ParameterKind::Plus => parameter.default.is_none(),
        ParameterKind::Star => false,
    }
}

/// Whether one of the parameters is an option.
fn has_option(options: &Options, parameters: &[AstParameter]) -> bool
    ensures { result ≡ list_any (λ p. has_option_name options.now p.name.text) parameters.now }
{
    'parameters: for parameter in parameters {
        if options.has(&parameter.name.text) {
            return true;
        }
    }
    false
}

/// The parameters that are no options.
#[tactic(auto, using(crate::proofs::ArityLaws::kept_more))]
fn positional<'a>(
    alloc: Global,
    options: &Options,
    parameters: &'a [AstParameter],
) -> Result<Vec<&'a AstParameter>, AllocError>
    ensures { IfOk result (λ v. map (λ p. p.now) v.items ≡ filter (λ p. not (has_option_name options.now p.name.text)) parameters.now) }
{
    let mut kept = Vec::new(alloc);
    'parameters: for parameter in parameters {
        if !options.has(&parameter.name.text) {
            kept.push(parameter)?;
        }
    }
    Ok(kept)
}

/// Those that want an argument.
#[tactic(auto, using(crate::proofs::ArityLaws::kept_more))]
fn wanted<'a>(
    alloc: Global,
    parameters: &[&'a AstParameter],
) -> Result<Vec<&'a AstParameter>, AllocError>
    ensures { IfOk result (λ v. map (λ p. p.now) v.items ≡ filter wants_value (map (λ p. p.now) parameters.now)) }
{
    let mut kept = Vec::new(alloc);
    'parameters: for parameter in parameters {
        if wants_value(*parameter) {
            kept.push(*parameter)?;
        }
    }
    Ok(kept)
}

/// Whether one of the parameters takes any number of arguments.
fn has_variadic(parameters: &[&AstParameter]) -> bool
    ensures { result ≡ list_any (λ p. is_variadic p.kind) (map (λ p. p.now) parameters.now) }
{
    'parameters: for parameter in parameters {
        if is_variadic(parameter.kind) {
            return true;
        }
    }
    false
}

/// The arity of a recipe.
fn arity_of<T: Texts>(alloc: Global, texts: &T, recipe: &AstRecipe) -> Result<Arity, NoMemory>
    ensures { IfOk result (λ a. a ≡ arity_of (T.text_of texts.now) recipe.now) }
{
    let options = options_of(alloc, texts, recipe.attributes.as_slice())?;
    let parameters = recipe.parameters.as_slice();
    let positional = positional(alloc, &options, parameters)?;
    let wanted = wanted(alloc, positional.as_slice())?;
    Ok(Arity {
        wanted: wanted.len(),
        positional: positional.len(),
        variadic: has_variadic(positional.as_slice()),
        options: has_option(&options, parameters),
    })
}

/// The arity of an item that is a recipe; any other takes nothing.
fn arity_of_item<T: Texts>(alloc: Global, texts: &T, one: &Entry<'_>) -> Result<Arity, NoMemory>
    ensures { IfOk result (λ a. a ≡ arity_of_item (T.text_of texts.now) (entry one.now)) }
{
    match one.item {
        AstItem::Recipe(recipe) => arity_of(alloc, texts, recipe.get()),
        _ => Ok(Arity {
            wanted: 0,
            positional: 0,
            variadic: false,
            options: false,
        }),
    }
}

/// The arities of some recipes.
fn arities_in<T: Texts>(
    alloc: Global,
    texts: &T,
    recipes: &[Entry<'_>],
) -> Result<Seq<Arity>, NoMemory>
    ensures { IfOk result (λ s. s ≡ map (arity_of_item (T.text_of texts.now)) (entries recipes.now)) }
{
    let mut arities = Vec::new(alloc);
    'recipes: for one in recipes {
        let arity = arity_of_item(alloc, texts, one)?;
        arities.push(arity)?;
    }
    Ok(Seq::from(arities))
}

/// The arities of the recipes that stand in any module.
pub fn arities_of<T: Texts>(
    alloc: Global,
    texts: &T,
    names: &Names<'_>,
) -> Result<Arities, NoMemory>
    ensures { IfOk result (λ a. a.modules.items ≡ arities_of (T.text_of texts.now) names.now.modules.items) }
{
    let mut modules = Vec::new(alloc);
    'modules: for of_module in &names.modules {
        let arities = arities_in(alloc, texts, of_module.recipes.as_slice())?;
        modules.push(arities)?;
    }
    Ok(Arities { modules })
}

impl Arities {
    /// The arity of the recipe at a place of the table of the module of that number.
    pub(crate) fn at(&self, number: usize, place: usize) -> Option<Arity>
        ensures { result ≡ arity_in self.now number place }
    {
        match self.modules.get(number) {
            None => None,
            Some(recipes) => recipes.as_slice().get(place).copied(),
        }
    }
}

impl Arity {
    /// Whether so many arguments are taken: no fewer than the positional parameters want, and no more than these are unless
    /// one takes any number.
    pub fn takes(&self, count: usize) -> bool
        ensures { result ≡ takes self.now count }
    {
        self.wanted <= count && (count <= self.positional || self.variadic)
    }
}
