//! The shape of a recipe.
ghost use Rattle.std.specs.Prelude.{◌≡◌, ◌++◌, ◌∷◌, [], IfOk};
ghost use Rattle.std.specs.Option.{option_copied};
ghost use Rattle.just_lang_shapes.specs.Attributes.{doc_of};
ghost use Rattle.just_lang_shapes.specs.Expansions.{expanded_attributes, expanded_lines};
ghost use Rattle.just_lang_shapes.specs.Parameters.{parameters_of};
ghost use Rattle.just_lang_shapes.specs.Recipes.{path_within, recipe_of};

use super::attributes::{doc_of, is_private};
use super::expanded::{expanded_attributes, expanded_lines};
use super::parameter::parameters_of;
use just_lang_syntax::{AstRecipe, Attribute, Line};
use just_lang_types::{Dependency, Modulepath, Parameter, Recipe, Texts, is_script};
use just_path_text::{NoMemory, Seq, Text, TryClone};
use std::alloc::Global;

/// The path of a name in the module of that path.
pub fn path_within(alloc: Global, parent: &Modulepath, name: &str) -> Result<Modulepath, NoMemory>
    ensures { IfOk result (λ p. p ≡ path_within parent.now name.now) }
{
    let copy = parent.components.try_clone()?;
    let mut components = copy.into_vec();
    components.reserve_exact(1)?;
    components.push(Text::from_str(alloc, name)?)?;
    Ok(Modulepath {
        components: Seq::from(components),
    })
}

/// Where a recipe stands and what it depends on.
#[derive(Drop)]
pub struct Surroundings<'a> {
    /// The path of its module.
    pub parent: &'a Modulepath,
    /// What the comment directly above it says.
    pub above: Option<&'a str>,
    pub priors: Seq<Dependency>,
    pub subsequents: Seq<Dependency>,
}

/// What a recipe's own words say of it.
#[derive(Drop)]
struct Words {
    name: Text,
    path: Modulepath,
    attributes: Seq<Attribute>,
    body: Seq<Line>,
}

/// What the own words of a recipe of the module of that path say of it.
fn words_of<T: Texts>(
    alloc: Global,
    texts: &T,
    parent: &Modulepath,
    recipe: &AstRecipe,
) -> Result<Words, NoMemory>
    ensures name { IfOk result (λ w. w.name ≡ recipe.now.name.text) }
    ensures path { IfOk result (λ w. w.path ≡ path_within parent.now recipe.now.name.text) }
    ensures attributes { IfOk result (λ w. w.attributes ≡ expanded_attributes (T.text_of texts.now) recipe.now.attributes) }
    ensures body { IfOk result (λ w. w.body ≡ expanded_lines (T.text_of texts.now) recipe.now.body) }
{
    let path = path_within(alloc, parent, recipe.name.text.as_str())?;
    let attributes = expanded_attributes(alloc, texts, recipe.attributes.as_slice())?;
    let body = expanded_lines(alloc, texts, recipe.body.as_slice())?;
    let name = recipe.name.text.try_clone()?;
    Ok(Words {
        name,
        path,
        attributes,
        body,
    })
}

/// What a recipe's attributes and the comment above say of it.
#[derive(Drop)]
struct Said {
    doc: Option<Text>,
    parameters: Seq<Parameter>,
}

/// What the attributes of a recipe and the comment above say of it.
fn said_of<T: Texts>(
    alloc: Global,
    texts: &T,
    above: Option<&str>,
    recipe: &AstRecipe,
) -> Result<Said, NoMemory>
    ensures doc { IfOk result (λ s. s.doc ≡ doc_of (T.text_of texts.now) recipe.now.attributes (option_copied above.entry)) }
    ensures parameters { IfOk result (λ s. s.parameters ≡ parameters_of (T.text_of texts.now) recipe.now.attributes recipe.now.parameters) }
{
    let attributes = recipe.attributes.as_slice();
    let doc = doc_of(alloc, texts, attributes, above)?;
    let parameters = parameters_of(alloc, texts, attributes, recipe.parameters.as_slice())?;
    Ok(Said { doc, parameters })
}

/// The shape of a recipe.
pub fn recipe_of<T: Texts>(
    alloc: Global,
    texts: &T,
    around: Surroundings<'_>,
    recipe: &AstRecipe,
) -> Result<Recipe, NoMemory>
    ensures { IfOk result (λ r. r ≡ recipe_of (T.text_of texts.now) around.entry.parent.now (option_copied around.entry.above) around.entry.priors around.entry.subsequents recipe.now) }
{
    let Surroundings {
        parent,
        above,
        priors,
        subsequents,
    } = around;
    let called = recipe.name.text.as_str();
    let attributes = recipe.attributes.as_slice();
    let words = words_of(alloc, texts, parent, recipe)?;
    let said = said_of(alloc, texts, above, recipe)?;
    let private = is_private(attributes, called);
    let script = is_script(recipe);
    Ok(Recipe {
        name: words.name,
        path: words.path,
        doc: said.doc,
        attributes: words.attributes,
        parameters: said.parameters,
        priors,
        subsequents,
        body: words.body,
        quiet: recipe.quiet,
        private,
        script,
        line: recipe.name.line,
    })
}
