//! What is asked before a recipe is run.

ghost use Rattle.std.specs.Prelude.{◌≡◌, ◌++◌, IfOk};
ghost use Rattle.just_exec.specs.Prompts.{question, prompt, is_parallel};

use just_exec_work::{RunFlags, attribute_text, has_attribute};
use just_lang_types::Recipe;
use just_path_text::{NoMemory, Text};
use std::alloc::Global;

/// A text between two others.
fn between(alloc: Global, front: &str, text: &str, back: &str) -> Result<Text, NoMemory>
    ensures { IfOk result (λ t. t ≡ front.now ++ (text.now ++ back.now)) }
{
    let mut all = String::new(alloc);
    all.push_str(front)?;
    all.push_str(text)?;
    all.push_str(back)?;
    Ok(Text::from(all))
}

/// The text of `confirm`, if it has one, as a question.
fn question(alloc: Global, name: &str, text: &Option<Text>) -> Result<Text, NoMemory>
    ensures { IfOk result (λ q. q ≡ question name.now text.now) }
{
    match text {
        Some(text) => between(alloc, "", text.as_str(), " "),
        None => between(alloc, "Run recipe `", name, "`? "),
    }
}

/// What is asked before a recipe is run: the text of its `confirm`, or whether it is to be run; nothing where it has none, where the
/// words say yes, and where nothing is run.
pub fn prompt(alloc: Global, flags: &RunFlags, recipe: &Recipe) -> Result<Option<Text>, NoMemory>
    ensures { IfOk result (λ p. p ≡ prompt flags.now recipe.now) }
{
    let attributes = recipe.attributes.as_slice();
    if flags.yes || flags.dry_run {
        return Ok(None);
    }
    if !has_attribute(attributes, "confirm") {
        return Ok(None);
    }
    let text = attribute_text(alloc, attributes, "confirm")?;
    Ok(Some(question(alloc, recipe.name.as_str(), &text)?))
}

/// Whether the priors of a recipe may run side by side, and its subsequents too.
pub fn is_parallel(recipe: &Recipe) -> bool
    ensures { result ≡ is_parallel recipe.now }
{
    has_attribute(recipe.attributes.as_slice(), "parallel")
}
