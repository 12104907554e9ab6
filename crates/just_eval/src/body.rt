//! The lines of the recipe that a key names.

ghost use Rattle.std.specs.Prelude.{[], ◌∷◌, List, map};
ghost use Rattle.just_lang_types.specs.declared.project.Justfile.{Justfile};
ghost use Rattle.just_eval_closure.specs.Answers.{Gives};
ghost use Rattle.just_lang_types.specs.Modules.{AreModules};
ghost use Rattle.just_eval_closure.specs.Entries.{located_of, Sees};
ghost use Rattle.just_eval_closure.specs.Requests.{IsIndexed};
ghost use Rattle.just_eval.specs.Bodies.{lines_of_recipe, body_lines};

use super::command::{command_lines, script_lines};
use super::continuation::joined;
use just_eval_closure::{Entry, Request};
use just_lang_types::project::{Justfile, LangError};
use just_lang_types::{BodyLine, Key, Scopes, Value};
use just_path_text::Seq;
use std::alloc::Global;

/// The lines of the body of a recipe whose parameters have these values, as they are run: those of a script each as it stands, any
/// others with those that they go on with and without their sigils. Who found the recipe of a key in a [`Request`] asks here.
#[tactic(auto, using(crate::proofs::Recipes::script_lines_are, crate::proofs::Recipes::command_lines_are))]
pub fn lines_of_recipe(
    alloc: Global,
    scopes: &Scopes,
    from: &Entry<'_>,
    values: &[Value],
) -> Result<Seq<BodyLine>, LangError>
    requires { Sees scopes.now from.now }
    ensures { Gives (lines_of_recipe scopes.now (located_of from.now) values.now) result }
{
    let body = from.recipe.body.as_slice();
    if from.recipe.script {
        return script_lines(alloc, scopes, from, values, body);
    }
    let lines = joined(alloc, body)?;
    command_lines(alloc, scopes, from, values, lines.as_slice())
}

/// The lines of the body of the recipe that a key names, as [`lines_of_recipe`] gives them; none where there is no recipe. A variable of
/// the environment that isn't there refuses them.
#[tactic(auto, using(crate::proofs::Recipes::no_recipe, crate::proofs::Recipes::recipe_there))]
pub fn lines_of(alloc: Global, request: &Request<'_>, key: &Key) -> Result<Seq<BodyLine>, LangError>
    requires { IsIndexed request.now }
    ensures { Gives (body_lines (map (λ m. m.now) request.now.modules.items) request.now.scopes.now key.now) result }
{
    let Some(from) = request.entry(&key.recipe) else {
        return Ok(Seq::new(alloc));
    };
    lines_of_recipe(alloc, request.scopes, &from, key.arguments.as_slice())
}

/// The lines of the body of the recipe that a key names, as they are run. Many keys of one project are asked of a
/// [`Request`] with [`lines_of`]: this looks through the whole project.
#[tactic(auto, using(just_lang_types::proofs::Nesting::same_modules))]
pub fn body_lines(
    alloc: Global,
    justfile: &Justfile,
    scopes: &Scopes,
    key: &Key,
) -> Result<Seq<BodyLine>, LangError>
    ensures { (modules : List Justfile) → AreModules (justfile.now ∷ []) modules → Gives (body_lines modules scopes.now key.now) result }
{
    let request = Request::new(alloc, justfile, scopes)?;
    lines_of(alloc, &request, key)
}
