//! The scopes of modules.

ghost use Rattle.std.specs.Prelude.{◌≡◌, ◌≢◌, List, Ok, Err, map, length, All, IfOk, IfErr};
ghost use Rattle.just_lang_types.specs.declared.project.LangError.{LangError};
ghost use Rattle.just_lang_types.specs.declared.recipe.Modulepath.{Modulepath};
ghost use Rattle.just_lang_types.specs.declared.scope.Scope.{Scope};
ghost use Rattle.just_eval_closure.specs.Answers.{Answer, told, Gives};
ghost use Rattle.just_lang_types.specs.Modules.{assignments_of};
ghost use Rattle.just_eval_closure.specs.Scopes.{value_of_text};
ghost use Rattle.just_eval.specs.Evaluations.{bindings_told, scope_with, IsScope, Evaluates};
ghost use Rattle.just_eval.specs.Partial.{outcome_there, outcomes_there};
ghost use Rattle.just_eval.specs.Uses.{AreEnding};

use super::constants::constant_level;
use super::settled::{Outcome, outcomes};
use just_eval_closure::value_of_text;
use just_lang_types::project::{Justfile, LangError};
use just_lang_types::{Assignment, Binding, DotenvOf, Level, Modulepath, Override, Scope};
use just_path_text::{Environ, NoMemory, Seq, Text, TryClone};
use std::alloc::Global;

/// The refusal of a value that asks the environment for that variable, which isn't there.
fn refused(name: &Text) -> Result<Text, LangError>
    ensures { Gives (told (Err name.now)) result }
{
    Err(LangError::FunctionCall {
        name: name.try_clone()?,
    })
}

/// The text of an outcome; the empty text where it isn't there.
fn text_told(alloc: Global, outcome: &Option<Outcome>) -> Result<Text, LangError>
    ensures { Gives (told (outcome_there outcome.now)) result }
{
    match outcome {
        Some(Ok(text)) => Ok(text.try_clone()?),
        Some(Err(name)) => refused(name),
        None => Ok(Text::from(String::new(alloc))),
    }
}

/// A variable with its text.
fn binding(alloc: Global, assignment: &Assignment, text: Text) -> Result<Binding, NoMemory>
    ensures { IfOk result (λ b. b ≡ record { name = assignment.now.name; value = value_of_text text; export = assignment.now.export }) }
{
    let value = value_of_text(alloc, text)?;
    Ok(Binding {
        name: assignment.name.try_clone()?,
        value,
        export: assignment.export,
    })
}

/// The variables of a module with their texts; the first outcome that is refused counts.
#[tactic(auto, using(crate::proofs::Told::binding_more, crate::proofs::Told::binding_refused, crate::proofs::Told::binding_end, crate::proofs::Told::binding_begin))]
fn bindings(
    alloc: Global,
    assignments: &[Assignment],
    outcomes: &[Option<Outcome>],
) -> Result<Seq<Binding>, LangError>
    requires { length outcomes.now ≡ length assignments.now }
    ensures { Gives (bindings_told assignments.now (outcomes_there outcomes.now)) result }
{
    let mut bindings = Vec::new(alloc);
    'assignments: for at in 0..assignments.len() {
        let text = text_told(alloc, &outcomes[at])?;
        bindings.push(binding(alloc, &assignments[at], text)?)?;
    }
    Ok(Seq::from(bindings))
}

/// A scope of the constants and, within them, these variables.
fn scope_with(alloc: Global, bindings: Seq<Binding>) -> Result<Scope, NoMemory>
    ensures { IfOk result (λ scope. scope ≡ scope_with bindings) }
{
    let mut levels = Vec::new(alloc);
    levels.push(constant_level(alloc)?)?;
    levels.push(Level {
        bindings,
        prelude: false,
    })?;
    Ok(Scope {
        levels: Seq::from(levels),
    })
}

/// The scope of a module.
fn scope_of(
    alloc: Global,
    justfile: &Justfile,
    dotenv: &[DotenvOf],
    environ: &Environ,
    overrides: &[Override],
) -> Result<Scope, LangError>
    requires { AreEnding (assignments_of justfile.now) }
    ensures scope { IfOk result (λ scope. IsScope dotenv.now environ.now.pairs overrides.now justfile.now (Ok scope)) }
    ensures refused { IfErr result (λ e. e ≢ LangError.NoMemory → IsScope dotenv.now environ.now.pairs overrides.now justfile.now (Err e)) }
    ensures only { (answer : Answer Scope) → IsScope dotenv.now environ.now.pairs overrides.now justfile.now answer → Gives answer result }
{
    let outcomes = outcomes(alloc, justfile, dotenv, environ, overrides)?;
    let assignments = justfile.assignments.as_slice();
    let found = outcomes.as_slice();
    let bindings = bindings(alloc, assignments, found)?;
    let scope = scope_with(alloc, bindings)?;
    Ok(scope)
}

/// The scopes of modules, one behind the other.
#[tactic(auto, using(crate::proofs::Told::scopes_begin, crate::proofs::Only::front_begin))]
pub(crate) fn scopes(
    alloc: Global,
    modules: &[&Justfile],
    dotenv: &[DotenvOf],
    environ: &Environ,
    overrides: &[Override],
) -> Result<Seq<(Modulepath, Scope)>, LangError>
    requires { All (λ j. AreEnding (assignments_of j)) (map (λ m. m.now) modules.now) }
    ensures scopes { IfOk result (λ scopes. Evaluates dotenv.now environ.now.pairs overrides.now (map (λ m. m.now) modules.now) (Ok scopes)) }
    ensures refused { IfErr result (λ e. e ≢ LangError.NoMemory → Evaluates dotenv.now environ.now.pairs overrides.now (map (λ m. m.now) modules.now) (Err e)) }
    ensures only { (answer : Answer (List (Modulepath × Scope))) → Evaluates dotenv.now environ.now.pairs overrides.now (map (λ m. m.now) modules.now) answer → Gives answer result }
{
    let mut scopes = Vec::new(alloc);
    'modules: for module in modules {
        let scope = scope_of(alloc, *module, dotenv, environ, overrides)?;
        scopes.push((module.module_path.try_clone()?, scope))?;
    }
    Ok(Seq::from(scopes))
}
