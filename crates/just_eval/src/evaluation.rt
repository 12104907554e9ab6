//! The values of all variables of a project.

ghost use Rattle.std.specs.Prelude.{◌≡◌, ◌≢◌, [], ◌∷◌, List, Ok, Err, All, IfOk, IfErr};
ghost use Rattle.just_lang_types.specs.declared.project.Justfile.{Justfile};
ghost use Rattle.just_lang_types.specs.declared.project.LangError.{LangError};
ghost use Rattle.just_lang_types.specs.declared.scope.Scopes.{Scopes};
ghost use Rattle.just_eval_closure.specs.Answers.{Answer, Gives};
ghost use Rattle.just_lang_types.specs.Modules.{AreModules, assignments_of};
ghost use Rattle.just_eval.specs.Evaluations.{IsEvaluation};
ghost use Rattle.just_eval.specs.Uses.{AreEnding};

use super::overrides::unknown_texts;
use super::scopes::scopes;
use just_lang_types::project::{Justfile, LangError};
use just_lang_types::{DotenvOf, Override, Scopes, all_modules};
use just_path_text::{Environ, NoMemory, Seq, TryClone};
use std::alloc::Global;

/// A copy of dotenv pairs.
fn dotenv_copy(alloc: Global, dotenv: &[DotenvOf]) -> Result<Seq<DotenvOf>, NoMemory>
    ensures { IfOk result (λ copy. copy ≡ dotenv.now) }
{
    let mut copies = Vec::new(alloc);
    'dotenv: for one in dotenv {
        copies.push(DotenvOf {
            module: one.module.try_clone()?,
            pairs: one.pairs.try_clone()?,
        })?;
    }
    Ok(Seq::from(copies))
}

/// The scopes of a project's modules: the constants, and within them the module's variables, each with what the command line
/// gives it or with the value of its expression. The variables of the command line that no module assigns refuse it first, and
/// then the first value that asks the environment for a variable that isn't there: a module's values come before those of the
/// modules within it, and each in the order of the sources. The scopes keep the dotenv pairs and the environment that `env`
/// was asked of.
pub fn evaluate(
    alloc: Global,
    justfile: &Justfile,
    dotenv: &[DotenvOf],
    environ: &Environ,
    overrides: &[Override],
) -> Result<Scopes, LangError>
    requires ends { (modules : List Justfile) → AreModules (justfile.now ∷ []) modules → All (λ j. AreEnding (assignments_of j)) modules }
    ensures evaluated { IfOk result (λ scopes. (modules : List Justfile) → AreModules (justfile.now ∷ []) modules → IsEvaluation modules dotenv.now environ.now overrides.now (Ok scopes)) }
    ensures refused { IfErr result (λ e. e ≢ LangError.NoMemory → (modules : List Justfile) → AreModules (justfile.now ∷ []) modules → IsEvaluation modules dotenv.now environ.now overrides.now (Err e)) }
    ensures only { (modules : List Justfile) → AreModules (justfile.now ∷ []) modules → (answer : Answer Scopes) → IsEvaluation modules dotenv.now environ.now overrides.now answer → Gives answer result }
{
    let modules = all_modules(alloc, justfile)?;
    let list = modules.as_slice();
    if let Some(texts) = unknown_texts(alloc, list, overrides)? {
        return Err(LangError::UnknownOverrides { overrides: texts });
    }
    let found = scopes(alloc, list, dotenv, environ, overrides)?;
    let copies = dotenv_copy(alloc, dotenv)?;
    let pairs = environ.pairs.try_clone()?;
    Ok(Scopes {
        scopes: found,
        dotenv: copies,
        environ: Environ { pairs },
    })
}
