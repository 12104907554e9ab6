//! The keys that a key depends on, with their arguments.

ghost use Rattle.std.specs.Prelude.{[], ◌∷◌, List};
ghost use Rattle.just_lang_types.specs.declared.project.Justfile.{Justfile};
ghost use Rattle.just_eval_closure.specs.Answers.{Gives};
ghost use Rattle.just_eval_closure.specs.Dependencies.{deps};
ghost use Rattle.just_lang_types.specs.Modules.{AreModules};

use super::request::Request;
use just_lang_types::project::{Justfile, LangError};
use just_lang_types::{Key, Scopes};
use just_path_text::Seq;
use std::alloc::Global;

/// The keys that a key depends on: those that come before it, and those that come behind it.
#[tactic(auto, using(just_lang_types::proofs::Nesting::same_modules))]
pub fn dependencies(
    alloc: Global,
    justfile: &Justfile,
    scopes: &Scopes,
    key: &Key,
) -> Result<(Seq<Key>, Seq<Key>), LangError>
    ensures { (modules : List Justfile) → AreModules (justfile.now ∷ []) modules → Gives (deps modules scopes.now key.now) result }
{
    let request = Request::new(alloc, justfile, scopes)?;
    request.dependencies(alloc, key)
}
