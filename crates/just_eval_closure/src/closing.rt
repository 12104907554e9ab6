//! The closure of a request's keys.

ghost use Rattle.std.specs.Prelude.{◌≡◌, ◌≢◌, ◌≤◌, [], ◌∷◌, List, None, Ok, Err, length, map, IfOk, IfErr};
ghost use Rattle.just_lang_types.specs.declared.project.Justfile.{Justfile};
ghost use Rattle.just_lang_types.specs.declared.project.LangError.{LangError};
ghost use Rattle.just_eval_closure.specs.Closures.{IsClosureOf};
ghost use Rattle.just_eval_closure.specs.Visits.{Visits};
ghost use Rattle.just_eval_closure.specs.WellFormed.{IsWellFormed};
ghost use Rattle.just_eval_closure.specs.AskedClosures.{around_of};
ghost use Rattle.just_eval_closure.specs.Ends.{AreEnding, longest};
ghost use Rattle.just_eval_closure.specs.Requests.{IsIndexed};
ghost use Rattle.just_lang_types.specs.Modules.{AreModules};

use super::request::Request;
use crate::{CLOSURE_LIMIT, Surroundings, closure_of};
use just_lang_types::project::{Justfile, LangError};
use just_lang_types::{Closure, Key, Scopes};
use just_path_text::Seq;
use std::alloc::Global;

/// What a request needs of a project, with the dependencies of its keys or without.
#[derive(Clone, Copy)]
struct Needs<'r, 'p> {
    request: &'r Request<'p>,
    no_deps: bool,
}

impl Surroundings for Needs<'_, '_> {
    ghost around = { λ s key. around_of s.no_deps (map (λ m. m.now) s.request.now.modules.items) s.request.now.scopes.now key };

    ghost rank = { λ s key. longest (map (λ m. m.now) s.request.now.modules.items) key.recipe };

    ghost known = { λ s. IsIndexed s.request.now };

    fn around(&self, alloc: Global, key: &Key) -> Result<(Seq<Key>, Seq<Key>), LangError> {
        if self.no_deps {
            return Ok((Seq::new(alloc), Seq::new(alloc)));
        }
        self.request.dependencies(alloc, key)
    }
}

/// The closure of some keys in a project that was looked through: what [`closure`] answers of it.
#[tactic(auto, using(crate::proofs::Ends::ranked))]
pub fn closure_within(
    alloc: Global,
    request: &Request<'_>,
    keys: &[Key],
    no_deps: bool,
) -> Result<Closure, LangError>
    requires indexed { IsIndexed request.now }
    requires ends { AreEnding (map (λ m. m.now) request.now.modules.items) }
    ensures closure { IfOk result (IsClosureOf (around_of no_deps (map (λ m. m.now) request.now.modules.items) request.now.scopes.now) keys.now) }
    ensures ordered { IfOk result (λ c. IsWellFormed c.nodes c.invocations) }
    ensures short { IfOk result (λ c. length c.nodes ≤ CLOSURE_LIMIT) }
    ensures refused { IfErr result (λ e. e ≢ LangError.NoMemory → Visits (around_of no_deps (map (λ m. m.now) request.now.modules.items) request.now.scopes.now) (Ok []) None keys.now (Err e)) }
{
    let needs = Needs { request, no_deps };
    closure_of(alloc, &needs, keys)
}

/// The closure of some keys: a node for each key that they need, once in each round, in the order of a run on one thread.
/// Without dependencies each key needs itself alone.
#[tactic(auto, using(just_lang_types::proofs::Nesting::same_modules))]
pub fn closure(
    alloc: Global,
    justfile: &Justfile,
    scopes: &Scopes,
    keys: &[Key],
    no_deps: bool,
) -> Result<Closure, LangError>
    requires ends { (modules : List Justfile) → AreModules (justfile.now ∷ []) modules → AreEnding modules }
    ensures closure { IfOk result (λ c. (modules : List Justfile) → AreModules (justfile.now ∷ []) modules → IsClosureOf (around_of no_deps modules scopes.now) keys.now c) }
    ensures ordered { IfOk result (λ c. IsWellFormed c.nodes c.invocations) }
    ensures short { IfOk result (λ c. length c.nodes ≤ CLOSURE_LIMIT) }
    ensures refused { IfErr result (λ e. e ≢ LangError.NoMemory → (modules : List Justfile) → AreModules (justfile.now ∷ []) modules → Visits (around_of no_deps modules scopes.now) (Ok []) None keys.now (Err e)) }
{
    let request = Request::new(alloc, justfile, scopes)?;
    closure_within(alloc, &request, keys, no_deps)
}
