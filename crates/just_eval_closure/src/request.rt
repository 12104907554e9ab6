//! A project with the scopes of its modules, in which the recipes of keys are looked up.

ghost use Rattle.std.specs.Prelude.{◌≡◌, ◌∷◌, [], map, IfOk};
ghost use Rattle.just_eval_closure.specs.Answers.{Gives, each};
ghost use Rattle.just_eval_closure.specs.Dependencies.{key_of, deps};
ghost use Rattle.just_eval_closure.specs.Entries.{located_of, Sees, IsFound};
ghost use Rattle.just_eval_closure.specs.Requests.{IsIndexed};
ghost use Rattle.just_lang_types.specs.Modules.{recipe_at, AreModules};

use super::argument::{arguments, shares};
use super::entries::entries;
use super::entry::{Entry, Index};
use super::given::values_given;
use super::index::index_of;
use just_lang_types::project::{Justfile, LangError};
use just_lang_types::{Dependency, Key, Modulepath, Scopes, Value, all_modules};
use just_path_text::{NoMemory, Seq, TryClone};
use std::alloc::Global;

/// A project with the scopes of its modules. Looking a recipe up takes the logarithm of their number.
pub struct Request<'p> {
    pub modules: Vec<&'p Justfile>,
    pub scopes: &'p Scopes,
    /// The first recipe of each path.
    pub entries: Index<'p>,
}

impl Drop for Request<'_> {
    fn drop(self) {
        let Request {
            modules: _,
            scopes: _,
            entries: _,
        } = self;
    }
}

impl<'p> Request<'p> {
    /// Looks through a justfile and those within it.
    pub fn new(
        alloc: Global,
        justfile: &'p Justfile,
        scopes: &'p Scopes,
    ) -> Result<Request<'p>, NoMemory>
        ensures modules { IfOk result (λ r. AreModules (justfile.now ∷ []) (map (λ m. m.now) r.modules.items)) }
        ensures scopes { IfOk result (λ r. r.scopes.now ≡ scopes.now) }
        ensures indexed { IfOk result IsIndexed }
    {
        let modules = all_modules(alloc, justfile)?;
        let all = entries(alloc, scopes, modules.as_slice())?;
        let entries = index_of(alloc, all.as_slice())?;
        Ok(Request {
            modules,
            scopes,
            entries,
        })
    }

    /// The recipe of a path from the root.
    pub fn entry(&self, path: &Modulepath) -> Option<Entry<'p>>
        requires { IsIndexed self.now }
        ensures { IsFound self.now.scopes.now result (recipe_at (map (λ m. m.now) self.now.modules.items) path.now) }
    {
        self.entries.find(path)
    }

    /// The key of a dependency of a recipe whose parameters have these values.
    #[tactic(auto, using(crate::proofs::Keys::key_refused, crate::proofs::Keys::key_none, crate::proofs::Keys::key_some, crate::proofs::Keys::key_values_refused))]
    fn key_of(
        &self,
        alloc: Global,
        from: &Entry<'p>,
        values: &[Value],
        dependency: &Dependency,
    ) -> Result<Key, LangError>
        requires indexed { IsIndexed self.now }
        requires sees { Sees self.now.scopes.now from.now }
        ensures { Gives (key_of (map (λ m. m.now) self.now.modules.items) self.now.scopes.now (located_of from.now) values.now dependency.now) result }
    {
        let exprs = dependency.arguments.as_slice();
        let given = arguments(alloc, self.scopes, from, values, exprs)?;
        let recipe = dependency.path.try_clone()?;
        let Some(to) = self.entry(&dependency.path) else {
            return Ok(Key {
                recipe,
                arguments: Seq::from(given),
            });
        };
        let shares = shares(alloc, to.recipe.parameters.as_slice(), given.as_slice())?;
        let arguments = values_given(alloc, self.scopes, &to, shares.as_slice())?;
        Ok(Key {
            recipe,
            arguments: Seq::from(arguments),
        })
    }

    /// The keys of some dependencies of a recipe whose parameters have these values.
    #[tactic(auto, using(crate::proofs::Each::each_more, crate::proofs::Each::each_end, crate::proofs::Each::each_refused))]
    fn keys_of(
        &self,
        alloc: Global,
        from: &Entry<'p>,
        values: &[Value],
        dependencies: &[Dependency],
    ) -> Result<Seq<Key>, LangError>
        requires indexed { IsIndexed self.now }
        requires sees { Sees self.now.scopes.now from.now }
        ensures { Gives (each (key_of (map (λ m. m.now) self.now.modules.items) self.now.scopes.now (located_of from.now) values.now) dependencies.now) result }
    {
        let mut keys = Vec::with_capacity(alloc, dependencies.len())?;
        'dependencies: for dependency in dependencies {
            keys.push(self.key_of(alloc, from, values, dependency)?)?;
        }
        Ok(Seq::from(keys))
    }

    /// The keys that come before a key, and those that come behind it.
    #[tactic(auto, using(crate::proofs::Keys::deps_none, crate::proofs::Keys::deps_priors_refused, crate::proofs::Keys::deps_subsequents_refused, crate::proofs::Keys::deps_some))]
    pub fn dependencies(&self, alloc: Global, key: &Key) -> Result<(Seq<Key>, Seq<Key>), LangError>
        requires { IsIndexed self.now }
        ensures { Gives (deps (map (λ m. m.now) self.now.modules.items) self.now.scopes.now key.now) result }
    {
        let Some(from) = self.entry(&key.recipe) else {
            return Ok((Seq::new(alloc), Seq::new(alloc)));
        };
        let recipe = from.recipe;
        let values = key.arguments.as_slice();
        let priors = self.keys_of(alloc, &from, values, recipe.priors.as_slice())?;
        let subsequents = self.keys_of(alloc, &from, values, recipe.subsequents.as_slice())?;
        Ok((priors, subsequents))
    }
}
