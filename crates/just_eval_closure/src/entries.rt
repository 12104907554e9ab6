//! The recipes of modules, with what they see.

ghost use Rattle.std.specs.Prelude.{◌≡◌, ◌++◌, map, All, IfOk, OnOk};
ghost use Rattle.just_eval_closure.specs.Scopes.{scope_of};
ghost use Rattle.just_eval_closure.specs.Dependencies.{levels_in};
ghost use Rattle.just_eval_closure.specs.Entries.{located_of, Sees};
ghost use Rattle.just_lang_types.specs.Modules.{recipes_of, located};

use super::entry::Entry;
use crate::pairs_for;
use just_lang_types::project::Justfile;
use just_lang_types::{Level, Modulepath, Scopes};
use just_path_text::NoMemory;
use std::alloc::Global;

/// The levels of a module's scope.
pub fn levels<'p>(scopes: &'p Scopes, path: &Modulepath) -> &'p [Level]
    ensures { result.now ≡ levels_in (scope_of scopes.now path.now) }
{
    'scopes: for scope in scopes.scopes.as_slice() {
        if scope.0.same(path) {
            return scope.1.levels.as_slice();
        }
    }
    &[]
}

/// Adds the recipes of a module.
fn push_entries<'p>(
    entries: &mut Vec<Entry<'p>>,
    scopes: &'p Scopes,
    justfile: &'p Justfile,
) -> Result<(), NoMemory>
    requires see { All (Sees scopes.now) entries.old.items }
    ensures entries { OnOk result (map located_of entries.new.items ≡ map located_of entries.old.items ++ map (λ r. record { parent = justfile.now; recipe = r }) (recipes_of justfile.now)) }
    ensures see { OnOk result (All (Sees scopes.now) entries.new.items) }
{
    let levels = levels(scopes, &justfile.module_path);
    let pairs = pairs_for(scopes.dotenv.as_slice(), &justfile.module_path);
    'recipes: for recipe in justfile.recipes.as_slice() {
        entries.push(Entry {
            parent: justfile,
            recipe,
            levels,
            pairs,
        })?;
    }
    Ok(())
}

/// The recipes of all modules, in the order of the sources.
pub(crate) fn entries<'p>(
    alloc: Global,
    scopes: &'p Scopes,
    modules: &[&'p Justfile],
) -> Result<Vec<Entry<'p>>, NoMemory>
    ensures entries { IfOk result (λ all. map located_of all.items ≡ located (map (λ m. m.now) modules.now)) }
    ensures see { IfOk result (λ all. All (Sees scopes.now) all.items) }
{
    let mut all = Vec::new(alloc);
    'modules: for module in modules {
        push_entries(&mut all, scopes, *module)?;
    }
    Ok(all)
}
