//! What changes in the environment of a module's child.

ghost use Rattle.std.specs.Prelude.{◌≡◌, IfOk};
ghost use Rattle.std.specs.Option.{option_copied};
ghost use Rattle.just_eval_closure.specs.Scopes.{pairs_for, scope_of};
ghost use Rattle.just_cli_children.specs.Children.{levels_in, module_changes};

use just_env::changes_of_module;
use just_lang_types::project::Justfile;
use just_lang_types::{DotenvOf, Level, Modulepath, Scope, Scopes};
use just_path_text::{NoMemory, Seq, Text};
use std::alloc::Global;

/// The dotenv pairs of the module of that path.
fn pairs_for<'d>(dotenv: &'d [DotenvOf], path: &Modulepath) -> &'d [(Text, Text)]
    ensures { result.now ≡ pairs_for dotenv.now path.now }
{
    'modules: for one in dotenv {
        if one.module.same(path) {
            return one.pairs.as_slice();
        }
    }
    &[]
}

/// The scope of the module of that path, if there is one.
fn scope_of<'s>(scopes: &'s Scopes, path: &Modulepath) -> Option<&'s Scope>
    ensures { option_copied result ≡ scope_of scopes.now path.now }
{
    'scopes: for one in scopes.scopes.as_slice() {
        if one.0.same(path) {
            return Some(&one.1);
        }
    }
    None
}

/// The levels of a scope, if there is one.
fn levels_in<'s>(scope: Option<&'s Scope>) -> &'s [Level]
    ensures { result.now ≡ levels_in (option_copied scope.entry) }
{
    match scope {
        Some(scope) => scope.levels.as_slice(),
        None => &[],
    }
}

/// What changes for a child of a module of a project.
pub(crate) fn module_changes(
    alloc: Global,
    scopes: &Scopes,
    justfile: &Justfile,
) -> Result<Seq<(Text, Option<Text>)>, NoMemory>
    ensures { IfOk result (λ cs. cs ≡ module_changes scopes.now justfile.now) }
{
    let pairs = pairs_for(scopes.dotenv.as_slice(), &justfile.module_path);
    let levels = levels_in(scope_of(scopes, &justfile.module_path));
    let unexports = justfile.unexports.as_slice();
    changes_of_module(alloc, pairs, levels, &justfile.settings, unexports)
}
