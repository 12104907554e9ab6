//! What a recipe depends on.
ghost use Rattle.std.specs.Prelude.{◌≡◌, IfOk};
ghost use Rattle.just_lang_justfile.specs.Recipes.{dependency_of, dependencies_of};

use super::linker::Linker;
use just_lang_shapes::expanded_exprs;
use just_lang_spots::push_some;
use just_lang_syntax::AstDependency;
use just_lang_types::{Dependency, Texts};
use just_path_text::{NoMemory, Seq};
use std::alloc::Global;

/// A dependency of a recipe in the module of that number, with the path of its recipe.
fn dependency_of<'a, T: Texts, L: Linker<'a>>(
    alloc: Global,
    texts: &T,
    links: &L,
    number: usize,
    dependency: &'a AstDependency,
) -> Result<Option<Dependency>, NoMemory>
    requires { L.known links.now }
    ensures { IfOk result (λ d. d ≡ dependency_of (L.links links.now) number (T.text_of texts.now) dependency.now) }
{
    match links.dependency_path(alloc, number, dependency.path.as_slice())? {
        None => Ok(None),
        Some(path) => {
            let arguments = expanded_exprs(alloc, texts, dependency.arguments.as_slice())?;
            Ok(Some(Dependency { path, arguments }))
        }
    }
}

/// The dependencies of a recipe in the module of that number.
pub(crate) fn dependencies_of<'a, T: Texts, L: Linker<'a>>(
    alloc: Global,
    texts: &T,
    links: &L,
    number: usize,
    dependencies: &'a [AstDependency],
) -> Result<Seq<Dependency>, NoMemory>
    requires { L.known links.now }
    ensures { IfOk result (λ ds. ds ≡ dependencies_of (L.links links.now) number (T.text_of texts.now) dependencies.now) }
{
    let mut all = Vec::with_capacity(alloc, dependencies.len())?;
    'dependencies: for dependency in dependencies {
        let made = dependency_of(alloc, texts, links, number, dependency)?;
        push_some(&mut all, made)?;
    }
    Ok(Seq::from(all))
}
