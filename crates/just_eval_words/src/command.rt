//! What the path of a command leads to.

ghost use Rattle.std.specs.Prelude.{◌≡◌, ◌≢◌, Ok, Err, IfOk, IfErr, map};
ghost use Rattle.just_lang_types.specs.declared.project.LangError.TheVariants as error;
ghost use Rattle.just_eval_words.specs.Commands.{no_inner, inner_at, named_at};
ghost use Rattle.just_eval_words.specs.Sights as sight;

use super::found::Target;
use super::name::{is_absent, module_named};
use super::path::joined_path;
use super::target::last_target;
use just_lang_types::project::{Justfile, LangError};
use just_path_text::{NoMemory, Text};
use std::alloc::Global;

/// Why a name that has to be that of a module is none.
#[tactic(auto, using(crate::proofs::Commanded::inner_absent, crate::proofs::Commanded::inner_unknown))]
fn no_inner(alloc: Global, justfile: &Justfile, name: &str) -> Result<LangError, NoMemory>
    ensures { IfOk result (λ e. e ≡ no_inner justfile.now name.now) }
{
    if is_absent(justfile, name) {
        return Ok(LangError::ModuleAbsent {
            module: Text::from_str(alloc, name)?,
        });
    }
    let path = joined_path(alloc, justfile.module_path.components.as_slice(), name)?;
    Ok(LangError::UnknownSubmodule { path })
}

/// The module that names lead to, each that of a module or of an alias of one.
#[tactic(auto, using(crate::proofs::Commanded::inner_here, crate::proofs::Commanded::inner_refused))]
pub fn inner_module<'p>(
    alloc: Global,
    modules: &[&'p Justfile],
    root: &'p Justfile,
    names: &[Text],
) -> Result<&'p Justfile, LangError>
    ensures found { IfOk result (λ m. inner_at (map (λ m. m.now) modules.now) names.now root.now ≡ Ok m.now) }
    ensures refused { IfErr result (λ e. e ≢ error.NoMemory → inner_at (map (λ m. m.now) modules.now) names.now root.now ≡ Err e) }
{
    let mut inside = root;
    'names: for name in names {
        match module_named(modules, inside, name.as_str()) {
            Some(next) => inside = next,
            None => return Err(no_inner(alloc, inside, name.as_str())?),
        }
    }
    Ok(inside)
}

/// What the last of some names comes to, where those in front of it lead to a module.
#[tactic(auto, using(crate::proofs::Commanded::named_last, crate::proofs::Commanded::named_none, crate::proofs::Commanded::named_refused, crate::proofs::Commanded::named_unknown))]
pub fn named_target<'p>(
    alloc: Global,
    modules: &[&'p Justfile],
    root: &'p Justfile,
    names: &[Text],
) -> Result<Target<'p>, LangError>
    ensures target { IfOk result (λ t. named_at (map (λ m. m.now) modules.now) names.now root.now ≡ Ok (sight.target_of t)) }
    ensures refused { IfErr result (λ e. e ≢ error.NoMemory → named_at (map (λ m. m.now) modules.now) names.now root.now ≡ Err e) }
{
    let Some((last, front)) = names.split_last() else {
        return Ok(Target::Module(root));
    };
    let inside = match inner_module(alloc, modules, root, front) {
        Ok(inside) => inside,
        Err(e) => return Err(e),
    };
    let target = match last_target(alloc, modules, inside, last.as_str(), last.as_str()) {
        Ok(target) => target,
        Err(e) => return Err(e),
    };
    Ok(target)
}
