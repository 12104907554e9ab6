//! The listing that words ask for which name a module.

ghost use Rattle.std.specs.Prelude.{◌≡◌, ◌∷◌, [], List, map, IfOk};
ghost use Rattle.just_lang.specs.Assembled.{IsSoundlyMadeOf};
ghost use Rattle.just_lang_types.specs.declared.project.Justfile.{Justfile};
ghost use Rattle.just_lang_types.specs.Modules.{AreModules};
ghost use Rattle.just_eval_words.specs.Commands.{inner_at};
ghost use Rattle.just_cli_plan.specs.Pairs.{Answers};
ghost use Rattle.just_cli_texts.specs.Laid.{laid_by};
ghost use Rattle.just_cli_texts.specs.Defaults.{is_listed, names_if, listed_by_default, ListsLaid};

use super::printed::Printed;
use super::printing::alone_or;
use super::targets::list;
use super::whole::whole_of;
use just_config::{Config, path_of_words};
use just_eval_words::module_named;
use just_exec::Error;
use just_lang::LaidJustfile;
use just_lang_types::all_modules;
use just_lang_types::project::Justfile;
use just_path_text::{Environ, NoMemory, Seq, Text};
use std::alloc::Global;

/// Whether names lead to a module which is listed by default, by the words or by its own setting.
#[tactic(auto, using(just_eval_words::proofs::Commanded::inner_here, just_eval_words::proofs::Commanded::inner_refused))]
fn is_listed<'p>(given: bool, modules: &[&'p Justfile], root: &'p Justfile, names: &[Text]) -> bool
    ensures { result ≡ is_listed given
        (inner_at (map (λ m. m.now) modules.now) names.now root.now) }
{
    let mut inside = root;
    'names: for name in names {
        match module_named(modules, inside, name.as_str()) {
            Some(next) => inside = next,
            None => return false,
        }
    }
    given || inside.settings.default_list
}

/// Names, where they lead to a module that is listed by default.
fn names_if(
    given: bool,
    modules: &[&Justfile],
    root: &Justfile,
    names: Seq<Text>,
) -> Option<Seq<Text>>
    ensures { result ≡ names_if given (map (λ m. m.now) modules.now) root.now names }
{
    if is_listed(given, modules, root, names.as_slice()) {
        Some(names)
    } else {
        None
    }
}

/// The names of the module that is listed in the place of a run, if one is: words name it, or none name the root; and it is listed by default, by the
/// words or by its own setting.
pub fn listed_by_default(
    alloc: Global,
    given: bool,
    justfile: &Justfile,
    words: &[Text],
) -> Result<Option<Seq<Text>>, NoMemory>
    ensures { IfOk result (λ names. (modules : List Justfile)
        → AreModules (justfile.now ∷ []) modules
        → names ≡ listed_by_default given modules justfile.now words.now) }
{
    match path_of_words(alloc, words)? {
        Some(names) => {
            let modules = all_modules(alloc, justfile)?;
            Ok(names_if(given, modules.as_slice(), justfile, names))
        }
        None => Ok(None),
    }
}

/// The listing of the module of a justfile that names lead to, as a configuration lists it.
pub fn listing(
    alloc: Global,
    config: &Config,
    environ: &Environ,
    laid: &LaidJustfile,
    names: &[Text],
) -> Result<Printed, Error>
    requires { IsSoundlyMadeOf environ.now.pairs laid.now.layout laid.now.justfile }
    ensures { Answers (ListsLaid environ.now.pairs config.now (laid_by laid.now) names.now) result }
{
    let whole = whole_of(alloc, environ, laid)?;
    let text = list(alloc, config, whole.project(), names);
    alone_or(text)
}
