//! Variables with their values, as a command prints them.

ghost use Rattle.std.specs.Prelude.{◌≡◌, ◌++◌, ◌∷◌, [], List, map, Ok, Err, IfOk, IfErr, OnOk};
ghost use Rattle.std.specs.List.{flat_map};
ghost use Rattle.std.specs.Option.{option_copied};
ghost use Rattle.just_lang_types.specs.declared.project.Justfile.{Justfile};
ghost use Rattle.just_lang_types.specs.Modules.{AreModules};
ghost use Rattle.just_eval_closure.specs.Scopes.{scope_of};
ghost use Rattle.just_eval_words.specs.Paths.{parts};
ghost use Rattle.just_exec.specs.declared.error.Error.TheVariants as error;
ghost use Rattle.just_cli_plan.specs.Own.{OrMemory};
ghost use Rattle.just_cli_texts.specs.Evaluated.{names_of_word, names_of_words, format_named, format_of, as_evaluated, own_bindings, variables_of, variable_named, evaluated_module, all_text, text_in, EvaluatesNames};

use just_config::{Config, path_of_words};
use just_eval_closure::text_of;
use just_eval_words::{first_part, module_named};
use just_exec::Error;
use just_lang_types::project::Justfile;
use just_lang_types::{Binding, Level, Modulepath, Scope, Scopes, all_modules};
use just_path_text::{NoMemory, Seq, Text};
use just_print_lists::{EvaluateFormat, Evaluated, evaluation};
use std::alloc::Global;
use std::slice;

/// What stands between the `::` of a word.
#[tactic(auto, using(crate::proofs::EvaluateLaws::one_part, crate::proofs::EvaluateLaws::last_part))]
fn parts_of(alloc: Global, word: &str) -> Result<Seq<Text>, NoMemory>
    ensures { IfOk result (λ names. names ≡ parts word.now) }
{
    let mut names = Vec::new(alloc);
    let mut rest = word;
    'parts: while let Some((name, behind)) = first_part(rest) {
        names.push(Text::from_str(alloc, name)?)?;
        rest = behind;
    }
    names.push(Text::from_str(alloc, rest)?)?;
    Ok(Seq::from(names))
}

/// The names in a word.
#[tactic(auto, using(crate::proofs::EvaluateLaws::word_path, crate::proofs::EvaluateLaws::word_parts))]
fn names_of_word(alloc: Global, word: &Text) -> Result<Seq<Text>, NoMemory>
    ensures { IfOk result (λ names. names ≡ names_of_word word.now) }
{
    match path_of_words(alloc, slice::from_ref(word))? {
        Some(names) => Ok(names),
        None => {
            let names = parts_of(alloc, word.as_str())?;
            Ok(names)
        }
    }
}

/// The names in the first of some words; none where there is no word.
fn names_of_words(alloc: Global, words: &[Text]) -> Result<Seq<Text>, NoMemory>
    ensures { IfOk result (λ names. names ≡ names_of_words words.now) }
{
    match words {
        [] => Ok(Seq::new(alloc)),
        [word, ..] => names_of_word(alloc, word),
    }
}

/// The format that a word means.
fn format_named(word: &str) -> EvaluateFormat
    ensures { result ≡ format_named word.now }
{
    if word == "shell" {
        EvaluateFormat::Shell
    } else {
        EvaluateFormat::Just
    }
}

/// The format in which a configuration prints variables.
fn format_of(config: &Config) -> EvaluateFormat
    ensures { result ≡ format_of config.now }
{
    match &config.evaluate_format {
        Some(word) => format_named(word.as_str()),
        None => EvaluateFormat::Just,
    }
}

/// A variable with its text.
fn as_evaluated(alloc: Global, binding: &Binding) -> Result<Evaluated, NoMemory>
    ensures { IfOk result (λ v. v ≡ as_evaluated binding.now) }
{
    let name = binding.name.try_clone()?;
    let text = text_of(alloc, &binding.value)?;
    Ok(Evaluated { name, text })
}

/// Adds variables with their texts.
fn push_bindings(
    alloc: Global,
    variables: &mut Vec<Evaluated>,
    bindings: &[Binding],
) -> Result<(), NoMemory>
    ensures { OnOk result (variables.new.items
        ≡ variables.old.items ++ map as_evaluated bindings.now) }
{
    'bindings: for binding in bindings {
        variables.push(as_evaluated(alloc, binding)?)?;
    }
    Ok(())
}

/// The variables of a level, but of that of the constants.
fn own_bindings(level: &Level) -> &[Binding]
    ensures { result.now ≡ own_bindings level.now }
{
    if level.prelude {
        &[]
    } else {
        level.bindings.as_slice()
    }
}

/// The variables of levels with their texts.
#[tactic(auto, using(crate::proofs::EvaluateLaws::levels_more))]
fn variables_in(alloc: Global, levels: &[Level]) -> Result<Vec<Evaluated>, NoMemory>
    ensures { IfOk result (λ v. v.items ≡ map as_evaluated (flat_map own_bindings levels.now)) }
{
    let mut variables = Vec::new(alloc);
    'levels: for level in levels {
        push_bindings(alloc, &mut variables, own_bindings(level))?;
    }
    Ok(variables)
}

/// The scope of the module of that path.
fn scope_of<'s>(scopes: &'s Scopes, path: &Modulepath) -> Option<&'s Scope>
    ensures { option_copied result ≡ scope_of scopes.now path.now }
{
    'scopes: for one in scopes.scopes.as_slice() {
        if one.0.same(path) {
            return Some(&one.1);
        }
    }
    None
}

/// The variables of a module with their texts.
#[tactic(auto, using(crate::proofs::EvaluateLaws::scoped, crate::proofs::EvaluateLaws::unscoped))]
fn variables_of(
    alloc: Global,
    scopes: &Scopes,
    justfile: &Justfile,
) -> Result<Vec<Evaluated>, NoMemory>
    ensures { IfOk result (λ v. v.items ≡ variables_of scopes.now justfile.now) }
{
    match scope_of(scopes, &justfile.module_path) {
        Some(scope) => {
            let variables = variables_in(alloc, scope.levels.as_slice())?;
            Ok(variables)
        }
        None => Ok(Vec::new(alloc)),
    }
}

/// The first of some variables that has that name.
fn variable_named<'v>(variables: &'v [Evaluated], name: &str) -> Option<&'v Evaluated>
    ensures { option_copied result ≡ variable_named variables.now name.now }
{
    'variables: for variable in variables {
        if variable.name.as_str() == name {
            return Some(variable);
        }
    }
    None
}

/// The error of a name that is no module's.
fn no_submodule(alloc: Global, name: &str) -> Error
    ensures { OrMemory (λ e. e ≡ error.EvalUnknownSubmodule name.now) result }
{
    match Text::from_str(alloc, name) {
        Ok(submodule) => Error::EvalUnknownSubmodule { submodule },
        Err(NoMemory) => Error::NoMemory,
    }
}

/// The error of a name that is neither a variable's nor a module's.
fn no_variable(alloc: Global, name: &str) -> Error
    ensures { OrMemory (λ e. e ≡ error.EvalUnknownSubmoduleOrVariable name.now) result }
{
    match Text::from_str(alloc, name) {
        Ok(name) => Error::EvalUnknownSubmoduleOrVariable { name },
        Err(NoMemory) => Error::NoMemory,
    }
}

/// The module that names lead to, each that of a module or of an alias of one.
#[tactic(auto, using(crate::proofs::EvaluateLaws::module_here, crate::proofs::EvaluateLaws::module_refused))]
fn evaluated_module<'p>(
    alloc: Global,
    modules: &[&'p Justfile],
    root: &'p Justfile,
    names: &[Text],
) -> Result<&'p Justfile, Error>
    ensures found { IfOk result (λ m.
        evaluated_module (map (λ m. m.now) modules.now) names.now root.now ≡ Ok m.now) }
    ensures refused { IfErr result (OrMemory (λ e.
        evaluated_module (map (λ m. m.now) modules.now) names.now root.now ≡ Err e)) }
{
    let mut inside = root;
    'names: for name in names {
        match module_named(modules, inside, name.as_str()) {
            Some(next) => inside = next,
            None => return Err(no_submodule(alloc, name.as_str())),
        }
    }
    Ok(inside)
}

/// All variables of a module, as they are printed.
fn all_text(
    alloc: Global,
    format: EvaluateFormat,
    scopes: &Scopes,
    justfile: &Justfile,
) -> Result<Text, NoMemory>
    ensures { IfOk result (λ t. t ≡ all_text format scopes.now justfile.now) }
{
    let variables = variables_of(alloc, scopes, justfile)?;
    Ok(Text::from(evaluation(alloc, format, variables.as_slice())?))
}

/// What is printed of a name in a module: the text of a variable, else all variables of a module of that name.
#[tactic(auto, using(crate::proofs::EvaluateLaws::text_variable, crate::proofs::EvaluateLaws::text_module, crate::proofs::EvaluateLaws::text_nowhere))]
fn text_in(
    alloc: Global,
    format: EvaluateFormat,
    modules: &[&Justfile],
    scopes: &Scopes,
    justfile: &Justfile,
    name: &str,
) -> Result<Text, Error>
    ensures text { IfOk result (λ t. text_in format (map (λ m. m.now) modules.now) scopes.now
        justfile.now name.now ≡ Ok t) }
    ensures refused { IfErr result (OrMemory (λ e. text_in format (map (λ m. m.now) modules.now)
        scopes.now justfile.now name.now ≡ Err e)) }
{
    let variables = variables_of(alloc, scopes, justfile)?;
    if let Some(variable) = variable_named(variables.as_slice(), name) {
        let text = variable.text.try_clone()?;
        return Ok(text);
    }
    match module_named(modules, justfile, name) {
        Some(inner) => {
            let text = all_text(alloc, format, scopes, inner)?;
            Ok(text)
        }
        None => Err(no_variable(alloc, name)),
    }
}

/// What is printed of what names come to from the root.
#[tactic(auto, using(crate::proofs::EvaluateLaws::names_whole))]
fn text_of_names(
    alloc: Global,
    format: EvaluateFormat,
    modules: &[&Justfile],
    scopes: &Scopes,
    root: &Justfile,
    names: &[Text],
) -> Result<Text, Error>
    ensures text { IfOk result (λ t. EvaluatesNames format (map (λ m. m.now) modules.now)
        scopes.now root.now names.now (Ok t)) }
    ensures refused { IfErr result (OrMemory (λ e. EvaluatesNames format
        (map (λ m. m.now) modules.now) scopes.now root.now names.now (Err e))) }
{
    let Some((last, front)) = names.split_last() else {
        let text = all_text(alloc, format, scopes, root)?;
        return Ok(text);
    };
    let inner = match evaluated_module(alloc, modules, root, front) {
        Ok(inner) => inner,
        Err(error) => return Err(error),
    };
    let text = match text_in(alloc, format, modules, scopes, inner, last.as_str()) {
        Ok(text) => text,
        Err(error) => return Err(error),
    };
    Ok(text)
}

/// What a configuration prints of the values of a justfile's variables: those of the module that the first of some words names, or of that variable alone.
pub fn evaluate(
    alloc: Global,
    config: &Config,
    justfile: &Justfile,
    scopes: &Scopes,
    words: &[Text],
) -> Result<Text, Error>
    ensures text { IfOk result (λ t. (modules : List Justfile)
        → AreModules (justfile.now ∷ []) modules
        → EvaluatesNames (format_of config.now) modules scopes.now justfile.now
        (names_of_words words.now) (Ok t)) }
    ensures refused { IfErr result (OrMemory (λ e. (modules : List Justfile)
        → AreModules (justfile.now ∷ []) modules
        → EvaluatesNames (format_of config.now) modules scopes.now justfile.now
        (names_of_words words.now) (Err e))) }
{
    let names = names_of_words(alloc, words)?;
    let modules = all_modules(alloc, justfile)?;
    let all = modules.as_slice();
    let format = format_of(config);
    let text = match text_of_names(alloc, format, all, scopes, justfile, names.as_slice()) {
        Ok(text) => text,
        Err(error) => return Err(error),
    };
    Ok(text)
}
