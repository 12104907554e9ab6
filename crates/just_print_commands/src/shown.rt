//! The recipe that names lead to, as it is written and how it is used.
ghost use Rattle.std.specs.Prelude.{◌≡◌, ◌≢◌, ◌++◌, [], Ok, Err, IfOk, IfErr, string_bytes};
ghost use Rattle.std.specs.Option.{option_copied, unwrap_or};
ghost use Rattle.just_lang_types.specs.declared.project.LangError.TheVariants as lang_error;
ghost use Rattle.just_eval_words.specs.Names as lookup;
ghost use Rattle.just_eval_words.specs.Sights.{located_of};
ghost use Rattle.just_print_lists.specs.LongUsages.{alias_line};
ghost use Rattle.just_print_tree.specs.Kept.{told};
ghost use Rattle.just_print_commands.specs.Projects.{parts};
ghost use Rattle.just_print_commands.specs.Refusals.{IsUnshown};
ghost use Rattle.just_print_commands.specs.Texts.{inner_of, named_of, texts_of, alias_text, written_text, IsLineAt, IsFound, IsShownOf, IsUsageOf};

use super::error::ShowError;
use super::place::alias_target_at;
use super::project::Project;
use just_eval_words::{Found, Target, inner_module, named_target, recipe_in};
use just_lang_layout::Layout;
use just_lang_syntax::Name;
use just_lang_types::Recipe;
use just_lang_types::project::{Justfile, LangError};
use just_path_text::{NoMemory, Text, TryClone};
use just_print::shown_recipe;
use just_print_lists::{alias_line, chosen_indentation, long_usage};
use just_print_tree::{Told, found_told};
use std::alloc::Global;

/// The names of a path.
fn texts_of(alloc: Global, names: &[Name]) -> Result<Vec<Text>, NoMemory>
    ensures { IfOk result (λ v. v.items ≡ texts_of names.now) }
{
    let mut texts = Vec::new(alloc);
    'names: for name in names {
        let text = name.text.try_clone()?;
        texts.push(text)?;
    }
    Ok(texts)
}

/// The line of an alias of that name with this target.
fn line_of(alloc: Global, name: &str, target: &[Name]) -> Result<String, NoMemory>
    ensures { IfOk result (λ t. string_bytes t ≡ alias_line name.now (texts_of target.now)) }
{
    let names = texts_of(alloc, target)?;
    alias_line(alloc, name, names.as_slice())
}

/// The line of the alias of that name, unless the module has a recipe of it.
#[tactic(auto, using(crate::proofs::Finding::own_recipe, crate::proofs::Finding::no_alias, crate::proofs::Finding::an_alias))]
fn alias_text(
    alloc: Global,
    layout: &Layout,
    justfile: &Justfile,
    name: &str,
) -> Result<String, NoMemory>
    ensures { IfOk result (λ t. string_bytes t ≡ alias_text layout.now justfile.now name.now) }
{
    if recipe_in(justfile, name).is_some() {
        return Ok(String::new(alloc));
    }
    match alias_target_at(alloc, layout, &justfile.module_path, name)? {
        None => Ok(String::new(alloc)),
        Some(target) => line_of(alloc, name, target),
    }
}

/// That line in the module that names lead to.
#[tactic(auto, using(crate::proofs::Leading::line_so))]
fn line_at(
    alloc: Global,
    project: Project<'_, '_, '_, '_, '_, '_>,
    front: &[Text],
    last: &str,
) -> Result<String, LangError>
    ensures line { IfOk result (λ t. IsLineAt (parts project.entry) front.now last.now
        (string_bytes t)) }
    ensures refused { IfErr result (λ e.
        e ≢ lang_error.NoMemory → inner_of (parts project.entry) front.now ≡ Err e) }
{
    let inner = inner_module(alloc, project.justfiles, project.root, front)?;
    let line = alias_text(alloc, project.layout, inner, last)?;
    Ok(line)
}

/// The recipe that names lead to.
#[tactic(auto, using(crate::proofs::Leading::unshown_path))]
fn recipe_at<'p>(
    alloc: Global,
    project: Project<'_, '_, 'p, '_, '_, '_>,
    names: &[Text],
) -> Result<Found<'p>, ShowError>
    ensures found { IfOk result (λ f.
        named_of (parts project.entry) names.now ≡ Ok (lookup.Target.to_recipe (located_of f))) }
    ensures refused { IfErr result (IsUnshown (parts project.entry) names.now) }
{
    match named_target(alloc, project.justfiles, project.root, names)? {
        Target::Recipe(found) => Ok(found),
        Target::Module(_) => Err(ShowError::Required),
    }
}

/// The recipe that names lead to, and the line of the alias that the last of them is, where it is one.
#[tactic(auto, using(crate::proofs::Leading::found_so))]
fn found_at<'p>(
    alloc: Global,
    project: Project<'_, '_, 'p, '_, '_, '_>,
    names: &[Text],
) -> Result<(Found<'p>, String), ShowError>
    ensures found { IfOk result (λ r. IsFound (parts project.entry) names.now (located_of r.0)
        (string_bytes r.1)) }
    ensures refused { IfErr result (IsUnshown (parts project.entry) names.now) }
{
    let Some((last, front)) = names.split_last() else {
        return Err(ShowError::Required);
    };
    let found = recipe_at(alloc, project, names)?;
    let line = match line_at(alloc, project, front, last.as_str()) {
        Ok(line) => line,
        Err(e) => return Err(ShowError::Path(e)),
    };
    Ok((found, line))
}

/// A text where there is one, borrowed.
fn borrowed(text: &Option<Text>) -> Option<&str>
    ensures { option_copied result ≡ text.now }
{
    match text {
        None => None,
        Some(text) => Some(text.as_str()),
    }
}

/// The doc of a recipe, or nothing.
fn doc_of(recipe: &Recipe) -> &str
    ensures { result.now ≡ unwrap_or recipe.now.doc [] }
{
    match &recipe.doc {
        None => "",
        Some(doc) => doc.as_str(),
    }
}

/// A recipe as its file has it, with its doc: its body is indented as is given, else as its module has it set.
fn written_text(
    alloc: Global,
    given: Option<&str>,
    justfile: &Justfile,
    one: Told<'_>,
) -> Result<String, NoMemory>
    ensures { IfOk result (λ t. string_bytes t ≡ written_text (option_copied given.entry)
        justfile.now (told one.entry)) }
{
    let set = borrowed(&justfile.settings.indentation);
    let indent = chosen_indentation(alloc, given, set)?;
    shown_recipe(alloc, doc_of(one.recipe), one.written, indent.as_str())
}

/// A text with another one behind it.
fn joined(front: String, text: &str) -> Result<String, NoMemory>
    ensures { IfOk result (λ t. string_bytes t ≡ string_bytes front ++ text.now) }
{
    let mut out = front;
    out.push_str(text)?;
    Ok(out)
}

/// The recipe that names lead to as its file has it, as `--show` prints it.
#[tactic(auto, using(crate::proofs::Leading::unshown_memory, crate::proofs::Leading::shown_so))]
pub fn show_text(
    alloc: Global,
    project: Project<'_, '_, '_, '_, '_, '_>,
    indentation: Option<&str>,
    names: &[Text],
) -> Result<String, ShowError>
    ensures shown { IfOk result (λ t. IsShownOf (parts project.entry)
        (option_copied indentation.entry) names.now (string_bytes t)) }
    ensures refused { IfErr result (IsUnshown (parts project.entry) names.now) }
{
    let (found, line) = found_at(alloc, project, names)?;
    let Some(one) = found_told(project.recipes, &found.recipe.path) else {
        return Err(ShowError::NoMemory);
    };
    let text = written_text(alloc, indentation, found.parent, one)?;
    let whole = joined(line, text.as_str())?;
    Ok(whole)
}

/// How the recipe that names lead to is used, as `--usage` prints it.
#[tactic(auto, using(crate::proofs::Leading::unshown_memory, crate::proofs::Leading::usage_so))]
pub fn usage_text(
    alloc: Global,
    project: Project<'_, '_, '_, '_, '_, '_>,
    names: &[Text],
) -> Result<String, ShowError>
    ensures shown { IfOk result (λ t. IsUsageOf (parts project.entry) names.now (string_bytes t)) }
    ensures refused { IfErr result (IsUnshown (parts project.entry) names.now) }
{
    let (found, line) = found_at(alloc, project, names)?;
    let text = long_usage(alloc, names, found.recipe.parameters.as_slice())?;
    let whole = joined(line, text.as_str())?;
    Ok(whole)
}
