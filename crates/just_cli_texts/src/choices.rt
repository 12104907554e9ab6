//! The recipes that can be chosen, and what a chooser is fed.

ghost use Rattle.std.specs.Prelude.{◌≡◌, ◌++◌, ◌∷◌, [], if◌then◌else◌, map, filter, codes, Ok, Err, IfOk, IfErr, OnOk, string_bytes};
ghost use Rattle.std.specs.List.{flat_map, list_any};
ghost use Rattle.std.specs.Option.{option_copied};
ghost use Rattle.just_lang.specs.Assembled.{IsSoundlyMadeOf};
ghost use Rattle.just_print_lists.specs.Groups.{has_name};
ghost use Rattle.just_print_commands.specs.Projects.{parts};
ghost use Rattle.just_exec.specs.Parts.{is_needed};
ghost use Rattle.just_cli_plan.specs.Own.{OrMemory};
ghost use Rattle.just_cli_texts.specs.Choices.{justfile_at, recipe_named, recipe_in, needs_none, is_of_groups, is_choosable, spaced_path, choices_of, AreChoices, fed, Feeds};
ghost use Rattle.just_cli_texts.specs.Laid.{laid_by};

use super::whole::whole_of;
use just_config::Config;
use just_exec::Error;
use just_lang::LaidJustfile;
use just_lang_types::project::Justfile;
use just_lang_types::{Modulepath, Parameter, Recipe};
use just_path_text::{Environ, NoMemory, Text};
use just_print::{is_option, is_optional};
use just_print_commands::Project;
use just_print_lists::{
    ListedModule, ListedRecipe, has_name, is_nil, modules_in_turn, public_in_order,
};
use std::alloc::Global;

/// The justfile of the module of that path.
fn justfile_at<'p>(modules: &[&'p Justfile], path: &Modulepath) -> Option<&'p Justfile>
    ensures { option_copied result ≡ justfile_at (map (λ m. m.now) modules.now) path.now }
{
    'modules: for one in modules {
        if one.module_path.same(path) {
            return Some(*one);
        }
    }
    None
}

/// The first of some recipes that has that name.
fn recipe_named<'r>(recipes: &'r [Recipe], name: &str) -> Option<&'r Recipe>
    ensures { option_copied result ≡ recipe_named recipes.now name.now }
{
    'recipes: for recipe in recipes {
        if recipe.name.as_str() == name {
            return Some(recipe);
        }
    }
    None
}

/// The recipe of that name in a module, if there is one.
fn recipe_in<'p>(parent: Option<&'p Justfile>, name: &str) -> Option<&'p Recipe>
    ensures { option_copied result ≡ recipe_in (option_copied parent.entry) name.now }
{
    match parent {
        Some(justfile) => recipe_named(justfile.recipes.as_slice(), name),
        None => None,
    }
}

/// Whether a recipe needs a positional argument for the parameter.
fn is_needed(parameter: &Parameter) -> bool
    ensures { result ≡ is_needed parameter.now }
{
    !is_option(parameter) && !is_optional(parameter)
}

/// Whether a recipe needs a positional argument for one of the parameters.
fn any_needed(parameters: &[Parameter]) -> bool
    ensures { result ≡ list_any is_needed parameters.now }
{
    parameters.iter().any(|parameter| is_needed(parameter))
}

/// Whether there is a recipe, and it needs no argument.
fn needs_none(recipe: Option<&Recipe>) -> bool
    ensures { result ≡ needs_none (option_copied recipe.entry) }
{
    match recipe {
        Some(recipe) => !any_needed(recipe.parameters.as_slice()),
        None => false,
    }
}

/// Whether one of some groups is one of a recipe's own.
fn is_of_one(groups: &[Text], own: &[Text]) -> bool
    ensures { result ≡ list_any (λ g. has_name g own.now) groups.now }
{
    groups.iter().any(|group| has_name(own, group.as_str()))
}

/// Whether one of some groups is one of a recipe's own; each recipe is, where none are given.
fn is_of_groups(groups: &[Text], own: &[Text]) -> bool
    ensures { result ≡ is_of_groups groups.now own.now }
{
    is_nil(groups) || is_of_one(groups, own)
}

/// Whether a recipe of a module can be chosen, where recipes of these groups can, or of any where none are given.
fn is_choosable(groups: &[Text], parent: Option<&Justfile>, recipe: &ListedRecipe) -> bool
    ensures { result ≡ is_choosable groups.now (option_copied parent.entry) recipe.now }
{
    is_of_groups(groups, recipe.groups.as_slice())
        && needs_none(recipe_in(parent, recipe.name.as_str()))
}

/// Adds names, each with a blank behind it.
fn push_spaced(out: &mut String, names: &[Text]) -> Result<(), NoMemory>
    ensures { OnOk result
        (string_bytes out.new ≡ string_bytes out.old ++ flat_map (λ n. n ++ codes " ") names.now) }
{
    'names: for name in names {
        out.push_str(name.as_str())?;
        out.push_str(" ")?;
    }
    Ok(())
}

/// The path of a recipe of that name in a module, with a blank between two names.
fn spaced_path(alloc: Global, outer: &ListedModule, name: &str) -> Result<Text, NoMemory>
    ensures { IfOk result (λ t. t ≡ spaced_path outer.now name.now) }
{
    let mut path = String::new(alloc);
    push_spaced(&mut path, outer.path.components.as_slice())?;
    path.push_str(name)?;
    Ok(Text::from(path))
}

/// Adds the line of a recipe of a module, where it can be chosen.
fn push_choice(
    alloc: Global,
    lines: &mut Vec<Text>,
    outer: &ListedModule,
    name: &str,
    chosen: bool,
) -> Result<(), NoMemory>
    ensures { OnOk result (lines.new.items
        ≡ lines.old.items ++ (if chosen then spaced_path outer.now name.now ∷ [] else [])) }
{
    if !chosen {
        return Ok(());
    }
    let line = spaced_path(alloc, outer, name)?;
    lines.push(line)?;
    Ok(())
}

/// Adds the lines of those recipes of a module that can be chosen.
#[tactic(auto, using(crate::proofs::ChoiceLaws::one_more))]
fn push_choices(
    alloc: Global,
    lines: &mut Vec<Text>,
    groups: &[Text],
    outer: &ListedModule,
    justfile: Option<&Justfile>,
    recipes: &[&ListedRecipe],
) -> Result<(), NoMemory>
    ensures { OnOk result (lines.new.items ≡ lines.old.items
        ++ map (λ r. spaced_path outer.now r.name)
        (filter (is_choosable groups.now (option_copied justfile.entry))
        (map (λ r. r.now) recipes.now))) }
{
    'recipes: for recipe in recipes {
        let chosen = is_choosable(groups, justfile, *recipe);
        push_choice(alloc, lines, outer, recipe.name.as_str(), chosen)?;
    }
    Ok(())
}

/// Adds the lines of those public recipes of a module that can be chosen.
fn push_choices_of(
    alloc: Global,
    config: &Config,
    modules: &[&Justfile],
    lines: &mut Vec<Text>,
    outer: &ListedModule,
) -> Result<(), NoMemory>
    ensures { OnOk result (lines.new.items
        ≡ lines.old.items ++ choices_of config.now (map (λ m. m.now) modules.now) outer.now) }
{
    let justfile = justfile_at(modules, &outer.path);
    let recipes = public_in_order(alloc, config.unsorted, outer.recipes.as_slice())?;
    let groups = config.group.as_slice();
    push_choices(alloc, lines, groups, outer, justfile, recipes.as_slice())
}

/// The lines of those recipes of modules that can be chosen.
#[tactic(auto, using(crate::proofs::ChoiceLaws::one_module))]
fn choices_of_modules(
    alloc: Global,
    config: &Config,
    justfiles: &[&Justfile],
    modules: &[&ListedModule],
) -> Result<Vec<Text>, NoMemory>
    ensures { IfOk result (λ v. v.items
        ≡ flat_map (choices_of config.now (map (λ j. j.now) justfiles.now))
        (map (λ m. m.now) modules.now)) }
{
    let mut lines = Vec::new(alloc);
    'modules: for outer in modules {
        push_choices_of(alloc, config, justfiles, &mut lines, *outer)?;
    }
    Ok(lines)
}

/// The lines of those recipes of a project that can be chosen.
fn choices(
    alloc: Global,
    config: &Config,
    project: Project<'_, '_, '_, '_, '_, '_>,
) -> Result<Vec<Text>, NoMemory>
    ensures { IfOk result (λ v. AreChoices config.now (parts project.entry) v.items) }
{
    let all = modules_in_turn(alloc, config.unsorted, project.tree)?;
    let lines = choices_of_modules(alloc, config, project.justfiles, all.as_slice())?;
    Ok(lines)
}

/// Lines as one text, each with its end.
fn fed(alloc: Global, lines: &[Text]) -> Result<String, NoMemory>
    ensures { IfOk result (λ t. string_bytes t ≡ fed lines.now) }
{
    let mut text = String::new(alloc);
    'lines: for line in lines {
        text.push_str(line.as_str())?;
        text.push_str("\n")?;
    }
    Ok(text)
}

/// What a chooser is fed of a justfile with its layout: the spaced paths of the recipes that can be chosen, one a line.
pub fn feed(
    alloc: Global,
    config: &Config,
    environ: &Environ,
    laid: &LaidJustfile,
) -> Result<String, Error>
    requires { IsSoundlyMadeOf environ.now.pairs laid.now.layout laid.now.justfile }
    ensures fed { IfOk result (λ t.
        Feeds environ.now.pairs config.now (laid_by laid.now) (Ok (string_bytes t))) }
    ensures refused { IfErr result (OrMemory (λ e.
        Feeds environ.now.pairs config.now (laid_by laid.now) (Err e))) }
{
    let whole = whole_of(alloc, environ, laid)?;
    let lines = choices(alloc, config, whole.project())?;
    if is_nil(lines.as_slice()) {
        return Err(Error::NoChoosableRecipes);
    }
    let text = fed(alloc, lines.as_slice())?;
    Ok(text)
}
