//! The modules of a project.

use super::lines::{
    Thing, begin_line, push_expression, push_flag, push_line, push_list, push_text,
};
use super::page::Page;
use super::recipe::push_recipe;
use super::settings::push_settings;
use just_lang_types::project::Justfile;
use just_lang_types::{Alias, Assignment, Disabled, Recipe};

/// Adds the lines of variables.
fn push_assignments(page: &mut Page, module: Thing<'_>, assignments: &[Assignment]) {
    begin_line(page, module, "assignments");
    let mut between = "";
    for assignment in assignments {
        page.push(between);
        page.push(assignment.name.as_str());
        between = ", ";
    }
    page.push("\n");
    for assignment in assignments {
        let variable = Thing {
            path: module.path,
            part: assignment.name.as_str(),
        };
        push_flag(page, variable, "export", assignment.export);
        push_expression(page, variable, "value", Some(&assignment.value));
    }
}

/// Adds the line of further names: each with what it stands for.
fn push_aliases(page: &mut Page, module: Thing<'_>, field: &str, aliases: &[Alias]) {
    begin_line(page, module, field);
    let mut between = "";
    for alias in aliases {
        page.push(between);
        page.push(alias.name.as_str());
        page.push(" for ");
        page.push_path(&alias.target);
        between = ", ";
    }
    page.push("\n");
}

/// Adds what can't be run, and the modules for which it can't.
fn push_one_disabled(page: &mut Page, disabled: &Disabled) {
    page.push(disabled.name.as_str());
    page.push(" for");
    for module in disabled.modules.as_slice() {
        page.push(" ");
        page.push(module.as_str());
    }
}

/// Adds the line of what can't be run.
fn push_disabled(page: &mut Page, module: Thing<'_>, field: &str, disabled: &[Disabled]) {
    begin_line(page, module, field);
    let mut between = "";
    for one in disabled {
        page.push(between);
        push_one_disabled(page, one);
        between = ", ";
    }
    page.push("\n");
}

/// Adds the lines of recipes.
fn push_recipes(page: &mut Page, module: Thing<'_>, recipes: &[Recipe]) {
    begin_line(page, module, "recipes");
    let mut between = "";
    for recipe in recipes {
        page.push(between);
        page.push(recipe.name.as_str());
        between = ", ";
    }
    page.push("\n");
    for recipe in recipes {
        push_recipe(page, recipe);
    }
}

/// Adds the line of the modules in a module.
fn push_modules(page: &mut Page, module: Thing<'_>, modules: &[Justfile]) {
    begin_line(page, module, "modules");
    let mut between = "";
    for module in modules {
        page.push(between);
        page.push_path(&module.module_path);
        between = ", ";
    }
    page.push("\n");
}

/// Adds the lines of the names in a module that lead to others.
fn push_names(page: &mut Page, module: Thing<'_>, justfile: &Justfile) {
    let aliases = justfile.recipe_aliases.as_slice();
    push_aliases(page, module, "recipe_aliases", aliases);
    let aliases = justfile.module_aliases.as_slice();
    push_aliases(page, module, "module_aliases", aliases);
    let recipes = justfile.disabled_recipes.as_slice();
    push_disabled(page, module, "disabled_recipes", recipes);
    let aliases = justfile.disabled_aliases.as_slice();
    push_disabled(page, module, "disabled_aliases", aliases);
}

/// Adds the lines of a module, without those of the modules in it.
pub(crate) fn push_module(page: &mut Page, justfile: &Justfile) {
    let module = Thing {
        path: &justfile.module_path,
        part: "",
    };
    push_line(page, module, "source", justfile.source.as_str());
    push_text(page, module, "doc", &justfile.doc);
    push_list(page, module, "groups", justfile.groups.as_slice());
    push_settings(page, module, &justfile.settings);
    push_assignments(page, module, justfile.assignments.as_slice());
    push_recipes(page, module, justfile.recipes.as_slice());
    push_names(page, module, justfile);
    push_list(page, module, "unexports", justfile.unexports.as_slice());
    push_modules(page, module, justfile.modules.as_slice());
    let absent = justfile.absent_modules.as_slice();
    push_list(page, module, "absent_modules", absent);
}
