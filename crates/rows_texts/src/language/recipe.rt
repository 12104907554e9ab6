//! The recipes of a module.

use super::lines::{Thing, begin_line, push_flag, push_text};
use super::page::Page;
use super::parameter::push_parameter;
use just_lang_types::{Attribute, Dependency, Fragment, Line, Recipe};

/// Adds what a part of a body line says.
fn push_fragment(page: &mut Page, fragment: &Fragment) {
    match fragment {
        Fragment::Text(text) => page.push(text.as_str()),
        Fragment::Value(value) => {
            page.push("{{ ");
            page.push_expr(value);
            page.push(" }}");
        }
    }
}

/// Adds what a recipe depends on: the path with the arguments behind it.
fn push_dependency(page: &mut Page, dependency: &Dependency) {
    page.push_path(&dependency.path);
    for value in dependency.arguments.as_slice() {
        page.push(" ");
        page.push_expr(value);
    }
}

/// Adds the line of what a recipe depends on.
fn push_dependencies(page: &mut Page, recipe: Thing<'_>, field: &str, dependencies: &[Dependency]) {
    begin_line(page, recipe, field);
    let mut between = "";
    for dependency in dependencies {
        page.push(between);
        push_dependency(page, dependency);
        between = ", ";
    }
    page.push("\n");
}

/// Adds the line of the names of a recipe's attributes.
fn push_names(page: &mut Page, recipe: Thing<'_>, attributes: &[Attribute]) {
    begin_line(page, recipe, "attributes");
    let mut between = "";
    for attribute in attributes {
        page.push(between);
        page.push(attribute.name.text.as_str());
        between = ", ";
    }
    page.push("\n");
}

/// Adds a line of a body: its number and what it says.
fn push_body_line(page: &mut Page, recipe: Thing<'_>, line: &Line) {
    page.push_path(recipe.path);
    page.push(".body.");
    page.push_number(line.number as u64);
    page.push(" = ");
    for fragment in line.fragments.as_slice() {
        push_fragment(page, fragment);
    }
    page.push("\n");
}

/// Adds the lines of the parameters.
fn push_parameters(page: &mut Page, thing: Thing<'_>, recipe: &Recipe) {
    begin_line(page, thing, "parameters");
    let mut between = "";
    for parameter in recipe.parameters.as_slice() {
        page.push(between);
        page.push(parameter.name.as_str());
        between = ", ";
    }
    page.push("\n");
    for parameter in recipe.parameters.as_slice() {
        push_parameter(page, &recipe.path, parameter);
    }
}

/// Adds the lines of a recipe.
pub(crate) fn push_recipe(page: &mut Page, recipe: &Recipe) {
    let thing = Thing {
        path: &recipe.path,
        part: "",
    };
    begin_line(page, thing, "line");
    page.push_number(recipe.line as u64);
    page.push("\n");
    push_text(page, thing, "doc", &recipe.doc);
    push_flag(page, thing, "quiet", recipe.quiet);
    push_flag(page, thing, "private", recipe.private);
    push_flag(page, thing, "script", recipe.script);
    push_names(page, thing, recipe.attributes.as_slice());
    push_parameters(page, thing, recipe);
    push_dependencies(page, thing, "priors", recipe.priors.as_slice());
    push_dependencies(page, thing, "subsequents", recipe.subsequents.as_slice());
    for line in recipe.body.as_slice() {
        push_body_line(page, thing, line);
    }
}
