//! The parameters of a recipe.

use super::lines::{
    Thing, begin_line, push_expression, push_flag, push_line, push_list, push_text,
};
use super::page::Page;
use just_lang_types::{Modulepath, Parameter, ParameterKind, Pattern};

/// The name of a kind.
fn kind(kind: ParameterKind) -> &'static str {
    match kind {
        ParameterKind::Singular => "Singular",
        ParameterKind::Plus => "Plus",
        ParameterKind::Star => "Star",
    }
}

/// Adds the line of a field that may have a number.
fn push_number(page: &mut Page, parameter: Thing<'_>, field: &str, value: Option<u64>) {
    begin_line(page, parameter, field);
    match value {
        None => page.push("-"),
        Some(number) => page.push_number(number),
    }
    page.push("\n");
}

/// Adds the line of the short name.
fn push_short(page: &mut Page, parameter: Thing<'_>, value: Option<char>) {
    begin_line(page, parameter, "short");
    page.push_letter(value.unwrap_or('-'));
    page.push("\n");
}

/// Adds the line of the patterns.
fn push_pattern(page: &mut Page, parameter: Thing<'_>, value: &Option<Pattern>) {
    match value {
        None => push_line(page, parameter, "pattern", "-"),
        Some(pattern) => push_list(page, parameter, "pattern", pattern.texts.as_slice()),
    }
}

/// Adds the lines of a parameter of the recipe with that path.
pub(crate) fn push_parameter(page: &mut Page, recipe: &Modulepath, parameter: &Parameter) {
    let thing = Thing {
        path: recipe,
        part: parameter.name.as_str(),
    };
    push_line(page, thing, "kind", kind(parameter.kind));
    push_flag(page, thing, "export", parameter.export);
    push_expression(page, thing, "default", parameter.default.as_ref());
    push_text(page, thing, "long", &parameter.long);
    push_short(page, thing, parameter.short);
    push_text(page, thing, "value", &parameter.value);
    push_flag(page, thing, "flag", parameter.flag);
    push_flag(page, thing, "multiple", parameter.multiple);
    push_text(page, thing, "help", &parameter.help);
    push_pattern(page, thing, &parameter.pattern);
    push_number(page, thing, "min", parameter.min);
    push_number(page, thing, "max", parameter.max);
}
