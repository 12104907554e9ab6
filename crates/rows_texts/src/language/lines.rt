//! Lines that tell parts of a justfile.

use super::page::Page;
use just_lang_types::{Expr, Modulepath};
use just_path_text::Text;

/// What a line tells a field of: what has that path, or a part of it.
#[derive(Clone, Copy)]
pub(crate) struct Thing<'a> {
    pub(crate) path: &'a Modulepath,
    /// The name of the part; empty, where it is the whole.
    pub(crate) part: &'a str,
}

/// Begins the line that tells a field of a thing: all that stands before its value.
pub(crate) fn begin_line(page: &mut Page, thing: Thing<'_>, field: &str) {
    page.push_path(thing.path);
    page.push(".");
    if !thing.part.is_empty() {
        page.push(thing.part);
        page.push(".");
    }
    page.push(field);
    page.push(" = ");
}

/// Adds the line that tells a field of a thing.
pub(crate) fn push_line(page: &mut Page, thing: Thing<'_>, field: &str, value: &str) {
    begin_line(page, thing, field);
    page.push(value);
    page.push("\n");
}

/// Adds the line of a field that is true or false.
pub(crate) fn push_flag(page: &mut Page, thing: Thing<'_>, field: &str, value: bool) {
    push_line(page, thing, field, if value { "true" } else { "false" });
}

/// Adds the line of a field that may have a text.
pub(crate) fn push_text(page: &mut Page, thing: Thing<'_>, field: &str, value: &Option<Text>) {
    let value = match value {
        None => "-",
        Some(text) => text.as_str(),
    };
    push_line(page, thing, field, value);
}

/// Adds the line of a field that has texts.
pub(crate) fn push_list(page: &mut Page, thing: Thing<'_>, field: &str, texts: &[Text]) {
    begin_line(page, thing, field);
    let mut between = "";
    for text in texts {
        page.push(between);
        page.push(text.as_str());
        between = ", ";
    }
    page.push("\n");
}

/// Adds the line of a field that may have an expression.
pub(crate) fn push_expression(
    page: &mut Page,
    thing: Thing<'_>,
    field: &str,
    value: Option<&Expr>,
) {
    begin_line(page, thing, field);
    match value {
        None => page.push("-"),
        Some(value) => page.push_expr(value),
    }
    page.push("\n");
}
