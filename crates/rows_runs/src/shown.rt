//! What a row wants of a run, in the forms of `told`.

use crate::given::{items, text, tree};
use crate::parts::Page;
use crate::told::push_tree;
use just_host::Tree;
use rows_common::Wrong;
use serde_json::Value;
use std::alloc::Global;

/// The history that a row wants, if it says that. It promises nothing beyond safety.
pub(crate) fn history(row: &Value) -> Option<&str> {
    match row.get("history") {
        Some(Value::String(history)) => Some(history.as_str()),
        _ => None,
    }
}

/// What changes in the environment of the children of a row, if it says that. It promises nothing beyond safety.
pub(crate) fn changes(row: &Value) -> Option<&[Value]> {
    match row.get("changes") {
        Some(Value::Array(children)) => Some(children.as_slice()),
        _ => None,
    }
}

/// The children of a row whose output is captured, if it says that. It promises nothing beyond safety.
pub(crate) fn captured(row: &Value) -> Option<&[Value]> {
    match row.get("captured") {
        Some(Value::Array(children)) => Some(children.as_slice()),
        _ => None,
    }
}

/// Adds the code that a row wants.
fn push_code(page: &mut Page, row: &Value) {
    page.push("code ");
    match row.get("code") {
        Some(code) => match code.as_i64() {
            Some(code) => page.push_shown(&code),
            None => page.fail(Wrong::Form),
        },
        None => page.fail(Wrong::Form),
    }
}

/// Adds the code of a row, and the history, where it says that.
fn push_end(page: &mut Page, row: &Value) {
    push_code(page, row);
    if let Some(history) = history(row) {
        page.push(" and history ");
        page.push(history);
    }
}

/// Adds the texts of a list.
fn push_texts(page: &mut Page, texts: &[Value]) {
    for text in texts {
        match text {
            Value::String(text) => page.push_item(text.as_str()),
            _ => page.fail(Wrong::Form),
        }
    }
}

/// Whether a child's script is its program.
fn is_run(script: &Value) -> bool {
    matches!(script.get("run"), Some(Value::Bool(true)))
}

/// The script of a child; none where it has none.
fn script_of(child: &Value) -> Option<&Value> {
    match child.get("script") {
        Some(Value::Object(_)) => child.get("script"),
        _ => None,
    }
}

/// Adds a script.
fn push_script(page: &mut Page, script: &Value) {
    let how = if is_run(script) {
        " runs ["
    } else {
        " reads ["
    };
    page.push(how);
    page.push_field(text(script, "name"));
    page.push("] [");
    page.push_field(text(script, "text"));
    page.push("]");
    push_texts(page, items(script, "after"));
}

/// Adds a child's program with its arguments, and its folder.
fn push_program(page: &mut Page, child: &Value, with_program: bool) {
    if with_program {
        page.push_field(text(child, "program"));
        push_texts(page, items(child, "arguments"));
    }
    if let Some(Value::String(folder)) = child.get("folder") {
        page.push(" in ");
        page.push(folder.as_str());
    }
}

/// Adds the children of a row, a line each.
fn push_children(page: &mut Page, row: &Value) {
    page.begin("children");
    for child in items(row, "children") {
        match script_of(child) {
            Some(script) => {
                push_program(page, child, !is_run(script));
                push_script(page, script);
            }
            None => push_program(page, child, true),
        }
        page.push("\n");
    }
}

/// Adds what changes in the environment of each child of a row, a line each.
fn push_all_changes(page: &mut Page, children: &[Value]) {
    page.begin("changes");
    for child in children {
        match child {
            Value::Array(changes) => push_texts(page, changes.as_slice()),
            _ => page.fail(Wrong::Form),
        }
        page.push("\n");
    }
}

/// Adds the children of a row whose output is captured, a line each.
fn push_all_captured(page: &mut Page, children: &[Value]) {
    page.begin("captured");
    for child in children {
        push_program(page, child, true);
        page.push(" fed  [");
        page.push_field(text(child, "input"));
        page.push("]\n");
    }
}

/// The number of calls that fail in a row.
fn failure_count(row: &Value) -> usize {
    match row.get("failed") {
        Some(number) => usize::try_from(number.as_u64().unwrap_or(0)).unwrap_or(0),
        None => items(row, "fails").len(),
    }
}

/// What is printed to standard output, which is nothing where the row doesn't say.
fn output(row: &Value) -> &str {
    match row.get("stdout") {
        Some(Value::String(text)) => text.as_str(),
        _ => "",
    }
}

/// Adds what is to be told by a host's record.
fn push_record(page: &mut Page, row: &Value) {
    page.begin("failed calls");
    page.push_shown(&failure_count(row));
    page.begin("stdout");
    page.push(output(row));
    page.begin("stderr");
    page.push_field(text(row, "stderr"));
    page.begin("prompts");
    push_texts(page, items(row, "prompts"));
    push_children(page, row);
}

/// The files behind a run, which are those before it where the row doesn't say.
fn tree_behind(alloc: Global, row: &Value) -> Result<Tree, Wrong> {
    match row.get("after").or(row.get("files")) {
        Some(files) => tree(alloc, text(row, "current")?, files),
        None => Err(Wrong::Form),
    }
}

/// Adds the files behind a run.
fn push_files(page: &mut Page, row: &Value) {
    match tree_behind(page.alloc, row) {
        Ok(tree) => push_tree(page, &tree),
        Err(wrong) => page.fail(wrong),
    }
}

/// What a row wants of a run. It promises nothing beyond safety.
pub(crate) fn wanted(alloc: Global, row: &Value) -> Result<String, Wrong> {
    let mut page = Page::new(alloc);
    push_end(&mut page, row);
    push_record(&mut page, row);
    if let Some(children) = changes(row) {
        push_all_changes(&mut page, children);
    }
    if let Some(children) = captured(row) {
        push_all_captured(&mut page, children);
    }
    push_files(&mut page, row);
    page.finished()
}
