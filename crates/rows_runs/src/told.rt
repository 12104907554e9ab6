//! What a run shows: how it ended, what its host's record tells, and the files behind it.

use crate::parts::Page;
use just_cli::{Event, Failure, Report};
use just_host::{Entry, MemHost, Script, Spec, Stream, Tree};
use just_path_text::{NoMemory, Text};
use just_sched_lines::write_history;
use rows_common::Wrong;
use std::alloc::{AllocError, Global};

/// Adds the text of a history.
fn push_history(page: &mut Page, history: &[Event]) {
    match write_history(page.alloc, history) {
        Ok(text) => page.push(text.as_str()),
        Err(NoMemory) => page.fail(Wrong::NoMemory),
    }
}

/// Adds the code of a run, and its history, where that is asked for. It promises nothing beyond safety.
pub(crate) fn push_end(page: &mut Page, ended: Result<Report, Failure>, with_history: bool) {
    let (code, history) = match &ended {
        Ok(report) => (0, report.history.as_slice()),
        Err(failure) => (failure.code, failure.history.as_slice()),
    };
    page.push("code ");
    page.push_shown(&code);
    if with_history {
        page.push(" and history ");
        push_history(page, history);
    }
    drop(ended);
}

/// How many calls failed.
fn failure_count(entries: &[Entry]) -> usize {
    let mut count: usize = 0;
    for entry in entries {
        if matches!(entry, Entry::Failed(_)) {
            count = count.saturating_add(1);
        }
    }
    count
}

/// Adds what was printed to standard output.
fn push_output(page: &mut Page, entries: &[Entry]) {
    page.begin("stdout");
    for entry in entries {
        if let Entry::Printed(Stream::Out, text) = entry {
            page.push(text.as_str());
        }
    }
}

/// What an entry tells of standard error, prompts too.
fn error_of(entry: &Entry) -> &str {
    match entry {
        Entry::Printed(Stream::Err, text) => text.as_str(),
        Entry::Asked(prompt, _) => prompt.as_str(),
        _ => "",
    }
}

/// Adds what was printed to standard error.
fn push_error(page: &mut Page, entries: &[Entry]) {
    page.begin("stderr");
    for entry in entries {
        page.push(error_of(entry));
    }
}

/// Adds the prompts.
fn push_prompts(page: &mut Page, entries: &[Entry]) {
    page.begin("prompts");
    for entry in entries {
        if let Entry::Asked(prompt, _) = entry {
            page.push_item(prompt.as_str());
        }
    }
}

/// Adds texts in brackets.
fn push_items(page: &mut Page, texts: &[Text]) {
    for text in texts {
        page.push_item(text.as_str());
    }
}

/// Adds a script.
fn push_script(page: &mut Page, script: &Script) {
    let how = if script.run { " runs" } else { " reads" };
    page.push(how);
    page.push_item(script.name.as_str());
    match script.text.to_string(page.alloc) {
        Ok(text) => page.push_item(text.as_str()),
        Err(_) => page.fail(Wrong::NoMemory),
    }
    push_items(page, script.after.as_slice());
}

/// Adds a child: a program with its arguments, or a script that is the program; its folder; its script.
fn push_child(page: &mut Page, spec: &Spec) {
    if !matches!(&spec.script, Some(script) if script.run) {
        page.push(spec.program.as_str());
        push_items(page, spec.arguments.as_slice());
    }
    if let Some(folder) = &spec.folder {
        page.push(" in ");
        page.push(folder.as_str());
    }
    if let Some(script) = &spec.script {
        push_script(page, script);
    }
}

/// Adds the children that were started, a line each.
fn push_children(page: &mut Page, entries: &[Entry]) {
    page.begin("children");
    for entry in entries {
        if let Entry::Started(_, spec) = entry {
            push_child(page, spec.get());
            page.push("\n");
        }
    }
}

/// Adds what changes in the environment of a child: a name with the text that it gets, or with none, where it is taken out.
fn push_change(page: &mut Page, change: &(Text, Option<Text>)) {
    page.push(" [");
    page.push(change.0.as_str());
    if let Some(text) = &change.1 {
        page.push("=");
        page.push(text.as_str());
    }
    page.push("]");
}

/// Adds what changes in the environment of each child, a line each.
fn push_all_changes(page: &mut Page, entries: &[Entry]) {
    page.begin("changes");
    for entry in entries {
        if let Entry::Started(_, spec) = entry {
            for change in spec.get().changes.as_slice() {
                push_change(page, change);
            }
            page.push("\n");
        }
    }
}

/// Adds what a child is fed.
fn push_input(page: &mut Page, input: &[u8]) {
    page.push(" fed ");
    match str::from_utf8(input) {
        Ok(text) => page.push_item(text),
        Err(_) => page.push_shown(&input),
    }
}

/// Adds the children whose output was captured, a line each.
fn push_all_captured(page: &mut Page, entries: &[Entry]) {
    page.begin("captured");
    for entry in entries {
        if let Entry::Captured(spec, input, _, _) = entry {
            push_child(page, spec.get());
            push_input(page, input.as_slice());
            page.push("\n");
        }
    }
}

/// A thing as it is shown, without what stands behind it in its list.
fn alone(shown: &str) -> &str {
    match shown.rsplit_once(')') {
        Some((thing, _)) => thing,
        None => shown,
    }
}

/// The things of a shown tree, each as it is shown for developers, in the order of these texts.
fn things<'a>(alloc: Global, shown: &'a str) -> Result<Vec<&'a str>, AllocError> {
    let mut things = Vec::new(alloc);
    for thing in shown.split("(Place ") {
        things.push(alone(thing))?;
    }
    things.sort()?;
    Ok(things)
}

/// Adds the things of a tree. It promises nothing beyond safety.
pub(crate) fn push_tree(page: &mut Page, tree: &Tree) {
    let alloc = page.alloc;
    page.begin("tree");
    match format!(in alloc; "{tree:?}") {
        Ok(shown) => match things(alloc, shown.as_str()) {
            Ok(things) => page.push_shown(&things),
            Err(_) => page.fail(Wrong::NoMemory),
        },
        Err(_) => page.fail(Wrong::NoMemory),
    }
}

/// Adds what a host's record tells.
fn push_record(page: &mut Page, entries: &[Entry]) {
    page.begin("failed calls");
    page.push_shown(&failure_count(entries));
    push_output(page, entries);
    push_error(page, entries);
    push_prompts(page, entries);
    push_children(page, entries);
}

/// Adds what a host tells behind a run: its record, with the changes of environments and captured children where they are asked
/// for, and its files. It promises nothing beyond safety.
pub(crate) fn push_behind(page: &mut Page, host: MemHost, with_changes: bool, with_captured: bool) {
    push_record(page, host.entries());
    if with_changes {
        push_all_changes(page, host.entries());
    }
    if with_captured {
        push_all_captured(page, host.entries());
    }
    push_tree(page, host.tree());
    drop(host);
}
