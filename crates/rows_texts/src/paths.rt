//! Rows of one path.

use crate::row::Row;
use just_path::{Utf8Component, Utf8Path};
use rows_common::{Wrong, text, unescaped};
use std::alloc::Global;

/// Whether the row of a path says what the crate answers. It promises nothing beyond safety.
pub(crate) fn agrees(alloc: Global, fields: &[&str]) -> Result<bool, Wrong> {
    let text = text(alloc, fields, 0)?;
    let path = Utf8Path::new(text.as_str());
    let mut row = Row::new(alloc, fields);
    compare_components(&mut row, path);
    row.is_flag(2, path.is_absolute());
    compare_parent(&mut row, path);
    compare_parts(&mut row, path);
    row.agrees()
}

/// Compares its parent, which is also what is left of it behind `pop`.
fn compare_parent(row: &mut Row<'_>, path: Utf8Path<'_>) {
    let parent = match path.parent() {
        Some(parent) => Some(parent.as_os_str()),
        None => None,
    };
    row.says(3, parent);
    match path.to_path_buf(row.alloc) {
        Ok(mut cut) => {
            row.holds(cut.pop() == parent.is_some());
            row.holds(parent.unwrap_or(path.as_os_str()) == cut.as_str().as_bytes());
        }
        Err(_) => row.lacks_memory(),
    }
}

/// Compares its names and its clean form.
fn compare_parts(row: &mut Row<'_>, path: Utf8Path<'_>) {
    let clean = path.clean(row.alloc);
    row.says(4, as_bytes(path.file_name()));
    row.says(5, as_bytes(path.file_stem()));
    row.says(6, as_bytes(path.file_prefix()));
    row.says(7, as_bytes(path.extension()));
    row.is_path(8, clean);
}

/// The bytes of a text, where there is one.
fn as_bytes(text: Option<&str>) -> Option<&[u8]> {
    match text {
        Some(text) => Some(text.as_bytes()),
        None => None,
    }
}

/// Compares its components: a list of a kind's letter and a text each, or `-`.
fn compare_components(row: &mut Row<'_>, path: Utf8Path<'_>) {
    let alloc = row.alloc;
    let mut left = path.components();
    let list = row.field(1);
    if list != "-" {
        for item in list.split('|') {
            row.note(is_component(alloc, item, left.next()));
        }
    }
    row.holds(left.next().is_none());
}

/// Whether an item is the letter of the component's kind and its text.
fn is_component(
    alloc: Global,
    item: &str,
    component: Option<Utf8Component<'_>>,
) -> Result<bool, Wrong> {
    let Some(component) = component else {
        return Ok(false);
    };
    let wanted = unescaped(alloc, item)?;
    match wanted.as_slice().split_first() {
        Some((first, text)) => Ok(*first == letter(component) && text == component.as_os_str()),
        None => Ok(false),
    }
}

/// The letter of a component's kind.
fn letter(component: Utf8Component<'_>) -> u8 {
    match component {
        Utf8Component::Prefix(_) => b'X',
        Utf8Component::RootDir => b'R',
        Utf8Component::CurDir => b'C',
        Utf8Component::ParentDir => b'P',
        Utf8Component::Normal(_) => b'N',
    }
}
