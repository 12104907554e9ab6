//! Rows of two paths.
ghost use Rattle.std.specs.Prelude.{◌≡◌, IsTrue};
ghost use Rattle.just_path.specs.Names.{has_no_slash};

use crate::row::Row;
use just_path::{Utf8Path, Utf8PathBuf};
use just_path_text::NoMemory;
use rows_common::{Wrong, text};
use std::alloc::Global;
use std::cmp::Ordering;

/// Whether the row of two paths says what the crate answers. It promises nothing beyond safety.
pub(crate) fn agrees(alloc: Global, fields: &[&str]) -> Result<bool, Wrong> {
    let left = text(alloc, fields, 0)?;
    let right = text(alloc, fields, 1)?;
    let a = Utf8Path::new(left.as_str());
    let b = Utf8Path::new(right.as_str());
    let mut row = Row::new(alloc, fields);
    compare_joins(&mut row, a, b);
    compare_order(&mut row, a, b);
    compare_names(&mut row, a, b.as_str());
    row.agrees()
}

/// Compares what the second path gives behind the first, and the first without the second.
fn compare_joins(row: &mut Row<'_>, a: Utf8Path<'_>, b: Utf8Path<'_>) {
    let alloc = row.alloc;
    row.is_path(2, a.join(alloc, b));
    row.is_path(2, pushed(alloc, a, b));
    match a.join_os(alloc, b.as_os_str()) {
        Ok(bytes) => row.says(2, Some(bytes.as_slice())),
        Err(_) => row.lacks_memory(),
    }
    match a.strip_prefix(b) {
        Ok(rest) => row.says(3, Some(rest.as_os_str())),
        Err(_) => row.says(3, None),
    }
}

/// The first path with the second pushed.
fn pushed(alloc: Global, a: Utf8Path<'_>, b: Utf8Path<'_>) -> Result<Utf8PathBuf, NoMemory> {
    let mut path = a.to_path_buf(alloc)?;
    path.push(b)?;
    Ok(path)
}

/// Compares how the paths stand to each other.
fn compare_order(row: &mut Row<'_>, a: Utf8Path<'_>, b: Utf8Path<'_>) {
    row.is_flag(4, a.starts_with(b));
    row.is_flag(5, a.ends_with(b));
    row.is_flag(6, a.eq_str(b.as_str()));
    let order = match a.cmp_str(b.as_str()) {
        Ordering::Less => "-1",
        Ordering::Equal => "0",
        Ordering::Greater => "1",
    };
    let field = row.field(7);
    row.holds(field == order);
}

/// Compares what the second text gives as the first path's name and as its extension.
fn compare_names(row: &mut Row<'_>, a: Utf8Path<'_>, name: &str) {
    let alloc = row.alloc;
    row.is_path(8, a.with_file_name(alloc, name));
    row.note(is_renamed(alloc, a, name));
    if is_extension(name) {
        compare_extensions(row, a, name);
    } else {
        row.says(9, None);
        row.says(10, None);
        row.says(11, None);
    }
}

/// Whether a path whose name was set is equal to the one with that name.
fn is_renamed(alloc: Global, a: Utf8Path<'_>, name: &str) -> Result<bool, Wrong> {
    let mut path = a.to_path_buf(alloc)?;
    path.set_file_name(name)?;
    let named = a.with_file_name(alloc, name)?;
    Ok(path == named)
}

/// Compares what other extensions give.
fn compare_extensions(row: &mut Row<'_>, a: Utf8Path<'_>, name: &str)
    requires { IsTrue (has_no_slash name.now) }
{
    let alloc = row.alloc;
    row.is_path(9, a.with_extension(alloc, name));
    row.is_path(10, a.with_added_extension(alloc, name));
    compare_edit(row, 9, extension_set(alloc, a, name));
    compare_edit(row, 10, extension_added(alloc, a, name));
}

/// Compares a field with a path, and the last field with what its edit answered.
fn compare_edit(row: &mut Row<'_>, number: usize, edit: Result<(Utf8PathBuf, bool), NoMemory>) {
    match edit {
        Ok((path, had)) => {
            row.says(number, Some(path.as_str().as_bytes()));
            row.is_flag(11, had);
        }
        Err(_) => row.lacks_memory(),
    }
}

/// A path whose extension was set, and what that answered.
fn extension_set(
    alloc: Global,
    a: Utf8Path<'_>,
    name: &str,
) -> Result<(Utf8PathBuf, bool), NoMemory>
    requires { IsTrue (has_no_slash name.now) }
{
    let mut path = a.to_path_buf(alloc)?;
    let had = path.set_extension(name)?;
    Ok((path, had))
}

/// A path to which an extension was added, and what that answered.
fn extension_added(
    alloc: Global,
    a: Utf8Path<'_>,
    name: &str,
) -> Result<(Utf8PathBuf, bool), NoMemory>
    requires { IsTrue (has_no_slash name.now) }
{
    let mut path = a.to_path_buf(alloc)?;
    let had = path.add_extension(name)?;
    Ok((path, had))
}

/// Whether a text has no `/`, as an extension.
fn is_extension(text: &str) -> bool
    ensures { result ≡ has_no_slash text.now }
{
    let bytes = text.as_bytes();
    for byte in bytes {
        if *byte == b'/' {
            return false;
        }
    }
    true
}
