//! The answers of two hosts, side by side.

use just_host::Host;
use just_path::{Item, PathFault, Utf8Path, Utf8PathBuf};

/// Whether two lists have the same names and kinds.
fn same_items(a: &[Item], b: &[Item]) -> bool {
    let mut same = a.len() == b.len();
    for (x, y) in a.iter().zip(b.iter()) {
        same = same && x.name == y.name && x.kind == y.kind;
    }
    same
}

/// Whether two hosts tell the same of what stands at a path.
fn stand_alike<A: Host, B: Host>(one: &mut A, other: &mut B, path: Utf8Path<'_>) -> bool {
    one.meta(path, true) == other.meta(path, true)
        && one.meta(path, false) == other.meta(path, false)
}

/// Whether two hosts gave the same path.
fn same_paths(a: &Result<Utf8PathBuf, PathFault>, b: &Result<Utf8PathBuf, PathFault>) -> bool {
    match (a, b) {
        (Ok(a), Ok(b)) => a.as_str() == b.as_str(),
        (Err(a), Err(b)) => a == b,
        _ => false,
    }
}

/// Whether a path leads to the same over two hosts.
fn lead_alike<A: Host, B: Host>(one: &mut A, other: &mut B, path: Utf8Path<'_>) -> bool {
    same_paths(&one.canonical(path), &other.canonical(path))
}

/// Whether a link has the same target over two hosts.
fn point_alike<A: Host, B: Host>(one: &mut A, other: &mut B, path: Utf8Path<'_>) -> bool {
    same_paths(&one.link(path), &other.link(path))
}

/// Whether two hosts list the same of a folder.
fn list_alike<A: Host, B: Host>(one: &mut A, other: &mut B, path: Utf8Path<'_>) -> bool {
    let first = one.list(path);
    let second = other.list(path);
    match (&first, &second) {
        (Ok(a), Ok(b)) => same_items(a.as_slice(), b.as_slice()),
        (Err(a), Err(b)) => a == b,
        _ => false,
    }
}

/// Whether two hosts name the same of a folder.
fn name_alike<A: Host, B: Host>(one: &mut A, other: &mut B, path: Utf8Path<'_>) -> bool {
    let first = one.names(path);
    let second = other.names(path);
    match (&first, &second) {
        (Ok(a), Ok(b)) => a == b,
        (Err(a), Err(b)) => a == b,
        _ => false,
    }
}

/// Whether two hosts read the same from a file.
fn read_alike<A: Host, B: Host>(one: &mut A, other: &mut B, path: Utf8Path<'_>) -> bool {
    let first = one.read(path);
    let second = other.read(path);
    match (&first, &second) {
        (Ok(a), Ok(b)) => a.as_str() == b.as_str(),
        (Err(a), Err(b)) => a == b,
        _ => false,
    }
}

/// Whether two hosts answer the same of a path.
pub(crate) fn answer_alike<A: Host, B: Host>(one: &mut A, other: &mut B, path: &str) -> bool {
    let path = Utf8Path::new(path);
    stand_alike(one, other, path)
        && lead_alike(one, other, path)
        && point_alike(one, other, path)
        && list_alike(one, other, path)
        && name_alike(one, other, path)
        && read_alike(one, other, path)
}

/// Whether a host refuses whatever goes through the link at a path.
fn refuses<H: Host>(host: &mut H, path: Utf8Path<'_>) -> bool {
    host.meta(path, true).is_err()
        && host.canonical(path).is_err()
        && host.list(path).is_err()
        && host.read(path).is_err()
}

/// Whether two hosts tell the same of a link itself, and of whether it has a target.
fn tell_alike<A: Host, B: Host>(one: &mut A, other: &mut B, path: Utf8Path<'_>) -> bool {
    one.meta(path, false).ok() == other.meta(path, false).ok()
        && one.link(path).is_ok() == other.link(path).is_ok()
}

/// Whether two hosts tell the same of a link to itself, and refuse whatever goes through it. They may do so for different reasons: the host in memory
/// follows a link once, and then finds nothing; the system follows it until it gives up.
pub(crate) fn refuse_alike<A: Host, B: Host>(one: &mut A, other: &mut B, path: &str) -> bool {
    let path = Utf8Path::new(path);
    tell_alike(one, other, path) && refuses(one, path) && refuses(other, path)
}
