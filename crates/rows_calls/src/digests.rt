//! Inputs and their digests.

use crate::key::texts;
use just_cache::{CacheError, inputs};
use just_host::Host;
use just_path::Utf8Path;
use just_path_text::{Seq, Text};
use std::alloc::{AllocError, Global};
use std::fmt::Write;

/// Appends a name with its digest, in a line.
fn push_line(lines: &mut String, pair: &(Text, Text)) -> Result<(), AllocError> {
    writeln!(lines, "{} {}", pair.0.as_str(), pair.1.as_str())
}

/// Names with their digests, each in a line.
fn lines(alloc: Global, pairs: Seq<(Text, Text)>) -> Result<String, AllocError> {
    let mut lines = String::new(alloc);
    for pair in pairs.as_slice() {
        push_line(&mut lines, pair)?;
    }
    Ok(lines)
}

/// The inputs of these names, with their digests.
fn pairs<H: Host>(
    alloc: Global,
    host: &mut H,
    names: &str,
) -> Result<Seq<(Text, Text)>, CacheError> {
    let names = texts(alloc, names)?;
    inputs(alloc, names.as_slice(), Utf8Path::new("."), host)
}

/// What the inputs of these names come to.
pub(crate) fn digests<H: Host>(
    alloc: Global,
    host: &mut H,
    names: &str,
) -> Result<String, CacheError> {
    let pairs = pairs(alloc, host, names)?;
    Ok(lines(alloc, pairs)?)
}
