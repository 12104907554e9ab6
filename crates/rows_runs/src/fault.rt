//! The first call of some name that fails: rows name it, and a host fails by numbers.

use crate::given;
use just_cli::{Ended, run_with};
use just_host::{Call, Entry};
use rows_common::Wrong;
use serde_json::Value;
use std::alloc::Global;
use std::sync::Wait;
use std::thread::Threads;

/// The numbers that are tried.
const TRIED: u32 = 256;

/// The name of the call that fails first in a row, if it names one. It promises nothing beyond safety.
pub(crate) fn named(row: &Value) -> Option<&str> {
    match row.get("fault") {
        Some(Value::String(name)) => Some(name.as_str()),
        _ => None,
    }
}

/// The call that failed first, if one did.
fn failed(entries: &[Entry]) -> Option<Call> {
    for entry in entries {
        if let Entry::Failed(call) = entry {
            return Some(*call);
        }
    }
    None
}

/// The call that fails where that of a number does, when the words of a row are run; none where none fails.
fn call_at<R: Threads + Wait + Sync>(
    rt: &R,
    alloc: Global,
    row: &Value,
    number: u32,
) -> Result<Option<Call>, Wrong> {
    let words = given::words(alloc, row)?;
    let host = given::failing_host(alloc, row, number)?;
    let Ended { host, result } = run_with(rt, alloc, words.as_slice(), host);
    let call = failed(host.entries());
    drop(result);
    drop(host);
    Ok(call)
}

/// Whether a call has that name.
fn is_named(alloc: Global, call: Option<Call>, name: &str) -> Result<bool, Wrong> {
    match call {
        Some(call) => {
            let shown = format!(in alloc; "{call:?}")?;
            Ok(shown.as_str() == name)
        }
        None => Ok(false),
    }
}

/// The least number of a call that fails under that name, when the words of a row are run. A row without one isn't of the
/// form of its kind. It promises nothing beyond safety.
pub(crate) fn number<R: Threads + Wait + Sync>(
    rt: &R,
    alloc: Global,
    row: &Value,
    name: &str,
) -> Result<u32, Wrong> {
    for number in 0..TRIED {
        if is_named(alloc, call_at(rt, alloc, row, number)?, name)? {
            return Ok(number);
        }
    }
    Err(Wrong::Form)
}
