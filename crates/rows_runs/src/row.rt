//! The run of a row, and what it shows beside what the row wants.

use crate::parts::{Page, unlike};
use crate::{fault, given, shown, told};
use just_cli::{Ended, Failure, Report, run_with};
use just_host::MemHost;
use rows_common::Wrong;
use serde_json::Value;
use std::alloc::Global;
use std::sync::Wait;
use std::thread::Threads;

/// What a run shows: how it ended, and what its host tells; the history, the changes of environments and captured children
/// where the row says what they are to be.
fn found(
    alloc: Global,
    row: &Value,
    host: MemHost,
    ended: Result<Report, Failure>,
) -> Result<String, Wrong> {
    let mut page = Page::new(alloc);
    told::push_end(&mut page, ended, shown::history(row).is_some());
    told::push_behind(
        &mut page,
        host,
        shown::changes(row).is_some(),
        shown::captured(row).is_some(),
    );
    page.finished()
}

/// What differs between what a run shows and what the row wants.
fn run_difference(
    alloc: Global,
    row: &Value,
    host: MemHost,
    ended: Result<Report, Failure>,
) -> Result<Option<String>, Wrong> {
    let found = found(alloc, row, host, ended)?;
    let wanted = shown::wanted(alloc, row)?;
    Ok(unlike(alloc, found, wanted)?)
}

/// The host of a row: where the row names a call that fails, the first one of that name does.
fn host_of<R: Threads + Wait + Sync>(rt: &R, alloc: Global, row: &Value) -> Result<MemHost, Wrong> {
    match fault::named(row) {
        None => given::host(alloc, row),
        Some(name) => {
            let number = fault::number(rt, alloc, row, name)?;
            given::failing_host(alloc, row, number)
        }
    }
}

/// What differs when the words of a row are run over its host.
fn difference_of<R: Threads + Wait + Sync>(
    rt: &R,
    alloc: Global,
    row: &Value,
) -> Result<Option<String>, Wrong> {
    let words = given::words(alloc, row)?;
    let host = host_of(rt, alloc, row)?;
    let Ended { host, result } = run_with(rt, alloc, words.as_slice(), host);
    run_difference(alloc, row, host, result)
}

/// What differs in a row, in the words that are printed; none where it agrees. It promises nothing beyond safety.
pub(crate) fn difference<R: Threads + Wait + Sync>(
    rt: &R,
    alloc: Global,
    row: &str,
) -> Result<Option<String>, Wrong> {
    match Value::from_str(alloc, row) {
        Ok(row) => {
            let difference = difference_of(rt, alloc, &row);
            drop(row);
            difference
        }
        Err(error) => {
            drop(error);
            Err(Wrong::Form)
        }
    }
}
