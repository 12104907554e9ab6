//! The comparison of whole files: each argument of the program names one.

use super::Wrong;
use std::alloc::Global;
use std::process::ExitCode;
use std::rt::Runtime;
use std::{env, fs, io};

/// How the rows of files are compared with a crate's answers.
pub trait Compare {
    /// Whether a row of that file agrees with the crate's answers.
    fn agrees(&self, alloc: Global, file: &str, fields: &[&str]) -> Result<bool, Wrong>;
}

/// Whether a row agrees.
fn row_agrees<C: Compare>(
    compare: &C,
    alloc: Global,
    file: &str,
    row: &str,
) -> Result<bool, Wrong> {
    let fields: Vec<&str> = row.split('\t').collect(alloc)?;
    compare.agrees(alloc, file, fields.as_slice())
}

/// Prints a row that doesn't agree.
fn print_row<R: Runtime<A = Global>>(
    rt: &R,
    file: &str,
    verdict: &str,
    row: &str,
) -> io::Result<bool> {
    println!(rt; "{file}: {verdict}: {row}")?;
    Ok(false)
}

/// Compares a row, and prints it where it doesn't agree.
fn compare_row<R: Runtime<A = Global>, C: Compare>(
    rt: &R,
    compare: &C,
    file: &str,
    row: &str,
) -> io::Result<bool> {
    match row_agrees(compare, rt.alloc(), file, row) {
        Ok(true) => Ok(true),
        Ok(false) => print_row(rt, file, "differs", row),
        Err(Wrong::Form) => print_row(rt, file, "no such row", row),
        Err(Wrong::NoMemory) => print_row(rt, file, "out of memory", row),
    }
}

/// Prints how many rows of a file agree, where all do.
fn print_count<R: Runtime<A = Global>>(
    rt: &R,
    file: &str,
    count: u64,
    all: bool,
) -> io::Result<bool> {
    if all {
        println!(rt; "{file}: {count} agree")?;
    }
    Ok(all)
}

/// Compares the rows of a file, and prints how many agree, or those that don't.
fn compare_rows<R: Runtime<A = Global>, C: Compare>(
    rt: &R,
    compare: &C,
    file: &str,
    text: &str,
) -> io::Result<bool> {
    let mut count: u64 = 0;
    let mut all = true;
    for row in text.lines() {
        if row.starts_with('#') {
            continue;
        }
        if compare_row(rt, compare, file, row)? {
            count = count.saturating_add(1);
        } else {
            all = false;
        }
    }
    print_count(rt, file, count, all)
}

/// Compares the rows of the file with that name, and prints how many agree, or those that don't. It answers whether all
/// agree, and promises nothing beyond safety.
pub fn compare_file<R: Runtime<A = Global>, C: Compare>(
    rt: &R,
    compare: &C,
    file: &str,
) -> io::Result<bool> {
    let text = fs::read_to_string(rt, file)?;
    compare_rows(rt, compare, file, text.as_str())
}

/// Compares the rows of each file that an argument of the program names, and prints of each how many agree, or the rows
/// that don't. The exit code tells whether all agree. It promises nothing beyond safety.
pub fn compare_files<R: Runtime<A = Global>, C: Compare>(
    rt: &R,
    compare: &C,
) -> io::Result<ExitCode> {
    let mut code = ExitCode::SUCCESS;
    let mut names = env::args(rt)?;
    drop(names.next());
    for name in names {
        if !compare_file(rt, compare, name.as_str())? {
            code = ExitCode::FAILURE;
        }
    }
    Ok(code)
}
