//! Rows of whole runs over a host in memory: `rows_runs FILE ..` reads each file, one JSON object a line, runs what its
//! words ask for, and compares what the run shows. It prints of each file how many rows agree, or of each row that
//! doesn't its number and what differs. A file whose name ends with `.tsv` has rows of single steps of a request (`requests`),
//! and behind the word `timing` stand calls whose time is measured (`timing`).
//!
//! What a row gives: `files` (what stands at a path: a text; null for a folder; `{"hex": DIGITS}` for a file of these bytes; `{"link": TARGET}`;
//! nothing else is there but the folders above), `current` (the current
//! folder), `environ` (a value by its name), `words`, `endings` (for a child's word its status: a code, `"signal:N"` or
//! `"unknown"`; and, where it changes files, the texts by their paths, or null where one goes; and what it prints, a text or such digits, where that is captured), `answers` (the lines that a
//! prompt reads), `input` (the text of standard input, empty where it is left out), and `fails` (the numbers of the calls of the host that fail) or
//! `fault` (the name of a call: the first one of that name fails, and no other). What it wants: `children` (`program`,
//! `arguments`, `folder`, `script` of each), `prompts`, `stderr`, `code`, `history` (its text, a line for each
//! event), `after` (the files behind the run), `failed` (how many calls fail), `stdout`, `changes` (of each child what
//! changes in its environment, in order: `NAME=TEXT`, or `NAME` where it is taken out), and `captured` (of each child whose output is
//! captured its `program`, `arguments`, `folder`, and its `input`). `fails`, `fault` and what stands
//! from `history` on may be left out: without `after` the files are the same behind the run as before it, without `failed`
//! as many calls fail as `fails` lists, and without `stdout` nothing is printed there. A row may have a `name`, which isn't read.
//!
//! `texts.jsonl` and `cleans.jsonl` have commands and what they print or remove, `language.jsonl` and `histories.jsonl` runs: a second reading of what is asked, made apart from this program.
//! `vectors.jsonl` has runs of so many recipes over a host in memory of their own.
//!
//! The functions here promise nothing beyond safety: what they answer is seen by comparing.
#![tactic(auto)]

mod digits;
mod fault;
mod given;
mod parts;
mod requests;
mod row;
mod shown;
mod timing;
mod told;

use requests::RequestRows;
use row::difference;
use rows_common::Wrong;
use std::alloc::Global;
use std::process::ExitCode;
use std::rt::Runtime;
use std::sync::Wait;
use std::thread::Threads;
use std::{env, fs, io};

/// Prints what differs in a row, or why it wasn't compared. It answers whether the row agrees.
fn print_row<R: Print>(
    rt: &R,
    file: &str,
    number: u64,
    answer: Result<Option<String>, Wrong>,
) -> io::Result<bool> {
    let verdict = match &answer {
        Ok(None) => return Ok(true),
        Ok(Some(difference)) => difference.as_str(),
        Err(Wrong::Form) => "no such row",
        Err(Wrong::NoMemory) => "out of memory",
    };
    println!(rt; "{file}:{number}: {verdict}")?;
    Ok(false)
}

/// Compares the rows of a file, and prints how many agree, and what differs of each that doesn't.
fn compare_file<R: Runtime<A = Global> + Threads + Wait + Sync>(
    rt: &R,
    file: &str,
) -> io::Result<bool> {
    let text = fs::read_to_string(rt, file)?;
    let mut count: u64 = 0;
    let mut number: u64 = 0;
    for row in text.as_str().lines() {
        number = number.saturating_add(1);
        let answer = difference(rt, rt.alloc(), row);
        if print_row(rt, file, number, answer)? {
            count = count.saturating_add(1);
        }
    }
    println!(rt; "{file}: {count} agree")?;
    Ok(count == number)
}

/// Compares the rows of a file, of runs or of single steps of requests. It answers whether all agree.
fn compare_either<R: Runtime<A = Global> + Threads + Wait + Sync>(
    rt: &R,
    file: &str,
) -> io::Result<bool> {
    if file.ends_with(".tsv") {
        rows_common::compare_file(rt, &RequestRows, file)
    } else {
        compare_file(rt, file)
    }
}

/// Compares the rows of each file that an argument of the program names, up to the word `timing`. It answers whether all agree.
fn compare_files<R: Runtime<A = Global> + Threads + Wait + Sync>(rt: &R) -> io::Result<bool> {
    let mut all = true;
    let mut names = env::args(rt)?;
    let _program = names.next();
    for name in names {
        if name.as_str() == "timing" {
            break;
        }
        all = compare_either(rt, name.as_str())? && all;
    }
    Ok(all)
}

fn main(rt: HostRuntime) -> io::Result<ExitCode> {
    let all = compare_files(&rt)?;
    timing::run(&rt)?;
    Ok(if all {
        ExitCode::SUCCESS
    } else {
        ExitCode::FAILURE
    })
}
