//! The program: from its arguments to its exit status.

ghost use Rattle.std.specs.Prelude.{◌≡◌, IfOk, map, drop, option_map, string_bytes};
ghost use Rattle.std.specs.Vec.Iter.{into_iter_items};
ghost use Rattle.just_host.specs.Real.{record_of};
ghost use Rattle.just_cli.specs.Exit.{IsStatus, status_of, status_of_code as status_for};

use super::{Ended, Failure, Report, run};
use just_host::RealHost;
use std::alloc::{AllocError, Global};
use std::env::Args;
use std::fs::File;
use std::io;
use std::io::{Eprint, ErrorKind};
use std::mem::forget;
use std::process::{Processes, SystemProcess};
use std::rt::{Files, Runtime};
use std::sync::Wait;
use std::thread::Threads;

/// The exit status of faulty words.
const FAULTY_WORDS: u8 = 2;

/// The exit status of a run that wanted memory.
const NO_MEMORY: u8 = 125;

/// A code as the status of a failure: the code itself, and 1 where it is none of 1 to 255.
fn status_of_code(code: i32) -> u8
    ensures { result ≡ status_for code }
{
    if 0 < code && code < 256 {
        code as u8
    } else {
        1
    }
}

/// The exit status of a run: 0 where it went well, else its failure's code. A failure never has the status 0.
pub fn exit_status(answer: &Result<Report, Failure>) -> u8
    ensures { result ≡ status_of answer.now }
{
    match answer {
        Ok(_) => 0,
        Err(failure) => status_of_code(failure.code),
    }
}

/// The texts of some strings.
fn texts_of(alloc: Global, strings: &[String]) -> Result<Vec<&str>, AllocError>
    ensures { IfOk result (λ texts. map (λ t. t.now) texts.items ≡ map string_bytes strings.now) }
{
    let mut texts = Vec::new(alloc);
    for string in strings {
        texts.push(string.as_str())?;
    }
    Ok(texts)
}

/// The words behind the first argument, which is the program's own name.
fn words_behind(alloc: Global, arguments: &[String]) -> Result<Vec<&str>, AllocError>
    ensures { IfOk result (λ words. map (λ w. w.now) words.items ≡ map string_bytes (drop 1 arguments.now)) }
{
    match arguments {
        [] => Ok(Vec::new(alloc)),
        [_, words @ ..] => texts_of(alloc, words),
    }
}

/// Runs what the arguments behind the first ask for, and answers the exit status, and the host of the run, if there is one.
pub fn run_arguments<R>(rt: &R, alloc: Global, arguments: &[String]) -> (u8, Option<RealHost<R>>)
where
    R: Runtime
        + Files<File = File>
        + Processes<Started = SystemProcess>
        + Threads
        + Wait
        + Send
        + Sync,
    R::Dir: Send,
    R::Reader: Send,
    R::A: Send,
    ensures { IsStatus (map string_bytes (drop 1 arguments.now)) (option_map (λ host. record_of host) result.1) result.0 }
{
    let Ok(words) = words_behind(alloc, arguments) else {
        return (NO_MEMORY, None);
    };
    match run(rt, alloc, words.as_slice()) {
        Ok(Ended { host, result }) => {
            let status = exit_status(&result);
            // The process ends behind it, by which the system takes all memory back at once.
            forget(result);
            (status, Some(host))
        }
        Err(_) => (NO_MEMORY, None),
    }
}

/// The exit status where the arguments couldn't be had: memory was wanting, or one isn't UTF-8, which is told on standard
/// error.
/// No clause: no contract speaks of what is printed.
pub fn no_arguments(rt: &impl Eprint, error: &io::Error) -> u8 {
    if error.kind() == ErrorKind::OutOfMemory {
        return NO_MEMORY;
    }
    let _ = eprintln!(rt; "error: usage: NotUtf8");
    FAULTY_WORDS
}
