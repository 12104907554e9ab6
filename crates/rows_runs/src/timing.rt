//! Makes calls again and again, so that their time can be measured: what the scripts in bench/ time.
//!
//! Behind the word `timing` stand four words for each that is timed, `-` where it takes fewer: `paths CALL ROUNDS FILE`, `expand BYTES TIMES -`,
//! `parse FILE READS PRINTS`, `assemble SHAPE RECIPES TIMES`, `closure SHAPE RECIPES TIMES` and `listings FOLDERS - -`. Of each it prints a line that tells what was made.

mod expansions;
mod listings;
mod paths;
mod projects;
mod recipes;
mod trees;

use std::{env, io};

/// The error of words that ask for nothing.
fn bad_words() -> io::Error {
    io::Error::from(io::ErrorKind::InvalidInput)
}

/// The error that says that memory was wanting.
fn out_of_memory() -> io::Error {
    io::Error::from(io::ErrorKind::OutOfMemory)
}

/// The number that a word is.
fn number(word: &str) -> io::Result<u64> {
    match word.parse::<u64>() {
        Ok(number) => Ok(number),
        Err(_) => Err(bad_words()),
    }
}

/// Makes what a name and three words ask for, and prints what it was.
fn make(rt: &HostRuntime, words: &[String]) -> io::Result<()> {
    let [name, first, second, third] = words else {
        return Err(bad_words());
    };
    let words = (first.as_str(), second.as_str(), third.as_str());
    match name.as_str() {
        "paths" => paths::make(rt, words),
        "expand" => expansions::make(rt, words),
        "parse" => trees::make(rt, words),
        "assemble" => projects::make(rt, words),
        "listings" => listings::make(rt, words),
        "closure" => projects::make_closures(rt, words),
        _ => Err(bad_words()),
    }
}

/// The words behind the word `timing`; none, where it isn't among them.
fn timed(words: &[String]) -> &[String] {
    let mut count: usize = 0;
    for word in words {
        count = count.saturating_add(1);
        if word.as_str() == "timing" {
            break;
        }
    }
    match words.get(count..) {
        Some(timed) => timed,
        None => words,
    }
}

/// Makes what the arguments of the program behind the word `timing` ask for. It promises nothing beyond safety.
pub(crate) fn run(rt: &HostRuntime) -> io::Result<()> {
    let words: Vec<String> = env::args(rt)?.collect(rt.alloc())?;
    for four in timed(words.as_slice()).chunks(4) {
        make(rt, four)?;
    }
    Ok(())
}
