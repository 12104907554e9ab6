//! One justfile, read many times, and its tree, printed many times: what bench/parse times.

use super::{number, out_of_memory};
use just_lang_syntax::parse;
use just_print::print;
use std::alloc::Global;
use std::{fs, io};

/// The items of trees, and the bytes of their prints.
#[derive(Clone, Copy)]
struct Counts {
    items: u64,
    printed: u64,
}

/// Reads a text, prints its tree so often, and adds what that made. No clause: no theorem stands on what is measured.
fn add(alloc: Global, counts: Counts, text: &str, prints: u64) -> io::Result<Counts> {
    let Ok(ast) = parse(alloc, text) else {
        return Err(io::Error::from(io::ErrorKind::InvalidData));
    };
    let mut printed = counts.printed;
    for _ in 0..prints {
        let Ok(out) = print(alloc, &ast, "    ") else {
            return Err(out_of_memory());
        };
        printed = printed.saturating_add(out.len() as u64);
    }
    Ok(Counts {
        items: counts.items.saturating_add(ast.items.len() as u64),
        printed,
    })
}

/// Reads a text so often, and prints each tree so often.
fn counted(alloc: Global, text: &str, reads: u64, prints: u64) -> io::Result<Counts> {
    let mut counts = Counts {
        items: 0,
        printed: 0,
    };
    for _ in 0..reads {
        counts = add(alloc, counts, text, prints)?;
    }
    Ok(counts)
}

/// Reads a file so often, prints each tree so often, and prints the bytes of the file, the items of all trees and the bytes of all prints together.
pub(crate) fn make(rt: &HostRuntime, words: (&str, &str, &str)) -> io::Result<()> {
    let (path, reads, prints) = words;
    let reads = number(reads)?;
    let prints = number(prints)?;
    let text = fs::read_to_string(rt, path)?;
    let counts = counted(rt.alloc(), text.as_str(), reads, prints)?;
    let length = text.len();
    let Counts { items, printed } = counts;
    println!(rt; "{length} bytes, {items} items, {printed} bytes printed")
}
