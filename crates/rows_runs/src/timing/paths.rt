//! One call of `just_path` over texts again and again: what bench/paths times. The texts stand in a file with U+001F between them.

use super::{bad_words, number, out_of_memory};
use just_path::Utf8Path;
use just_path_text::NoMemory;
use std::alloc::Global;
use std::cmp::Ordering;
use std::{fs, io};

/// A call that is timed.
#[derive(Clone, Copy)]
enum Call {
    Components,
    Join,
    Parent,
    Clean,
    Cmp,
}

/// The call with that name.
fn call_of(name: &str) -> Option<Call> {
    match name {
        "components" => Some(Call::Components),
        "join" => Some(Call::Join),
        "parent" => Some(Call::Parent),
        "clean" => Some(Call::Clean),
        "cmp" => Some(Call::Cmp),
        _ => None,
    }
}

/// The bytes of a path's components.
fn components_size(path: Utf8Path<'_>) -> usize {
    let mut size: usize = 0;
    for component in path.components() {
        size = size.wrapping_add(component.as_str().len());
    }
    size
}

/// The size of the call's answer: the bytes of its texts, or the order's number.
fn size(
    alloc: Global,
    call: Call,
    path: Utf8Path<'_>,
    other: Utf8Path<'_>,
) -> Result<usize, NoMemory> {
    match call {
        Call::Components => Ok(components_size(path)),
        Call::Join => Ok(path.join(alloc, other)?.as_str().len()),
        Call::Parent => match path.parent() {
            Some(parent) => Ok(parent.as_str().len()),
            None => Ok(0),
        },
        Call::Clean => Ok(path.clean(alloc)?.as_str().len()),
        Call::Cmp => Ok(match path.cmp(&other) {
            Ordering::Less => 0,
            Ordering::Equal => 1,
            Ordering::Greater => 2,
        }),
    }
}

/// The sum of the sizes of one call for each text but the first, with the text before it.
fn round(alloc: Global, call: Call, texts: &[&str]) -> Result<usize, NoMemory> {
    let mut sum: usize = 0;
    for pair in texts.windows(2) {
        if let [other, text] = pair {
            let (path, other) = (Utf8Path::new(*text), Utf8Path::new(*other));
            sum = sum.wrapping_add(size(alloc, call, path, other)?);
        }
    }
    Ok(sum)
}

/// The sum of that many rounds.
fn sum(alloc: Global, call: Call, rounds: u64, texts: &[&str]) -> Result<usize, NoMemory> {
    let mut sum: usize = 0;
    for _ in 0..rounds {
        sum = sum.wrapping_add(round(alloc, call, texts)?);
    }
    Ok(sum)
}

/// The sum of that many rounds over the texts that stand in a file.
fn sum_of_file(alloc: Global, call: Call, rounds: u64, file: &str) -> io::Result<usize> {
    let texts: Vec<&str> = file.split('\u{1F}').collect(alloc)?;
    match sum(alloc, call, rounds, texts.as_slice()) {
        Ok(sum) => Ok(sum),
        Err(NoMemory) => Err(out_of_memory()),
    }
}

/// Makes a call so many rounds over the texts of a file, and prints the sum of its answers' sizes.
pub(crate) fn make(rt: &HostRuntime, words: (&str, &str, &str)) -> io::Result<()> {
    let (call, rounds, path) = words;
    let rounds = number(rounds)?;
    let Some(call) = call_of(call) else {
        return Err(bad_words());
    };
    let file = fs::read_to_string(rt, path)?;
    let sum = sum_of_file(rt.alloc(), call, rounds, file.as_str())?;
    println!(rt; "{sum}")
}
