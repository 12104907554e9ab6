//! A folder and those around it, listed by the host of the system as a search lists them: what bench/compare subtracts from a search's time.

use super::{bad_words, number, out_of_memory};
use just_host::RealHost;
use just_path::{PathHost, Utf8Path};
use std::io;

/// How many items stand in the current folder and in those around it, so many.
fn items_around(host: &mut RealHost<HostRuntime>, folders: u64) -> io::Result<usize> {
    let Ok(current) = host.current() else {
        return Err(bad_words());
    };
    let mut left = folders;
    let mut items: usize = 0;
    for folder in current.as_path().ancestors() {
        if left == 0 {
            break;
        }
        left -= 1;
        let Ok(listed) = host.names(folder) else {
            return Err(bad_words());
        };
        items = items.wrapping_add(listed.len());
    }
    Ok(items)
}

/// Lists the current folder and those around it, so many, and prints how many items stand in them.
pub(crate) fn make(rt: &HostRuntime, words: (&str, &str, &str)) -> io::Result<()> {
    let (folders, _, _) = words;
    let folders = number(folders)?;
    let Ok(mut host) = RealHost::new(rt, rt.alloc()) else {
        return Err(out_of_memory());
    };
    let items = items_around(&mut host, folders);
    drop(host);
    let items = items?;
    println!(rt; "{items} items")
}
