//! The program `just`: runs what the words of the command line ask for, over the files and processes of the system.
#![tactic(auto)]

use just_cli::{no_arguments, run_arguments};
use std::alloc::{AllocError, Global};
use std::mem::forget;
use std::process::ExitCode;
use std::{env, io};

/// The arguments, the first of which is the program's name.
fn arguments(rt: &HostRuntime) -> io::Result<Vec<String>> {
    Ok(env::args(rt)?.collect(rt.alloc())?)
}

/// The size up to which the C library keeps blocks that are given back.
const KEPT: usize = 1 << 20;

/// Gives a block of that size back to the C library. It gives blocks from 128 kB on back to the system, and has to ask for
/// their pages anew, but only until one was given back: from then on it keeps those that are no larger.
fn keep_blocks(alloc: Global) {
    let block: Result<Vec<u8>, AllocError> = Vec::with_capacity(alloc, KEPT);
    match block {
        Ok(_) | Err(_) => {}
    }
}

fn main(rt: HostRuntime) -> ExitCode {
    keep_blocks(rt.alloc());
    ExitCode::from(match arguments(&rt) {
        Ok(all) => {
            let (status, host) = run_arguments(&rt, rt.alloc(), all.as_slice());
            // The process ends behind it, by which the system takes all memory back at once.
            forget(host);
            status
        }
        Err(error) => no_arguments(&rt, &error),
    })
}
