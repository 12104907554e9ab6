//! Rows of test vectors: files whose lines are rows of fields, and the comparison of a crate's answers with them.
//!
//! A file is UTF-8, and each of its lines is a row; one that begins with `#` is a comment. Fields are parted by tabs. A
//! text in a field begins with `=`, so `=` alone is the empty one, and `-` stands where there is none. `\t`, `\n`, `\\`
//! and `\xNN`, one byte in two upper-case hexadecimal digits, are escapes. Flags are `1` and `0`. A list is its items
//! with `|` between.
//!
//! The programs over these rows are tests: what the functions here answer is seen by comparing with answers from outside,
//! no theorem stands on it, and they promise nothing beyond safety.
#![tactic(auto)]

mod compare;
mod escape;
mod field;
mod listed;
mod wrong;

pub use compare::{Compare, compare_file, compare_files};
pub use escape::{unescaped, unescaped_text};
pub use field::{at, bytes, is_flag, says, text};
pub use listed::{environment, words};
pub use wrong::Wrong;
