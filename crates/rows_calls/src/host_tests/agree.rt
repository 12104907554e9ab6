//! What a test shows, beside what is wanted.

use std::alloc::AllocError;
use std::process::Abort;
use std::test::Fail;

/// That the text that was shown is the wanted one; else the test ends there, as it fails for want of memory. No clause: it serves tests alone.
pub fn agree(rt: &impl Abort, shown: Result<String, AllocError>, wanted: &str) -> Result<(), Fail> {
    let shown = shown?;
    assert_eq!(rt; shown.as_str(), wanted);
    Ok(())
}
