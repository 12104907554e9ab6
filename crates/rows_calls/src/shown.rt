//! What an answer shows, as text, and the comparison of such a text with the wanted one.

use std::alloc::{AllocError, Global};
use std::fmt::Debug;
use std::process::Abort;

/// An answer as developers see it.
pub(crate) fn shown<T: Debug + Drop>(alloc: Global, answer: T) -> Result<String, AllocError> {
    format!(in alloc; "{answer:?}")
}

/// Fails the test where there is no text, or another one than the wanted.
pub(crate) fn says<E: Debug + Drop>(rt: &impl Abort, text: Result<String, E>, wanted: &str) {
    let text = text.expect(rt, "no text");
    assert_eq!(rt; text.as_str(), wanted);
}
