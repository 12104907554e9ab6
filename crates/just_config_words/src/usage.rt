//! Why the words of the command line are refused.

use just_path_text::Text;

/// Why the words of the command line are refused.
#[derive(Clone, Copy)]
pub enum UsageKind {
    /// There is no such option.
    Unknown,
    /// An option of `just` that isn't read here.
    LeftOut,
    /// An option has too few values.
    MissingValue,
    /// A flag has `=`.
    UnexpectedValue,
    /// A value isn't in the form that is asked for.
    BadValue,
    /// An option that may stand once stands twice.
    Repeated,
    /// Two options don't go together.
    Conflict,
    /// An option stands without one that it needs.
    Requires,
    /// Want of memory; the word is empty.
    NoMemory,
}

/// A faulty command line: what is wrong, and the word at which it is, or the name of the variable.
#[derive(Drop)]
pub struct Usage {
    pub kind: UsageKind,
    pub word: Text,
}
