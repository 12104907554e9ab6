//! What an expansion may be refused for.
ghost use Rattle.std.specs.Prelude.{◌≡◌, Some, codes};

use just_path_text::NoMemory;
use std::alloc::AllocError;
use std::error::Error;
use std::fmt;

/// The type of owned texts, as of the name in a [`LookupError`].
pub type OString = String;

/// A name that the context answered with an error. It prints as `error looking key 'N' up: ` and the error's own text.
#[derive(Debug, PartialEq, Eq, Drop)]
pub struct LookupError<E> {
    /// The name as it stands in the text.
    pub var_name: OString,
    /// The context's error.
    pub cause: E,
}

impl<E: fmt::Display> fmt::Display for LookupError<E> {
    ghost use Rattle.just_expand.specs.Errors.{lookup_text};

    ghost output = { lookup_text E.output };

    fn fmt<W: fmt::Write>(&self, f: &mut fmt::Formatter<W>) -> fmt::Result {
        write!(
            f,
            "error looking key '{}' up: {}",
            self.var_name, self.cause
        )
    }
}

impl<E: Error> Error for LookupError<E> {}

/// Why a text has no expansion. It prints as its [`LookupError`], or as `out of memory`.
#[derive(Debug, PartialEq, Eq, Drop)]
pub enum Expand<E> {
    /// The context's error at a name without a default: the first in the text.
    Lookup(LookupError<E>),
    /// Memory was wanting, which says nothing of the text.
    NoMemory,
}

impl<E> From<AllocError> for Expand<E> {
    ghost use Rattle.just_expand.specs.declared.error.Expand.TheVariants as expand;

    ghost from_gives = { λ _ e. e ≡ expand.NoMemory };

    fn from(_refused: AllocError) -> Expand<E> {
        Expand::NoMemory
    }
}

impl<E> From<NoMemory> for Expand<E> {
    ghost use Rattle.just_expand.specs.declared.error.Expand.TheVariants as expand;

    ghost from_gives = { λ _ e. e ≡ expand.NoMemory };

    fn from(_refused: NoMemory) -> Expand<E> {
        Expand::NoMemory
    }
}

impl<E: fmt::Display> fmt::Display for Expand<E> {
    ghost use Rattle.just_expand.specs.Errors.{expand_text};

    ghost output = { expand_text E.output };

    fn fmt<W: fmt::Write>(&self, f: &mut fmt::Formatter<W>) -> fmt::Result {
        match self {
            Expand::Lookup(error) => write!(f, "{error}"),
            Expand::NoMemory => f.write_str("out of memory"),
        }
    }
}

impl<E: Error> Error for Expand<E> {}

/// The error of a name that the environment doesn't have. It prints as `environment variable not found`.
#[derive(Clone, Copy, Debug, PartialEq, Eq)]
pub struct NotPresent;

impl fmt::Display for NotPresent {
    ghost output = { λ _. Some (codes "environment variable not found") };

    fn fmt<W: fmt::Write>(&self, f: &mut fmt::Formatter<W>) -> fmt::Result {
        f.write_str("environment variable not found")
    }
}

impl Error for NotPresent {}
