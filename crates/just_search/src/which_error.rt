//! Why a program can't be looked for.

ghost use Rattle.std.specs.Prelude.{◌≡◌};
ghost use Rattle.just_search.specs.declared.which_error.WhichError.TheVariants.{NoMemory as OutOfMemory};

use just_path::PathFault;
use just_path_text::NoMemory;

/// Why a program can't be looked for.
#[derive(Clone, Copy, Debug, PartialEq, Eq)]
pub enum WhichError {
    /// The name has no component.
    Empty,
    /// The name has one component, and there is no `PATH`.
    NoPath,
    /// A host's answer where a path is looked at. No such fault is want of memory or a miss.
    Fault(PathFault),
    NoMemory,
}

impl From<NoMemory> for WhichError {
    ghost from_gives = { λ _ e. e ≡ OutOfMemory };

    fn from(_refused: NoMemory) -> WhichError {
        WhichError::NoMemory
    }
}
