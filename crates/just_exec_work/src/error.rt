//! Why a body can't be run.

ghost use Rattle.std.specs.Prelude.{◌≡◌};
ghost use Rattle.just_exec_work.specs.declared.error.CommandError.TheVariants.{NoMemory as OutOfMemory};

use just_path_text::{NoMemory, Text};
use std::alloc::{AllocError, AllocFailed};

/// Why a body can't be run.
#[derive(Drop)]
pub enum CommandError {
    /// The first line begins with `#!` and names no interpreter.
    InvalidShebang {
        recipe: Text,
        /// The line.
        shebang: Text,
    },
    NoMemory,
}

impl From<NoMemory> for CommandError {
    ghost from_gives = { λ _ e. e ≡ OutOfMemory };

    fn from(_error: NoMemory) -> CommandError {
        CommandError::NoMemory
    }
}

impl From<AllocError> for CommandError {
    ghost from_gives = { λ _ e. e ≡ OutOfMemory };

    fn from(_error: AllocError) -> CommandError {
        CommandError::NoMemory
    }
}

impl<T: Drop> From<AllocFailed<T>> for CommandError {
    ghost from_gives = { λ _ e. e ≡ OutOfMemory };

    fn from(_error: AllocFailed<T>) -> CommandError {
        CommandError::NoMemory
    }
}
