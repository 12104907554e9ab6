//! Why there is no plan of a closure.

ghost use Rattle.std.specs.Prelude.{◌≡◌};
ghost use Rattle.just_exec_work.specs.declared.error.CommandError.TheVariants as command;
ghost use Rattle.just_exec.specs.declared.plan_error.PlanError.TheVariants as error;

use just_exec_work::CommandError;
use just_lang_types::project::LangError;
use just_path_text::NoMemory;
use std::alloc::{AllocError, AllocFailed};

/// Why there is no plan of a closure. Memory may be wanting in either way.
#[derive(Drop)]
pub enum PlanError {
    /// The lines of a body have no values.
    Lang(LangError),
    /// A body can't be run.
    Command(CommandError),
}

impl From<LangError> for PlanError {
    ghost from_gives = { λ e p. p ≡ error.Lang e };

    fn from(error: LangError) -> PlanError {
        PlanError::Lang(error)
    }
}

impl From<CommandError> for PlanError {
    ghost from_gives = { λ e p. p ≡ error.Command e };

    fn from(error: CommandError) -> PlanError {
        PlanError::Command(error)
    }
}

impl From<NoMemory> for PlanError {
    ghost from_gives = { λ _ p. p ≡ error.Command command.NoMemory };

    fn from(_error: NoMemory) -> PlanError {
        PlanError::Command(CommandError::NoMemory)
    }
}

impl From<AllocError> for PlanError {
    ghost from_gives = { λ _ p. p ≡ error.Command command.NoMemory };

    fn from(_error: AllocError) -> PlanError {
        PlanError::Command(CommandError::NoMemory)
    }
}

impl<T: Drop> From<AllocFailed<T>> for PlanError {
    ghost from_gives = { λ _ p. p ≡ error.Command command.NoMemory };

    fn from(_error: AllocFailed<T>) -> PlanError {
        PlanError::Command(CommandError::NoMemory)
    }
}
