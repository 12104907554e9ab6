//! Why a row isn't compared.

use just_path_text::NoMemory;
use std::alloc::{AllocError, AllocFailed};

/// Why a row wasn't compared.
#[derive(Clone, Copy)]
pub enum Wrong {
    /// It isn't of the form of its kind.
    Form,
    NoMemory,
}

impl From<AllocError> for Wrong {
    fn from(_refused: AllocError) -> Wrong {
        Wrong::NoMemory
    }
}

impl<T: Drop> From<AllocFailed<T>> for Wrong {
    fn from(_refused: AllocFailed<T>) -> Wrong {
        Wrong::NoMemory
    }
}

impl From<NoMemory> for Wrong {
    fn from(_refused: NoMemory) -> Wrong {
        Wrong::NoMemory
    }
}
