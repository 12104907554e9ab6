//! The tables of a book: what is noted of each node, in room that is taken once.

ghost use Rattle.std.specs.Prelude.{◌≡◌, vec_len};

use super::progress::Progress;
use super::row::Row;
use crate::NumberSet;

/// What is noted of each node of a plan.
pub struct Tables {
    pub rows: Vec<Row>,
    pub progress: Progress,
    /// The nodes that may be ready or to be asked.
    pub due: NumberSet,
    /// The nodes that have a prompt.
    pub prompted: NumberSet,
    /// The number of each node's class.
    pub classes: Vec<usize>,
    /// For each class whether a body of it is open.
    pub opened: Vec<bool>,
    /// Each node before this one took a job or is done.
    pub left: usize,
    pub size: usize,
    pub ghost rows_sized: { vec_len rows ≡ size },
    pub ghost progress_sized: { progress.size ≡ size },
    pub ghost due_sized: { due.size ≡ size },
    pub ghost prompted_sized: { prompted.size ≡ size },
    pub ghost classes_sized: { vec_len classes ≡ size },
    pub ghost opened_sized: { vec_len opened ≡ size },
}

impl Drop for Tables {
    fn drop(self) {
        let Tables {
            rows: _,
            progress: _,
            due: _,
            prompted: _,
            classes: _,
            opened: _,
            left: _,
            size: _,
        } = self;
    }
}
