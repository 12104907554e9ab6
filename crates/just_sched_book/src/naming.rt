//! The name of one run.

ghost use Rattle.just_sched_history.specs.Start.{Start};
ghost use Rattle.just_sched_book.specs.Nowhere.{nowhere};

use std::marker::Brand;
use std::sync::ledger::Ledger;

/// The name of one run: what it is of, as it was when its book was opened, and the ledger that counts its running bodies.
/// A book, its tokens, its seats and its owner carry one name, so what the book says is said of the owner's run. It has no
/// calls and no values.
pub trait Naming: Ledger {
    ghost start: { Start };
}

impl Naming for Brand {
    ghost start = { nowhere };
}
