//! Seats at a run: shares of the ledger of its running bodies.

ghost use Rattle.std.specs.Prelude.{◌≡◌, ◌+◌, ◌<◌, ℕ};

use super::Naming;
use std::sync::ledger::Share;

/// A seat at a run: some parts of the ledger of its running bodies, at least one, and a number of units. A seat gains a
/// unit by each child that a book starts for its holder, and gives one for each end that its holder notes; so the units of
/// all seats are together the number of running bodies. It takes no bytes.
#[derive(Drop)]
pub struct Seat<P: Naming> {
    pub(crate) share: Share<P>,
    ghost some_part: { 0 < share.parts },
}

impl<P: Naming> Seat<P> {
    pub(crate) fn new(share: Share<P>) -> Seat<P>
        requires { 0 < share.parts }
        ensures parts { result.share.parts ≡ share.parts }
        ensures units { result.share.amount ≡ share.amount }
    {
        Seat { share }
    }

    /// Gives away a seat of one part and no unit.
    pub fn split(&mut self) -> Seat<P>
        requires { 1 < self.old.share.parts }
        ensures parts { self.new.share.parts + 1 ≡ self.old.share.parts }
        ensures units { self.new.share.amount ≡ self.old.share.amount }
        ensures given { (result.share.parts ≡ 1) × (result.share.amount ≡ 0) }
    {
        Seat {
            share: self.share.split_off(1, 0),
        }
    }

    /// Takes the parts and the units of another seat.
    pub fn join(&mut self, other: Seat<P>)
        ensures parts { self.new.share.parts ≡ self.old.share.parts + other.share.parts }
        ensures units { self.new.share.amount ≡ self.old.share.amount + other.share.amount }
    {
        let Seat { share } = other;
        self.share.merge(share);
    }
}
