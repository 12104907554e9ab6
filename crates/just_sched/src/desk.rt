//! What lies under the lock of a run: its book, each open body of which runs a child whenever the lock is free.

ghost use Rattle.std.specs.Prelude.{◌≡◌, ◌+◌, ◌<◌, ◌≤◌, ℕ, [], true, false, MatchOption};
ghost use Rattle.std.specs.List.{list_any};
ghost use Rattle.just_sched_history.specs.Idle.{IsIdle};
ghost use Rattle.just_sched_history.specs.Legal.{open_bodies};
ghost use Rattle.just_sched_book.specs.MoveAnswers.{MatchNext};
ghost use Rattle.just_sched_history.specs.Running.{EachOpenRuns};
ghost use Rattle.just_sched_history.specs.Start.{run_of};
ghost use Rattle.just_sched_history.specs.State.{is_open};

use just_host_record::Host;
use just_sched_book::{Book, Naming, Next, OpenBody, Seat, WaitedBody};

/// A book each open body of which runs a child. The book's own facts hold with it: the history is legal, it matches what
/// the host's record gained, each node that was answered by a no is done, no more bodies are open than there are jobs, and the told world is as it was where nothing was
/// started and no call failed.
pub struct Desk<H: Host + Drop, P: Naming> {
    pub book: Book<H, P>,
    ghost each_runs: { EachOpenRuns book.history.items },
}

impl<H: Host + Drop, P: Naming> Desk<H, P> {
    /// The desk of a book that was just opened.
    pub fn new(book: Book<H, P>) -> Desk<H, P>
        requires { book.history.items ≡ [] }
        ensures { result.book ≡ book }
    {
        Desk { book }
    }

    /// Makes one move, if there is one.
    pub fn next(&mut self, seat: &mut Seat<P>) -> Next<H>
        ensures parts { seat.new.share.parts ≡ seat.old.share.parts }
        ensures units { MatchNext result (seat.new.share.amount ≡ seat.old.share.amount) (λ node child. seat.new.share.amount ≡ seat.old.share.amount + 1) (λ i. seat.new.share.amount ≡ seat.old.share.amount) }
        ensures idle { MatchNext result (Unit {0}) (λ node child. Unit {0}) (λ i. IsIdle (run_of P.start) self.new.book.history.items i) }
    {
        self.book.next(seat)
    }

    /// Notes how a body's child ended, and goes on with that body; the body where a further child of it was started.
    pub fn turn(&mut self, seat: &mut Seat<P>, body: WaitedBody<H>) -> Option<OpenBody<H>>
        requires unit { 0 < seat.old.share.amount }
        ensures parts { seat.new.share.parts ≡ seat.old.share.parts }
        ensures units { MatchOption result (seat.new.share.amount + 1 ≡ seat.old.share.amount) (λ b. seat.new.share.amount ≡ seat.old.share.amount) }
    {
        let held = self.book.note_end(seat, body);
        match self.book.go_on(seat, held) {
            Next::Body(next) => Some(next),
            Next::Moved => None,
            Next::Idle(_) => unreachable!(),
        }
    }

    /// How many bodies are open: no more than there are jobs, and each runs a child.
    pub fn open_bodies(&self) -> usize
        ensures count { result ≡ open_bodies (run_of P.start) self.now.book.history.items }
        ensures few { MatchOption P.start.jobs (Unit {0}) (λ j. result ≤ j) }
        ensures each { EachOpenRuns self.now.book.history.items }
    {
        self.book.open_bodies()
    }

    /// Whether no body is open.
    pub fn is_quiet(&self) -> bool
        ensures quiet { result ≡ true → open_bodies (run_of P.start) self.now.book.history.items ≡ 0 }
        ensures busy { result ≡ false → 0 < open_bodies (run_of P.start) self.now.book.history.items }
    {
        self.open_bodies() == 0
    }

    /// Shows that no body is open, to a seat that has every part and no unit. It changes nothing.
    pub fn audit(&mut self, seat: &mut Seat<P>)
        requires parts { seat.old.share.parts ≡ P.parts }
        requires units { seat.old.share.amount ≡ 0 }
        ensures same { (self.new.book.plan ≡ self.old.book.plan) × (self.new.book.history ≡ self.old.book.history) × (self.new.book.host ≡ self.old.book.host) }
        ensures closed { (n : ℕ) → is_open self.new.book.history.items n ≡ false }
    {
        self.book.audit(seat);
    }

    pub fn into_book(self) -> Book<H, P>
        ensures { result ≡ self.book }
    {
        let Desk { book } = self;
        book
    }
}
