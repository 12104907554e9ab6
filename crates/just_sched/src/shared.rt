//! A run that several workers share: its desk under a lock, and where those wait who have nothing to do.

ghost use Rattle.std.specs.Prelude.{◌≡◌, ◌+◌, ℕ, MatchOption};
ghost use Rattle.just_sched_book.specs.MoveAnswers.{MatchNext};

use super::Desk;
use just_host_record::Host;
use just_sched_book::{Naming, Next, OpenBody, Seat, WaitedBody};
use std::sync::{Condvar, Mutex, Wait};

/// A run under one lock. Whenever the lock is free, the history is legal and matches what the host's record gained, no
/// more bodies are open than there are jobs, each open body runs a child, each node that was answered by a no is done, and
/// the told world is as it was where nothing was started and no call failed.
pub struct Shared<H: Host + Drop, P: Naming> {
    desk: Mutex<Desk<H, P>>,
    moved: Condvar,
}

impl<H: Host + Drop, P: Naming> Shared<H, P> {
    /// The run of this desk, shared from now on. No clause: what a lock holds is said by the type of what it guards.
    pub fn new(desk: Desk<H, P>) -> Shared<H, P> {
        Shared {
            desk: Mutex::new(desk),
            moved: Condvar::new(),
        }
    }

    /// The desk, once no worker shares the run any more. No clause: what is known of a desk that comes from under a lock is
    /// what its type keeps.
    pub fn into_desk(self) -> Desk<H, P> {
        let Shared { desk, moved: _ } = self;
        desk.into_inner()
    }

    /// Makes one move in one hold of the lock. Where there is none but a body is open, it waits until some other worker
    /// has made a move that may give work. So it answers that it is idle only where no body is open.
    pub(crate) fn move_once<R: Wait>(&self, rt: &R, seat: &mut Seat<P>) -> Next<H>
        ensures parts { seat.new.share.parts ≡ seat.old.share.parts }
        ensures units { MatchNext result (seat.new.share.amount ≡ seat.old.share.amount) (λ node child. seat.new.share.amount ≡ seat.old.share.amount + 1) (λ i. seat.new.share.amount ≡ seat.old.share.amount) }
    {
        let mut desk = self.desk.lock(rt);
        match desk.next(seat) {
            Next::Body(body) => Next::Body(body),
            Next::Moved => Next::Moved,
            Next::Idle(idle) => {
                if desk.is_quiet() {
                    return Next::Idle(idle);
                }
                drop(self.moved.wait(rt, desk));
                Next::Moved
            }
        }
    }

    /// Notes the end of a body's child and goes on with that body, in one hold of the lock.
    pub(crate) fn turn<R: Wait>(
        &self,
        rt: &R,
        seat: &mut Seat<P>,
        body: WaitedBody<H>,
    ) -> Option<OpenBody<H>>
        requires unit { seat.old.share.amount ≡ 1 }
        ensures parts { seat.new.share.parts ≡ seat.old.share.parts }
        ensures units { MatchOption result (seat.new.share.amount ≡ 0) (λ b. seat.new.share.amount ≡ 1) }
    {
        self.desk.lock(rt).turn(seat, body)
    }

    /// Wakes one worker that waits.
    pub(crate) fn wake_one(&self) {
        self.moved.notify_one();
    }

    /// Wakes all workers that wait.
    pub(crate) fn wake_all(&self) {
        self.moved.notify_all();
    }
}
