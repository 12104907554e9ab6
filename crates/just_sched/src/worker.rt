//! The loop of one worker of a run that several share.

ghost use Rattle.std.specs.Prelude.{◌≡◌};

use super::shared::Shared;
use just_host_record::Host;
use just_sched_book::{Naming, Next, OpenBody, Seat};
use std::sync::Wait;

/// Waits for a body's child, without the lock, and goes on with the body, until its job is given back.
fn follow<H: Host + Drop, P: Naming, R: Wait>(
    rt: &R,
    shared: &Shared<H, P>,
    seat: &mut Seat<P>,
    first: OpenBody<H>,
)
    requires { seat.old.share.amount ≡ 1 }
    ensures parts { seat.new.share.parts ≡ seat.old.share.parts }
    ensures units { seat.new.share.amount ≡ 0 }
{
    let mut body = first;
    'turns: for _ in rt.forever() {
        let waited = body.wait();
        match shared.turn(rt, seat, waited) {
            Some(next) => body = next,
            None => return,
        }
    }
    unreachable!()
}

/// Makes moves and follows the bodies that they open, until there is no move and no body is open. It waits for children
/// without the lock. A move that opened a body may leave another, so it wakes one worker; one that ended a body or asked a node may give
/// further ones, the first of which this worker makes itself.
pub fn work<H: Host + Drop, P: Naming>(rt: &impl Wait, shared: &Shared<H, P>, seat: &mut Seat<P>)
    requires { seat.old.share.amount ≡ 0 }
    ensures parts { seat.new.share.parts ≡ seat.old.share.parts }
    ensures units { seat.new.share.amount ≡ 0 }
{
    'moves: for _ in rt.forever() {
        match shared.move_once(rt, seat) {
            Next::Moved => {}
            Next::Body(body) => {
                shared.wake_one();
                follow(rt, shared, seat, body);
            }
            Next::Idle(_) => {
                shared.wake_all();
                return;
            }
        }
    }
    unreachable!()
}
