//! Driving a run to its end.

ghost use Rattle.std.specs.Prelude.{◌≡◌, ◌+◌, ℕ, Bool, false, option_map, IfOk, IfErr};
ghost use Rattle.std.specs.Int.NonZero.{non_zero_u64_get};
ghost use Rattle.just_sched_history.specs.declared.event.Idle.{Idle};
ghost use Rattle.just_sched.specs.Driven.{IsDriven};
ghost use Rattle.just_sched_history.specs.Idle.{IsIdle};
ghost use Rattle.just_sched_history.specs.Start.{run_of, start_with};
ghost use Rattle.just_sched_history.specs.State.{is_open};

use super::crew::{hand_out, take_back, work_all, worker_count};
use super::{Desk, Shared};
use just_host_record::Host;
use just_sched_book::{Book, Driven, Named, Naming, Next, OpenBody, Seat};
use just_sched_history::Plan;
use std::alloc::Global;
use std::marker::Brand;
use std::num::NonZeroU64;
use std::sync::Wait;
use std::sync::ledger::Blank;
use std::thread::Threads;

/// Waits for a body's child and goes on with the body, again and again, until its job is given back.
fn finish<H: Host + Drop, P: Naming, R: Wait>(
    rt: &R,
    desk: &mut Desk<H, P>,
    seat: &mut Seat<P>,
    first: OpenBody<H>,
)
    requires { seat.old.share.amount ≡ 1 }
    ensures parts { seat.new.share.parts ≡ seat.old.share.parts }
    ensures units { seat.new.share.amount ≡ 0 }
{
    let mut body = first;
    'turns: for _ in rt.forever() {
        match desk.turn(seat, body.wait()) {
            Some(next) => body = next,
            None => return,
        }
    }
    unreachable!()
}

/// Makes moves, and finishes each body that one opens, until there is no move. So it ends with no open body.
fn run_all<H: Host + Drop, P: Naming, R: Wait>(rt: &R, desk: &mut Desk<H, P>, seat: &mut Seat<P>)
    requires parts { seat.old.share.parts ≡ P.parts }
    requires units { seat.old.share.amount ≡ 0 }
    ensures closed { (n : ℕ) → is_open desk.new.book.history.items n ≡ false }
    ensures idle { (i : Idle) × IsIdle (run_of P.start) desk.new.book.history.items i }
{
    'moves: for _ in rt.forever() {
        match desk.next(seat) {
            Next::Moved => {}
            Next::Body(body) => finish(rt, desk, seat, body),
            Next::Idle(_) => {
                desk.audit(seat);
                return;
            }
        }
    }
    unreachable!()
}

/// Drives a run under its name: by workers side by side, and then by the owner alone, until there is no move.
fn drive_named<H: Host + Send + Drop, P: Naming + Send + Sync, R: Threads + Wait + Sync>(
    rt: &R,
    alloc: Global,
    plan: Plan,
    blank: Blank,
    host: H,
    jobs: Option<NonZeroU64>,
) -> Result<Driven<H>, (H, Plan)>
    requires plan { plan ≡ P.start.plan }
    requires ledger { (blank.name ≡ P.name) × (blank.parts ≡ P.parts) }
    requires parts { P.parts ≡ 65 }
    requires jobs { option_map non_zero_u64_get jobs ≡ P.start.jobs }
    requires told { H.told host ≡ P.start.told }
    ensures driven { IfOk result (λ d. IsDriven P.start d.plan d.history d.verdict (H.told d.host)) }
    ensures back { IfErr result (λ r. ((H.told r.0).entries ≡ (H.told host).entries) × ((H.told r.0).world ≡ (H.told host).world) × (r.1 ≡ plan)) }
{
    let workers = worker_count(&plan, jobs);
    let mut seats = match Vec::with_capacity(alloc, workers) {
        Ok(seats) => seats,
        Err(_) => return Err((host, plan)),
    };
    let (book, owner) = match Book::<H, P>::open(alloc, Named::new(plan, blank), host, jobs) {
        Ok(opened) => opened,
        Err((host, named)) => return Err((host, named.into_plan())),
    };
    let mut owner = owner;
    let shared = Shared::new(Desk::new(book));
    hand_out(&mut owner, &mut seats, workers);
    work_all(rt, &shared, seats.as_mut_slice());
    take_back(&mut owner, seats);
    let mut desk = shared.into_desk();
    run_all(rt, &mut desk, &mut owner);
    Ok(desk.into_book().close())
}

/// Runs a plan to its end. Its Err is want of memory, before anything was run, and hands host and plan back.
pub fn drive<R: Threads + Wait + Sync, H: Host + Send + Drop>(
    rt: &R,
    alloc: Global,
    plan: Plan,
    host: H,
    jobs: Option<NonZeroU64>,
) -> Result<Driven<H>, (H, Plan)>
    ensures driven { IfOk result (λ d.
        IsDriven (start_with plan (option_map non_zero_u64_get jobs) (H.told host))
        d.plan d.history d.verdict (H.told d.host)) }
    ensures back { IfErr result (λ r. ((H.told r.0).entries ≡ (H.told host).entries) × ((H.told r.0).world ≡ (H.told host).world) × (r.1 ≡ plan)) }
{
    drive_named::<H, Brand, R>(rt, alloc, plan, Blank::new(65), host, jobs)
}
