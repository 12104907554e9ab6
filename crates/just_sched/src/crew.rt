//! The workers of a run: how many there are, their seats, and their work side by side.

ghost use Rattle.std.specs.Prelude.{◌≡◌, ◌+◌, ◌<◌, ◌≤◌, ℕ, [], All, length, vec_len, vec_capacity};

use super::shared::Shared;
use super::worker::work;
use just_host_record::Host;
use just_sched_book::{Naming, Seat};
use just_sched_history::Plan;
use std::num::NonZeroU64;
use std::sync::Wait;
use std::thread;
use std::thread::Threads;

/// How many workers a run has: one where no node's priors may run side by side, else as many as nodes and jobs, up to 64.
pub(crate) fn worker_count(plan: &Plan, jobs: Option<NonZeroU64>) -> usize
    ensures some { 0 < result }
    ensures few { result ≤ 64 }
{
    if !plan.nodes.as_slice().iter().any(|node| node.parallel) {
        return 1;
    }
    let most = plan.nodes.len().clamp(1, 64);
    match jobs {
        Some(jobs) if jobs.get() < most as u64 => jobs.get() as usize,
        _ => most,
    }
}

/// Splits a seat for each worker from the owner's.
pub(crate) fn hand_out<P: Naming>(owner: &mut Seat<P>, seats: &mut Vec<Seat<P>>, count: usize)
    requires enough { count < owner.old.share.parts }
    requires none { seats.old.items ≡ [] }
    requires room { count ≤ vec_capacity seats.old }
    ensures parts { owner.new.share.parts + count ≡ owner.old.share.parts }
    ensures units { owner.new.share.amount ≡ owner.old.share.amount }
    ensures seats { All (λ s. (s.share.parts ≡ 1) × (s.share.amount ≡ 0)) seats.new.items }
    ensures count { vec_len seats.new ≡ count }
{
    'seats: while seats.len() < count {
        seats.push_reserved(owner.split());
    }
}

/// Takes the workers' seats back.
pub(crate) fn take_back<P: Naming>(owner: &mut Seat<P>, seats: Vec<Seat<P>>)
    requires { All (λ s. (s.share.parts ≡ 1) × (s.share.amount ≡ 0)) seats.items }
    ensures parts { owner.new.share.parts ≡ owner.old.share.parts + vec_len seats }
    ensures units { owner.new.share.amount ≡ owner.old.share.amount }
{
    let mut seats = seats;
    'seats: while let Some(seat) = seats.pop() {
        owner.join(seat);
    }
}

/// Lets a worker in each seat work, side by side where threads can be had.
pub(crate) fn work_all<H: Host + Send + Drop, P: Naming + Send + Sync, R: Threads + Wait + Sync>(
    rt: &R,
    shared: &Shared<H, P>,
    seats: &mut [Seat<P>],
)
    requires some { 0 < length seats.old }
    requires seats { All (λ s. (s.share.parts ≡ 1) × (s.share.amount ≡ 0)) seats.old }
    ensures seats { All (λ s. (s.share.parts ≡ 1) × (s.share.amount ≡ 0)) seats.new }
    ensures count { length seats.new ≡ length seats.old }
{
    let count = seats.len();
    thread::for_each_mut(
        rt,
        seats,
        count,
        &|_at: usize, seat: &mut Seat<P>|
            requires { (seat.now.share.parts ≡ 1) × (seat.now.share.amount ≡ 0) }
            ensures { (seat.exit.now.share.parts ≡ 1) × (seat.exit.now.share.amount ≡ 0) }
        { work(rt, shared, seat) },
    );
}
