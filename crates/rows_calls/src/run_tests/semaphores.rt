//! Guards of a semaphore: a dropped one gives its job back.

use just_sched::{Guard, Semaphore};
use std::num::NonZeroU64;
use std::sync::Wait;
use std::test::Fail;

/// Takes a job and gives it back, so often.
fn take_often<R: Wait>(rt: &R, semaphore: &Semaphore, count: u32) {
    for _ in 0..count {
        let guard: Guard<'_, R> = semaphore.acquire(rt);
        drop(guard);
    }
}

/// A thousand guards of two jobs, one of which is out meanwhile: without a job back for each the third would wait for ever.
#[test]
fn guards_give_back(rt: HostRuntime) -> Result<(), Fail> {
    let semaphore = Semaphore::new(NonZeroU64::new(2).expect(&rt, "two"));
    let guard = semaphore.acquire(&rt);
    take_often(&rt, &semaphore, 1000);
    drop(guard);
    take_often(&rt, &semaphore, 1000);
    Ok(())
}
