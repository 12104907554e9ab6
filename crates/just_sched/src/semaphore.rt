//! Jobs to be had by one at a time: a guard is out for each job that was taken, and gives it back.

use super::jobs::{Job, Jobs};
use std::num::NonZeroU64;
use std::sync::{Condvar, Mutex, Wait};

/// A number of jobs. Whenever its lock is free, the jobs that are free and the guards that are out are together the number
/// that it was made with.
#[derive(Drop)]
pub struct Semaphore {
    jobs: Mutex<Jobs>,
    freed: Condvar,
}

/// A job that was taken, and that is given back as this is dropped. It holds the job's token, which only taking a job makes.
pub struct Guard<'a, R: Wait> {
    semaphore: &'a Semaphore,
    rt: &'a R,
    job: Job,
}

impl Semaphore {
    /// So many jobs, all of them free. No clause: what a lock holds is said by the type of what it guards.
    pub fn new(resource: NonZeroU64) -> Semaphore {
        Semaphore {
            jobs: Mutex::new(Jobs::new(resource)),
            freed: Condvar::new(),
        }
    }

    /// Takes a job, and waits for one where none is free. It takes no memory. No clause: that free jobs and guards are together
    /// the jobs that were made is kept by the type under the lock, and what one caller did there can't be said outside it.
    pub fn acquire<'a, R: Wait>(&'a self, rt: &'a R) -> Guard<'a, R> {
        let mut jobs = self.jobs.lock(rt);
        'tries: for _ in rt.forever() {
            if let Some(job) = jobs.take() {
                return Guard {
                    semaphore: self,
                    rt,
                    job,
                };
            }
            jobs = self.freed.wait(rt, jobs);
        }
        unreachable!()
    }

    /// Gives a job back, and wakes one who waits for it.
    fn release<R: Wait>(&self, rt: &R, job: Job) {
        self.jobs.lock(rt).give(job);
        self.freed.notify_one();
    }
}

impl<R: Wait> Drop for Guard<'_, R> {
    fn drop(self) {
        let Guard { semaphore, rt, job } = self;
        semaphore.release(rt, job);
    }
}
