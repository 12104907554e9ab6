//! The jobs under the lock of a semaphore, and the token of one that is out.

ghost use Rattle.std.specs.Prelude.{◌≡◌, ◌+◌, ◌<◌, MatchOption};
ghost use Rattle.std.specs.Int.NonZero.{non_zero_u64_get};

use std::num::NonZeroU64;

/// How many jobs were made, are free, and are out.
#[derive(Drop)]
pub(crate) struct Jobs {
    made: u64,
    free: u64,
    out: u64,
    ghost whole: { out + free ≡ made },
}

/// One job that is out. Only `Jobs::take` makes one, and only `Jobs::give` takes one apart: it can neither be copied nor be
/// let go. So who holds one has taken a job that wasn't given back yet.
pub(crate) struct Job {
    /// How many jobs were out as it was taken, itself among them.
    number: u64,
}

impl Jobs {
    /// So many jobs, all of them free.
    pub(crate) fn new(resource: NonZeroU64) -> Jobs
        ensures made { result.made ≡ non_zero_u64_get resource }
        ensures out { result.out ≡ 0 }
    {
        let made = resource.get();
        Jobs {
            made,
            free: made,
            out: 0,
        }
    }

    /// Takes a job, if one is free.
    pub(crate) fn take(&mut self) -> Option<Job>
        ensures made { self.new.made ≡ self.old.made }
        ensures taken { MatchOption result
            ((self.new.out ≡ self.old.out) × (self.old.free ≡ 0))
            (λ j. self.new.out ≡ self.old.out + 1) }
    {
        if self.free == 0 {
            return None;
        }
        let Jobs { made: _, free, out } = self;
        *free -= 1;
        *out += 1;
        Some(Job { number: *out })
    }

    /// Gives a job back. Only who has one calls it, so one is out.
    pub(crate) fn give(&mut self, job: Job)
        ensures made { self.new.made ≡ self.old.made }
        ensures given { 0 < self.old.out → self.new.out + 1 ≡ self.old.out }
    {
        let Job { number: _ } = job;
        if self.out > 0 {
            let Jobs { made: _, free, out } = self;
            *out -= 1;
            *free += 1;
        }
    }
}
