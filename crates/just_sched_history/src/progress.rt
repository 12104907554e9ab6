//! What is kept of a run's progress, and how it goes on as a node is over well. Only the making takes memory.

ghost use Rattle.std.specs.Prelude.{◌≡◌, ◌+◌, ◌<◌, ◌≤◌, ◌⊎◌, ℕ, [], true, false, Some, None, IfSome, IfNone, length, slice_index, slice_set, Contains, vec_len, vec_capacity};
ghost use Rattle.just_sched_history.specs.declared.event.Event.{Event};

use super::Plan;
use super::descent::{descend, spread};
use super::spread::{lead, lead_all};

/// What is kept of a run's progress.
pub struct Progress {
    pub over: Vec<bool>,
    pub finished: Vec<bool>,
    /// Which nodes have no prompt, or one that was answered by a yes.
    pub confirmed: Vec<bool>,
    pub wanted: Vec<bool>,
    /// How many of a node's priors, in front of the others, are known to be finished.
    pub priors: Vec<usize>,
    /// The same of its subsequents.
    pub subsequents: Vec<usize>,
    /// The same of the invocations.
    pub invocations: usize,
    /// The nodes that have a node as a prior.
    pub dependents: Vec<Vec<u32>>,
    /// Wanted nodes whose priors aren't yet looked at; those of a confirmed one may come next.
    pub pending: Vec<u32>,
    pub size: usize,
    pub ghost over_sized: { vec_len over ≡ size },
    pub ghost finished_sized: { vec_len finished ≡ size },
    pub ghost confirmed_sized: { vec_len confirmed ≡ size },
    pub ghost wanted_sized: { vec_len wanted ≡ size },
    pub ghost priors_sized: { vec_len priors ≡ size },
    pub ghost subsequents_sized: { vec_len subsequents ≡ size },
    pub ghost dependents_sized: { vec_len dependents ≡ size },
}

impl Drop for Progress {
    fn drop(self) {
        let Progress {
            over: _,
            finished: _,
            confirmed: _,
            wanted: _,
            priors: _,
            subsequents: _,
            invocations: _,
            dependents: _,
            pending: _,
            size: _,
        } = self;
    }
}
