//! The node whose child's end a book notes.

ghost use Rattle.std.specs.Prelude.{◌≡◌, ◌<◌, ◌⊎◌, ℕ, false, IfSome, IfNone};
ghost use Rattle.just_sched_history.specs.Legal.{all_starts};
ghost use Rattle.just_sched_history.specs.Match.{IsStranger};
ghost use Rattle.just_sched_history.specs.Moves.{RunsWith};
ghost use Rattle.just_sched_history.specs.Room.{settle_count};
ghost use Rattle.just_sched_history.specs.Running.{IsLeastRunning, IsNotedFor};

use super::{Book, Naming};
use just_host_record::Host;

impl<H: Host + Drop, P: Naming> Book<H, P> {
    /// The node that runs with the child, if one does.
    fn node_with(&self, child: u32) -> Option<u32>
        ensures some { IfSome result (λ n. RunsWith self.now.history.items n child) }
        ensures none { IfNone result (IsStranger self.now.history.items child) }
    {
        for node in 0..self.plan.nodes.len() as u32 {
            if let Some(own) = self.child_of(node) {
                if own == child {
                    return Some(node);
                }
            }
        }
        None
    }

    /// The running node of least number, and its child.
    fn first_running(&self) -> (u32, u32)
        requires { settle_count self.now.history.items < all_starts self.now.history.items }
        ensures runs { RunsWith self.now.history.items result.0 result.1 }
        ensures least { IsLeastRunning self.now.history.items result.0 }
    {
        for node in 0..self.plan.nodes.len() as u32 {
            if let Some(child) = self.child_of(node) {
                return (node, child);
            }
        }
        unreachable!()
    }

    /// The node whose end is noted for a child, and that node's child: the node that runs with the child, which is mostly
    /// the one told; else the running node of least number.
    pub(crate) fn ending(&self, node: u32, child: u32) -> (u32, u32)
        requires { settle_count self.now.history.items < all_starts self.now.history.items }
        ensures runs { RunsWith self.now.history.items result.0 result.1 }
        ensures noted { IsNotedFor self.now.history.items child result.0 }
        ensures own { (result.1 ≡ child) ⊎ IsStranger self.now.history.items child }
    {
        if let Some(own) = self.child_of(node) {
            if own == child {
                return (node, child);
            }
        }
        if let Some(other) = self.node_with(child) {
            return (other, child);
        }
        self.first_running()
    }
}
