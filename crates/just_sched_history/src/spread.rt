//! Going along lists of nodes: who has its turn is wanted, and is noted where it wasn't. Nothing here takes memory.

ghost use Rattle.std.specs.Prelude.{◌≡◌, ◌+◌, ◌<◌, ◌≤◌, ◌⊎◌, ℕ, true, false, length, slice_index, Contains, vec_capacity};
ghost use Rattle.just_sched_history.specs.Tables.{flag, InRange};
ghost use Rattle.just_sched_history.specs.Led.{down_count, IsRaised, IsBefore, MayFollow, IsLed};

/// Flags a node as wanted, and lists it where it wasn't.
fn want(node: u32, wanted: &mut [bool], pending: &mut Vec<u32>)
    requires within { node < length wanted.old }
    requires room { length pending.old.items + down_count wanted.old ≤ vec_capacity pending.old }
    ensures flagged { flag wanted.new node ≡ true }
    ensures only { (k : ℕ) → flag wanted.new k ≡ true → (flag wanted.old k ≡ true) ⊎ (k ≡ node) }
    ensures raised { IsRaised wanted.old wanted.new pending.old.items pending.new.items }
    ensures capacity { vec_capacity pending.new ≡ vec_capacity pending.old }
{
    let at = node as usize;
    if !wanted[at] {
        wanted[at] = true;
        pending.push_reserved(node);
    }
}

/// Flags each member of a list as wanted.
pub(crate) fn want_all(nodes: &[u32], wanted: &mut [bool], pending: &mut Vec<u32>)
    requires within { InRange nodes.now wanted.old }
    requires room { length pending.old.items + down_count wanted.old ≤ vec_capacity pending.old }
    ensures flagged { (j : ℕ) → j < length nodes.now → flag wanted.new (slice_index nodes.now j) ≡ true }
    ensures only { (k : ℕ) → flag wanted.new k ≡ true → (flag wanted.old k ≡ true) ⊎ Contains nodes.now k }
    ensures raised { IsRaised wanted.old wanted.new pending.old.items pending.new.items }
    ensures capacity { vec_capacity pending.new ≡ vec_capacity pending.old }
{
    for node in nodes {
        want(*node, wanted, pending);
    }
}

/// Goes on along a list from a place before which all are finished, to the first that isn't. It flags those as wanted that
/// it comes to, and answers the place.
pub(crate) fn lead(
    nodes: &[u32],
    from: usize,
    finished: &[bool],
    wanted: &mut [bool],
    pending: &mut Vec<u32>,
) -> usize
    requires within { InRange nodes.now wanted.old }
    requires alike { length finished.now ≡ length wanted.old }
    requires before { IsBefore finished.now wanted.old nodes.now from }
    requires room { length pending.old.items + down_count wanted.old ≤ vec_capacity pending.old }
    ensures before { IsBefore finished.now wanted.new nodes.now result }
    ensures stops { result < length nodes.now → (flag finished.now (slice_index nodes.now result) ≡ false) × (flag wanted.new (slice_index nodes.now result) ≡ true) }
    ensures only { (k : ℕ) → flag wanted.new k ≡ true → (flag wanted.old k ≡ true) ⊎ MayFollow finished.now false nodes.now k }
    ensures raised { IsRaised wanted.old wanted.new pending.old.items pending.new.items }
    ensures capacity { vec_capacity pending.new ≡ vec_capacity pending.old }
{
    for at in from..nodes.len() {
        want(nodes[at], wanted, pending);
        if !finished[nodes[at] as usize] {
            return at;
        }
    }
    nodes.len()
}

/// The same, where all members are wanted at once if they may go together.
pub(crate) fn lead_all(
    nodes: &[u32],
    together: bool,
    from: usize,
    finished: &[bool],
    wanted: &mut [bool],
    pending: &mut Vec<u32>,
) -> usize
    requires within { InRange nodes.now wanted.old }
    requires alike { length finished.now ≡ length wanted.old }
    requires before { IsBefore finished.now wanted.old nodes.now from }
    requires room { length pending.old.items + down_count wanted.old ≤ vec_capacity pending.old }
    ensures before { IsBefore finished.now wanted.new nodes.now result }
    ensures led { IsLed finished.now wanted.new together nodes.now }
    ensures stops { result < length nodes.now → flag finished.now (slice_index nodes.now result) ≡ false }
    ensures only { (k : ℕ) → flag wanted.new k ≡ true → (flag wanted.old k ≡ true) ⊎ MayFollow finished.now together nodes.now k }
    ensures raised { IsRaised wanted.old wanted.new pending.old.items pending.new.items }
    ensures capacity { vec_capacity pending.new ≡ vec_capacity pending.old }
{
    if !together {
        return lead(nodes, from, finished, wanted, pending);
    }
    want_all(nodes, wanted, pending);
    lead(nodes, from, finished, wanted, pending)
}
