//! A set of numbers below a bound. Only its making takes memory.

ghost use Rattle.std.specs.Prelude.{◌≡◌, ◌+◌, ◌*◌, ◌<◌, ◌≤◌, ◌⊎◌, ℕ, true, false, length, slice_set, vec_len, IfOk, IfSome, IfNone};
ghost use Rattle.just_sched_history.specs.Members.{is_member, IsNoted};

use just_path_text::NoMemory;
use std::alloc::Global;

/// How many numbers a block has, and how many blocks a block of blocks.
const BLOCK: usize = 64;

/// How many numbers a block of blocks has.
const TOP: usize = 4096;

/// A set of numbers below a bound. Its members are looked for block by block: a block without one is passed in one step.
pub struct NumberSet {
    pub flags: Vec<bool>,
    /// For each block whether one of its numbers may be a member.
    pub blocks: Vec<bool>,
    /// For each block of blocks whether one of its blocks may be flagged.
    pub tops: Vec<bool>,
    /// The least member; the size where there is none.
    pub least: usize,
    pub size: usize,
    pub ghost flags_sized: { vec_len flags ≡ size },
    pub ghost blocks_sized: { size < 64 * vec_len blocks },
    pub ghost tops_sized: { size < 4096 * vec_len tops },
    pub ghost noted: { IsNoted flags.items blocks.items },
    pub ghost topped: { IsNoted blocks.items tops.items },
    pub ghost none_below: { (n : ℕ) → n < least → is_member flags.items n ≡ false },
}

impl Drop for NumberSet {
    fn drop(self) {
        let NumberSet {
            flags: _,
            blocks: _,
            tops: _,
            least: _,
            size: _,
        } = self;
    }
}

/// Whether none of the flags from a place on is up, up to another place.
fn are_down(flags: &[bool], from: usize, to: usize) -> bool
    requires { to ≤ length flags.now }
    ensures { result ≡ true → (n : ℕ) → from ≤ n → n < to → is_member flags.now n ≡ false }
{
    for at in from..to {
        if flags[at] {
            return false;
        }
    }
    true
}

/// Where a block of that width ends, or the numbers do.
fn end_of(block: usize, width: usize, size: usize) -> usize
    requires begun { block * width ≤ size }
    ensures within { result ≤ size }
    ensures end { result ≤ block * width + width }
    ensures reached { (result ≡ size) ⊎ (result ≡ block * width + width) }
{
    let start = block * width;
    if size - start < width {
        size
    } else {
        start + width
    }
}

impl NumberSet {
    /// The set without members.
    pub fn new(alloc: Global, size: usize) -> Result<NumberSet, NoMemory>
        ensures size { IfOk result (λ s. s.size ≡ size) }
        ensures none { IfOk result (λ s. (n : ℕ) → is_member s.flags.items n ≡ false) }
    {
        let flags = vec![in alloc; false; size]?;
        let blocks = vec![in alloc; false; size / BLOCK + 1]?;
        let tops = vec![in alloc; false; size / TOP + 1]?;
        Ok(NumberSet {
            flags,
            blocks,
            tops,
            least: size,
            size,
        })
    }

    /// Adds a number.
    pub fn insert(&mut self, number: usize)
        requires within { number < self.old.size }
        ensures size { self.new.size ≡ self.old.size }
        ensures flags { self.new.flags.items ≡ slice_set self.old.flags.items number true }
    {
        self.flags[number] = true;
        self.blocks[number / BLOCK] = true;
        self.tops[number / TOP] = true;
        if number < self.least {
            self.least = number;
        }
    }

    /// Adds a number, where it is to be added.
    pub fn insert_if(&mut self, number: usize, added: bool)
        requires within { number < self.old.size }
        ensures size { self.new.size ≡ self.old.size }
        ensures kept { (n : ℕ) → is_member self.old.flags.items n ≡ true → is_member self.new.flags.items n ≡ true }
        ensures there { added ≡ true → is_member self.new.flags.items number ≡ true }
        ensures only { (n : ℕ) → is_member self.new.flags.items n ≡ true → (is_member self.old.flags.items n ≡ true) ⊎ ((n ≡ number) × (added ≡ true)) }
    {
        if added {
            self.insert(number);
        }
    }

    /// Takes a number out.
    pub fn remove(&mut self, number: usize)
        requires within { number < self.old.size }
        ensures size { self.new.size ≡ self.old.size }
        ensures flags { self.new.flags.items ≡ slice_set self.old.flags.items number false }
    {
        self.flags[number] = false;
        let block = number / BLOCK;
        let start = block * BLOCK;
        let end = end_of(block, BLOCK, self.size);
        if are_down(self.flags.as_slice(), start, end) {
            self.clear(block);
        }
        if number == self.least {
            self.least = self.place_from(number + 1);
        }
    }

    /// Flags a block as one without members.
    fn clear(&mut self, block: usize)
        requires within { block < vec_len self.old.blocks }
        requires none { (k : ℕ) → k < 64 → is_member self.old.flags.items (64 * block + k) ≡ false }
        ensures size { self.new.size ≡ self.old.size }
        ensures flags { self.new.flags ≡ self.old.flags }
    {
        self.blocks[block] = false;
        let top = block / BLOCK;
        let start = top * BLOCK;
        let end = end_of(top, BLOCK, self.blocks.len());
        if top < self.tops.len() && are_down(self.blocks.as_slice(), start, end) {
            self.tops[top] = false;
        }
    }

    /// The least member from a number on.
    pub fn first_from(&self, from: usize) -> Option<usize>
        ensures found { IfSome result (λ n. (from ≤ n) × (n < self.now.size) × (is_member self.now.flags.items n ≡ true)) }
        ensures least { IfSome result (λ n. (m : ℕ) → from ≤ m → m < n → is_member self.now.flags.items m ≡ false) }
        ensures none { IfNone result ((m : ℕ) → from ≤ m → is_member self.now.flags.items m ≡ false) }
    {
        let start = if from < self.least { self.least } else { from };
        let place = self.place_from(start);
        if place < self.size { Some(place) } else { None }
    }

    /// The place of the least member from a number on; at or past the end where there is none.
    fn place_from(&self, from: usize) -> usize
        ensures above { from ≤ result }
        ensures member { result < self.now.size → is_member self.now.flags.items result ≡ true }
        ensures passed { (m : ℕ) → from ≤ m → m < result → is_member self.now.flags.items m ≡ false }
    {
        let mut at = from;
        while at < self.size {
            if self.flags[at] {
                return at;
            }
            at = self.next_place(at);
        }
        at
    }

    #[tactic(auto, using(crate::proofs::Blocks::passed, crate::proofs::Blocks::passed_over))]
    /// The place to look at behind one that isn't a member: the next block, or block of blocks, where that of the place has no member.
    fn next_place(&self, at: usize) -> usize
        requires within { at < self.now.size }
        requires not_member { is_member self.now.flags.items at ≡ false }
        ensures above { at < result }
        ensures passed { (m : ℕ) → at ≤ m → m < result → is_member self.now.flags.items m ≡ false }
    {
        let top = at / TOP;
        if !self.tops[top] {
            return end_of(top, TOP, self.size);
        }
        let block = at / BLOCK;
        if !self.blocks[block] {
            return end_of(block, BLOCK, self.size);
        }
        at + 1
    }
}
