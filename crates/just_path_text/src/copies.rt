//! Copies that may be refused for want of memory.
ghost use Rattle.std.specs.Prelude.{◌≡◌, IfOk};

use super::NoMemory;

/// What can be copied: the copy is equal to its original, or memory is wanting.
pub trait TryClone: Drop {
    /// A copy, on the allocators that the original keeps.
    fn try_clone(&self) -> Result<Self, NoMemory>
        ensures { IfOk result (λ copy. copy ≡ self.now) };
}

impl<T: TryClone> TryClone for Option<T> {
    fn try_clone(&self) -> Result<Option<T>, NoMemory> {
        match self {
            Some(value) => Ok(Some(value.try_clone()?)),
            None => Ok(None),
        }
    }
}

impl<A: TryClone, B: TryClone> TryClone for (A, B) {
    fn try_clone(&self) -> Result<(A, B), NoMemory> {
        let first = self.0.try_clone()?;
        let second = self.1.try_clone()?;
        Ok((first, second))
    }
}

impl TryClone for bool {
    fn try_clone(&self) -> Result<bool, NoMemory> {
        Ok(*self)
    }
}

impl TryClone for u8 {
    fn try_clone(&self) -> Result<u8, NoMemory> {
        Ok(*self)
    }
}

impl TryClone for u32 {
    fn try_clone(&self) -> Result<u32, NoMemory> {
        Ok(*self)
    }
}

impl TryClone for u64 {
    fn try_clone(&self) -> Result<u64, NoMemory> {
        Ok(*self)
    }
}

impl TryClone for usize {
    fn try_clone(&self) -> Result<usize, NoMemory> {
        Ok(*self)
    }
}
