//! Values on the heap.
ghost use Rattle.std.specs.Prelude.{◌≡◌, IfOk, IfErr};

use std::alloc::{AllocFailed, Global};
use std::marker::Model;

/// A value on the heap, which contracts see as that value. A type may hold itself through it.
///
/// ```
/// enum Chain {
///     End,
///     Link(u8, Boxed<Chain>),
/// }
/// ```
#[derive(Debug, Drop)]
pub struct Boxed<T> {
    held: Box<T>,
}

impl<T> Model for Boxed<T> {
    ghost Value = { T };

    ghost coded = { T.code };

    ghost view = { λ b. b.held.value };
}

impl<T> Boxed<T> {
    /// Moves a value to the heap. Where memory is wanting, the error hands it back.
    ///
    /// ```
    /// let end = Boxed::new(alloc, Chain::End)?;
    /// let link = Chain::Link(7, end);
    /// ```
    pub fn new(alloc: Global, value: T) -> Result<Boxed<T>, AllocFailed<T>>
        ensures ok { IfOk result (λ b. b ≡ value) }
        ensures returned { IfErr result (λ e. e.value ≡ value) }
    {
        match Box::new(alloc, value) {
            Ok(held) => Ok(Boxed { held }),
            Err(failed) => Err(failed),
        }
    }

    /// The value, where it lies.
    pub fn get(&self) -> &T
        ensures { result.now ≡ self.now }
    {
        &self.held
    }

    /// Takes the value off the heap.
    pub fn into_inner(self) -> T
        ensures { result ≡ self }
    {
        let Boxed { held } = self;
        Box::into_inner(held)
    }
}
