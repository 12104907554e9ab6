//! Sets of characters, each told by a type.
ghost use Rattle.std.specs.Prelude.{◌≡◌, ℕ, Bool};

/// A set of characters, told by a type, so that a cursor's call names it as `cursor.take::<Digit>(alloc)`.
///
/// `members` is the set as contracts see it, a test of a character's code; `has` is the test that runs.
///
/// ```
/// struct Digit;
///
/// impl Class for Digit {
///     ghost use Rattle.std.specs.Prelude.{nat_le, ◌&&◌};
///
///     ghost members = { λ c. nat_le 48 c && nat_le c 57 };
///
///     fn has(c: char) -> bool {
///         matches!(c, '0'..='9')
///     }
/// }
/// ```
pub trait Class {
    ghost members: { ℕ → Bool };

    /// Whether the character is one of the set.
    fn has(c: char) -> bool
        ensures { result ≡ members c };
}
