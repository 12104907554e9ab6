//! Where in a module path a byte stands.

/// Where in a module path a byte stands.
#[derive(Clone, Copy)]
pub(crate) enum Place {
    /// A name begins.
    Begin,
    /// In a name.
    Within,
    /// Behind the first colon of `::`.
    Colon,
    /// The text is no path.
    Nowhere,
}
