//! What became of a cache that was cleaned.

/// What became of a cache that was cleaned.
#[derive(Clone, Copy)]
pub enum Cleaned {
    /// Its folder isn't there.
    NotFound,
    /// So many entries were removed.
    Removed(u64),
}
