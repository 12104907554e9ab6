//! The parts of a file name: stem, prefix and extension.
ghost use Rattle.std.specs.Prelude.{◌≡◌, ◌≢◌, ◌<◌, ℕ, length, slice_index, MatchOption, option_map, IsUtf8};
ghost use Rattle.std.specs.Option.{option_copied};
ghost use Rattle.just_path.specs.Names.{name_parts, stem_of, extension_of, prefix_of};

/// The place of the last dot that isn't in front.
fn last_dot(name: &str) -> Option<usize>
    ensures { MatchOption result
        ((k : ℕ) → 0 < k → k < length name.now → slice_index name.now k ≢ 46)
        (λ i. (0 < i) × (i < length name.now) × (slice_index name.now i ≡ 46) × ((k : ℕ) → i < k → k < length name.now → slice_index name.now k ≢ 46)) }
{
    let bytes = name.as_bytes();
    for i in (1..bytes.len()).rev() {
        if bytes[i] == b'.' {
            return Some(i);
        }
    }
    None
}

/// The place of the first dot that isn't in front.
fn first_dot(name: &str) -> Option<usize>
    ensures { MatchOption result
        ((k : ℕ) → 0 < k → k < length name.now → slice_index name.now k ≢ 46)
        (λ i. (0 < i) × (i < length name.now) × (slice_index name.now i ≡ 46) × ((k : ℕ) → 0 < k → k < i → slice_index name.now k ≢ 46)) }
{
    let bytes = name.as_bytes();
    for i in 1..bytes.len() {
        if bytes[i] == b'.' {
            return Some(i);
        }
    }
    None
}

/// The stem and the extension of a name, where a dot parts them.
fn parted(name: &str) -> Option<(&str, &str)>
    ensures { option_map (λ s. (s.0.now, s.1.now)) result ≡ name_parts name.now }
{
    match last_dot(name) {
        Some(at) => Some((&name[..at], &name[at + 1..])),
        None => None,
    }
}

/// A name up to its last dot.
pub(crate) fn stem_of(name: &str) -> &str
    ensures stem { result.now ≡ stem_of name.now }
    ensures utf8 { IsUtf8 name.now }
{
    match parted(name) {
        Some((stem, _)) => stem,
        None => name,
    }
}

/// What stands behind the last dot of a name.
pub(crate) fn extension_of(name: &str) -> Option<&str>
    ensures { option_copied result ≡ extension_of name.now }
{
    match parted(name) {
        Some((_, extension)) => Some(extension),
        None => None,
    }
}

/// A name up to its first dot.
pub(crate) fn prefix_of(name: &str) -> &str
    ensures { result.now ≡ prefix_of name.now }
{
    match first_dot(name) {
        Some(at) => &name[..at],
        None => name,
    }
}
