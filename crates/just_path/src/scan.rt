//! The first and the last piece of a text, found at a slash.
ghost use Rattle.std.specs.Prelude.{◌≡◌, ◌≢◌, ◌<◌, ◌≤◌, ◌+◌, ◌++◌, ℕ, List, [], ◌∷◌, length, slice_index, take, drop, MatchOption, IfSome, IsUtf8};
ghost use Rattle.just_path.specs.Comps.{Comp, comps_of_piece, names, lead_of};
ghost use Rattle.just_path.specs.Component.{one_of};
ghost use Rattle.just_path.specs.Scan.{IsFirstPiece, IsLastPiece};

use super::Utf8Component;

/// The place of the first `/`.
fn first_slash(text: &str) -> Option<usize>
    ensures { MatchOption result
        ((k : ℕ) → k < length text.now → slice_index text.now k ≢ 47)
        (λ i. (i < length text.now) × (slice_index text.now i ≡ 47) × ((k : ℕ) → k < i → slice_index text.now k ≢ 47)) }
{
    let bytes = text.as_bytes();
    for (i, byte) in bytes.iter().enumerate() {
        if *byte == b'/' {
            return Some(i);
        }
    }
    None
}

/// The place of the last `/` from `low` on.
fn last_slash(text: &str, low: usize) -> Option<usize>
    requires { low ≤ length text.now }
    ensures { MatchOption result
        ((k : ℕ) → low ≤ k → k < length text.now → slice_index text.now k ≢ 47)
        (λ i. (low ≤ i) × (i < length text.now) × (slice_index text.now i ≡ 47) × ((k : ℕ) → i < k → k < length text.now → slice_index text.now k ≢ 47)) }
{
    let bytes = text.as_bytes();
    for i in (low..bytes.len()).rev() {
        if bytes[i] == b'/' {
            return Some(i);
        }
    }
    None
}

/// The first piece of a text, and what follows its slash.
pub(crate) fn first_piece(text: &str) -> (&str, &str)
    ensures piece { IsFirstPiece text.now result.0.now result.1.now }
    ensures utf8 { IsUtf8 result.1.now }
{
    match first_slash(text) {
        Some(at) => (&text[..at], &text[at + 1..]),
        None => (text, ""),
    }
}

/// The last piece of a text from `low` on, and what stands before its slash.
pub(crate) fn last_piece(text: &str, low: usize) -> (&str, &str)
    requires low { low ≡ length (lead_of text.now) }
    requires behind { low < length text.now }
    ensures piece { IsLastPiece low text.now result.0.now result.1.now }
    ensures utf8 { IsUtf8 result.0.now }
{
    match last_slash(text, low) {
        Some(at) => (&text[..at], &text[at + 1..]),
        None => text.split_at(low),
    }
}

/// The root or the `.` in front of a path.
pub(crate) fn leading(text: &str) -> Option<Utf8Component<'_>>
    ensures { one_of result ≡ lead_of text.now }
{
    let bytes = text.as_bytes();
    if bytes.is_empty() {
        return None;
    }
    if bytes[0] == b'/' {
        return Some(Utf8Component::RootDir);
    }
    if bytes[0] != b'.' {
        return None;
    }
    if bytes.len() == 1 {
        return Some(Utf8Component::CurDir);
    }
    if bytes[1] == b'/' {
        return Some(Utf8Component::CurDir);
    }
    None
}

/// How many bytes it takes.
pub(crate) fn leading_len(text: &str) -> usize
    ensures { result ≡ length (lead_of text.now) }
{
    match leading(text) {
        Some(_) => 1,
        None => 0,
    }
}
