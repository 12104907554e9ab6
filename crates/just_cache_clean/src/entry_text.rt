//! The texts of entries, and which of them stay.
ghost use Rattle.std.specs.Prelude.{◌≡◌, ◌≢◌, ◌↔◌, ◌++◌, ℕ, List, codes, IsTrue, MatchOption};
ghost use Rattle.std.specs.List.{list_all};
ghost use Rattle.just_cache.specs.Digests.{is_lower_hex};
ghost use Rattle.just_cache_clean.specs.EntryTexts.{IsDigest, IsEntryName, front1, front2, back};
ghost use Rattle.just_cache_clean.specs.PathTexts.{IsOtherText, StaysText};

use super::cut::{before, behind};
use super::path_text::{begins_with, is_path};

/// Whether a byte is a hexadecimal digit with lower-case letters.
fn is_lower_hex(byte: u8) -> bool
    ensures { result ≡ is_lower_hex byte }
{
    matches!(byte, b'0'..=b'9' | b'a'..=b'f')
}

/// Whether all bytes are.
fn are_lower_hex(text: &[u8]) -> bool
    ensures { result ≡ list_all is_lower_hex text.now }
{
    text.iter().all(|byte| is_lower_hex(*byte))
}

/// Whether a text is a digest: 64 hexadecimal digits with lower-case letters.
fn is_digest(text: &[u8]) -> bool
    ensures { IsTrue result ↔ IsDigest text.now }
{
    text.len() == 64 && are_lower_hex(text)
}

/// The digest of the entry that has this file name.
#[tactic(auto, using(crate::proofs::Cuts::no_name, crate::proofs::Cuts::no_digest, crate::proofs::Cuts::a_digest))]
pub(crate) fn digest_in(name: &str) -> Option<&[u8]>
    ensures { MatchOption result ((digest : List ℕ) → IsEntryName digest name.now → ⊥)
        (λ digest. IsEntryName digest.now name.now) }
{
    match before(name.as_bytes(), b".json") {
        None => None,
        Some(digest) => {
            if is_digest(digest) {
                Some(digest)
            } else {
                None
            }
        }
    }
}

/// What stands in an entry in front of its end and behind this.
#[tactic(auto, using(crate::proofs::Cuts::none_inside, crate::proofs::Cuts::none_end, crate::proofs::Cuts::both))]
fn inside<'t>(text: &'t [u8], front: &[u8]) -> Option<&'t [u8]>
    ensures { MatchOption result ((inner : List ℕ) → text.now ≢ front.now ++ (inner ++ back))
        (λ inner. text.now ≡ front.now ++ (inner.now ++ back)) }
{
    match behind(text, front) {
        None => None,
        Some(rest) => before(rest, b"\"}"),
    }
}

/// What stands there in an entry of the first form.
fn first_inside(text: &[u8]) -> Option<&[u8]>
    ensures { MatchOption result ((inner : List ℕ) → text.now ≢ front1 ++ (inner ++ back))
        (λ inner. text.now ≡ front1 ++ (inner.now ++ back)) }
{
    inside(text, b"{\"recipe\":\"")
}

/// What stands in an entry of the second form behind its digest.
#[tactic(auto, using(crate::proofs::Cuts::none_first, crate::proofs::Cuts::none_second, crate::proofs::Cuts::both))]
fn behind_digest<'t>(text: &'t [u8], digest: &[u8]) -> Option<&'t [u8]>
    ensures { MatchOption result
        ((rest : List ℕ) → text.now ≢ codes "{\"digest\":\"" ++ (digest.now ++ rest))
        (λ rest. text.now ≡ codes "{\"digest\":\"" ++ (digest.now ++ rest.now)) }
{
    match behind(text, b"{\"digest\":\"") {
        None => None,
        Some(rest) => behind(rest, digest),
    }
}

/// The path in an entry of the second form under that digest.
#[tactic(auto, using(crate::proofs::Cuts::no_second, crate::proofs::Cuts::no_path, crate::proofs::Cuts::a_second))]
fn second_inside<'t>(text: &'t [u8], digest: &[u8]) -> Option<&'t [u8]>
    ensures { MatchOption result
        ((inner : List ℕ) → text.now ≢ front2 digest.now ++ (inner ++ back))
        (λ inner. text.now ≡ front2 digest.now ++ (inner.now ++ back)) }
{
    match behind_digest(text, digest) {
        None => None,
        Some(rest) => inside(rest, b"\",\"format\":2,\"recipe\":\""),
    }
}

/// Whether a text is a module path that doesn't begin with another one.
#[tactic(auto, using(crate::proofs::Begins::other_is))]
fn is_other(inner: &[u8], prefix: &[u8]) -> bool
    ensures { IsTrue result ↔ IsOtherText prefix.now inner.now }
{
    is_path(inner) && !begins_with(inner, prefix)
}

/// Whether an entry stays: its text is that of a path that doesn't begin with another one.
#[tactic(auto, using(crate::proofs::Cuts::stays_first, crate::proofs::Cuts::stays_second, crate::proofs::Cuts::stays_neither))]
pub(crate) fn stays(prefix: &[u8], digest: &[u8], text: &[u8]) -> bool
    ensures { IsTrue result ↔ StaysText prefix.now digest.now text.now }
{
    match first_inside(text) {
        Some(inner) => is_other(inner, prefix),
        None => match second_inside(text, digest) {
            Some(inner) => is_other(inner, prefix),
            None => false,
        },
    }
}
