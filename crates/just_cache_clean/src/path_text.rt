//! Module paths as texts.
ghost use Rattle.std.specs.Prelude.{◌≡◌, ◌↔◌, ◌++◌, codes, IfOk, IsTrue, string_bytes};
ghost use Rattle.std.specs.List.{flat_map, fold};
ghost use Rattle.just_lang_read.specs.Characters.{begins_name, in_name};
ghost use Rattle.just_cache.specs.Members.{path_text};
ghost use Rattle.just_cache_clean.specs.declared.place.Place.TheVariants.{Within};
ghost use Rattle.just_cache_clean.specs.PathTexts.{behind_byte, is_within, is_path, ends_name, BeginsText};

use super::cut::behind;
use super::place::Place;
use just_path_text::{NoMemory, Text};
use std::alloc::{AllocError, Global};

/// Adds names of a path, each behind `::`.
fn push_names(out: &mut String, names: &[Text]) -> Result<(), AllocError>
    ensures { IfOk result (λ _.
        string_bytes out.new ≡ string_bytes out.old ++ flat_map (λ n. codes "::" ++ n) names.now) }
{
    'names: for name in names {
        out.push_str("::")?;
        out.push_str(name.as_str())?;
    }
    Ok(())
}

/// A module path, its names joined by `::`.
pub(crate) fn path_text(alloc: Global, names: &[Text]) -> Result<String, NoMemory>
    ensures { IfOk result (λ t. string_bytes t ≡ path_text names.now) }
{
    let mut out = String::new(alloc);
    match names {
        [] => Ok(out),
        [first, others @ ..] => {
            out.push_str(first.as_str())?;
            push_names(&mut out, others)?;
            Ok(out)
        }
    }
}

/// Whether a name begins with a byte.
fn begins_name(byte: u8) -> bool
    ensures { result ≡ begins_name byte }
{
    matches!(byte, b'A'..=b'Z' | b'a'..=b'z' | b'_')
}

/// Whether a name has a byte.
fn in_name(byte: u8) -> bool
    ensures { result ≡ in_name byte }
{
    begins_name(byte) || matches!(byte, b'0'..=b'9' | b'-')
}

/// The place behind a byte in a name.
fn behind_name(byte: u8) -> Place
    ensures { result ≡ behind_byte Within byte }
{
    if in_name(byte) {
        Place::Within
    } else if byte == b':' {
        Place::Colon
    } else {
        Place::Nowhere
    }
}

/// The place behind a byte.
fn behind_byte(place: Place, byte: u8) -> Place
    ensures { result ≡ behind_byte place byte }
{
    match place {
        Place::Begin => {
            if begins_name(byte) {
                Place::Within
            } else {
                Place::Nowhere
            }
        }
        Place::Within => behind_name(byte),
        Place::Colon => {
            if byte == b':' {
                Place::Begin
            } else {
                Place::Nowhere
            }
        }
        Place::Nowhere => Place::Nowhere,
    }
}

/// Whether a text is a module path.
pub(crate) fn is_path(text: &[u8]) -> bool
    ensures { result ≡ is_path text.now }
{
    let mut place = Place::Begin;
    'bytes: for byte in text {
        place = behind_byte(place, *byte);
    }
    matches!(place, Place::Within)
}

/// Whether nothing or two colons are at the begin of a text.
fn ends_name(text: &[u8]) -> bool
    ensures { result ≡ ends_name text.now }
{
    match text {
        [] => true,
        [_] => false,
        [first, second, ..] => *first == b':' && *second == b':',
    }
}

/// Whether a text begins with another one, behind which nothing or two colons stand.
#[tactic(auto, using(crate::proofs::Begins::begins_not, crate::proofs::Begins::begins_so))]
pub(crate) fn begins_with(text: &[u8], prefix: &[u8]) -> bool
    ensures { IsTrue result ↔ BeginsText prefix.now text.now }
{
    match behind(text, prefix) {
        None => false,
        Some(rest) => ends_name(rest),
    }
}
