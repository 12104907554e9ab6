//! Hashes: numbers by which names are kept, so that looking one up compares numbers, and texts but once.
ghost use Rattle.std.specs.Prelude.{◌≡◌};
ghost use Rattle.just_lang_names.specs.Hashes.{with_digit, name_hash};

/// A hash with a digit more.
#[tactic(auto, unfolding(crate::specs::Hashes::with_digit))]
fn with_digit(hash: u64, digit: u64) -> u64
    ensures { result ≡ with_digit hash digit }
{
    hash.wrapping_mul(257).wrapping_add(digit)
}

/// The hash of a name. Those of names of up to seven bytes differ.
pub(crate) fn name_hash(name: &str) -> u64
    ensures { result ≡ name_hash name.now }
{
    let mut hash = 0;
    'bytes: for byte in name.as_bytes() {
        hash = with_digit(hash, u64::from(*byte));
    }
    hash
}
