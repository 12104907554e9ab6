//! Decimal numbers.
ghost use Rattle.std.specs.Prelude.{◌≡◌, ◌&&◌, ◌+◌, ◌*◌, ◌-◌, ◌^◌, true, false, nat_lt, MatchOption};
ghost use Rattle.just_lang_read.specs.Characters.{is_digit};
ghost use Rattle.just_lang_read.specs.Decimal.{decimal, number_from, is_number_within};

/// The number of a text: digits without a sign, without a zero in front, below 2 ^ 64.
pub fn decimal(text: &str) -> Option<u64>
    ensures { result ≡ decimal text.now }
{
    match text.as_bytes() {
        [] => None,
        [b'0', _, ..] => None,
        digits => number(digits),
    }
}

/// The number of these digits.
fn number(digits: &[u8]) -> Option<u64>
    ensures { result ≡ number_from 0 digits.now }
{
    let mut number: u64 = 0;
    'digits: for digit in digits {
        match with_digit(number, *digit) {
            Some(next) => number = next,
            None => return None,
        }
    }
    Some(number)
}

/// A number with one more digit, if this is one and the number stays below 2 ^ 64.
fn with_digit(number: u64, digit: u8) -> Option<u64>
    ensures { MatchOption result ((is_digit digit && nat_lt (number * 10 + (digit - 48)) (2 ^ 64)) ≡ false) (λ n. ((is_digit digit && nat_lt (number * 10 + (digit - 48)) (2 ^ 64)) ≡ true) × (n ≡ number * 10 + (digit - 48))) }
{
    if !digit.is_ascii_digit() {
        return None;
    }
    number.checked_mul(10)?.checked_add(u64::from(digit - b'0'))
}

/// Whether a text is a decimal number from the least to the greatest.
pub fn is_within(text: &str, least: u64, greatest: u64) -> bool
    ensures { result ≡ is_number_within least greatest (decimal text.now) }
{
    match decimal(text) {
        Some(number) => least <= number && number <= greatest,
        None => false,
    }
}
