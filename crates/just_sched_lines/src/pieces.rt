//! Words and numbers, added to a text.
ghost use Rattle.std.specs.Prelude.{◌≡◌, ◌++◌, IfOk, codes, decimal, string_bytes};
ghost use Rattle.std.specs.Fmt.{signed_decimal};

use std::alloc::{AllocError, Global};

/// Adds a text, and another one behind it.
pub fn push_two(out: &mut String, first: &str, second: &str) -> Result<(), AllocError>
    ensures { IfOk result
        (λ _. string_bytes out.new ≡ string_bytes out.old ++ (first.now ++ second.now)) }
{
    out.push_str(first)?;
    out.push_str(second)
}

/// Adds a word, and a number behind it.
pub fn push_number(
    alloc: Global,
    out: &mut String,
    word: &str,
    number: u32,
) -> Result<(), AllocError>
    ensures { IfOk result
        (λ _. string_bytes out.new ≡ string_bytes out.old ++ (word.now ++ decimal number)) }
{
    let text = format!(in alloc; "{word}{number}")?;
    out.push_str(text.as_str())
}

/// Adds a word, and a number behind it that may be negative.
pub fn push_signed(out: &mut String, word: &str, number: i32) -> Result<(), AllocError>
    ensures { IfOk result
        (λ _. string_bytes out.new
        ≡ string_bytes out.old ++ (word.now ++ signed_decimal number)) }
{
    write!(out, "{word}{number}")
}

/// Adds a word, and the numbers of a node, of a place in its body and of a child behind it.
pub fn push_numbers(
    alloc: Global,
    out: &mut String,
    word: &str,
    node: u32,
    place: u32,
    child: u32,
) -> Result<(), AllocError>
    ensures { IfOk result
        (λ _. string_bytes out.new
        ≡ string_bytes out.old
        ++ (word.now ++ (decimal node ++ (codes " " ++ (decimal place
        ++ (codes " " ++ decimal child)))))) }
{
    push_number(alloc, out, word, node)?;
    push_number(alloc, out, " ", place)?;
    push_number(alloc, out, " ", child)
}
