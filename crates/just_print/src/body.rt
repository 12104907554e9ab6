//! The bodies of recipes as texts.
ghost use Rattle.std.specs.Prelude.{◌≡◌, ◌++◌, ◌&&◌, ◌==◌, not, chars, encode_utf8_all, IfOk, string_bytes};
ghost use Rattle.std.specs.List.{flat_map};
ghost use Rattle.just_print.specs.Printed.{doubled, printed_fragment, printed_fragments, printed_line};

use super::expr::{push_between, push_if};
use just_lang_syntax::{Fragment, Line};
use std::alloc::{AllocError, Global};

/// Adds the lines of a body, each behind the indentation; a blank line is empty.
pub fn push_body(
    alloc: Global,
    out: &mut String,
    lines: &[Line],
    indentation: &str,
) -> Result<(), AllocError>
    ensures { IfOk result (λ _. string_bytes out.new ≡ string_bytes out.old ++ flat_map (printed_line indentation.now) lines.now) }
{
    'lines: for line in lines {
        push_line(alloc, out, line, indentation)?;
    }
    Ok(())
}

fn push_line(
    alloc: Global,
    out: &mut String,
    line: &Line,
    indentation: &str,
) -> Result<(), AllocError>
    ensures { IfOk result (λ _. string_bytes out.new ≡ string_bytes out.old ++ printed_line indentation.now line.now) }
{
    push_fragments(alloc, out, line.fragments.as_slice(), indentation)?;
    out.push_str("\n")
}

/// Adds the fragments of a line behind the indentation, if there are some.
fn push_fragments(
    alloc: Global,
    out: &mut String,
    fragments: &[Fragment],
    indentation: &str,
) -> Result<(), AllocError>
    ensures { IfOk result (λ _. string_bytes out.new ≡ string_bytes out.old ++ printed_fragments indentation.now fragments.now) }
{
    match fragments {
        [] => Ok(()),
        [_first, ..] => {
            out.push_str(indentation)?;
            push_each(alloc, out, fragments)
        }
    }
}

/// Adds fragments.
fn push_each(alloc: Global, out: &mut String, fragments: &[Fragment]) -> Result<(), AllocError>
    ensures { IfOk result (λ _. string_bytes out.new ≡ string_bytes out.old ++ flat_map printed_fragment fragments.now) }
{
    'fragments: for fragment in fragments {
        push_fragment(alloc, out, fragment)?;
    }
    Ok(())
}

fn push_fragment(alloc: Global, out: &mut String, fragment: &Fragment) -> Result<(), AllocError>
    ensures { IfOk result (λ _. string_bytes out.new ≡ string_bytes out.old ++ printed_fragment fragment.now) }
{
    match fragment {
        Fragment::Text(text) => {
            let letters = characters(alloc, text.as_str())?;
            push_text(out, letters.as_slice())
        }
        Fragment::Value(value) => push_between(out, "{{ ", value, " }}"),
    }
}

/// The characters of a text.
fn characters(alloc: Global, text: &str) -> Result<Vec<char>, AllocError>
    ensures { IfOk result (λ v. v.items ≡ chars text.now) }
{
    text.chars().collect(alloc)
}

/// Adds a text of a body, in which `{{` is written `{{{{`.
#[tactic(auto, using(crate::proofs::Braces::letter_more, crate::proofs::Braces::doubled_begin, crate::proofs::Braces::letters_done))]
fn push_text(out: &mut String, letters: &[char]) -> Result<(), AllocError>
    ensures { IfOk result (λ _. string_bytes out.new ≡ string_bytes out.old ++ encode_utf8_all (doubled letters.now)) }
{
    let mut behind_brace = false;
    'letters: for c in letters {
        out.push(*c)?;
        push_if(out, is_second(behind_brace, *c), "{{")?;
        behind_brace = is_single(behind_brace, *c);
    }
    Ok(())
}

/// Whether a letter is the second brace of two.
fn is_second(behind_brace: bool, c: char) -> bool
    ensures { result ≡ (behind_brace && c == 123) }
{
    behind_brace && c == '{'
}

/// Whether a letter is a brace that may be the first of two.
fn is_single(behind_brace: bool, c: char) -> bool
    ensures { result ≡ (not behind_brace && c == 123) }
{
    !behind_brace && c == '{'
}
