//! The lines of a listing.
ghost use Rattle.std.specs.Prelude.{◌≡◌, ◌++◌, map, codes, IfOk, string_bytes};
ghost use Rattle.just_print.specs.Printed.{led};
ghost use Rattle.just_print_entries.specs.Styles.{is_left};
ghost use Rattle.just_print_entries.specs.Entries.{width, is_wide, has_lines, is_above, doc_line, doc_above, doc_note, alias_word, alias_note, notes, behind, signature_line, entry_lines};

use super::options::AliasStyle;
use super::style::is_left;
use just_config_words::cut::cut;
use just_path_text::Text;
use just_print_lists::{is_nil, push_blanks};
use std::alloc::AllocError;
use unicode_width::UnicodeWidthStr;

/// How the lines of a module are laid out.
#[derive(Clone, Copy, Drop)]
pub(crate) struct Margin<'m> {
    /// What stands before each line.
    pub indent: &'m str,
    /// How wide what stands before docs is.
    pub columns: usize,
    pub style: AliasStyle,
}

/// The columns that a text takes.
#[tactic(auto, unfolding(crate::specs::Entries::width))]
pub(crate) fn width(text: &str) -> usize
    ensures { result ≡ width text.now }
{
    text.width()
}

/// Whether a signature is too wide for a doc behind it.
fn is_wide(signature: &str) -> bool
    ensures { result ≡ is_wide signature.now }
{
    width(signature) > 50
}

/// Whether a text has several lines.
pub(crate) fn has_lines(text: &str) -> bool
    ensures { result ≡ has_lines text.now }
{
    text.as_bytes().iter().any(|byte| *byte == b'\n')
}

/// Whether a doc stands above its entry.
fn is_above(signature: &str, doc: &str) -> bool
    ensures { result ≡ is_above signature.now doc.now }
{
    has_lines(doc) || (!is_nil(doc.as_bytes()) && is_wide(signature))
}

/// Adds a line of a doc above its entry.
fn push_doc_line(out: &mut String, indent: &str, line: &str) -> Result<(), AllocError>
    ensures { IfOk result
        (λ _. string_bytes out.new ≡ string_bytes out.old ++ doc_line indent.now line.now) }
{
    out.push_str(indent)?;
    out.push_str("# ")?;
    out.push_str(line)?;
    out.push_str("\n")
}

/// Adds a doc above its entry, each of its lines behind `# `.
pub(crate) fn push_doc_above(out: &mut String, indent: &str, doc: &str) -> Result<(), AllocError>
    ensures { IfOk result
        (λ _. string_bytes out.new ≡ string_bytes out.old ++ doc_above indent.now doc.now) }
{
    let mut rest = doc;
    'lines: while let Some((line, behind)) = cut(rest, '\n') {
        push_doc_line(out, indent, line)?;
        rest = behind;
    }
    push_doc_line(out, indent, rest)
}

/// Adds a doc behind a blank, where there is one.
fn push_doc_note(out: &mut String, doc: &str) -> Result<(), AllocError>
    ensures { IfOk result (λ _. string_bytes out.new ≡ string_bytes out.old ++ doc_note doc.now) }
{
    if is_nil(doc.as_bytes()) {
        return Ok(());
    }
    out.push_str(" ")?;
    out.push_str(doc)
}

/// Adds names, each behind a comma.
fn push_led(out: &mut String, names: &[&Text]) -> Result<(), AllocError>
    ensures { IfOk result
        (λ _. string_bytes out.new
        ≡ string_bytes out.old ++ led (codes ", ") (map (λ n. n.now) names.now)) }
{
    'names: for name in names {
        out.push_str(", ")?;
        out.push_str(name.as_str())?;
    }
    Ok(())
}

/// What stands before other names: of one, or of several.
#[tactic(auto, unfolding(crate::specs::Entries::alias_word))]
fn alias_word(is_one: bool) -> &'static str
    ensures { result.now ≡ alias_word is_one }
{
    if is_one { " [alias: " } else { " [aliases: " }
}

/// Adds the other names of a recipe in brackets, where there are some.
#[tactic(auto, using(crate::proofs::Pushed::seen_nil))]
fn push_alias_note(out: &mut String, names: &[&Text]) -> Result<(), AllocError>
    ensures { IfOk result
        (λ _. string_bytes out.new
        ≡ string_bytes out.old ++ alias_note (map (λ n. n.now) names.now)) }
{
    match names {
        [] => Ok(()),
        [first, others @ ..] => {
            out.push_str(alias_word(is_nil(others)))?;
            out.push_str(first.as_str())?;
            push_led(out, others)?;
            out.push_str("]")
        }
    }
}

/// Adds a doc and the other names of a recipe, in the order of the style.
fn push_notes(out: &mut String, left: bool, doc: &str, names: &[&Text]) -> Result<(), AllocError>
    ensures { IfOk result
        (λ _. string_bytes out.new
        ≡ string_bytes out.old ++ notes left doc.now (map (λ n. n.now) names.now)) }
{
    if left {
        push_alias_note(out, names)?;
        push_doc_note(out, doc)
    } else {
        push_doc_note(out, doc)?;
        push_alias_note(out, names)
    }
}

/// Adds what stands behind a signature.
#[tactic(auto, using(crate::proofs::Pushed::seen_nil))]
fn push_behind(
    out: &mut String,
    margin: Margin<'_>,
    signature: &str,
    doc: &str,
    names: &[&Text],
) -> Result<(), AllocError>
    ensures { IfOk result
        (λ _. string_bytes out.new
        ≡ string_bytes out.old
        ++ behind margin.entry.columns (is_left margin.entry.style) signature.now doc.now
        (map (λ n. n.now) names.now)) }
{
    if is_nil(doc.as_bytes()) && is_nil(names) {
        return Ok(());
    }
    push_blanks(out, margin.columns.saturating_sub(width(signature)))?;
    out.push_str(" #")?;
    push_notes(out, is_left(margin.style), doc, names)
}

/// Adds the line of a signature, with what stands behind it.
pub(crate) fn push_signature(
    out: &mut String,
    margin: Margin<'_>,
    signature: &str,
    doc: &str,
    names: &[&Text],
) -> Result<(), AllocError>
    ensures { IfOk result
        (λ _. string_bytes out.new
        ≡ string_bytes out.old
        ++ signature_line margin.entry.indent.now margin.entry.columns (is_left margin.entry.style)
        signature.now doc.now (map (λ n. n.now) names.now)) }
{
    out.push_str(margin.indent)?;
    out.push_str(signature)?;
    push_behind(out, margin, signature, doc, names)?;
    out.push_str("\n")
}

/// Adds the lines of an entry; an empty doc is none.
pub(crate) fn push_entry(
    out: &mut String,
    margin: Margin<'_>,
    signature: &str,
    doc: &str,
    names: &[&Text],
) -> Result<(), AllocError>
    ensures { IfOk result
        (λ _. string_bytes out.new
        ≡ string_bytes out.old
        ++ entry_lines margin.entry.indent.now margin.entry.columns (is_left margin.entry.style)
        signature.now doc.now (map (λ n. n.now) names.now)) }
{
    if is_above(signature, doc) {
        push_doc_above(out, margin.indent, doc)?;
        return push_signature(out, margin, signature, "", names);
    }
    push_signature(out, margin, signature, doc, names)
}
