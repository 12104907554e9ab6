//! Variables with their values.
ghost use Rattle.std.specs.Prelude.{◌≡◌, ◌++◌, map, length, IfOk, string_bytes};
ghost use Rattle.std.specs.List.{flat_map};
ghost use Rattle.just_print_lists.specs.Evaluated.{escaped, quoted_once, longest_name, just_line, shell_line, line, evaluated_text};
ghost use Rattle.just_print_lists.specs.Greatest.{greater};

use super::order::{Named, by_name};
use super::texts::push_blanks;
use super::variable::{EvaluateFormat, Evaluated};
use just_lang_read::characters_of;
use just_path_text::NoMemory;
use std::alloc::{AllocError, Global};

impl Named for Evaluated {
    ghost name = { λ v. v.name };

    fn name(&self) -> &str {
        self.name.as_str()
    }
}

/// Adds a character of a text in double quotes.
fn push_escaped(out: &mut String, c: char) -> Result<(), AllocError>
    ensures { IfOk result (λ _. string_bytes out.new ≡ string_bytes out.old ++ escaped c) }
{
    match c {
        '\\' => out.push_str("\\\\"),
        '"' => out.push_str("\\\""),
        '\n' => out.push_str("\\n"),
        '\r' => out.push_str("\\r"),
        '\t' => out.push_str("\\t"),
        _ => out.push(c),
    }
}

/// Adds the characters of a text in double quotes.
fn push_all_escaped(out: &mut String, letters: &[char]) -> Result<(), AllocError>
    ensures { IfOk result
        (λ _. string_bytes out.new ≡ string_bytes out.old ++ flat_map escaped letters.now) }
{
    'letters: for c in letters {
        push_escaped(out, *c)?;
    }
    Ok(())
}

/// Adds a character of a text in single quotes of a shell.
fn push_quoted(out: &mut String, c: char) -> Result<(), AllocError>
    ensures { IfOk result (λ _. string_bytes out.new ≡ string_bytes out.old ++ quoted_once c) }
{
    if c == '\'' {
        out.push_str("'\\''")
    } else {
        out.push(c)
    }
}

/// Adds the characters of a text in single quotes of a shell.
fn push_all_quoted(out: &mut String, letters: &[char]) -> Result<(), AllocError>
    ensures { IfOk result
        (λ _. string_bytes out.new ≡ string_bytes out.old ++ flat_map quoted_once letters.now) }
{
    'letters: for c in letters {
        push_quoted(out, *c)?;
    }
    Ok(())
}

/// Adds a variable as an assignment of a justfile.
fn push_just(
    alloc: Global,
    out: &mut String,
    columns: usize,
    variable: &Evaluated,
) -> Result<(), AllocError>
    ensures { IfOk result
        (λ _. string_bytes out.new ≡ string_bytes out.old ++ just_line columns variable.now) }
{
    let letters = characters_of(alloc, variable.text.as_str())?;
    let name = variable.name.as_str();
    out.push_str(name)?;
    push_blanks(out, columns.saturating_sub(name.len()))?;
    out.push_str(" := \"")?;
    push_all_escaped(out, letters.as_slice())?;
    out.push_str("\"\n")
}

/// Adds a variable as an assignment of a shell.
fn push_shell(alloc: Global, out: &mut String, variable: &Evaluated) -> Result<(), AllocError>
    ensures { IfOk result
        (λ _. string_bytes out.new ≡ string_bytes out.old ++ shell_line variable.now) }
{
    let letters = characters_of(alloc, variable.text.as_str())?;
    out.push_str(variable.name.as_str())?;
    out.push_str("='")?;
    push_all_quoted(out, letters.as_slice())?;
    out.push_str("'\n")
}

/// Adds the line of a variable.
fn push_line(
    alloc: Global,
    out: &mut String,
    format: EvaluateFormat,
    columns: usize,
    variable: &Evaluated,
) -> Result<(), AllocError>
    ensures { IfOk result
        (λ _. string_bytes out.new ≡ string_bytes out.old ++ line format columns variable.now) }
{
    match format {
        EvaluateFormat::Just => push_just(alloc, out, columns, variable),
        EvaluateFormat::Shell => push_shell(alloc, out, variable),
    }
}

/// Adds the lines of variables.
fn push_lines(
    alloc: Global,
    out: &mut String,
    format: EvaluateFormat,
    columns: usize,
    variables: &[&Evaluated],
) -> Result<(), AllocError>
    ensures { IfOk result
        (λ _. string_bytes out.new
        ≡ string_bytes out.old ++ flat_map (line format columns) (map (λ v. v.now) variables.now)) }
{
    'variables: for variable in variables {
        push_line(alloc, out, format, columns, variable)?;
    }
    Ok(())
}

/// The greater of two.
fn greater(so_far: usize, columns: usize) -> usize
    ensures { result ≡ greater so_far columns }
{
    if so_far < columns { columns } else { so_far }
}

/// The length of the longest name.
fn longest_name(variables: &[Evaluated]) -> usize
    ensures { result ≡ longest_name variables.now }
{
    let mut longest = 0;
    'variables: for variable in variables {
        longest = greater(longest, variable.name.as_str().len());
    }
    longest
}

/// Variables with their values in the order of their names, as `--evaluate` prints them.
pub fn evaluation(
    alloc: Global,
    format: EvaluateFormat,
    variables: &[Evaluated],
) -> Result<String, NoMemory>
    ensures { IfOk result (λ t. string_bytes t ≡ evaluated_text format variables.now) }
{
    let columns = longest_name(variables);
    let ordered = by_name(alloc, variables)?;
    let mut out = String::new(alloc);
    push_lines(alloc, &mut out, format, columns, ordered.as_slice())?;
    Ok(out)
}
