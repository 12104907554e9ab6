//! The variables that fill what the words left out.
ghost use Rattle.std.specs.Prelude.{◌≡◌, ◌++◌, ◌∷◌, ◌≤◌, [], map, take, length, vec_len, IfOk, None, Some, MatchOption};
ghost use Rattle.just_config_words.specs.Table.{table, row_of};
ghost use Rattle.just_config_words.specs.Variables.{text_for, variable_name, ill_variable, carried, from_variable, IsFilled};

use super::occurrence::is_given;
use super::table::{Row, rows};
use super::word::Word;
use super::{Kind, Occurrence};
use just_path_text::{Environ, NoMemory, Seq, Text};
use std::alloc::Global;

/// The name of a row's variable and its text, where the option of the row isn't given.
fn text_for<'a>(
    environ: &'a Environ,
    given: &[Occurrence],
    row: &Row,
) -> Option<(&'static str, &'a str)>
    ensures { MatchOption result (text_for environ.now.pairs given.now (row_of row.now) ≡ None) (λ p. (text_for environ.now.pairs given.now (row_of row.now) ≡ Some p.1.now) × (p.0.now ≡ variable_name (row_of row.now))) }
{
    let variable = row.variable?;
    if is_given(row.name, given) {
        return None;
    }
    match environ.get(variable) {
        Some(text) => Some((variable, text)),
        None => None,
    }
}

/// What a variable's text is to an option of the kind: a value, or nothing for a flag.
fn carried(alloc: Global, kind: Kind, text: &str) -> Result<Seq<Text>, NoMemory>
    ensures { IfOk result (λ v. v ≡ carried kind text.now) }
{
    let mut values = Vec::new(alloc);
    match kind {
        Kind::Flag => {}
        _ => values.push(Text::from_str(alloc, text)?)?,
    }
    Ok(Seq::from(values))
}

/// Adds the option that the variable of a row gives, or tells the variable whose text isn't in the form.
fn fill_row(
    alloc: Global,
    environ: &Environ,
    given: &mut Vec<Occurrence>,
    count: usize,
    row: &Row,
) -> Result<Option<&'static str>, NoMemory>
    requires { count ≤ vec_len given.old }
    ensures { IfOk result (λ r. MatchOption r ((ill_variable environ.now.pairs (take count given.old.items) (row_of row.now) ≡ None) × (given.new.items ≡ given.old.items ++ from_variable environ.now.pairs (take count given.old.items) (row_of row.now))) (λ v. (ill_variable environ.now.pairs (take count given.old.items) (row_of row.now) ≡ Some v.now) × (given.new.items ≡ given.old.items))) }
{
    let Some((variable, text)) = text_for(environ, &given[..count], row) else {
        return Ok(None);
    };
    if !row.form.has(text) {
        return Ok(Some(variable));
    }
    if row.form.is_given_by(text) {
        given.push(Occurrence {
            option: row.entry(alloc)?,
            word: Word::new(alloc, variable)?,
            values: carried(alloc, row.kind, text)?,
        })?;
    }
    Ok(None)
}

/// Adds the options that variables give to those of the words; or tells the first variable whose text isn't in the form.
#[tactic(auto, using(crate::proofs::Filled::take_front))]
pub(crate) fn fill(
    alloc: Global,
    environ: &Environ,
    given: &mut Vec<Occurrence>,
) -> Result<Option<&'static str>, NoMemory>
    ensures { IfOk result (λ r. IsFilled environ.now.pairs given.old.items given.new.items r) }
{
    let count = given.len();
    'rows: for row in rows() {
        if let Some(variable) = fill_row(alloc, environ, given, count, row)? {
            return Ok(Some(variable));
        }
    }
    Ok(None)
}
