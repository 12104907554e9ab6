//! The texts of lines.

ghost use Rattle.std.specs.Prelude.{◌≡◌, ◌≢◌, ◌≤◌, ◌++◌, Ok, Err, IfOk, IfErr, OnOk, string_bytes, drop, length};
ghost use Rattle.just_lang_types.specs.declared.project.LangError.{LangError};
ghost use Rattle.just_eval_closure.specs.Entries.{located_of, Sees};
ghost use Rattle.just_eval.specs.Bodies.{front, behind_front, fragment_text, text_of_fragments};
ghost use Rattle.just_eval.specs.Parts.{fragment_of, fragments_of, put_behind};

use super::part::{Part, part_of};
use just_eval_closure::{Entry, text_in_recipe};
use just_lang_syntax::Fragment;
use just_lang_types::project::LangError;
use just_lang_types::{Scopes, Value};
use just_path_text::{NoMemory, Text};
use std::alloc::Global;

/// Adds the text in front of the first value, and answers the place of that value.
#[tactic(auto, using(crate::proofs::Fronts::text_more, crate::proofs::Fronts::text_passed, crate::proofs::Fronts::value_ends, crate::proofs::Fronts::value_stays, crate::proofs::Fronts::all_texts, crate::proofs::Fronts::all_passed))]
pub(crate) fn push_front(text: &mut String, parts: &[Part<'_>]) -> Result<usize, NoMemory>
    ensures front { IfOk result (λ at. string_bytes text.new ≡ string_bytes text.old ++ front (fragments_of parts.now)) }
    ensures behind { IfOk result (λ at. fragments_of (drop at parts.now) ≡ behind_front (fragments_of parts.now)) }
    ensures within { IfOk result (λ at. at ≤ length parts.now) }
{
    'parts: for at in 0..parts.len() {
        let part = parts[at];
        match part {
            Part::Text(part) => text.push_str(part)?,
            Part::Value(_) => return Ok(at),
        }
    }
    Ok(parts.len())
}

/// Adds the text of a part in a recipe whose parameters have these values.
fn push_part(
    alloc: Global,
    scopes: &Scopes,
    from: &Entry<'_>,
    values: &[Value],
    text: &mut String,
    part: Part<'_>,
) -> Result<(), LangError>
    requires { Sees scopes.now from.now }
    ensures added { OnOk result (put_behind (string_bytes text.old) (fragment_text scopes.now (located_of from.now) values.now (fragment_of part.entry)) ≡ Ok (string_bytes text.new)) }
    ensures refused { IfErr result (λ e. e ≢ LangError.NoMemory → fragment_text scopes.now (located_of from.now) values.now (fragment_of part.entry) ≡ Err e) }
{
    match part {
        Part::Text(part) => {
            text.push_str(part)?;
            Ok(())
        }
        Part::Value(expr) => {
            let value = text_in_recipe(alloc, scopes, from, values, expr)?;
            let pushed = text.push_str(value.as_str());
            drop(value);
            pushed?;
            Ok(())
        }
    }
}

/// A text, and behind it those of parts.
#[tactic(auto, using(crate::proofs::Texts::part_more, crate::proofs::Texts::part_refused, crate::proofs::Texts::parts_end))]
pub(crate) fn text_behind(
    alloc: Global,
    scopes: &Scopes,
    from: &Entry<'_>,
    values: &[Value],
    front: &str,
    parts: &[Part<'_>],
) -> Result<Text, LangError>
    requires { Sees scopes.now from.now }
    ensures text { IfOk result (λ t. put_behind front.now (text_of_fragments scopes.now (located_of from.now) values.now (fragments_of parts.now)) ≡ Ok t) }
    ensures refused { IfErr result (λ e. e ≢ LangError.NoMemory → put_behind front.now (text_of_fragments scopes.now (located_of from.now) values.now (fragments_of parts.now)) ≡ Err e) }
{
    let mut text = String::from_str(alloc, front)?;
    'parts: for part in parts {
        push_part(alloc, scopes, from, values, &mut text, *part)?;
    }
    Ok(Text::from(text))
}

/// The texts of fragments, one behind the other.
#[tactic(auto, using(crate::proofs::Texts::fragment_more, crate::proofs::Texts::fragment_refused, crate::proofs::Texts::fragments_end, crate::proofs::Texts::nothing_in_front))]
pub(crate) fn text_of_fragments(
    alloc: Global,
    scopes: &Scopes,
    from: &Entry<'_>,
    values: &[Value],
    fragments: &[Fragment],
) -> Result<Text, LangError>
    requires { Sees scopes.now from.now }
    ensures text { IfOk result (λ t. text_of_fragments scopes.now (located_of from.now) values.now fragments.now ≡ Ok t) }
    ensures refused { IfErr result (λ e. e ≢ LangError.NoMemory → text_of_fragments scopes.now (located_of from.now) values.now fragments.now ≡ Err e) }
{
    let mut text = String::new(alloc);
    'fragments: for fragment in fragments {
        push_part(alloc, scopes, from, values, &mut text, part_of(fragment))?;
    }
    Ok(Text::from(text))
}
