//! Lines that are run one by one, and lines of scripts.

ghost use Rattle.std.specs.Prelude.{◌≡◌, map};
ghost use Rattle.std.specs.List.{filter};
ghost use Rattle.just_eval_closure.specs.Answers.{Gives, each};
ghost use Rattle.just_eval_closure.specs.Entries.{located_of, Sees};
ghost use Rattle.just_eval.specs.Bodies.{is_hashed, begin_comment, script_line, command_line, is_run};
ghost use Rattle.just_eval.specs.Parts.{fragment_of, fragments_of, line_of};

use super::part::{Joined, Part};
use super::sigils::split_sigils;
use super::text::{push_front, text_behind, text_of_fragments};
use just_eval_closure::Entry;
use just_lang_syntax::Line;
use just_lang_types::project::LangError;
use just_lang_types::{BodyLine, Scopes, Value};
use just_path_text::Seq;
use std::alloc::Global;

/// Whether a part begins with `#`.
fn is_hashed(part: Part<'_>) -> bool
    ensures { result ≡ is_hashed (fragment_of part.entry) }
{
    match part {
        Part::Text(text) => text.as_bytes().starts_with(b"#"),
        Part::Value(_) => false,
    }
}

/// Whether parts begin with `#`.
#[tactic(auto, using(crate::proofs::Commands::nothing_begins, crate::proofs::Commands::first_begins))]
fn begin_comment(parts: &[Part<'_>]) -> bool
    ensures { result ≡ begin_comment (fragments_of parts.now) }
{
    if parts.is_empty() {
        return false;
    }
    is_hashed(parts[0])
}

/// Whether a line of a recipe is run.
fn is_run(from: &Entry<'_>, line: &Joined<'_>) -> bool
    ensures { result ≡ is_run (located_of from.now) (line_of line.now) }
{
    !(from.parent.settings.ignore_comments && begin_comment(line.parts.as_slice()))
}

/// A line that is run by itself.
#[tactic(auto, using(crate::proofs::Commands::line_is, crate::proofs::Commands::line_refused))]
fn command_line(
    alloc: Global,
    scopes: &Scopes,
    from: &Entry<'_>,
    values: &[Value],
    line: &Joined<'_>,
) -> Result<BodyLine, LangError>
    requires { Sees scopes.now from.now }
    ensures { Gives (command_line scopes.now (located_of from.now) values.now (line_of line.now)) result }
{
    let parts = line.parts.as_slice();
    let mut front = String::new(alloc);
    let behind = push_front(&mut front, parts)?;
    let (sigils, text) = split_sigils(from.parent.settings.guards, front.as_str());
    let text = text_behind(alloc, scopes, from, values, text, &parts[behind..])?;
    Ok(BodyLine {
        number: line.number,
        text,
        quiet: sigils.quiet,
        forgiving: sigils.forgiving,
        guard: sigils.guard,
    })
}

/// The lines that are run one by one, of those that are joined.
#[tactic(auto, using(crate::proofs::Kept::kept_more, crate::proofs::Kept::kept_refused, crate::proofs::Kept::passed_over, crate::proofs::Kept::kept_end))]
pub(crate) fn command_lines(
    alloc: Global,
    scopes: &Scopes,
    from: &Entry<'_>,
    values: &[Value],
    lines: &[Joined<'_>],
) -> Result<Seq<BodyLine>, LangError>
    requires { Sees scopes.now from.now }
    ensures { Gives (each (command_line scopes.now (located_of from.now) values.now) (filter (is_run (located_of from.now)) (map line_of lines.now))) result }
{
    let mut found = Vec::new(alloc);
    'lines: for line in lines {
        if !is_run(from, line) {
            continue;
        }
        found.push(command_line(alloc, scopes, from, values, line)?)?;
    }
    Ok(Seq::from(found))
}

/// A line of a script.
#[tactic(auto, using(crate::proofs::Commands::script_is, crate::proofs::Commands::script_refused))]
fn script_line(
    alloc: Global,
    scopes: &Scopes,
    from: &Entry<'_>,
    values: &[Value],
    line: &Line,
) -> Result<BodyLine, LangError>
    requires { Sees scopes.now from.now }
    ensures { Gives (script_line scopes.now (located_of from.now) values.now line.now) result }
{
    let text = text_of_fragments(alloc, scopes, from, values, line.fragments.as_slice())?;
    Ok(BodyLine {
        number: line.number,
        text,
        quiet: false,
        forgiving: false,
        guard: false,
    })
}

/// The lines of a script.
#[tactic(auto, using(just_eval_closure::proofs::Each::each_more, just_eval_closure::proofs::Each::each_end, just_eval_closure::proofs::Each::each_refused))]
pub(crate) fn script_lines(
    alloc: Global,
    scopes: &Scopes,
    from: &Entry<'_>,
    values: &[Value],
    lines: &[Line],
) -> Result<Seq<BodyLine>, LangError>
    requires { Sees scopes.now from.now }
    ensures { Gives (each (script_line scopes.now (located_of from.now) values.now) lines.now) result }
{
    let mut found = Vec::new(alloc);
    'lines: for line in lines {
        found.push(script_line(alloc, scopes, from, values, line)?)?;
    }
    Ok(Seq::from(found))
}
