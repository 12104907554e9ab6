//! What is printed before a child starts.

ghost use Rattle.std.specs.Prelude.{◌≡◌, IfOk};
ghost use Rattle.just_exec_work.specs.Echoes.{is_quiet, shows_line, line_echo, shows_script, script_echo};

use super::placed::push_ended;
use super::{RunAttributes, RunFlags};
use just_lang_types::{BodyLine, Settings};
use just_path_text::{NoMemory, Text};
use std::alloc::Global;

/// Whether a line isn't printed, where the words don't ask for it.
fn is_quiet(
    flags: &RunFlags,
    settings: &Settings,
    attributes: &RunAttributes,
    recipe: bool,
    line: bool,
) -> bool
    ensures { result ≡ is_quiet flags.now settings.now attributes.now recipe line }
{
    let one = if line { !recipe } else { recipe };
    one || (settings.quiet && !attributes.no_quiet) || flags.quiet
}

/// Whether a line is printed, by the `@` of its recipe and its own.
pub(crate) fn shows_line(
    flags: &RunFlags,
    settings: &Settings,
    attributes: &RunAttributes,
    recipe: bool,
    line: bool,
) -> bool
    ensures { result ≡ shows_line flags.now settings.now attributes.now recipe line }
{
    flags.dry_run || flags.loquacious || !is_quiet(flags, settings, attributes, recipe, line)
}

/// Whether the lines of a script are printed, by the `@` of the recipe.
pub(crate) fn shows_script(flags: &RunFlags, recipe: bool) -> bool
    ensures { result ≡ shows_script flags.now recipe }
{
    !flags.quiet && (flags.dry_run || recipe)
}

/// What is printed for a line.
pub(crate) fn line_echo(alloc: Global, shown: bool, line: &str) -> Result<Text, NoMemory>
    ensures { IfOk result (λ t. t ≡ line_echo shown line.now) }
{
    let mut text = String::new(alloc);
    if !shown {
        return Ok(Text::from(text));
    }
    push_ended(&mut text, line)?;
    Ok(Text::from(text))
}

/// What is printed for a script.
#[tactic(auto, using(crate::proofs::Lists::joined_more, crate::proofs::Lists::joined_all))]
pub(crate) fn script_echo(alloc: Global, shown: bool, lines: &[BodyLine]) -> Result<Text, NoMemory>
    ensures { IfOk result (λ t. t ≡ script_echo shown lines.now) }
{
    let mut text = String::new(alloc);
    if !shown {
        return Ok(Text::from(text));
    }
    'lines: for line in lines {
        push_ended(&mut text, line.text.as_str())?;
    }
    Ok(Text::from(text))
}
