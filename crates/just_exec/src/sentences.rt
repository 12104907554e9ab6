//! The forms of sentences that the texts of errors have.

ghost use Rattle.std.specs.Prelude.{◌≡◌, ◌++◌, codes, length};
ghost use Rattle.std.specs.Fmt.{WritesOnOk};
ghost use Rattle.just_print.specs.SmallTexts.{list_text};
ghost use Rattle.just_exec.specs.Parts.{fault_text, place_text, several, counted, listed, ticked_before, naming, of_recipe, of_part, of_switch};

use super::parts::{fault_text, plural_end};
use just_host_record::HostFault;
use just_lang_types::Switch;
use just_path_text::Text;
use just_print::List;
use std::fmt;

/// A text in backquotes between two others.
pub(crate) fn tell_naming<W: fmt::Write>(
    before: &str,
    name: &str,
    behind: &str,
    f: &mut fmt::Formatter<W>,
) -> fmt::Result
    ensures { WritesOnOk W.write_str_gives f.old result (naming before.now name.now behind.now) f.new }
{
    write!(f, "error: {before}`{name}`{behind}")
}

/// What is refused at a path.
pub(crate) fn tell_at<W: fmt::Write>(
    before: &str,
    path: &str,
    io: HostFault,
    f: &mut fmt::Formatter<W>,
) -> fmt::Result
    ensures { WritesOnOk W.write_str_gives f.old result (naming before.now path.now (codes ": " ++ fault_text io)) f.new }
{
    write!(f, "error: {before}`{path}`: {}", fault_text(io))
}

/// A refusal behind what it is of.
pub(crate) fn tell_fault<W: fmt::Write>(
    before: &str,
    io: HostFault,
    f: &mut fmt::Formatter<W>,
) -> fmt::Result
    ensures { WritesOnOk W.write_str_gives f.old result (codes "error: " ++ (before.now ++ fault_text io)) f.new }
{
    write!(f, "error: {before}{}", fault_text(io))
}

/// A list behind a name.
pub(crate) fn tell_list<W: fmt::Write>(
    before: &str,
    name: &str,
    texts: &[Text],
    f: &mut fmt::Formatter<W>,
) -> fmt::Result
    ensures { WritesOnOk W.write_str_gives f.old result (naming before.now name.now (codes ": " ++ list_text (codes "and") texts.now)) f.new }
{
    let list = List::and_ticked(texts);
    write!(f, "error: {before}`{name}`: {list}")
}

/// What is told of a recipe.
pub(crate) fn tell_recipe<W: fmt::Write>(
    recipe: &Text,
    told: &str,
    f: &mut fmt::Formatter<W>,
) -> fmt::Result
    ensures { WritesOnOk W.write_str_gives f.old result (of_recipe recipe.now told.now) f.new }
{
    let recipe = recipe.as_str();
    write!(f, "error: recipe `{recipe}`{told}")
}

/// What is told of a recipe and of a part of it, as a parameter, a shell or an output.
pub(crate) fn tell_part<W: fmt::Write>(
    recipe: &Text,
    before: &str,
    part: &Text,
    behind: &str,
    f: &mut fmt::Formatter<W>,
) -> fmt::Result
    ensures { WritesOnOk W.write_str_gives f.old result (of_part recipe.now before.now part.now behind.now) f.new }
{
    let recipe = recipe.as_str();
    let part = part.as_str();
    write!(f, "error: recipe `{recipe}`{before}`{part}`{behind}")
}

/// What is told of a recipe and one of its switches.
pub(crate) fn tell_switch<W: fmt::Write>(
    recipe: &Text,
    before: &str,
    switch: &Switch,
    behind: &str,
    f: &mut fmt::Formatter<W>,
) -> fmt::Result
    ensures { WritesOnOk W.write_str_gives f.old result (of_switch recipe.now before.now switch.now behind.now) f.new }
{
    let recipe = recipe.as_str();
    write!(f, "error: recipe `{recipe}`{before}`{switch}`{behind}")
}

/// A place in a file.
pub(crate) fn tell_place<W: fmt::Write>(
    before: &str,
    path: &str,
    line: usize,
    column: usize,
    f: &mut fmt::Formatter<W>,
) -> fmt::Result
    ensures { WritesOnOk W.write_str_gives f.old result (codes "error: " ++ (before.now ++ (codes " at " ++ place_text path.now line column))) f.new }
{
    write!(f, "error: {before} at {path}:{line}:{column}")
}

/// A text in backquotes, and what stands behind it.
pub(crate) fn tell_ticked<W: fmt::Write>(
    name: &str,
    behind: &str,
    f: &mut fmt::Formatter<W>,
) -> fmt::Result
    ensures { WritesOnOk W.write_str_gives f.old result (ticked_before name.now behind.now) f.new }
{
    write!(f, "`{name}`{behind}")
}

/// A noun for so many things.
fn tell_several<W: fmt::Write>(noun: &str, number: u64, f: &mut fmt::Formatter<W>) -> fmt::Result
    ensures { WritesOnOk W.write_str_gives f.old result (several noun.now number) f.new }
{
    f.write_str(noun)?;
    f.write_str(plural_end(number))
}

/// A number of things.
pub(crate) fn tell_counted<W: fmt::Write>(
    number: u64,
    noun: &str,
    f: &mut fmt::Formatter<W>,
) -> fmt::Result
    ensures { WritesOnOk W.write_str_gives f.old result (counted number noun.now) f.new }
{
    let end = plural_end(number);
    write!(f, "{number} {noun}{end}")
}

/// Things by their names.
pub(crate) fn tell_listed<W: fmt::Write>(
    noun: &str,
    names: &[Text],
    f: &mut fmt::Formatter<W>,
) -> fmt::Result
    ensures { WritesOnOk W.write_str_gives f.old result (listed noun.now names.now) f.new }
{
    let list = List::and_ticked(names);
    tell_several(noun, names.len() as u64, f)?;
    write!(f, " {list}")
}
