//! How refusals of a request are told.

ghost use Rattle.std.specs.Prelude.{◌≡◌, ◌++◌, codes};
ghost use Rattle.std.specs.Fmt.{WritesOnOk};
ghost use Rattle.just_print.specs.SmallTexts.{list_text};
ghost use Rattle.just_lang_types.specs.Features.{feature_text};
ghost use Rattle.just_print.specs.Usages.{usage_text as usage_of};
ghost use Rattle.just_exec.specs.Parts.{circular_text, absent_text, values_text, pattern_text, default_text, overrides_text, takes_text};
ghost use Rattle.just_exec.specs.Texts.{count_text, unstable_text};

use super::parts::{least, most, takes_one_number};
use super::sentences::{
    tell_counted, tell_listed, tell_naming, tell_part, tell_recipe, tell_ticked,
};
use just_config::UnstableFeature;
use just_lang_types::{Modulepath, Parameter};
use just_path_text::Text;
use just_print::{List, Usage};
use std::fmt;

/// An import that leads to itself.
pub(crate) fn tell_circular<W: fmt::Write>(
    current: &str,
    import: &str,
    f: &mut fmt::Formatter<W>,
) -> fmt::Result
    ensures { WritesOnOk W.write_str_gives f.old result (circular_text current.now import.now) f.new }
{
    tell_naming("import ", import, " in ", f)?;
    tell_ticked(current, " is circular", f)
}

/// What depends on modules that aren't there; the noun has a blank behind it.
pub(crate) fn tell_absent<W: fmt::Write>(
    noun: &str,
    name: &str,
    modules: &[Text],
    f: &mut fmt::Formatter<W>,
) -> fmt::Result
    ensures { WritesOnOk W.write_str_gives f.old result (absent_text noun.now name.now modules.now) f.new }
{
    tell_naming(noun, name, " depends on absent ", f)?;
    tell_listed("module", modules, f)
}

/// A parameter was given too few or too many values.
pub(crate) fn tell_values<W: fmt::Write>(
    recipe: &Text,
    parameter: &Text,
    found: u64,
    bound: &str,
    number: u64,
    f: &mut fmt::Formatter<W>,
) -> fmt::Result
    ensures { WritesOnOk W.write_str_gives f.old result (values_text recipe.now parameter.now found bound.now number) f.new }
{
    tell_part(recipe, " parameter ", parameter, " got ", f)?;
    tell_counted(found, "value", f)?;
    write!(f, " but takes at {bound} {number}")
}

/// The patterns of a parameter.
fn tell_patterns<W: fmt::Write>(patterns: &[Text], f: &mut fmt::Formatter<W>) -> fmt::Result
    ensures { WritesOnOk W.write_str_gives f.old result (list_text (codes "or") patterns.now) f.new }
{
    let list = List::or_ticked(patterns);
    write!(f, "{list}")
}

/// No pattern of a parameter matches a value.
pub(crate) fn tell_pattern<W: fmt::Write>(
    argument: &str,
    recipe: &str,
    parameter: &str,
    patterns: &[Text],
    f: &mut fmt::Formatter<W>,
) -> fmt::Result
    ensures { WritesOnOk W.write_str_gives f.old result (pattern_text argument.now recipe.now parameter.now patterns.now) f.new }
{
    tell_naming("argument ", argument, " passed to recipe ", f)?;
    tell_ticked(recipe, " parameter ", f)?;
    tell_ticked(parameter, " does not match pattern ", f)?;
    tell_patterns(patterns, f)
}

/// A default recipe that needs arguments.
pub(crate) fn tell_default<W: fmt::Write>(
    recipe: &Text,
    least: u64,
    f: &mut fmt::Formatter<W>,
) -> fmt::Result
    ensures { WritesOnOk W.write_str_gives f.old result (default_text recipe.now least) f.new }
{
    tell_recipe(
        recipe,
        " cannot be used as default recipe since it requires at least ",
        f,
    )?;
    tell_counted(least, "argument", f)
}

/// Variables that the words override and the justfile hasn't.
pub(crate) fn tell_overrides<W: fmt::Write>(
    overrides: &[Text],
    f: &mut fmt::Formatter<W>,
) -> fmt::Result
    ensures { WritesOnOk W.write_str_gives f.old result (overrides_text overrides.now) f.new }
{
    f.write_str("error: ")?;
    tell_listed("variable", overrides, f)?;
    f.write_str(" overridden on the command line but not present in justfile")
}

/// How many positional arguments a recipe takes.
fn tell_takes<W: fmt::Write>(
    parameters: &[Parameter],
    found: usize,
    f: &mut fmt::Formatter<W>,
) -> fmt::Result
    ensures { WritesOnOk W.write_str_gives f.old result (takes_text parameters.now found) f.new }
{
    let least = least(parameters);
    let most = most(parameters);
    let one = takes_one_number(parameters);
    if found < least {
        let takes = if one { "takes " } else { "takes at least " };
        write!(f, "{takes}{least}")
    } else {
        let takes = if one { "only takes " } else { "takes at most " };
        write!(f, "{takes}{most}")
    }
}

/// The short usage of a recipe.
fn tell_usage<W: fmt::Write>(
    path: &Modulepath,
    parameters: &[Parameter],
    f: &mut fmt::Formatter<W>,
) -> fmt::Result
    ensures { WritesOnOk W.write_str_gives f.old result (codes "\n" ++ usage_of path.now parameters.now) f.new }
{
    let usage = Usage { path, parameters };
    write!(f, "\n{usage}")
}

/// A recipe that got another number of positional arguments than it takes, and how it is used.
pub(crate) fn tell_count<W: fmt::Write>(
    recipe: &Text,
    path: &Modulepath,
    parameters: &[Parameter],
    found: usize,
    f: &mut fmt::Formatter<W>,
) -> fmt::Result
    ensures { WritesOnOk W.write_str_gives f.old result (count_text recipe.now path.now parameters.now found) f.new }
{
    tell_recipe(recipe, " got ", f)?;
    tell_counted(found as u64, "positional argument", f)?;
    f.write_str(" but ")?;
    tell_takes(parameters, found, f)?;
    tell_usage(path, parameters, f)
}

/// An unstable feature, and how it may be used.
pub(crate) fn tell_unstable<W: fmt::Write>(
    feature: &UnstableFeature,
    f: &mut fmt::Formatter<W>,
) -> fmt::Result
    ensures { WritesOnOk W.write_str_gives f.old result (unstable_text (feature_text feature.now)) f.new }
{
    write!(f, "error: {feature}, invoke `just` with `--unstable`, ")?;
    f.write_str("set the `JUST_UNSTABLE` environment variable, ")?;
    f.write_str("or add `set unstable` to your `justfile` to enable unstable features")
}
