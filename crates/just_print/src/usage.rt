//! How a recipe is used, as messages tell it.

ghost use Rattle.std.specs.Prelude.{◌≡◌, Some};
ghost use Rattle.std.specs.List.{flat_map};
ghost use Rattle.std.specs.Fmt.{WritesOnOk};
ghost use Rattle.just_print.specs.Usages.{is_option, is_optional, has_options, behind, led, path_text, parameter_text, argument_text, usage_text};

use just_lang_types::{Modulepath, Parameter, ParameterKind, is_variadic};
use just_path_text::Text;
use std::fmt;

/// How a recipe is used: `usage:`, and on a line of its own its path and its parameters, of which those that are options are
/// told by `[OPTIONS]`.
#[derive(Clone, Copy, Drop)]
pub struct Usage<'a> {
    pub path: &'a Modulepath,
    pub parameters: &'a [Parameter],
}

/// A parameter: its name, with `...` behind it where it takes several values, in brackets where it needs none.
#[derive(Clone, Copy, Drop)]
pub struct UsageParameter<'a> {
    pub parameter: &'a Parameter,
}

/// Whether a parameter is an option: it has a name for switches, and no positional word is its.
pub fn is_option(parameter: &Parameter) -> bool
    ensures { result ≡ is_option parameter.now }
{
    parameter.long.is_some() || parameter.short.is_some()
}

/// Whether a parameter may be left out.
pub fn is_optional(parameter: &Parameter) -> bool
    ensures { result ≡ is_optional parameter.now }
{
    parameter.default.is_some() || parameter.kind == ParameterKind::Star
}

impl<'a> fmt::Display for UsageParameter<'a> {
    ghost output = { λ u. Some (parameter_text u.parameter.now) };

    fn fmt<W: fmt::Write>(&self, f: &mut fmt::Formatter<W>) -> fmt::Result {
        let name = self.parameter.name.as_str();
        let several = if is_variadic(self.parameter.kind) {
            "..."
        } else {
            ""
        };
        if is_optional(self.parameter) {
            write!(f, "[{name}{several}]")
        } else {
            write!(f, "{name}{several}")
        }
    }
}

impl<'a> fmt::Display for Usage<'a> {
    ghost output = { λ u. Some (usage_text u.path.now u.parameters.now) };

    fn fmt<W: fmt::Write>(&self, f: &mut fmt::Formatter<W>) -> fmt::Result {
        f.write_str("usage:\n    just ")?;
        write_path(self.path.components.as_slice(), f)?;
        if has_options(self.parameters) {
            f.write_str(" [OPTIONS]")?;
        }
        write_arguments(self.parameters, f)
    }
}

/// Whether one of the parameters is an option.
pub fn has_options(parameters: &[Parameter]) -> bool
    ensures { result ≡ has_options parameters.now }
{
    parameters.iter().any(is_option)
}

/// Writes the components of a path, joined by `::`.
fn write_path<W: fmt::Write>(components: &[Text], f: &mut fmt::Formatter<W>) -> fmt::Result
    ensures { WritesOnOk W.write_str_gives f.old result (path_text components.now) f.new }
{
    match components {
        [] => Ok(()),
        [first, others @ ..] => {
            f.write_str(first.as_str())?;
            write_led(others, f)
        }
    }
}

/// Writes a component of a path behind `::`.
fn write_behind<W: fmt::Write>(component: &Text, f: &mut fmt::Formatter<W>) -> fmt::Result
    ensures { WritesOnOk W.write_str_gives f.old result (behind component.now) f.new }
{
    f.write_str("::")?;
    f.write_str(component.as_str())
}

/// Writes components of a path, each behind `::`.
fn write_led<W: fmt::Write>(components: &[Text], f: &mut fmt::Formatter<W>) -> fmt::Result
    ensures { WritesOnOk W.write_str_gives f.old result (led components.now) f.new }
{
    'components: for component in components {
        write_behind(component, f)?;
    }
    Ok(())
}

/// Writes a parameter that is no option, behind a blank.
fn write_argument<W: fmt::Write>(parameter: &Parameter, f: &mut fmt::Formatter<W>) -> fmt::Result
    ensures { WritesOnOk W.write_str_gives f.old result (argument_text parameter.now) f.new }
{
    if is_option(parameter) {
        return Ok(());
    }
    let usage = UsageParameter { parameter };
    write!(f, " {usage}")
}

/// Writes the parameters that are no options.
fn write_arguments<W: fmt::Write>(
    parameters: &[Parameter],
    f: &mut fmt::Formatter<W>,
) -> fmt::Result
    ensures { WritesOnOk W.write_str_gives f.old result (flat_map argument_text parameters.now) f.new }
{
    'parameters: for parameter in parameters {
        write_argument(parameter, f)?;
    }
    Ok(())
}
