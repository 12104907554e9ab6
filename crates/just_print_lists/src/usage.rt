//! How a recipe is used, at length.
ghost use Rattle.std.specs.Prelude.{◌≡◌, ◌++◌, IfOk, string_bytes};
ghost use Rattle.std.specs.List.{flat_map};
ghost use Rattle.just_print.specs.Printed.{only_if};
ghost use Rattle.just_print.specs.Usages.{parameter_text, argument_text};
ghost use Rattle.just_print_lists.specs.LongUsages.{alias_line, is_argument, has_arguments, short_text, long_text, option_name, option_text, help_text, usage_word, options_sign, arguments_word, options_word, default_word, pattern_word, default_value, default_text, patterns_text, pattern_text, details, argument_line, option_line, arguments_text, options_text, head_text, usage_text};

use super::path::path_text;
use super::texts::{push_if, push_separated};
use just_lang_types::{Expr, Parameter, Pattern, is_variadic};
use just_path_text::{NoMemory, Text};
use just_print::{has_options, is_option, is_optional, push_expr};
use std::alloc::{AllocError, Global};

/// What a usage begins with.
#[tactic(auto, unfolding(crate::specs::LongUsages::usage_word))]
fn usage_word() -> &'static str
    ensures { result.now ≡ usage_word }
{
    "Usage: just "
}

/// What stands for options.
#[tactic(auto, unfolding(crate::specs::LongUsages::options_sign))]
fn options_sign() -> &'static str
    ensures { result.now ≡ options_sign }
{
    " [OPTIONS]"
}

/// What stands above arguments.
#[tactic(auto, unfolding(crate::specs::LongUsages::arguments_word))]
fn arguments_word() -> &'static str
    ensures { result.now ≡ arguments_word }
{
    "\n\nArguments:"
}

/// What stands above options.
#[tactic(auto, unfolding(crate::specs::LongUsages::options_word))]
fn options_word() -> &'static str
    ensures { result.now ≡ options_word }
{
    "\nOptions:"
}

/// What stands before a default.
#[tactic(auto, unfolding(crate::specs::LongUsages::default_word))]
fn default_word() -> &'static str
    ensures { result.now ≡ default_word }
{
    " [default: "
}

/// What stands before patterns.
#[tactic(auto, unfolding(crate::specs::LongUsages::pattern_word))]
fn pattern_word() -> &'static str
    ensures { result.now ≡ pattern_word }
{
    " [pattern: '"
}

/// Whether a parameter takes words that stand by themselves.
fn is_argument(parameter: &Parameter) -> bool
    ensures { result ≡ is_argument parameter.now }
{
    !is_option(parameter)
}

/// Whether one of the parameters takes words that stand by themselves.
fn has_arguments(parameters: &[Parameter]) -> bool
    ensures { result ≡ has_arguments parameters.now }
{
    parameters.iter().any(is_argument)
}

/// Adds a parameter's name, with `...` where it takes several values, in brackets where it may be left out.
fn push_parameter(out: &mut String, parameter: &Parameter) -> Result<(), AllocError>
    ensures { IfOk result
        (λ _. string_bytes out.new ≡ string_bytes out.old ++ parameter_text parameter.now) }
{
    if is_optional(parameter) {
        out.push_str("[")?;
        out.push_str(parameter.name.as_str())?;
        push_if(out, is_variadic(parameter.kind), "...")?;
        out.push_str("]")
    } else {
        out.push_str(parameter.name.as_str())?;
        push_if(out, is_variadic(parameter.kind), "...")
    }
}

/// Adds a parameter behind a blank, unless it is an option.
fn push_argument(out: &mut String, parameter: &Parameter) -> Result<(), AllocError>
    ensures { IfOk result
        (λ _. string_bytes out.new ≡ string_bytes out.old ++ argument_text parameter.now) }
{
    if is_option(parameter) {
        return Ok(());
    }
    out.push_str(" ")?;
    push_parameter(out, parameter)
}

/// Adds parameters, each behind a blank, but options.
fn push_arguments(out: &mut String, parameters: &[Parameter]) -> Result<(), AllocError>
    ensures { IfOk result
        (λ _. string_bytes out.new
        ≡ string_bytes out.old ++ flat_map argument_text parameters.now) }
{
    'parameters: for parameter in parameters {
        push_argument(out, parameter)?;
    }
    Ok(())
}

/// Adds the short name of an option, or blanks in its place.
fn push_short(out: &mut String, short: Option<char>) -> Result<(), AllocError>
    ensures { IfOk result (λ _. string_bytes out.new ≡ string_bytes out.old ++ short_text short) }
{
    match short {
        Some(letter) => {
            out.push_str("-")?;
            out.push(letter)
        }
        None => out.push_str("  "),
    }
}

/// Adds the long name of an option, where it has one, behind a comma or blanks.
fn push_long(out: &mut String, has_short: bool, long: &Option<Text>) -> Result<(), AllocError>
    ensures { IfOk result
        (λ _. string_bytes out.new ≡ string_bytes out.old ++ long_text has_short long.now) }
{
    match long {
        Some(name) => {
            out.push_str(if has_short { ", " } else { "  " })?;
            out.push_str("--")?;
            out.push_str(name.as_str())
        }
        None => Ok(()),
    }
}

/// Adds the name of an option's value, unless it takes none.
fn push_value_name(out: &mut String, parameter: &Parameter) -> Result<(), AllocError>
    ensures { IfOk result
        (λ _. string_bytes out.new ≡ string_bytes out.old ++ option_name parameter.now) }
{
    if parameter.flag || parameter.value.is_some() {
        return Ok(());
    }
    out.push_str(" ")?;
    out.push_str(parameter.name.as_str())
}

/// Adds an option: its names, and the name of its value.
fn push_option(out: &mut String, parameter: &Parameter) -> Result<(), AllocError>
    ensures { IfOk result
        (λ _. string_bytes out.new ≡ string_bytes out.old ++ option_text parameter.now) }
{
    push_short(out, parameter.short)?;
    push_long(out, parameter.short.is_some(), &parameter.long)?;
    push_value_name(out, parameter)
}

/// Adds what is said of a parameter, where there is something.
fn push_help(out: &mut String, help: &Option<Text>) -> Result<(), AllocError>
    ensures { IfOk result (λ _. string_bytes out.new ≡ string_bytes out.old ++ help_text help.now) }
{
    match help {
        Some(text) => {
            out.push_str(" ")?;
            out.push_str(text.as_str())
        }
        None => Ok(()),
    }
}

/// Adds a default, where there is one.
fn push_default_value(out: &mut String, default: &Option<Expr>) -> Result<(), AllocError>
    ensures { IfOk result
        (λ _. string_bytes out.new ≡ string_bytes out.old ++ default_value default.now) }
{
    match default {
        Some(value) => {
            out.push_str(default_word())?;
            push_expr(out, value)?;
            out.push_str("]")
        }
        None => Ok(()),
    }
}

/// Adds the default of a parameter, where there is one and no value is set for it.
fn push_default(out: &mut String, parameter: &Parameter) -> Result<(), AllocError>
    ensures { IfOk result
        (λ _. string_bytes out.new ≡ string_bytes out.old ++ default_text parameter.now) }
{
    if parameter.value.is_some() {
        return Ok(());
    }
    push_default_value(out, &parameter.default)
}

/// Adds patterns, where there are some.
fn push_patterns(out: &mut String, texts: &[Text]) -> Result<(), AllocError>
    ensures { IfOk result
        (λ _. string_bytes out.new ≡ string_bytes out.old ++ patterns_text texts.now) }
{
    match texts {
        [] => Ok(()),
        [_first, ..] => {
            out.push_str(pattern_word())?;
            push_separated(out, "' | '", texts)?;
            out.push_str("']")
        }
    }
}

/// Adds the patterns of a parameter, where there are some.
fn push_pattern(out: &mut String, pattern: &Option<Pattern>) -> Result<(), AllocError>
    ensures { IfOk result
        (λ _. string_bytes out.new ≡ string_bytes out.old ++ pattern_text pattern.now) }
{
    match pattern {
        None => Ok(()),
        Some(pattern) => push_patterns(out, pattern.texts.as_slice()),
    }
}

/// Adds what is told of a parameter behind it.
fn push_details(out: &mut String, parameter: &Parameter) -> Result<(), AllocError>
    ensures { IfOk result
        (λ _. string_bytes out.new ≡ string_bytes out.old ++ details parameter.now) }
{
    push_help(out, &parameter.help)?;
    push_default(out, parameter)?;
    push_pattern(out, &parameter.pattern)
}

/// Adds a parameter on a new line, unless it is an option.
fn push_argument_line(out: &mut String, parameter: &Parameter) -> Result<(), AllocError>
    ensures { IfOk result
        (λ _. string_bytes out.new ≡ string_bytes out.old ++ argument_line parameter.now) }
{
    if is_option(parameter) {
        return Ok(());
    }
    out.push_str("\n  ")?;
    push_parameter(out, parameter)?;
    push_details(out, parameter)
}

/// Adds an option on a new line.
fn push_option_line(out: &mut String, parameter: &Parameter) -> Result<(), AllocError>
    ensures { IfOk result
        (λ _. string_bytes out.new ≡ string_bytes out.old ++ option_line parameter.now) }
{
    if !is_option(parameter) {
        return Ok(());
    }
    out.push_str("\n  ")?;
    push_option(out, parameter)?;
    push_details(out, parameter)
}

/// Adds parameters but options, each on a new line.
fn push_argument_lines(out: &mut String, parameters: &[Parameter]) -> Result<(), AllocError>
    ensures { IfOk result
        (λ _. string_bytes out.new
        ≡ string_bytes out.old ++ flat_map argument_line parameters.now) }
{
    'parameters: for parameter in parameters {
        push_argument_line(out, parameter)?;
    }
    Ok(())
}

/// Adds options, each on a new line.
fn push_option_lines(out: &mut String, parameters: &[Parameter]) -> Result<(), AllocError>
    ensures { IfOk result
        (λ _. string_bytes out.new ≡ string_bytes out.old ++ flat_map option_line parameters.now) }
{
    'parameters: for parameter in parameters {
        push_option_line(out, parameter)?;
    }
    Ok(())
}

/// Adds the parameters but options below their word, where there are some.
fn push_all_arguments(out: &mut String, parameters: &[Parameter]) -> Result<(), AllocError>
    ensures { IfOk result
        (λ _. string_bytes out.new ≡ string_bytes out.old ++ arguments_text parameters.now) }
{
    if !has_arguments(parameters) {
        return Ok(());
    }
    out.push_str(arguments_word())?;
    push_argument_lines(out, parameters)
}

/// Adds the options below their word, where there are some.
fn push_all_options(out: &mut String, parameters: &[Parameter]) -> Result<(), AllocError>
    ensures { IfOk result
        (λ _. string_bytes out.new ≡ string_bytes out.old ++ options_text parameters.now) }
{
    if !has_options(parameters) {
        return Ok(());
    }
    push_if(out, has_arguments(parameters), "\n")?;
    out.push_str(options_word())?;
    push_option_lines(out, parameters)
}

/// Adds the first line: the path and the parameters, the options by one word.
fn push_head(out: &mut String, path: &str, parameters: &[Parameter]) -> Result<(), AllocError>
    ensures { IfOk result
        (λ _. string_bytes out.new ≡ string_bytes out.old ++ head_text path.now parameters.now) }
{
    out.push_str(usage_word())?;
    out.push_str(path)?;
    push_if(out, has_options(parameters), options_sign())?;
    push_arguments(out, parameters)
}

/// How a recipe is used, as `--usage` prints it behind the line of an alias: under the path that was given.
pub fn long_usage(
    alloc: Global,
    path: &[Text],
    parameters: &[Parameter],
) -> Result<String, NoMemory>
    ensures { IfOk result (λ t. string_bytes t ≡ usage_text path.now parameters.now) }
{
    let names = path_text(alloc, path)?;
    let mut out = String::new(alloc);
    push_head(&mut out, names.as_str(), parameters)?;
    push_all_arguments(&mut out, parameters)?;
    push_all_options(&mut out, parameters)?;
    out.push_str("\n")?;
    Ok(out)
}

/// The line of an alias, as `--show` and `--usage` print it first: its name, and its target as its file has it.
pub fn alias_line(alloc: Global, name: &str, target: &[Text]) -> Result<String, NoMemory>
    ensures { IfOk result (λ t. string_bytes t ≡ alias_line name.now target.now) }
{
    let path = path_text(alloc, target)?;
    let mut out = String::from_str(alloc, "alias ")?;
    out.push_str(name)?;
    out.push_str(" := ")?;
    out.push_str(path.as_str())?;
    out.push_str("\n")?;
    Ok(out)
}
