//! The constants as the outermost level of scopes.

ghost use Rattle.std.specs.Prelude.{◌≡◌, map, false, IfOk, []};
ghost use Rattle.std.specs.Option.{unwrap_or};
ghost use Rattle.just_lang_types.specs.Constants.{constant_of};
ghost use Rattle.just_eval_closure.specs.Scopes.{value_of_text};
ghost use Rattle.just_eval.specs.Evaluations.{constant_level};

use just_eval_closure::value_of_text;
use just_lang_types::{Binding, Level, constant};
use just_path_text::{NoMemory, Seq, Text};
use std::alloc::Global;

/// The names of the constants.
const NAMES: [&str; 29] = [
    "HEX",
    "HEXLOWER",
    "HEXUPPER",
    "PATH_SEP",
    "PATH_VAR_SEP",
    "CLEAR",
    "NORMAL",
    "BOLD",
    "ITALIC",
    "UNDERLINE",
    "INVERT",
    "HIDE",
    "STRIKETHROUGH",
    "BLACK",
    "RED",
    "GREEN",
    "YELLOW",
    "BLUE",
    "MAGENTA",
    "CYAN",
    "WHITE",
    "BG_BLACK",
    "BG_RED",
    "BG_GREEN",
    "BG_YELLOW",
    "BG_BLUE",
    "BG_MAGENTA",
    "BG_CYAN",
    "BG_WHITE",
];

/// The text of the constant with that name; the empty text where there is none.
pub(crate) fn constant_text(alloc: Global, name: &str) -> Result<Text, NoMemory>
    ensures { IfOk result (λ text. text ≡ unwrap_or (constant_of name.now) []) }
{
    match constant(name) {
        Some(text) => Text::from_str(alloc, text),
        None => Ok(Text::from(String::new(alloc))),
    }
}

/// The constant with that name as a binding.
fn constant_binding(alloc: Global, name: &str) -> Result<Binding, NoMemory>
    ensures { IfOk result (λ b. b ≡ record { name = name.now; value = value_of_text (unwrap_or (constant_of name.now) []); export = false }) }
{
    let text = constant_text(alloc, name)?;
    let value = value_of_text(alloc, text)?;
    Ok(Binding {
        name: Text::from_str(alloc, name)?,
        value,
        export: false,
    })
}

/// The constants with these names as bindings.
fn constant_bindings(alloc: Global, names: &[&str]) -> Result<Seq<Binding>, NoMemory>
    ensures { IfOk result (λ bs. bs ≡ map (λ n. record { name = n.now; value = value_of_text (unwrap_or (constant_of n.now) []); export = false }) names.now) }
{
    let mut bindings = Vec::with_capacity(alloc, names.len())?;
    'names: for name in names {
        bindings.push(constant_binding(alloc, *name)?)?;
    }
    Ok(Seq::from(bindings))
}

/// The constants, each with its text.
pub(crate) fn constant_level(alloc: Global) -> Result<Level, NoMemory>
    ensures { IfOk result (λ level. level ≡ constant_level) }
{
    Ok(Level {
        bindings: constant_bindings(alloc, &NAMES)?,
        prelude: true,
    })
}
