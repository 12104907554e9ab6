//! The parameters of a recipe, with what its attributes say of each.
ghost use Rattle.std.specs.Prelude.{◌≡◌, IfOk, chars, codes, slice_get};
ghost use Rattle.just_lang_shapes.specs.Parameters.{value_of, values_of, pattern_of, long_of, short_of, number_at, parameter_with, parameters_of};

use super::expansions::expanded_default;
use super::keys::{keys_of, stands_alone, value_of, values_of};
use just_lang_read::decimal;
use just_lang_syntax::{Argument, AstParameter, Attribute, Expr, has_key};
use just_lang_types::{Parameter, Pattern, Texts};
use just_path_text::{NoMemory, Seq, Text, TryClone};
use std::alloc::Global;

/// The long name: the text of `long`, or the parameter's name where it has none.
fn long_of<T: Texts>(
    alloc: Global,
    texts: &T,
    name: &str,
    arguments: &[Argument],
) -> Result<Option<Text>, NoMemory>
    ensures { IfOk result (λ t. t ≡ long_of (T.text_of texts.now) name.now arguments.now) }
{
    if !has_key(arguments, "long") {
        return Ok(None);
    }
    match value_of(alloc, texts, "long", arguments)? {
        Some(text) => Ok(Some(text)),
        None => Ok(Some(Text::from_str(alloc, name)?)),
    }
}

fn first_character(text: &str) -> Option<char>
    ensures { result ≡ slice_get (chars text.now) 0 }
{
    text.chars().next()
}

/// The short name: the first character of its text.
fn short_of<T: Texts>(
    alloc: Global,
    texts: &T,
    arguments: &[Argument],
) -> Result<Option<char>, NoMemory>
    ensures { IfOk result (λ c. c ≡ short_of (T.text_of texts.now) arguments.now) }
{
    match value_of(alloc, texts, "short", arguments)? {
        None => Ok(None),
        Some(text) => Ok(first_character(text.as_str())),
    }
}

/// The number that the text of that key is.
fn number_at<T: Texts>(
    alloc: Global,
    texts: &T,
    key: &str,
    arguments: &[Argument],
) -> Result<Option<u64>, NoMemory>
    ensures { IfOk result (λ n. n ≡ number_at (T.text_of texts.now) key.now arguments.now) }
{
    match value_of(alloc, texts, key, arguments)? {
        None => Ok(None),
        Some(text) => Ok(decimal(text.as_str())),
    }
}

/// The patterns, where there are any.
#[tactic(auto, using(crate::proofs::ListLaws::patterns_none, crate::proofs::ListLaws::patterns_some))]
fn pattern_of(texts: Seq<Text>) -> Option<Pattern>
    ensures { result ≡ pattern_of texts }
{
    if texts.is_empty() {
        return None;
    }
    Some(Pattern { texts })
}

/// How a parameter is given by switches.
#[derive(Drop)]
struct Switches {
    long: Option<Text>,
    short: Option<char>,
    value: Option<Text>,
}

/// How the parameter of that name is given by switches.
fn switches_of<T: Texts>(
    alloc: Global,
    texts: &T,
    name: &str,
    keys: &[Argument],
) -> Result<Switches, NoMemory>
    ensures long { IfOk result (λ s. s.long ≡ long_of (T.text_of texts.now) name.now keys.now) }
    ensures short { IfOk result (λ s. s.short ≡ short_of (T.text_of texts.now) keys.now) }
    ensures value { IfOk result (λ s. s.value ≡ value_of (T.text_of texts.now) (codes "value") keys.now) }
{
    let short = short_of(alloc, texts, keys)?;
    let long = long_of(alloc, texts, name, keys)?;
    let value = value_of(alloc, texts, "value", keys)?;
    Ok(Switches { long, short, value })
}

/// What a parameter's values have to be.
#[derive(Drop)]
struct Limits {
    help: Option<Text>,
    pattern: Option<Pattern>,
    min: Option<u64>,
    max: Option<u64>,
}

/// What the values of a parameter have to be.
fn limits_of<T: Texts>(alloc: Global, texts: &T, keys: &[Argument]) -> Result<Limits, NoMemory>
    ensures help { IfOk result (λ l. l.help ≡ value_of (T.text_of texts.now) (codes "help") keys.now) }
    ensures pattern { IfOk result (λ l. l.pattern ≡ pattern_of (values_of (T.text_of texts.now) (codes "pattern") keys.now)) }
    ensures min { IfOk result (λ l. l.min ≡ number_at (T.text_of texts.now) (codes "min") keys.now) }
    ensures max { IfOk result (λ l. l.max ≡ number_at (T.text_of texts.now) (codes "max") keys.now) }
{
    let min = number_at(alloc, texts, "min", keys)?;
    let max = number_at(alloc, texts, "max", keys)?;
    let help = value_of(alloc, texts, "help", keys)?;
    let patterns = values_of(alloc, texts, "pattern", keys)?;
    let pattern = pattern_of(patterns);
    Ok(Limits {
        help,
        pattern,
        min,
        max,
    })
}

/// What a parameter's keys say of it.
struct Keyed {
    switches: Switches,
    limits: Limits,
}

impl Drop for Keyed {
    fn drop(self) {
        let Keyed {
            switches: _,
            limits: _,
        } = self;
    }
}

impl Keyed {
    /// The parameter that the keys are for, with that name and default.
    fn parameter(
        self,
        parameter: &AstParameter,
        name: Text,
        default: Option<Expr>,
        flag: bool,
        multiple: bool,
    ) -> Parameter
        ensures { result ≡ record {
          name = name;
          kind = parameter.now.kind;
          export = parameter.now.export;
          default = default;
          long = self.switches.long;
          short = self.switches.short;
          value = self.switches.value;
          flag = flag;
          multiple = multiple;
          help = self.limits.help;
          pattern = self.limits.pattern;
          min = self.limits.min;
          max = self.limits.max;
        } }
    {
        let Keyed { switches, limits } = self;
        Parameter {
            name,
            kind: parameter.kind,
            export: parameter.export,
            default,
            long: switches.long,
            short: switches.short,
            value: switches.value,
            flag,
            multiple,
            help: limits.help,
            pattern: limits.pattern,
            min: limits.min,
            max: limits.max,
        }
    }
}

/// What these keys say of the parameter of that name.
fn keyed_of<T: Texts>(
    alloc: Global,
    texts: &T,
    name: &str,
    keys: &[Argument],
) -> Result<Keyed, NoMemory>
    ensures long { IfOk result (λ k. k.switches.long ≡ long_of (T.text_of texts.now) name.now keys.now) }
    ensures short { IfOk result (λ k. k.switches.short ≡ short_of (T.text_of texts.now) keys.now) }
    ensures value { IfOk result (λ k. k.switches.value ≡ value_of (T.text_of texts.now) (codes "value") keys.now) }
    ensures help { IfOk result (λ k. k.limits.help ≡ value_of (T.text_of texts.now) (codes "help") keys.now) }
    ensures pattern { IfOk result (λ k. k.limits.pattern
        ≡ pattern_of (values_of (T.text_of texts.now) (codes "pattern") keys.now)) }
    ensures min { IfOk result (λ k. k.limits.min ≡ number_at (T.text_of texts.now) (codes "min") keys.now) }
    ensures max { IfOk result (λ k. k.limits.max ≡ number_at (T.text_of texts.now) (codes "max") keys.now) }
{
    let limits = limits_of(alloc, texts, keys)?;
    let switches = switches_of(alloc, texts, name, keys)?;
    Ok(Keyed { switches, limits })
}

/// A parameter with what these keys say of it.
fn parameter_with<T: Texts>(
    alloc: Global,
    texts: &T,
    keys: &[Argument],
    parameter: &AstParameter,
) -> Result<Parameter, NoMemory>
    ensures { IfOk result (λ p. p ≡ parameter_with (T.text_of texts.now) keys.now parameter.now) }
{
    let called = parameter.name.text.as_str();
    let keyed = keyed_of(alloc, texts, called, keys)?;
    let name = parameter.name.text.try_clone()?;
    let default = expanded_default(alloc, texts, &parameter.default)?;
    let flag = stands_alone("flag", keys);
    let multiple = stands_alone("multiple", keys);
    let made = keyed.parameter(parameter, name, default, flag, multiple);
    Ok(made)
}

/// The parameters of a recipe with these attributes, in their order.
pub fn parameters_of<T: Texts>(
    alloc: Global,
    texts: &T,
    attributes: &[Attribute],
    parameters: &[AstParameter],
) -> Result<Seq<Parameter>, NoMemory>
    ensures { IfOk result (λ ps. ps ≡ parameters_of (T.text_of texts.now) attributes.now parameters.now) }
{
    let keys = keys_of(alloc, texts, attributes)?;
    let mut all = Vec::new(alloc);
    'parameters: for parameter in parameters {
        let of_parameter = keys.keys(&parameter.name.text);
        let made = parameter_with(alloc, texts, of_parameter, parameter)?;
        all.push(made)?;
    }
    Ok(Seq::from(all))
}
