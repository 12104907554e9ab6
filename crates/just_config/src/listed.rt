//! Overrides as a list in prose has them.
ghost use Rattle.std.specs.Prelude.{◌≡◌, [], map, IfOk, OnOk};
ghost use Rattle.std.specs.BTreeMap.{insert_entry};
ghost use Rattle.just_config.specs.Listed.{set_all, variable_cmp, entry_text, listed};

use just_config_words::prefix_of;
use just_lang_types::Override;
use just_path_text::{NoMemory, Seq, Text};
use std::alloc::Global;
use std::collections::BTreeMap;

/// A variable: the path of its module, and its name.
type Variable = (Seq<Text>, Text);

/// Sets the variable of an override.
fn set(values: &mut BTreeMap<Variable, Text>, one: &Override) -> Result<(), NoMemory>
    ensures { OnOk result (values.new.entries ≡ insert_entry variable_cmp values.old.entries (one.now.module.components, one.now.name) one.now.value) }
{
    let variable = (one.module.components.try_clone()?, one.name.try_clone()?);
    values.insert(variable, one.value.try_clone()?)?;
    Ok(())
}

/// The last value of each variable.
fn values_of(alloc: Global, overrides: &[Override]) -> Result<BTreeMap<Variable, Text>, NoMemory>
    ensures { IfOk result (λ values. values.entries ≡ set_all [] overrides.now) }
{
    let mut values = BTreeMap::new(alloc);
    'overrides: for one in overrides {
        set(&mut values, one)?;
    }
    Ok(values)
}

/// A variable with its value.
fn entry_text(alloc: Global, variable: &Variable, value: &Text) -> Result<Text, NoMemory>
    ensures { IfOk result (λ text. text ≡ entry_text (variable.now, value.now)) }
{
    let mut text = prefix_of(alloc, variable.0.as_slice())?;
    text.push_str(variable.1.as_str())?;
    text.push('=')?;
    text.push_str(value.as_str())?;
    Ok(Text::from(text))
}

/// A variable with its value, which are let go.
fn into_text(alloc: Global, variable: Variable, value: Text) -> Result<Text, NoMemory>
    ensures { IfOk result (λ text. text ≡ entry_text (variable, value)) }
{
    entry_text(alloc, &variable, &value)
}

/// The variables with their values, in order.
fn texts_of(alloc: Global, values: BTreeMap<Variable, Text>) -> Result<Seq<Text>, NoMemory>
    ensures { IfOk result (λ texts. texts ≡ map entry_text values.entries) }
{
    let mut rest = values;
    let mut texts = Vec::new(alloc);
    'entries: while let Some((variable, value)) = rest.pop_first() {
        texts.push(into_text(alloc, variable, value)?)?;
    }
    Ok(Seq::from(texts))
}

/// Each variable once with its last value, as `module::name=value`, ordered by module path and then by name.
pub(crate) fn listed(alloc: Global, overrides: &[Override]) -> Result<Seq<Text>, NoMemory>
    ensures { IfOk result (λ texts. texts ≡ listed overrides.now) }
{
    let values = values_of(alloc, overrides)?;
    texts_of(alloc, values)
}
