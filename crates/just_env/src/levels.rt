//! Changes, level by level.

ghost use Rattle.std.specs.Prelude.{◌≡◌, map, Some, None, IfOk, OnOk};
ghost use Rattle.std.specs.BTreeMap.{insert_entry};
ghost use Rattle.std.specs.List.{flat_map};
ghost use Rattle.just_env.specs.Changes.{text_cmp, given_text, exported, exports, put_all, gets, goes, level_changes};

use just_eval_closure::text_of;
use just_lang_types::{Binding, Level, Value};
use just_path_text::{NoMemory, Text};
use std::alloc::Global;
use std::collections::BTreeMap;

/// The changes so far: a name with the text that it gets, or with none, where it is taken out.
pub(crate) type Changes = BTreeMap<Text, Option<Text>>;

/// Changes a name: it gets a text, or is taken out. The earlier change of that name goes.
fn put(changes: &mut Changes, name: Text, text: Option<Text>) -> Result<(), NoMemory>
    ensures { OnOk result (changes.new.entries ≡ insert_entry text_cmp changes.old.entries name text) }
{
    changes.insert(name, text)?;
    Ok(())
}

/// Gives a name the text of a pair.
fn put_pair(changes: &mut Changes, pair: &(Text, Text)) -> Result<(), NoMemory>
    ensures { OnOk result
        (changes.new.entries ≡ insert_entry text_cmp changes.old.entries pair.now.0 (Some pair.now.1)) }
{
    let name = pair.0.try_clone()?;
    put(changes, name, Some(pair.1.try_clone()?))
}

/// Gives names the texts of pairs, the last pair of a name its own.
pub(crate) fn put_pairs(changes: &mut Changes, pairs: &[(Text, Text)]) -> Result<(), NoMemory>
    ensures { OnOk result (changes.new.entries ≡ put_all changes.old.entries (map gets pairs.now)) }
{
    'pairs: for pair in pairs {
        put_pair(changes, pair)?;
    }
    Ok(())
}

/// Takes a name out.
fn take_name(changes: &mut Changes, name: &Text) -> Result<(), NoMemory>
    ensures { OnOk result (changes.new.entries ≡ insert_entry text_cmp changes.old.entries name.now None) }
{
    put(changes, name.try_clone()?, None)
}

/// Takes names out.
fn take_out(changes: &mut Changes, names: &[Text]) -> Result<(), NoMemory>
    ensures { OnOk result (changes.new.entries ≡ put_all changes.old.entries (map goes names.now)) }
{
    'names: for name in names {
        take_name(changes, name)?;
    }
    Ok(())
}

/// The text that a value gives to the environment, if it gives one.
fn given_text(alloc: Global, value: &Value) -> Result<Option<Text>, NoMemory>
    ensures { IfOk result (λ t. t ≡ given_text value.now) }
{
    if value.elements.is_empty() {
        return Ok(None);
    }
    Ok(Some(text_of(alloc, value)?))
}

/// The name and the text of a binding, where it is exported.
fn exported(
    alloc: Global,
    all: bool,
    prelude: bool,
    binding: &Binding,
) -> Result<Option<(Text, Text)>, NoMemory>
    ensures { IfOk result (λ e. e ≡ exported all prelude binding.now) }
{
    if !(binding.export || all && !prelude) {
        return Ok(None);
    }
    match given_text(alloc, &binding.value)? {
        Some(text) => Ok(Some((binding.name.try_clone()?, text))),
        None => Ok(None),
    }
}

/// The names and texts that a level exports.
fn exports(alloc: Global, all: bool, level: &Level) -> Result<Vec<(Text, Text)>, NoMemory>
    ensures { IfOk result (λ pairs. pairs.items ≡ exports all level.now) }
{
    let mut pairs = Vec::new(alloc);
    'bindings: for binding in level.bindings.as_slice() {
        if let Some(pair) = exported(alloc, all, level.prelude, binding)? {
            pairs.push(pair)?;
        }
    }
    Ok(pairs)
}

/// Changes what a level says.
#[tactic(auto, using(crate::proofs::Put::level_put_all))]
pub(crate) fn put_level(
    alloc: Global,
    changes: &mut Changes,
    all: bool,
    unexports: &[Text],
    level: &Level,
) -> Result<(), NoMemory>
    ensures { OnOk result (changes.new.entries ≡ put_all changes.old.entries (level_changes all unexports.now level.now)) }
{
    let pairs = exports(alloc, all, level)?;
    take_out(changes, unexports)?;
    put_pairs(changes, pairs.as_slice())
}

/// Changes what levels say, the outermost first.
#[tactic(auto, using(crate::proofs::Put::level_put_more))]
pub(crate) fn put_levels(
    alloc: Global,
    changes: &mut Changes,
    all: bool,
    unexports: &[Text],
    levels: &[Level],
) -> Result<(), NoMemory>
    ensures { OnOk result (changes.new.entries ≡ put_all changes.old.entries (flat_map (level_changes all unexports.now) levels.now)) }
{
    'levels: for level in levels {
        put_level(alloc, changes, all, unexports, level)?;
    }
    Ok(())
}
