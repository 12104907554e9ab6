//! Names with the digits of their sums, as an ordered map.

ghost use Rattle.std.specs.Prelude.{◌≡◌, map, IfOk, OnOk};
ghost use Rattle.just_cache.specs.Maps.{AreLast, put_all, with_digits};

use super::sums::Given;
use just_path_text::{NoMemory, Seq, Text};
use std::alloc::Global;
use std::collections::BTreeMap;

/// Names with the digits of their files' sums.
pub(crate) type Digits = BTreeMap<Text, Text>;

/// Gives names the digits of their sums, the last sum of a name its own.
pub(crate) fn put_sums(alloc: Global, digits: &mut Digits, given: &[Given]) -> Result<(), NoMemory>
    ensures { OnOk result (digits.new.entries ≡ put_all digits.old.entries (map with_digits given.now)) }
{
    'given: for one in given {
        let text = Text::from(hex::encode(alloc, one.1)?);
        digits.insert(one.0.try_clone()?, text)?;
    }
    Ok(())
}

/// The pairs of a map in the order of their names, with room for so many at once.
pub(crate) fn in_order(
    alloc: Global,
    digits: Digits,
    count: usize,
) -> Result<Seq<(Text, Text)>, NoMemory>
    ensures { IfOk result (λ list. list ≡ digits.entries) }
{
    let mut rest = digits;
    let mut list = Vec::with_capacity(alloc, count)?;
    'pairs: while let Some(pair) = rest.pop_first() {
        list.push(pair)?;
    }
    Ok(Seq::from(list))
}

/// Each name once with the digits of its last sum, in the order of the names.
pub(crate) fn named(alloc: Global, given: &[Given]) -> Result<Seq<(Text, Text)>, NoMemory>
    ensures { IfOk result (λ list. AreLast (map with_digits given.now) list) }
{
    let mut digits = BTreeMap::new(alloc);
    put_sums(alloc, &mut digits, given)?;
    let count = digits.len();
    let list = in_order(alloc, digits, count)?;
    Ok(list)
}
