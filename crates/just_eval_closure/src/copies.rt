//! Copies of keys with room for just what they hold: a closure keeps some of each key.

ghost use Rattle.std.specs.Prelude.{◌≡◌, IfOk};

use just_lang_types::Key;
use just_path_text::{NoMemory, Seq, TryClone};
use std::alloc::Global;

/// Copies of keys, with room for just these.
pub(crate) fn copy_of_keys(alloc: Global, keys: &[Key]) -> Result<Seq<Key>, NoMemory>
    ensures { IfOk result (λ copies. copies ≡ keys.now) }
{
    let mut copies = Vec::with_capacity(alloc, keys.len())?;
    'keys: for key in keys {
        copies.push(key.try_clone()?)?;
    }
    Ok(Seq::from(copies))
}
