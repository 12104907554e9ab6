//! A step of a loop that makes a list.
ghost use Rattle.std.specs.Prelude.{◌≡◌, ◌++◌, ◌∷◌, [], OnOk};

use just_path_text::NoMemory;

/// Adds one to a list.
pub(crate) fn push_one<T: Drop>(list: &mut Vec<T>, one: T) -> Result<(), NoMemory>
    ensures { OnOk result (list.new.items ≡ list.old.items ++ one ∷ []) }
{
    Ok(list.push(one)?)
}
