//! Lists of a tree, which take no more room than their items.
ghost use Rattle.std.specs.Prelude.{◌≡◌, ◌++◌, ◌∷◌, [], IfOk};

use just_path_text::Seq;
use std::alloc::AllocError;

/// How many items of a list take room one by one.
const FEW: usize = 4;

/// Adds an item behind others. The first few take room for themselves alone, since most lists of a justfile are short.
pub fn add<T: Drop>(found: &mut Vec<T>, item: T) -> Result<(), AllocError>
    ensures { IfOk result (λ u. found.new.items ≡ found.old.items ++ item ∷ []) }
{
    if found.len() < FEW {
        found.reserve_exact(1)?;
    }
    found.push(item)?;
    Ok(())
}

/// The list of these items, without the room that is left behind them.
pub fn list_of<T>(mut found: Vec<T>) -> Seq<T>
    ensures { result ≡ found.items }
{
    found.shrink_to_fit();
    Seq::from(found)
}
