//! What the expressions of a recipe see.

ghost use Rattle.std.specs.Prelude.{◌≡◌};
ghost use Rattle.just_eval_closure.specs.Entries.{Sees};
ghost use Rattle.just_eval_closure.specs.Entries as entries;
ghost use Rattle.just_eval_words.specs.Sights.{located_of};

use super::found::Found;
use just_eval_closure::{Entry, levels, pairs_for};
use just_lang_types::Scopes;

/// A recipe that was found, with what its expressions see.
pub(crate) fn entry_of<'p>(scopes: &'p Scopes, found: Found<'p>) -> Entry<'p>
    ensures sees { Sees scopes.now result }
    ensures found { entries.located_of result ≡ located_of found.entry }
{
    let path = &found.parent.module_path;
    Entry {
        parent: found.parent,
        recipe: found.recipe,
        levels: levels(scopes, path),
        pairs: pairs_for(scopes.dotenv.as_slice(), path),
    }
}
