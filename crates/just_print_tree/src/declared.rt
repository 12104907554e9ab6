//! The `mod` of a module, and which paths are directly within one.
ghost use Rattle.std.specs.Prelude.{◌≡◌};
ghost use Rattle.std.specs.Option.{option_map};
ghost use Rattle.just_lang_spots.specs.Entries.{entry};
ghost use Rattle.just_lang_justfile.specs.Declarations.{declaration_of};
ghost use Rattle.just_lang_justfile.specs.Trees.{is_within};

use just_lang_layout::{File, Module, item_at};
use just_lang_spots::Entry;
use just_path_text::Text;

/// The `mod` that names a module; the root has none.
pub(crate) fn declaration_of<'a>(files: &'a [File], some_module: &Module) -> Option<Entry<'a>>
    ensures { option_map entry result ≡ declaration_of files.now some_module.now }
{
    match some_module.declaration {
        None => None,
        Some(placed) => item_at(files, placed),
    }
}

/// Whether a path has one name more than another, behind it.
#[tactic(auto, using(just_lang_justfile::proofs::Paths::within_is, just_lang_justfile::proofs::Paths::within_none))]
pub(crate) fn is_within(path: &[Text], inner: &[Text]) -> bool
    ensures { result ≡ is_within path.now inner.now }
{
    match inner.split_last() {
        None => false,
        Some((_, front)) => path == front,
    }
}
