//! What the `mod` of a module says of it.
ghost use Rattle.std.specs.Prelude.{◌≡◌, IfOk};
ghost use Rattle.std.specs.Option.{option_map};
ghost use Rattle.just_lang_spots.specs.Entries.{entry};
ghost use Rattle.just_lang_justfile.specs.Comments.{above_at};
ghost use Rattle.just_lang_justfile.specs.Declarations.{declaration_of, doc_by, groups_in};

use super::comments::above_in;
use just_lang_layout::{File, Module, item_at};
use just_lang_shapes::{Comments, doc_of, groups_of};
use just_lang_spots::Entry;
use just_lang_syntax::AstItem;
use just_lang_types::Texts;
use just_path_text::{NoMemory, Seq, Text};
use std::alloc::Global;

/// The `mod` that names a module; the root has none.
pub(crate) fn declaration_of<'a>(files: &'a [File], some_module: &Module) -> Option<Entry<'a>>
    ensures { option_map entry result ≡ declaration_of files.now some_module.now }
{
    match some_module.declaration {
        None => None,
        Some(placed) => item_at(files, placed),
    }
}

/// What a listing says of the module.
pub(crate) fn doc_in<T: Texts>(
    alloc: Global,
    texts: &T,
    comments: &[Comments<'_>],
    declaration: Option<Entry<'_>>,
) -> Result<Option<Text>, NoMemory>
    ensures { IfOk result (λ doc. doc ≡ doc_by (T.text_of texts.now) (above_at comments.now) (option_map entry declaration.entry)) }
{
    match declaration {
        None => Ok(None),
        Some(one) => match one.item {
            AstItem::Module {
                attributes,
                name,
                ..
            } => {
                let above = above_in(comments, one.file, name);
                doc_of(alloc, texts, attributes.as_slice(), above)
            }
            _ => Ok(None),
        },
    }
}

/// The groups that the module is in.
pub(crate) fn groups_in<T: Texts>(
    alloc: Global,
    texts: &T,
    declaration: Option<Entry<'_>>,
) -> Result<Seq<Text>, NoMemory>
    ensures { IfOk result (λ groups. groups ≡ groups_in (T.text_of texts.now) (option_map entry declaration.entry)) }
{
    match declaration {
        None => Ok(Seq::new(alloc)),
        Some(one) => match one.item {
            AstItem::Module { attributes, .. } => groups_of(alloc, texts, attributes.as_slice()),
            _ => Ok(Seq::new(alloc)),
        },
    }
}
