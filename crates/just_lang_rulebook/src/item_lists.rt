//! The items of files.
ghost use Rattle.std.specs.Prelude.{◌≡◌, ◌++◌, IfOk, OnOk};
ghost use Rattle.just_lang_spots.specs.Entries.{entries};
ghost use Rattle.just_lang_layout.specs.Items.{in_file, items_of_files};

use just_lang_layout::File;
use just_lang_spots::Entry;
use just_lang_syntax::AstItem;
use just_path_text::NoMemory;
use std::alloc::{AllocError, Global};

/// Adds the items of the file of that number.
#[tactic(auto, using(just_lang_spots::proofs::ListLaws::entries_more))]
fn push_items<'a>(
    all: &mut Vec<Entry<'a>>,
    file: usize,
    items: &'a [AstItem],
) -> Result<(), AllocError>
    ensures { OnOk result (entries all.new.items ≡ entries all.old.items ++ in_file file items.now) }
{
    'items: for item in items {
        all.push(Entry { file, item })?;
    }
    Ok(())
}

/// All items of all files, in the order of the sources.
pub fn items_of_files<'a>(alloc: Global, files: &'a [File]) -> Result<Vec<Entry<'a>>, NoMemory>
    ensures { IfOk result (λ v. entries v.items ≡ items_of_files files.now) }
{
    let mut all = Vec::new(alloc);
    'files: for number in 0..files.len() {
        push_items(&mut all, number, files[number].items.as_slice())?;
    }
    Ok(all)
}
