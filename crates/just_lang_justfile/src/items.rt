//! The names of the modules that a module lacks.
ghost use Rattle.std.specs.Prelude.{◌≡◌, IfOk};
ghost use Rattle.just_lang_spots.specs.Entries.{entries};
ghost use Rattle.just_lang_justfile.specs.Standing.{names_of, absent_names};

use just_lang_layout::{File, Module, items_at};
use just_lang_spots::{Entry, item_name};
use just_path_text::{NoMemory, Seq, Text};
use std::alloc::Global;

/// The names that some items give.
fn names_of(alloc: Global, items: &[Entry<'_>]) -> Result<Seq<Text>, NoMemory>
    ensures { IfOk result (λ names. names ≡ names_of (entries items.now)) }
{
    let mut names = Vec::new(alloc);
    'items: for one in items {
        names.push(Text::from_str(alloc, item_name(one.item))?)?;
    }
    Ok(Seq::from(names))
}

/// The names of the modules in one that may be missing and are.
pub(crate) fn absent_names(
    alloc: Global,
    files: &[File],
    some_module: &Module,
) -> Result<Seq<Text>, NoMemory>
    ensures { IfOk result (λ names. names ≡ absent_names files.now some_module.now) }
{
    let items = items_at(alloc, files, some_module.absent.as_slice())?;
    names_of(alloc, items.as_slice())
}
