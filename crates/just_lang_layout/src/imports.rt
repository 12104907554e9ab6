//! The files that imports name.

ghost use Rattle.std.specs.Prelude.{◌≡◌, IfOk};
ghost use Rattle.just_lang_layout.specs.Imports.{imports_in, imports_of};

use super::Target;
use super::visit::leads;
use just_path_text::{NoMemory, Seq};
use std::alloc::Global;

/// The numbers of the files that a file's imports name, by the targets of its items.
#[tactic(auto, using(crate::proofs::ImportLists::no_import, crate::proofs::ImportLists::one_import))]
fn imports_in(alloc: Global, targets: &[Target]) -> Result<Seq<usize>, NoMemory>
    ensures { IfOk result (λ ns. ns ≡ imports_in targets.now) }
{
    let mut numbers = Vec::new(alloc);
    for target in targets {
        if let Some(number) = leads(false, *target) {
            numbers.push(number)?;
        }
    }
    Ok(Seq::from(numbers))
}

/// Those of the imports of each file.
pub(crate) fn imports_of(alloc: Global, table: &[Seq<Target>]) -> Result<Seq<Seq<usize>>, NoMemory>
    ensures { IfOk result (λ rows. rows ≡ imports_of table.now) }
{
    let mut rows = Vec::new(alloc);
    for row in table {
        rows.push(imports_in(alloc, row.as_slice())?)?;
    }
    Ok(Seq::from(rows))
}
