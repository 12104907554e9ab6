//! The modules of a justfile.

ghost use Rattle.std.specs.Prelude.{◌≡◌, ◌++◌, [], ◌∷◌, map, reverse, IfOk, OnOk};
ghost use Rattle.just_lang_types.specs.Modules.{AreModules};

use super::project::Justfile;
use just_path_text::NoMemory;
use std::alloc::Global;

/// Puts modules on top of those that are pending, the first one on top.
fn push_modules<'j>(
    pending: &mut Vec<&'j Justfile>,
    modules: &'j [Justfile],
) -> Result<(), NoMemory>
    ensures { OnOk result (map (λ m. m.now) pending.new.items ≡ map (λ m. m.now) pending.old.items ++ reverse modules.now) }
{
    let mut left = modules.len();
    'modules: while left > 0 {
        left -= 1;
        pending.push(&modules[left])?;
    }
    Ok(())
}

/// The modules of a justfile: itself and those within it, each before those within it.
#[tactic(auto, using(crate::proofs::Nesting::nothing_left, crate::proofs::Nesting::one_more, crate::proofs::Nesting::fewer))]
pub fn all_modules<'j>(alloc: Global, justfile: &'j Justfile) -> Result<Vec<&'j Justfile>, NoMemory>
    ensures { IfOk result (λ all. AreModules (justfile.now ∷ []) (map (λ m. m.now) all.items)) }
{
    let mut all: Vec<&'j Justfile> = Vec::new(alloc);
    let mut pending: Vec<&'j Justfile> = Vec::new(alloc);
    pending.push(justfile)?;
    'modules: while let Some(module) = pending.pop() {
        all.push(module)?;
        push_modules(&mut pending, module.modules.as_slice())?;
    }
    Ok(all)
}
