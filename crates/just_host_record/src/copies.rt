//! Copies of what a child is asked for by.
ghost use Rattle.std.specs.Prelude.{◌≡◌, IfOk};

use super::{Script, Spec};
use just_lang_read::Boxed;
use just_path_text::{NoMemory, TryClone};
use std::alloc::Global;

impl TryClone for Script {
    fn try_clone(&self) -> Result<Script, NoMemory> {
        let after = self.after.try_clone()?;
        let text = self.text.try_clone()?;
        let folder = self.folder.try_clone()?;
        let name = self.name.try_clone()?;
        Ok(Script {
            folder,
            name,
            text,
            run: self.run,
            after,
        })
    }
}

impl TryClone for Spec {
    fn try_clone(&self) -> Result<Spec, NoMemory> {
        let arguments = self.arguments.try_clone()?;
        let changes = self.changes.try_clone()?;
        let script = self.script.try_clone()?;
        let folder = self.folder.try_clone()?;
        let program = self.program.try_clone()?;
        Ok(Spec {
            program,
            arguments,
            folder,
            changes,
            script,
        })
    }
}

/// A copy of what a child is asked for by, on the heap.
pub fn boxed_copy(alloc: Global, spec: &Spec) -> Result<Boxed<Spec>, NoMemory>
    ensures { IfOk result (λ b. b ≡ spec.now) }
{
    Ok(Boxed::new(alloc, spec.try_clone()?)?)
}
