//! The modules of a project by their paths.
ghost use Rattle.std.specs.Prelude.{◌≡◌, IfOk};
ghost use Rattle.just_lang_names.specs.Names.{number_in, ArePaths};

use just_lang_layout::Module;
use just_path_text::{NoMemory, Text};
use std::alloc::Global;
use std::collections::BTreeMap;

/// The number of each module's path.
#[derive(Drop)]
pub struct Paths<'a> {
    numbers: BTreeMap<&'a [Text], usize>,
}

/// The numbers of the modules by their paths.
pub(crate) fn paths_of<'a>(alloc: Global, modules: &'a [Module]) -> Result<Paths<'a>, NoMemory>
    ensures { IfOk result (ArePaths modules.now) }
{
    let mut numbers = BTreeMap::new(alloc);
    'modules: for (number, some_module) in modules.iter().enumerate() {
        numbers.insert(some_module.path.components.as_slice(), number)?;
    }
    Ok(Paths { numbers })
}

impl<'a> Paths<'a> {
    /// The number of the module of that path.
    pub(crate) fn number(&self, path: &[Text]) -> Option<usize>
        ensures { result ≡ number_in self.now path.now }
    {
        self.numbers.get(path).copied()
    }
}
