//! The modules within modules, by their names.
ghost use Rattle.std.specs.Prelude.{◌≡◌, ℕ, List, IfOk, OnOk};
ghost use Rattle.just_lang_names.specs.Children.{StandsIn, entered};
ghost use Rattle.just_lang_names.specs.Names.{number_in, ArePaths, child_in, AreChildren, own_numbers};

use super::paths::Paths;
use just_lang_layout::Module;
use just_path_text::{NoMemory, Text};
use std::alloc::{AllocError, Global};
use std::collections::BTreeMap;

/// For each module, under the number of its path, the numbers of the modules in it by their names.
#[derive(Drop)]
pub struct Children<'a> {
    numbers: BTreeMap<(usize, &'a str), usize>,
}

/// The number of the path around a module's, and the module's name in it.
fn stands_in<'a>(paths: &Paths<'a>, path: &'a [Text]) -> Option<(usize, &'a str)>
    ensures { StandsIn (number_in paths.now) path.now result }
{
    match path.split_last() {
        None => None,
        Some((name, outer)) => match paths.number(outer) {
            None => None,
            Some(number) => Some((number, name.as_str())),
        },
    }
}

/// The modules within modules.
pub(crate) fn children_of<'a>(
    alloc: Global,
    paths: &Paths<'a>,
    modules: &'a [Module],
) -> Result<Children<'a>, NoMemory>
    requires { ArePaths modules.now paths.now }
    ensures { IfOk result (AreChildren modules.now) }
{
    let mut children = Children {
        numbers: BTreeMap::new(alloc),
    };
    'modules: for (number, some_module) in modules.iter().enumerate() {
        let key = stands_in(paths, some_module.path.components.as_slice());
        children.enter(key, number)?;
    }
    Ok(children)
}

/// For each module the number of its path.
pub(crate) fn own_numbers(
    alloc: Global,
    paths: &Paths<'_>,
    modules: &[Module],
) -> Result<Vec<Option<usize>>, AllocError>
    requires { ArePaths modules.now paths.now }
    ensures { IfOk result (λ v. v.items ≡ own_numbers modules.now) }
{
    let mut numbers = Vec::new(alloc);
    'modules: for some_module in modules {
        numbers.push(paths.number(some_module.path.components.as_slice()))?;
    }
    Ok(numbers)
}

impl<'a> Children<'a> {
    /// The number of the module of that name in the one of that number.
    pub(crate) fn number(&self, outer: usize, name: &'a str) -> Option<usize>
        ensures { result ≡ child_in self.now outer name.now }
    {
        self.numbers.get(&(outer, name)).copied()
    }

    /// Enters the number of a module, where it stands in another.
    fn enter(&mut self, key: Option<(usize, &'a str)>, number: usize) -> Result<(), NoMemory>
        ensures { OnOk result ((outer : ℕ) (q : List ℕ) → child_in self.new outer q ≡ entered key.entry number (child_in self.old) outer q) }
    {
        match key {
            None => Ok(()),
            Some(key) => {
                self.numbers.insert(key, number)?;
                Ok(())
            }
        }
    }
}
