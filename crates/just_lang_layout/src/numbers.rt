//! The clean paths of files, and where each stands among them.

ghost use Rattle.std.specs.Prelude.{◌≡◌, Some, IfOk, OnOk};
ghost use Rattle.std.specs.BTreeMap.{get, Updates};
ghost use Rattle.std.specs.Cmp.Lexicographic.{slice_cmp};
ghost use Rattle.std.specs.Option.{unwrap_or};
ghost use Rattle.std.specs.Ordering.{nat_cmp};
ghost use Rattle.just_lang_layout.specs.Numbers.{AreNumbers};
ghost use Rattle.just_lang_layout.specs.Targets.{number_of};

use just_path::Utf8PathBuf;
use just_path_text::{NoMemory, Text};
use std::alloc::Global;
use std::collections::BTreeMap;

/// The clean paths of files, in their order, and the number of the first file of each.
#[derive(Drop)]
pub(crate) struct Paths {
    pub(crate) all: Vec<Utf8PathBuf>,
    pub(crate) numbers: BTreeMap<Text, usize>,
    ghost numbered: { AreNumbers all.items numbers },
}

/// Gives a path that number, unless it has one.
fn put_first(numbers: &mut BTreeMap<Text, usize>, path: Text, at: usize) -> Result<(), NoMemory>
    ensures { OnOk result (Updates (slice_cmp nat_cmp) numbers.old numbers.new path
        (Some (unwrap_or (get (slice_cmp nat_cmp) numbers.old path) at))) }
{
    let number = match numbers.get(&path) {
        Some(number) => *number,
        None => at,
    };
    numbers.insert(path, number)?;
    Ok(())
}

/// The number of the first file of each path.
#[tactic(auto, using(crate::proofs::PathNumbers::numbers_none, crate::proofs::PathNumbers::numbers_more, crate::proofs::PathNumbers::numbers_end))]
fn numbers_of(alloc: Global, paths: &[Utf8PathBuf]) -> Result<BTreeMap<Text, usize>, NoMemory>
    ensures { IfOk result (λ numbers. AreNumbers paths.now numbers) }
{
    let mut numbers = BTreeMap::new(alloc);
    'paths: for at in 0..paths.len() {
        let path = Text::from_str(alloc, paths[at].as_str())?;
        put_first(&mut numbers, path, at)?;
    }
    Ok(numbers)
}

impl Paths {
    /// Those of files with these clean paths.
    pub(crate) fn new(alloc: Global, all: Vec<Utf8PathBuf>) -> Result<Paths, NoMemory>
        ensures { IfOk result (λ paths. paths.all.items ≡ all.items) }
    {
        let numbers = numbers_of(alloc, all.as_slice())?;
        Ok(Paths { all, numbers })
    }

    /// The number of the first file of a path.
    pub(crate) fn number(&self, path: &Text) -> Option<usize>
        ensures { result ≡ number_of self.now.all.items path.now }
    {
        self.numbers.get(path).copied()
    }
}
