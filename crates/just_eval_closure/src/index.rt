//! The first recipe of each path.

ghost use Rattle.std.specs.Prelude.{◌≡◌, IfOk, OnOk};
ghost use Rattle.just_eval_closure.specs.Entries.{indexed, Enters, AreFirst};

use super::entry::{Entry, Index};
use super::hash::path_hash;
use just_lang_types::Modulepath;
use just_path_text::{NoMemory, TryClone};
use std::alloc::Global;
use std::collections::{BTreeMap, HashMap};

impl<'p> Index<'p> {
    /// The recipe of a path, where there is one.
    pub(crate) fn find(&self, path: &Modulepath) -> Option<Entry<'p>>
        ensures { result ≡ indexed self.now path.now }
    {
        if let Some(first) = self.firsts.get(&path_hash(path)).copied() {
            if first.recipe.path.same(path) {
                return Some(first);
            }
        }
        self.others.get(path).copied()
    }

    /// Enters a recipe under its path, where the path is new.
    #[tactic(auto, using(crate::proofs::EntryLists::entered_before))]
    fn enter(&mut self, entry: &Entry<'p>) -> Result<(), NoMemory>
        ensures { OnOk result (Enters self.old entry.now self.new) }
    {
        let path = &entry.recipe.path;
        if self.find(path).is_some() {
            return Ok(());
        }
        let hash = path_hash(path);
        if self.firsts.contains_key(&hash) {
            self.others.insert(path.try_clone()?, *entry)?;
            return Ok(());
        }
        self.firsts.insert(hash, *entry)?;
        Ok(())
    }
}

/// The first entry of each path.
#[tactic(auto, using(crate::proofs::EntryLists::none_entered, crate::proofs::EntryLists::one_entered, crate::proofs::EntryLists::all_entered))]
pub(crate) fn index_of<'p>(alloc: Global, all: &[Entry<'p>]) -> Result<Index<'p>, NoMemory>
    ensures { IfOk result (λ index. AreFirst all.now index) }
{
    let mut index = Index {
        firsts: HashMap::with_capacity(alloc, all.len())?,
        others: BTreeMap::new(alloc),
    };
    'entries: for entry in all {
        index.enter(entry)?;
    }
    Ok(index)
}
