//! Recipes with what their expressions see, and the first ones of their paths.

use just_lang_types::project::Justfile;
use just_lang_types::{Level, Modulepath, Recipe};
use just_path_text::Text;
use std::collections::{BTreeMap, HashMap};

/// A recipe, the module that it stands in, and what the expressions in it see of that module.
#[derive(Clone, Copy)]
pub struct Entry<'p> {
    pub parent: &'p Justfile,
    pub recipe: &'p Recipe,
    /// The levels of the module's scope.
    pub levels: &'p [Level],
    /// The dotenv pairs of the module.
    pub pairs: &'p [(Text, Text)],
}

/// The first recipe of each path. Most are found by the hashes of their paths alone, each in constant time; those of which another
/// path has the hash are kept by their paths, and looking one up takes the logarithm of their number.
#[derive(Drop)]
pub struct Index<'p> {
    /// The first recipe of each hash.
    pub firsts: HashMap<u64, Entry<'p>>,
    /// The first recipe of each path behind the first one of its hash.
    pub others: BTreeMap<Modulepath, Entry<'p>>,
}
