//! What listings show of a project.

use just_lang_types::Modulepath;
use just_path_text::{Seq, Text};

/// A recipe as listings show it.
pub struct ListedRecipe {
    pub name: Text,
    /// Its parameters as its line has them, each behind a blank.
    pub parameters: Text,
    pub doc: Option<Text>,
    pub groups: Seq<Text>,
    /// Its other names in its own module.
    pub aliases: Seq<Text>,
    /// Whether listings leave it out.
    pub private: bool,
}

impl Drop for ListedRecipe {
    fn drop(self) {
        let ListedRecipe {
            name: _,
            parameters: _,
            doc,
            groups: _,
            aliases: _,
            private: _,
        } = self;
        drop(doc);
    }
}

/// Another name of a recipe that stands in another module.
pub struct ListedAlias {
    pub name: Text,
    /// The parameters of its recipe, each behind a blank.
    pub parameters: Text,
    /// The path of its recipe from the root.
    pub target: Modulepath,
}

impl Drop for ListedAlias {
    fn drop(self) {
        let ListedAlias {
            name: _,
            parameters: _,
            target: _,
        } = self;
    }
}

/// A module as listings show it: what stands in it and can be run, in the order of the sources.
#[derive(Drop)]
pub struct ListedModule {
    /// Its name; the root's is empty.
    pub name: Text,
    /// The names that lead here from the root.
    pub path: Modulepath,
    pub doc: Option<Text>,
    pub groups: Seq<Text>,
    /// Whether listings leave it out.
    pub private: bool,
    pub recipes: Seq<ListedRecipe>,
    pub aliases: Seq<ListedAlias>,
    pub modules: Seq<ListedModule>,
    /// The groups that its public recipes and modules name, each once, where the first of them names it.
    pub named_groups: Seq<Text>,
}
