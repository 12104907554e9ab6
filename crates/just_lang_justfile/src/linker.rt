//! What the paths in a project come to.
use just_lang_syntax::Name;
use just_lang_types::Modulepath;
use just_path_text::{NoMemory, Seq, Text};
use std::alloc::Global;

/// What an alias's path comes to, by its path from the root.
#[derive(Drop)]
pub enum AliasTarget {
    Recipe(Modulepath),
    Module(Modulepath),
    Nothing,
}

/// What tells of a project what paths come to, and what can't be run.
pub trait Linker<'a> {
    ghost use Rattle.std.specs.Prelude.{◌≡◌, IfOk};
    ghost use Rattle.just_lang_justfile.specs.Links.{Links};

    ghost links: { Self → Links };

    /// What is known of its tables.
    ghost known: { Self → Type 0 };

    /// The path from the root of the recipe that a dependency's path in the module of that number comes to.
    fn dependency_path(
        &self,
        alloc: Global,
        number: usize,
        path: &'a [Name],
    ) -> Result<Option<Modulepath>, NoMemory>
        requires { known self.now }
        ensures { IfOk result (λ p. p ≡ (links self.now).dependency_path number path.now) };

    /// What an alias's path in the module of that number comes to.
    fn alias_target(
        &self,
        alloc: Global,
        number: usize,
        path: &'a [Name],
    ) -> Result<AliasTarget, NoMemory>
        requires { known self.now }
        ensures { IfOk result (λ t. t ≡ (links self.now).alias_target number path.now) };

    /// The absent modules for which a recipe can't be run, by the number of its module and its place among those that stand there.
    fn modules_of_recipe(
        &self,
        alloc: Global,
        number: usize,
        place: usize,
    ) -> Result<Seq<Text>, NoMemory>
        requires { known self.now }
        ensures { IfOk result (λ m. m ≡ (links self.now).modules_of_recipe number place) };

    /// The absent modules for which an alias of that path in the module of that number can't be run.
    fn modules_of_alias(
        &self,
        alloc: Global,
        number: usize,
        path: &'a [Name],
    ) -> Result<Seq<Text>, NoMemory>
        requires { known self.now }
        ensures { IfOk result (λ m. m ≡ (links self.now).modules_of_alias number path.now) };
}
