//! What the tables of a project say of its paths, and of what can't be run.
ghost use Rattle.std.specs.Prelude.{◌≡◌, ◌+◌, IfOk};
ghost use Rattle.just_lang_names.specs.Names.{layout_of, wins_of};
ghost use Rattle.just_lang.specs.Cycles.{recipes_before};
ghost use Rattle.just_lang.specs.Disabling.{modules_of_alias, modules_of_recipe};
ghost use Rattle.just_lang.specs.DisablingTables.{texts, IsDisabling};
ghost use Rattle.just_lang.specs.Tables.{AreTables, causes_of};

use super::before::sum_of;
use super::disabled::{Disabling, modules_of_alias, modules_of_recipe};
use super::paths::{linked_target, recipe_path};
use just_lang_justfile::{AliasTarget, Linker};
use just_lang_names::{Names, PathKind, target_of};
use just_lang_syntax::Name;
use just_lang_types::Modulepath;
use just_path_text::{NoMemory, Seq, Text};
use std::alloc::Global;

/// The tables of a project. They are of one layout.
#[derive(Clone, Copy)]
pub(crate) struct Tables<'l, 'r, 'n, 'a> {
    pub(crate) names: &'l Names<'a>,
    /// For each module how many recipes stand in those before it.
    pub(crate) before: &'l [usize],
    pub(crate) disabling: &'l Disabling<'r, 'n, 'a>,
}

/// Copies of texts.
fn texts_of(alloc: Global, names: &[&str]) -> Result<Seq<Text>, NoMemory>
    ensures { IfOk result (λ ts. ts ≡ texts names.now) }
{
    let mut copies = Vec::new(alloc);
    'names: for name in names {
        let copy = Text::from_str(alloc, *name)?;
        copies.push(copy)?;
    }
    Ok(Seq::from(copies))
}

/// The modules for which the recipe of that number can't be run.
fn modules_for(
    alloc: Global,
    disabling: &Disabling<'_, '_, '_>,
    number: usize,
) -> Result<Seq<Text>, NoMemory>
    requires { IsDisabling disabling.now }
    ensures { IfOk result (λ ts. ts ≡ modules_of_recipe (wins_of disabling.now.recipes.now.names.now) (layout_of disabling.now.recipes.now.names.now) disabling.now.causes.items number) }
{
    let modules = modules_of_recipe(disabling, number);
    texts_of(alloc, modules)
}

/// The modules for which the recipe at that place of the module of that number can't be run.
#[tactic(auto, using(crate::proofs::TableLaws::modules_at, crate::proofs::TableLaws::none_behind))]
fn modules_at(
    alloc: Global,
    tables: &Tables<'_, '_, '_, '_>,
    number: usize,
    place: usize,
) -> Result<Seq<Text>, NoMemory>
    requires { AreTables tables.now }
    ensures { IfOk result (λ ts. ts ≡ modules_of_recipe (wins_of tables.now.names.now) (layout_of tables.now.names.now) (causes_of tables.now) (recipes_before (wins_of tables.now.names.now) (layout_of tables.now.names.now) number + place)) }
{
    match tables.before.get(number) {
        None => Ok(Seq::new(alloc)),
        Some(before) => {
            let sum = sum_of(*before, place)?;
            modules_for(alloc, tables.disabling, sum)
        }
    }
}

/// The modules for which an alias of that path in the module of that number can't be run.
#[tactic(auto, using(crate::proofs::TableLaws::alias_modules))]
fn modules_on<'a>(
    alloc: Global,
    tables: &Tables<'_, '_, '_, 'a>,
    number: usize,
    path: &'a [Name],
) -> Result<Seq<Text>, NoMemory>
    requires { AreTables tables.now }
    ensures { IfOk result (λ ts. ts ≡ modules_of_alias (wins_of tables.now.names.now) (layout_of tables.now.names.now) (causes_of tables.now) number path.now) }
{
    let modules = modules_of_alias(alloc, tables.disabling, number, path)?;
    texts_of(alloc, modules.as_slice())
}

impl<'a> Linker<'a> for Tables<'_, '_, '_, 'a> {
    ghost use Rattle.just_lang.specs.Tables.{AreTables, links_in};

    ghost links = { λ s. links_in s };

    ghost known = { λ s. AreTables s };

    fn dependency_path(
        &self,
        alloc: Global,
        number: usize,
        path: &'a [Name],
    ) -> Result<Option<Modulepath>, NoMemory> {
        let found = target_of(self.names, PathKind::Dependency, number, path);
        recipe_path(alloc, self.names.layout, &found)
    }

    fn alias_target(
        &self,
        alloc: Global,
        number: usize,
        path: &'a [Name],
    ) -> Result<AliasTarget, NoMemory> {
        let found = target_of(self.names, PathKind::Alias, number, path);
        linked_target(alloc, self.names.layout, &found)
    }

    fn modules_of_recipe(
        &self,
        alloc: Global,
        number: usize,
        place: usize,
    ) -> Result<Seq<Text>, NoMemory> {
        modules_at(alloc, self, number, place)
    }

    fn modules_of_alias(
        &self,
        alloc: Global,
        number: usize,
        path: &'a [Name],
    ) -> Result<Seq<Text>, NoMemory> {
        modules_on(alloc, self, number, path)
    }
}
