//! What the names of a project's modules mean, as tables.
ghost use Rattle.std.specs.Prelude.{◌≡◌, IfOk};
ghost use Rattle.just_lang_spots.specs.Entries.{IsIndex};
ghost use Rattle.just_lang_spots.specs.Winners.{wins_in};
ghost use Rattle.just_lang_names.specs.Names.{IsModuleNames, AreModuleNames, AreNames, layout_of, wins_of};
ghost use Rattle.just_lang_names.specs.Standing.{absent_items};

use super::children::{Children, children_of, own_numbers};
use super::hashed::{HashedIndex, hashed_index_of};
use super::paths::{Paths, paths_of};
use just_lang_layout::{File, Layout, Module, items_at, items_of_module};
use just_lang_spots::{Entry, Index, index_of, standing_recipes, standing_variables};
use just_path_text::{NoMemory, Seq};
use std::alloc::Global;

/// The items of a module, the recipes and the variables among them that stand, and the `mod`s whose modules aren't there.
pub struct ModuleNames<'a> {
    pub items: Vec<Entry<'a>>,
    pub recipes: Vec<Entry<'a>>,
    /// The places among `recipes`.
    pub recipe_places: HashedIndex<'a>,
    pub variables: Vec<Entry<'a>>,
    /// The places among `variables`.
    pub variable_places: Index<'a>,
    /// The places among the `mod`s whose modules aren't there.
    pub absent_places: Index<'a>,
}

impl Drop for ModuleNames<'_> {
    fn drop(self) {
        let ModuleNames {
            items: _,
            recipes: _,
            recipe_places: _,
            variables: _,
            variable_places: _,
            absent_places: _,
        } = self;
    }
}

/// The names of all modules. Looking one up takes the logarithm of their number.
pub struct Names<'a> {
    pub layout: &'a Layout,
    /// For each file those that import it, straight or through others.
    pub winners: &'a [Seq<usize>],
    /// Those of each module, in the layout's order.
    pub modules: Vec<ModuleNames<'a>>,
    /// The number of each module's path.
    pub paths: Paths<'a>,
    /// For each module the number of its path.
    pub numbers: Vec<Option<usize>>,
    /// The modules within modules.
    pub children: Children<'a>,
}

impl Drop for Names<'_> {
    fn drop(self) {
        let Names {
            layout: _,
            winners: _,
            modules: _,
            paths: _,
            numbers: _,
            children: _,
        } = self;
    }
}

/// The places among the `mod`s of a module whose modules aren't there.
fn absent_index<'a>(
    alloc: Global,
    files: &'a [File],
    some_module: &Module,
) -> Result<Index<'a>, NoMemory>
    ensures { IfOk result (IsIndex (absent_items files.now some_module.now)) }
{
    let absent = items_at(alloc, files, some_module.absent.as_slice())?;
    index_of(alloc, absent.as_slice())
}

fn module_names<'a>(
    alloc: Global,
    winners: &[Seq<usize>],
    files: &'a [File],
    some_module: &Module,
) -> Result<ModuleNames<'a>, NoMemory>
    ensures { IfOk result (IsModuleNames (wins_in winners.now) files.now some_module.now) }
{
    let items = items_of_module(alloc, files, some_module)?;
    let recipes = standing_recipes(alloc, winners, items.as_slice())?;
    let variables = standing_variables(alloc, winners, items.as_slice())?;
    let variable_places = index_of(alloc, variables.as_slice())?;
    let absent_places = absent_index(alloc, files, some_module)?;
    let recipe_places = hashed_index_of(alloc, recipes.as_slice())?;
    Ok(ModuleNames {
        items,
        recipes,
        recipe_places,
        variables,
        variable_places,
        absent_places,
    })
}

/// The names of some modules.
fn names_of_modules<'a>(
    alloc: Global,
    winners: &[Seq<usize>],
    files: &'a [File],
    modules: &[Module],
) -> Result<Vec<ModuleNames<'a>>, NoMemory>
    ensures { IfOk result (λ names. AreModuleNames (wins_in winners.now) files.now modules.now names.items) }
{
    let mut names = Vec::new(alloc);
    'modules: for some_module in modules {
        let one = module_names(alloc, winners, files, some_module)?;
        names.push(one)?;
    }
    Ok(names)
}

/// The names of a project. For each file `winners` has those that import it, straight or through others.
pub fn names_of<'a>(
    alloc: Global,
    winners: &'a [Seq<usize>],
    layout: &'a Layout,
) -> Result<Names<'a>, NoMemory>
    // Each table has what it is to have.
    ensures names { IfOk result AreNames }
    ensures layout { IfOk result (λ names. layout_of names ≡ layout.now) }
    ensures wins { IfOk result (λ names. wins_of names ≡ wins_in winners.now) }
{
    let files = layout.files.as_slice();
    let all = layout.modules.as_slice();
    let modules = names_of_modules(alloc, winners, files, all)?;
    let paths = paths_of(alloc, all)?;
    let numbers = own_numbers(alloc, &paths, all)?;
    let children = children_of(alloc, &paths, all)?;
    Ok(Names {
        layout,
        winners,
        modules,
        paths,
        numbers,
        children,
    })
}
