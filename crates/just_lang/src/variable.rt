//! Variables that lie on a cycle.
ghost use Rattle.std.specs.Prelude.{◌≡◌, ◌++◌, ◌∷◌, [], true, map, filter_map, IfOk, OnOk};
ghost use Rattle.std.specs.List.{AllByRecursion};
ghost use Rattle.just_lang_spots.specs.Entries.{entry, entries, IsIndex};
ghost use Rattle.just_lang_spots.specs.Items.{is_assignment, variable_in};
ghost use Rattle.just_lang_names.specs.Names.{AreNames, layout_of, wins_of};
ghost use Rattle.just_lang_names.specs.NamesUsed.{names_of_expr};
ghost use Rattle.just_lang.specs.Cycles.{IsFirstSpot, IsCircularAmong, IsCircularVariable};
ghost use Rattle.just_lang.specs.CycleTables.{names_in_value, places_in, uses_in, variable_spot_in};

use super::first::first_on_cycle_at;
use just_lang_names::{ModuleNames, Names};
use just_lang_spots::{Entry, Index, Spot, earlier, name_spot, push_some};
use just_lang_syntax::{AstItem, Expr, Name};
use just_path_text::{NoMemory, Seq};
use std::alloc::Global;

/// Adds the place of the variable of a name, where there is one.
fn add_variable(index: &Index<'_>, name: &Name, places: &mut Vec<usize>) -> Result<(), NoMemory>
    ensures { OnOk result (places.new.items ≡ places.old.items ++ places_in index.now (name.now ∷ [])) }
{
    let place = index.place(name.text.as_str());
    push_some(places, place)
}

/// Adds the places of the variables that an expression names.
fn add_variables(index: &Index<'_>, expr: &Expr, places: &mut Vec<usize>) -> Result<(), NoMemory>
    ensures { OnOk result (places.new.items ≡ places.old.items ++ places_in index.now (names_of_expr expr.now)) }
{
    match expr {
        Expr::If {
            left,
            right,
            consequent,
            alternative,
            ..
        } => {
            add_variables(index, left.get(), places)?;
            add_variables(index, right.get(), places)?;
            add_variables(index, consequent.get(), places)?;
            add_variables(index, alternative.get(), places)
        }
        Expr::Root(inside) | Expr::Group(inside) => add_variables(index, inside.get(), places),
        Expr::Join(first, second) => {
            add_variables(index, first.get(), places)?;
            add_variables(index, second.get(), places)
        }
        Expr::Concat(first, second) => {
            add_variables(index, first.get(), places)?;
            add_variables(index, second.get(), places)
        }
        Expr::Literal(_) => Ok(()),
        Expr::Variable(name) => add_variable(index, name, places),
        Expr::Env { key, default, .. } => {
            add_variables(index, key.get(), places)?;
            match default {
                None => Ok(()),
                Some(default) => add_variables(index, default.get(), places),
            }
        }
    }
}

/// The places of the variables that an item names, where it is an assignment.
fn uses_of(alloc: Global, index: &Index<'_>, item: &AstItem) -> Result<Seq<usize>, NoMemory>
    ensures { IfOk result (λ uses. uses ≡ places_in index.now (names_in_value item.now)) }
{
    match item {
        AstItem::Assignment { value, .. } => {
            let mut places = Vec::new(alloc);
            add_variables(index, value, &mut places)?;
            Ok(Seq::from(places))
        }
        _ => Ok(Seq::new(alloc)),
    }
}

/// The variables that each assignment names, by their places.
fn variable_edges(
    alloc: Global,
    index: &Index<'_>,
    variables: &[Entry<'_>],
) -> Result<Vec<Seq<usize>>, NoMemory>
    ensures { IfOk result (λ edges. edges.items ≡ map (uses_in index.now) (entries variables.now)) }
{
    let mut edges = Vec::new(alloc);
    'variables: for variable in variables {
        let uses = uses_of(alloc, index, variable.item)?;
        edges.push(uses)?;
    }
    Ok(edges)
}

/// The place of the name in an assignment.
fn variable_spot(variable: &Entry<'_>) -> Option<Spot>
    ensures { result ≡ variable_spot_in (entry variable.now) }
{
    match variable.item {
        AstItem::Assignment { name, .. } => Some(name_spot(variable.file, name)),
        _ => None,
    }
}

/// The places of the names in assignments.
fn variable_spots(alloc: Global, variables: &[Entry<'_>]) -> Result<Vec<Spot>, NoMemory>
    ensures { IfOk result (λ spots. spots.items ≡ filter_map variable_spot_in (entries variables.now)) }
{
    let mut spots = Vec::new(alloc);
    'variables: for variable in variables {
        let spot = variable_spot(variable);
        push_some(&mut spots, spot)?;
    }
    Ok(spots)
}

/// The first place of a variable of a module whose value leads back to it.
#[tactic(auto, using(crate::proofs::Variables::graph_of_module, crate::proofs::Variables::size_of_module, crate::proofs::Variables::first_of_module))]
fn first_circular_in(alloc: Global, of_module: &ModuleNames<'_>) -> Result<Option<Spot>, NoMemory>
    requires variables { AllByRecursion (λ x. is_assignment x ≡ true) (entries of_module.now.variables.items) }
    requires index { IsIndex (entries of_module.now.variables.items) of_module.now.variable_places }
    ensures { IfOk result (IsFirstSpot (IsCircularAmong (filter_map variable_in (entries of_module.now.variables.items)))) }
{
    let variables = of_module.variables.as_slice();
    let edges = variable_edges(alloc, &of_module.variable_places, variables)?;
    let spots = variable_spots(alloc, variables)?;
    let first = first_on_cycle_at(alloc, edges.as_slice(), spots.as_slice())?;
    Ok(first)
}

/// The first place of a variable that stands in a module and whose value leads back to it.
#[tactic(auto, using(crate::proofs::Modules::none_below, crate::proofs::NameTables::assignments_at, crate::proofs::NameTables::index_at, crate::proofs::NameTables::circular_more, crate::proofs::NameTables::circular_all))]
pub fn circular_variable(alloc: Global, names: &Names<'_>) -> Result<Option<Spot>, NoMemory>
    requires { AreNames names.now }
    ensures { IfOk result (IsFirstSpot (IsCircularVariable (wins_of names.now) (layout_of names.now))) }
{
    let mut first = None;
    'modules: for of_module in &names.modules {
        let here = first_circular_in(alloc, of_module)?;
        first = earlier(first, here);
    }
    Ok(first)
}
