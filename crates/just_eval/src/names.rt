//! The names that expressions use, and the numbers of their assignments.

ghost use Rattle.std.specs.Prelude.{ℕ, ◌≡◌, ◌++◌, [], map, IfOk, OnOk};
ghost use Rattle.std.specs.BTreeMap.{get};
ghost use Rattle.std.specs.List.{filter_map, cons_option};
ghost use Rattle.just_eval_closure.specs.Numbers.{text_cmp};
ghost use Rattle.just_eval.specs.Numbers.{AreNumbers, Enters};
ghost use Rattle.just_eval.specs.Uses.{names_in, uses};

use just_lang_syntax::Expr;
use just_lang_types::Assignment;
use just_path_text::{NoMemory, Seq, Text, TryClone};
use std::alloc::Global;
use std::collections::BTreeMap;

/// Adds the names in an expression, in their order.
#[tactic(auto, using(crate::proofs::NamesIn::in_if, crate::proofs::NamesIn::in_root, crate::proofs::NamesIn::in_join, crate::proofs::NamesIn::in_concat, crate::proofs::NamesIn::in_literal, crate::proofs::NamesIn::in_variable, crate::proofs::NamesIn::in_group, crate::proofs::NamesIn::in_env, crate::proofs::NamesIn::in_env_default))]
fn push_names<'e>(names: &mut Vec<&'e Text>, expr: &'e Expr) -> Result<(), NoMemory>
    ensures { OnOk result (map (λ n. n.now) names.new.items ≡ map (λ n. n.now) names.old.items ++ names_in expr.now) }
{
    match expr {
        Expr::If {
            left,
            right,
            consequent,
            alternative,
            ..
        } => {
            push_names(names, left.get())?;
            push_names(names, right.get())?;
            push_names(names, consequent.get())?;
            push_names(names, alternative.get())
        }
        Expr::Root(inside) | Expr::Group(inside) => push_names(names, inside.get()),
        Expr::Join(first, second) | Expr::Concat(first, second) => {
            push_names(names, first.get())?;
            push_names(names, second.get())
        }
        Expr::Literal(_) => Ok(()),
        Expr::Variable(name) => {
            names.push(&name.text)?;
            Ok(())
        }
        Expr::Env { key, default, .. } => {
            push_names(names, key.get())?;
            match default {
                Some(expr) => push_names(names, expr.get()),
                None => Ok(()),
            }
        }
    }
}

/// Gives a name its number, where it has none.
#[tactic(auto, using(crate::proofs::Numbers::entered_again))]
fn enter(numbers: &mut BTreeMap<Text, usize>, name: &Text, number: usize) -> Result<(), NoMemory>
    ensures { OnOk result (Enters numbers.old name.now number numbers.new) }
{
    if numbers.get(name).is_some() {
        return Ok(());
    }
    numbers.insert(name.try_clone()?, number)?;
    Ok(())
}

/// The number of the first assignment of each name.
#[tactic(auto, using(crate::proofs::Numbers::one_entered))]
pub(crate) fn numbers(
    alloc: Global,
    assignments: &[Assignment],
) -> Result<BTreeMap<Text, usize>, NoMemory>
    ensures { IfOk result (λ numbers. AreNumbers assignments.now numbers) }
{
    let mut numbers = BTreeMap::new(alloc);
    'assignments: for at in 0..assignments.len() {
        enter(&mut numbers, &assignments[at].name, at)?;
    }
    Ok(numbers)
}

/// Adds the number of the assignment of a name, where there is one.
#[tactic(auto, using(crate::proofs::Targets::number_found, crate::proofs::Targets::number_absent))]
fn push_target(
    targets: &mut Vec<usize>,
    numbers: &BTreeMap<Text, usize>,
    name: &Text,
) -> Result<(), NoMemory>
    ensures { OnOk result (targets.new.items ≡ targets.old.items ++ cons_option (get text_cmp numbers.now name.now) []) }
{
    match numbers.get(name) {
        Some(number) => {
            targets.push(*number)?;
            Ok(())
        }
        None => Ok(()),
    }
}

/// The numbers of the assignments that an expression uses.
fn targets(
    alloc: Global,
    numbers: &BTreeMap<Text, usize>,
    expr: &Expr,
) -> Result<Seq<usize>, NoMemory>
    ensures { IfOk result (λ targets. targets ≡ filter_map (λ n. get text_cmp numbers.now n) (names_in expr.now)) }
{
    let mut names = Vec::new(alloc);
    push_names(&mut names, expr)?;
    let mut targets = Vec::new(alloc);
    'names: for name in names.as_slice() {
        push_target(&mut targets, numbers, *name)?;
    }
    Ok(Seq::from(targets))
}

/// The numbers of the assignments that each assignment uses.
#[tactic(auto, using(crate::proofs::Order::edges_end))]
pub(crate) fn edges(
    alloc: Global,
    numbers: &BTreeMap<Text, usize>,
    assignments: &[Assignment],
) -> Result<Vec<Seq<usize>>, NoMemory>
    requires { AreNumbers assignments.now numbers.now }
    ensures { IfOk result (λ edges. edges.items ≡ uses assignments.now) }
{
    let mut edges = Vec::new(alloc);
    'assignments: for assignment in assignments {
        edges.push(targets(alloc, numbers, &assignment.value)?)?;
    }
    Ok(edges)
}
