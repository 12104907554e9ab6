//! The outcomes of a module's assignments, each when those that it uses have theirs.

ghost use Rattle.std.specs.Prelude.{ℕ, ◌≡◌, ◌<◌, List, [], None, true, length, get_or, is_some, All, Contains, IfOk, OnOk};
ghost use Rattle.std.specs.BTreeMap.{get};
ghost use Rattle.std.specs.Option.{option_copied};
ghost use Rattle.just_eval_closure.specs.Numbers.{text_cmp};
ghost use Rattle.just_lang_spots.specs.Graph.{IsOrder};
ghost use Rattle.just_lang_types.specs.Modules.{assignments_of};
ghost use Rattle.just_eval_closure.specs.Scopes.{found_in};
ghost use Rattle.just_eval_closure.specs.Values.{Valued, value};
ghost use Rattle.just_eval.specs.Numbers.{AreNumbers};
ghost use Rattle.just_eval.specs.Outcomes.{assigned, AreOutcomesOf, AreOutcomes};
ghost use Rattle.just_eval.specs.Partial.{outcome_at, meaning_so_far, outcomes_there, AreSettled, AreThere};
ghost use Rattle.just_eval.specs.Uses.{uses, AreEnding};

use super::constants::constant_text;
use super::names::{edges, numbers};
use super::overrides::given_in;
use just_eval_closure::{Env, Names, pairs_for, value};
use just_lang_spots::order;
use just_lang_types::project::Justfile;
use just_lang_types::{Assignment, DotenvOf, Override};
use just_path_text::{Environ, NoMemory, Text, TryClone};
use std::alloc::Global;
use std::collections::BTreeMap;

/// The outcome of an assignment: a text, or the variable that it asks the environment for and that isn't there.
pub(crate) type Outcome = Result<Text, Text>;

/// The numbers of a module's assignments by their names, and the outcomes that are there.
#[derive(Clone, Copy)]
struct Settled<'s> {
    numbers: &'s BTreeMap<Text, usize>,
    outcomes: &'s [Option<Outcome>],
}

impl Names for Settled<'_> {
    ghost meaning = { λ s name. meaning_so_far s.numbers.now s.outcomes.now name };

    fn meaning(&self, alloc: Global, name: &Text) -> Result<Outcome, NoMemory> {
        match self.outcome(name) {
            Some(outcome) => copy(outcome),
            None => Ok(Ok(constant_text(alloc, name.as_str())?)),
        }
    }
}

impl<'s> Settled<'s> {
    /// The outcome of the assignment of a name, where it is there.
    fn outcome(&self, name: &Text) -> Option<&'s Outcome>
        ensures { option_copied result ≡ outcome_at self.now.outcomes.now (get text_cmp self.now.numbers.now name.now) }
    {
        let number = self.numbers.get(name)?;
        match self.outcomes.get(*number) {
            Some(Some(outcome)) => Some(outcome),
            _ => None,
        }
    }
}

/// A copy of an outcome.
fn copy(outcome: &Outcome) -> Result<Outcome, NoMemory>
    ensures { IfOk result (λ copy. copy ≡ outcome.now) }
{
    match outcome {
        Ok(text) => Ok(Ok(text.try_clone()?)),
        Err(name) => Ok(Err(name.try_clone()?)),
    }
}

/// A module's assignments with their numbers, what the command line gives them, and what `env` asks.
#[derive(Clone, Copy)]
struct Module<'m> {
    assignments: &'m [Assignment],
    numbers: &'m BTreeMap<Text, usize>,
    overrides: &'m BTreeMap<Text, Text>,
    env: &'m Env<'m>,
}

/// The outcome of an assignment by the outcomes that are there.
fn outcome_of(
    alloc: Global,
    given: &Module<'_>,
    outcomes: &[Option<Outcome>],
    assignment: &Assignment,
) -> Result<Outcome, NoMemory>
    ensures { IfOk result (λ o. o ≡ assigned (get text_cmp given.now.overrides.now assignment.now.name) (value (meaning_so_far given.now.numbers.now outcomes.now) (found_in given.now.env.now.pairs.now given.now.env.now.environ.now.pairs) assignment.now.value)) }
{
    match given.overrides.get(&assignment.name) {
        Some(text) => Ok(Ok(text.try_clone()?)),
        None => {
            let names = Settled {
                numbers: given.numbers,
                outcomes,
            };
            value(alloc, &names, given.env, &assignment.value)
        }
    }
}

/// Whether an outcome is there.
fn is_there(outcomes: &[Option<Outcome>], at: usize) -> bool
    requires { at < length outcomes.now }
    ensures { result ≡ is_some (get_or outcomes.now at None) }
{
    outcomes[at].is_some()
}

/// Gives an assignment its outcome, where those that it uses have theirs.
fn settle_one(
    alloc: Global,
    given: &Module<'_>,
    at: usize,
    outcomes: &mut Vec<Option<Outcome>>,
) -> Result<(), NoMemory>
    requires numbers { AreNumbers given.now.assignments.now given.now.numbers.now }
    requires within { at < length given.now.assignments.now }
    requires size { length outcomes.old.items ≡ length given.now.assignments.now }
    requires settled { AreSettled given.now.assignments.now (λ name. get text_cmp given.now.overrides.now name) (found_in given.now.env.now.pairs.now given.now.env.now.environ.now.pairs) outcomes.old.items }
    requires before { AreThere outcomes.old.items (get_or (uses given.now.assignments.now) at []) }
    ensures size { OnOk result (length outcomes.new.items ≡ length given.now.assignments.now) }
    ensures settled { OnOk result (AreSettled given.now.assignments.now (λ name. get text_cmp given.now.overrides.now name) (found_in given.now.env.now.pairs.now given.now.env.now.environ.now.pairs) outcomes.new.items) }
    ensures there { OnOk result (is_some (get_or outcomes.new.items at None) ≡ true) }
    ensures kept { OnOk result ((n : ℕ) → is_some (get_or outcomes.old.items n None) ≡ true → is_some (get_or outcomes.new.items n None) ≡ true) }
{
    let so_far = outcomes.as_slice();
    if is_there(so_far, at) {
        return Ok(());
    }
    let assignments = given.assignments;
    let outcome = outcome_of(alloc, given, so_far, &assignments[at])?;
    outcomes[at] = Some(outcome);
    Ok(())
}

/// As many outcomes that aren't there.
#[tactic(auto, using(crate::proofs::Settling::none_more))]
fn missing(alloc: Global, count: usize) -> Result<Vec<Option<Outcome>>, NoMemory>
    ensures size { IfOk result (λ outcomes. length outcomes.items ≡ count) }
    ensures missing { IfOk result (λ outcomes. (n : ℕ) → get_or outcomes.items n None ≡ None) }
{
    let mut outcomes = Vec::new(alloc);
    'count: for at in 0..count {
        outcomes.push(None)?;
    }
    Ok(outcomes)
}

/// The outcomes of a module's assignments, in an order in which each stands behind those that it uses.
#[tactic(auto, using(crate::proofs::Settling::none_settled, crate::proofs::Settling::there_before, crate::proofs::Settling::there_more))]
fn settle(
    alloc: Global,
    given: &Module<'_>,
    order: &[usize],
) -> Result<Vec<Option<Outcome>>, NoMemory>
    requires numbers { AreNumbers given.now.assignments.now given.now.numbers.now }
    requires within { All (λ n. n < length given.now.assignments.now) order.now }
    requires behind { IsOrder (uses given.now.assignments.now) order.now }
    ensures size { IfOk result (λ outcomes. length outcomes.items ≡ length given.now.assignments.now) }
    ensures settled { IfOk result (λ outcomes. AreSettled given.now.assignments.now (λ name. get text_cmp given.now.overrides.now name) (found_in given.now.env.now.pairs.now given.now.env.now.environ.now.pairs) outcomes.items) }
    ensures there { IfOk result (λ outcomes. AreThere outcomes.items order.now) }
{
    let mut outcomes = missing(alloc, given.assignments.len())?;
    'order: for at in order {
        settle_one(alloc, given, *at, &mut outcomes)?;
    }
    Ok(outcomes)
}

/// An order of assignments in which each stands behind those that it uses.
fn order_of(
    alloc: Global,
    numbers: &BTreeMap<Text, usize>,
    assignments: &[Assignment],
) -> Result<Vec<usize>, NoMemory>
    requires numbers { AreNumbers assignments.now numbers.now }
    requires ending { AreEnding assignments.now }
    ensures behind { IfOk result (λ order. IsOrder (uses assignments.now) order.items) }
    ensures within { IfOk result (λ order. All (λ n. n < length assignments.now) order.items) }
    ensures whole { IfOk result (λ order. (n : ℕ) → n < length assignments.now → Contains order.items n) }
{
    let edges = edges(alloc, numbers, assignments)?;
    let order = order(alloc, edges.as_slice())?;
    Ok(order)
}

/// The outcomes of assignments, one for each; all of them are there.
fn outcomes_of(
    alloc: Global,
    assignments: &[Assignment],
    overrides: &BTreeMap<Text, Text>,
    env: &Env<'_>,
) -> Result<Vec<Option<Outcome>>, NoMemory>
    requires { AreEnding assignments.now }
    ensures size { IfOk result (λ outcomes. length outcomes.items ≡ length assignments.now) }
    ensures outcomes { IfOk result (λ outcomes. AreOutcomesOf (λ name. get text_cmp overrides.now name) (found_in env.now.pairs.now env.now.environ.now.pairs) assignments.now (outcomes_there outcomes.items)) }
    ensures only { IfOk result (λ outcomes. (others : List Valued) → AreOutcomesOf (λ name. get text_cmp overrides.now name) (found_in env.now.pairs.now env.now.environ.now.pairs) assignments.now others → others ≡ outcomes_there outcomes.items) }
{
    let numbers = numbers(alloc, assignments)?;
    let order = order_of(alloc, &numbers, assignments)?;
    let given = Module {
        assignments,
        numbers: &numbers,
        overrides,
        env,
    };
    let outcomes = settle(alloc, &given, order.as_slice())?;
    Ok(outcomes)
}

/// The outcomes of a module's assignments, one for each; all of them are there.
pub(crate) fn outcomes(
    alloc: Global,
    justfile: &Justfile,
    dotenv: &[DotenvOf],
    environ: &Environ,
    overrides: &[Override],
) -> Result<Vec<Option<Outcome>>, NoMemory>
    requires { AreEnding (assignments_of justfile.now) }
    ensures size { IfOk result (λ outcomes. length outcomes.items ≡ length (assignments_of justfile.now)) }
    ensures outcomes { IfOk result (λ outcomes. AreOutcomes dotenv.now environ.now.pairs overrides.now justfile.now (outcomes_there outcomes.items)) }
    ensures only { IfOk result (λ outcomes. (others : List Valued) → AreOutcomes dotenv.now environ.now.pairs overrides.now justfile.now others → others ≡ outcomes_there outcomes.items) }
{
    let assignments = justfile.assignments.as_slice();
    let overrides = given_in(alloc, overrides, &justfile.module_path)?;
    let pairs = pairs_for(dotenv, &justfile.module_path);
    let env = Env { pairs, environ };
    let outcomes = outcomes_of(alloc, assignments, &overrides, &env)?;
    Ok(outcomes)
}
