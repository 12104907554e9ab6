//! Whether variables lead to themselves.

ghost use Rattle.std.specs.Prelude.{ℕ, ◌≡◌, ◌<◌, ◌↔◌, [], ◌∷◌, List, map, All, Contains, IfOk, IsTrue};
ghost use Rattle.just_lang_types.specs.declared.project.Justfile.{Justfile};
ghost use Rattle.just_lang_types.specs.Modules.{AreModules, assignments_of};
ghost use Rattle.just_eval.specs.Uses.{AreEnding};

use super::names::{edges, numbers};
use just_lang_spots::first_on_cycle;
use just_lang_types::project::Justfile;
use just_lang_types::{Assignment, all_modules};
use just_path_text::NoMemory;
use std::alloc::Global;

/// The numbers below that one.
fn numbers_below(alloc: Global, count: usize) -> Result<Vec<usize>, NoMemory>
    ensures within { IfOk result (λ ns. All (λ n. n < count) ns.items) }
    ensures all { IfOk result (λ ns. (n : ℕ) → n < count → Contains ns.items n) }
{
    let mut below = Vec::new(alloc);
    'count: for at in 0..count {
        below.push(at)?;
    }
    Ok(below)
}

/// Whether no variable of these leads to itself by those that its value uses.
#[tactic(auto, using(crate::proofs::Order::graph_of, crate::proofs::Leading::some_on_cycle))]
fn are_ending(alloc: Global, assignments: &[Assignment]) -> Result<bool, NoMemory>
    ensures { IfOk result (λ b. IsTrue b ↔ AreEnding assignments.now) }
{
    let numbers = numbers(alloc, assignments)?;
    let edges = edges(alloc, &numbers, assignments)?;
    let nodes = numbers_below(alloc, edges.len())?;
    match first_on_cycle(alloc, edges.as_slice(), nodes.as_slice())? {
        Some(_) => Ok(false),
        None => Ok(true),
    }
}

/// Whether no variable of these modules leads to itself.
fn all_ending(alloc: Global, modules: &[&Justfile]) -> Result<bool, NoMemory>
    ensures { IfOk result (λ b. IsTrue b ↔ All (λ j. AreEnding (assignments_of j)) (map (λ m. m.now) modules.now)) }
{
    'modules: for module in modules {
        let is_ending = are_ending(alloc, module.assignments.as_slice())?;
        if !is_ending {
            return Ok(false);
        }
    }
    Ok(true)
}

/// Whether no variable of a project leads to itself by those that its value uses.
pub fn is_ending(alloc: Global, justfile: &Justfile) -> Result<bool, NoMemory>
    ensures { IfOk result (λ b. IsTrue b ↔ ((modules : List Justfile) → AreModules (justfile.now ∷ []) modules → All (λ j. AreEnding (assignments_of j)) modules)) }
{
    let modules = all_modules(alloc, justfile)?;
    all_ending(alloc, modules.as_slice())
}
