//! How many recipes stand before those of each module.
ghost use Rattle.std.specs.Prelude.{◌≡◌, ◌+◌, get_or, IfOk};
ghost use Rattle.just_lang_names.specs.Names.{AreNames, layout_of, wins_of};
ghost use Rattle.just_lang.specs.Befores.{AreBeforeEach};

use just_lang_names::Names;
use just_path_text::NoMemory;
use std::alloc::Global;

/// The sum, where it can be counted.
pub(crate) fn sum_of(one: usize, other: usize) -> Result<usize, NoMemory>
    ensures { IfOk result (λ n. n ≡ one + other) }
{
    match one.checked_add(other) {
        Some(sum) => Ok(sum),
        None => Err(NoMemory),
    }
}

/// For each module how many recipes stand in those before it.
#[tactic(auto, using(crate::proofs::BeforeLaws::none_before))]
pub(crate) fn before_each(alloc: Global, names: &Names<'_>) -> Result<Vec<usize>, NoMemory>
    requires { AreNames names.now }
    ensures { IfOk result (λ before. AreBeforeEach (wins_of names.now) (layout_of names.now) before.items) }
{
    let mut before = Vec::new(alloc);
    let mut count = 0;
    'modules: for of_module in names.modules.iter() {
        before.push(count)?;
        count = sum_of(count, of_module.recipes.len())?;
    }
    Ok(before)
}
