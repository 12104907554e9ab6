//! The recipes that can be run.
ghost use Rattle.std.specs.Prelude.{◌≡◌, ◌++◌, IfOk, OnOk};
ghost use Rattle.just_print_lists.specs.Order.{only_where};
ghost use Rattle.just_print_tree.specs.Kept.{told, tolds};
ghost use Rattle.just_print_tree.specs.Told.{is_disabled, enabled};

use super::told::Told;
use just_lang_types::Disabled;
use just_lang_types::project::Justfile;
use just_path_text::NoMemory;
use std::alloc::Global;

/// Whether the recipe of that name can't be run.
fn is_disabled(disabled: &[Disabled], name: &str) -> bool
    ensures { result ≡ is_disabled disabled.now name.now }
{
    'disabled: for one in disabled {
        if one.name.as_str() == name {
            return true;
        }
    }
    false
}

/// Adds a recipe where it is wanted.
pub(crate) fn keep_where<'a>(
    kept: &mut Vec<Told<'a>>,
    wanted: bool,
    one: Told<'a>,
) -> Result<(), NoMemory>
    ensures { OnOk result (tolds kept.new.items ≡ tolds kept.old.items ++ only_where wanted
        (told one.entry)) }
{
    if wanted { Ok(kept.push(one)?) } else { Ok(()) }
}

/// The recipes that can be run.
#[tactic(auto, using(just_print_lists::proofs::Keeping::kept_more))]
pub(crate) fn enabled<'a>(
    alloc: Global,
    justfile: &Justfile,
    recipes: &[Told<'a>],
) -> Result<Vec<Told<'a>>, NoMemory>
    ensures { IfOk result (λ v. tolds v.items ≡ enabled justfile.now (tolds recipes.now)) }
{
    let disabled = justfile.disabled_recipes.as_slice();
    let mut kept = Vec::new(alloc);
    'recipes: for one in recipes {
        let wanted = !is_disabled(disabled, one.recipe.name.as_str());
        keep_where(&mut kept, wanted, *one)?;
    }
    Ok(kept)
}
