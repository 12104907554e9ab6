//! Rules asked of all files and of all modules of a project.
ghost use Rattle.std.specs.Prelude.{◌≡◌, IfOk};
ghost use Rattle.std.specs.List.{flat_map};
ghost use Rattle.just_lang_spots.specs.Spots.{first_spot};
ghost use Rattle.just_lang_layout.specs.Items.{items_of_module};
ghost use Rattle.just_lang_rulebook.specs.Rules.{of_items, of_modules};

use super::item_lists::items_of_files;
use crate::first_in_items;
use just_lang_layout::{File, Layout, Module, items_of_module};
use just_lang_spots::{ModuleRule, Rule, Spot, earlier};
use just_lang_syntax::AstItem;
use just_path_text::NoMemory;
use std::alloc::Global;

/// The first place where the items of one of these modules break the rule.
#[tactic(auto, using(just_lang_spots::proofs::Spots::earlier_none))]
fn first_among_modules<R: ModuleRule>(
    alloc: Global,
    rule: &R,
    files: &[File],
    modules: &[Module],
) -> Result<Option<Spot>, NoMemory>
    ensures { IfOk result (λ s. s ≡ first_spot (flat_map (λ m. R.spots rule.now (items_of_module files.now m)) modules.now)) }
{
    let mut found = None;
    'modules: for some_module in modules {
        let items = items_of_module(alloc, files, some_module)?;
        let here = rule.first(alloc, items.as_slice())?;
        found = earlier(found, here);
    }
    Ok(found)
}

/// The first place where the items of a module break the rule.
pub fn first_in_modules<R: ModuleRule>(
    alloc: Global,
    rule: &R,
    layout: &Layout,
) -> Result<Option<Spot>, NoMemory>
    ensures { IfOk result (λ s. s ≡ first_spot (of_modules (R.spots rule.now) layout.now)) }
{
    first_among_modules(
        alloc,
        rule,
        layout.files.as_slice(),
        layout.modules.as_slice(),
    )
}

/// The first place where an item of a file breaks the rule.
pub fn first_in_files<R: Rule<AstItem>>(
    alloc: Global,
    rule: &R,
    layout: &Layout,
) -> Result<Option<Spot>, NoMemory>
    ensures { IfOk result (λ s. s ≡ first_spot (of_items (R.spots rule.now) layout.now)) }
{
    let items = items_of_files(alloc, layout.files.as_slice())?;
    first_in_items(alloc, rule, items.as_slice())
}
