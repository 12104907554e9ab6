//! Rules on single items, asked of many.
ghost use Rattle.std.specs.Prelude.{◌≡◌, IfOk};
ghost use Rattle.std.specs.List.{flat_map};
ghost use Rattle.just_lang_spots.specs.Spots.{first_spot};
ghost use Rattle.just_lang_spots.specs.Entries.{entries};

use just_lang_spots::{Entry, Rule, Spot, earlier};
use just_lang_syntax::AstItem;
use just_path_text::NoMemory;
use std::alloc::Global;

/// The first place where one of the items breaks the rule.
#[tactic(auto, using(just_lang_spots::proofs::Spots::earlier_none))]
pub fn first_in_items<R: Rule<AstItem>>(
    alloc: Global,
    rule: &R,
    items: &[Entry<'_>],
) -> Result<Option<Spot>, NoMemory>
    ensures { IfOk result (λ s. s ≡ first_spot (flat_map (λ x. R.spots rule.now x.0 x.1) (entries items.now))) }
{
    let mut found = None;
    'items: for one in items {
        let here = rule.first(alloc, one.file, one.item)?;
        found = earlier(found, here);
    }
    Ok(found)
}
