//! A tree whole, as a text.
ghost use Rattle.std.specs.Prelude.{◌≡◌, ◌++◌, ◌&&◌, not, false, IfOk, string_bytes};
ghost use Rattle.std.specs.List.{flat_map};
ghost use Rattle.just_print.specs.Printed.{only_if, is_blank_item, one_blank, printed_item, printed};

use super::item::push_item;
use just_lang_syntax::{Ast, AstItem};
use just_path_text::NoMemory;
use std::alloc::{AllocError, Global};

/// The text of a tree: each item in one style, one blank line where one or more stood, each line of a body behind the
/// indentation.
pub fn print(alloc: Global, ast: &Ast, indentation: &str) -> Result<String, NoMemory>
    ensures { IfOk result (λ t. string_bytes t ≡ printed ast.now.items indentation.now) }
{
    print_items(alloc, ast.items.as_slice(), indentation)
}

/// The text of items, as `print` prints a tree.
pub fn print_items(alloc: Global, items: &[AstItem], indentation: &str) -> Result<String, NoMemory>
    ensures { IfOk result (λ t. string_bytes t ≡ printed items.now indentation.now) }
{
    let mut out = String::new(alloc);
    push_items(alloc, &mut out, items, indentation)?;
    Ok(out)
}

/// Adds items, one blank line where one or more stand together.
#[tactic(auto, using(crate::proofs::Items::item_more))]
fn push_items(
    alloc: Global,
    out: &mut String,
    items: &[AstItem],
    indentation: &str,
) -> Result<(), AllocError>
    ensures { IfOk result (λ _. string_bytes out.new ≡ string_bytes out.old ++ flat_map (printed_item indentation.now) (one_blank false items.now)) }
{
    let mut behind_blank = false;
    'items: for item in items {
        let blank = is_blank(item);
        push_unless(
            alloc,
            out,
            is_further(blank, behind_blank),
            item,
            indentation,
        )?;
        behind_blank = blank;
    }
    Ok(())
}

/// Adds an item where it isn't left out.
fn push_unless(
    alloc: Global,
    out: &mut String,
    left_out: bool,
    item: &AstItem,
    indentation: &str,
) -> Result<(), AllocError>
    ensures { IfOk result (λ _. string_bytes out.new ≡ string_bytes out.old ++ only_if (not left_out) (printed_item indentation.now item.now)) }
{
    if left_out {
        return Ok(());
    }
    push_item(alloc, out, item, indentation)
}

/// Whether an item is a blank line.
fn is_blank(item: &AstItem) -> bool
    ensures { result ≡ is_blank_item item.now }
{
    matches!(item, AstItem::Blank)
}

/// Whether a blank line stands behind another.
fn is_further(blank: bool, behind_blank: bool) -> bool
    ensures { result ≡ (blank && behind_blank) }
{
    blank && behind_blank
}
