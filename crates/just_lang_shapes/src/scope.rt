//! The variables that a module assigns and takes out of the environment.
ghost use Rattle.std.specs.Prelude.{◌≡◌, IfOk};
ghost use Rattle.just_lang_spots.specs.Entries.{entry, entries};
ghost use Rattle.just_lang_shapes.specs.Scopes.{assignment_in, assignments_of, unexport_in, unexports_of};

use super::expansions::expanded_expr;
use just_lang_spots::{Entry, push_some};
use just_lang_syntax::AstItem;
use just_lang_types::{Assignment, Texts};
use just_path_text::{NoMemory, Seq, Text, TryClone};
use std::alloc::Global;

fn assignment_in<T: Texts>(
    alloc: Global,
    texts: &T,
    one: &Entry<'_>,
) -> Result<Option<Assignment>, NoMemory>
    ensures { IfOk result (λ a. a ≡ assignment_in (T.text_of texts.now) (entry one.now)) }
{
    match one.item {
        AstItem::Assignment {
            export,
            name,
            value,
            ..
        } => {
            let name = name.text.try_clone()?;
            let value = expanded_expr(alloc, texts, value)?;
            Ok(Some(Assignment {
                name,
                value,
                export: *export,
            }))
        }
        _ => Ok(None),
    }
}

/// The assignments among some items, in their order.
pub fn assignments_of<T: Texts>(
    alloc: Global,
    texts: &T,
    items: &[Entry<'_>],
) -> Result<Seq<Assignment>, NoMemory>
    ensures { IfOk result (λ all. all ≡ assignments_of (T.text_of texts.now) (entries items.now)) }
{
    let mut all = Vec::new(alloc);
    'items: for one in items {
        let assignment = assignment_in(alloc, texts, one)?;
        push_some(&mut all, assignment)?;
    }
    Ok(Seq::from(all))
}

fn unexport_in(one: &Entry<'_>) -> Result<Option<Text>, NoMemory>
    ensures { IfOk result (λ t. t ≡ unexport_in (entry one.now)) }
{
    match one.item {
        AstItem::Unexport { name, .. } => Ok(Some(name.text.try_clone()?)),
        _ => Ok(None),
    }
}

/// The names that some items take out of the environment, in their order.
pub fn unexports_of(alloc: Global, items: &[Entry<'_>]) -> Result<Seq<Text>, NoMemory>
    ensures { IfOk result (λ all. all ≡ unexports_of (entries items.now)) }
{
    let mut all = Vec::new(alloc);
    'items: for one in items {
        let name = unexport_in(one)?;
        push_some(&mut all, name)?;
    }
    Ok(Seq::from(all))
}
