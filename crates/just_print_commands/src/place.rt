//! Where in a project stands what a command asks for.
ghost use Rattle.std.specs.Prelude.{◌≡◌, find, filter_map, bytes_eq, IfOk};
ghost use Rattle.std.specs.Option.{option_copied};
ghost use Rattle.just_print_lists.specs.Listed.{name_of};
ghost use Rattle.just_lang_spots.specs.Entries.{entry, entries};
ghost use Rattle.just_print_commands.specs.Places.{first_of, listed_at, laid_at, target_in, alias_target_at};

use just_lang_layout::{Layout, Module, items_of_module};
use just_lang_spots::Entry;
use just_lang_syntax::{AstItem, Name};
use just_lang_types::Modulepath;
use just_path_text::{NoMemory, Text};
use just_print_lists::ListedModule;
use std::alloc::Global;

/// What listings show of the module of that name within one.
fn listed_within<'l>(inner: &'l [ListedModule], name: &str) -> Option<&'l ListedModule>
    ensures { option_copied result ≡ find (λ l. bytes_eq (name_of l) name.now) inner.now }
{
    'inner: for one in inner {
        if one.name.as_str() == name {
            return Some(one);
        }
    }
    None
}

/// What listings show of the module that names lead to.
#[tactic(auto, using(crate::proofs::Finding::listed_here, crate::proofs::Finding::listed_nowhere))]
pub(crate) fn listed_at<'l>(root: &'l ListedModule, names: &[Text]) -> Option<&'l ListedModule>
    ensures { option_copied result ≡ listed_at names.now root.now }
{
    let mut listed = root;
    'names: for name in names {
        match listed_within(listed.modules.as_slice(), name.as_str()) {
            None => return None,
            Some(inner) => listed = inner,
        }
    }
    Some(listed)
}

/// The module of that path in a layout.
fn laid_at<'a>(layout: &'a Layout, path: &Modulepath) -> Option<&'a Module>
    ensures { option_copied result ≡ laid_at layout.now path.now }
{
    'modules: for one in layout.modules.as_slice() {
        if one.path.same(path) {
            return Some(one);
        }
    }
    None
}

/// The target of the alias of that name, where an item is it.
fn target_in<'a>(alias: &str, one: &Entry<'a>) -> Option<&'a [Name]>
    ensures { option_copied result ≡ target_in alias.now (entry one.now) }
{
    match one.item {
        AstItem::Alias { name, target, .. } => {
            if name.text.as_str() == alias {
                Some(target.as_slice())
            } else {
                None
            }
        }
        _ => None,
    }
}

/// The first of some items that is the alias of that name.
#[tactic(auto, using(crate::proofs::Finding::target_here, crate::proofs::Finding::target_later))]
fn target_among<'a>(alias: &str, items: &[Entry<'a>]) -> Option<&'a [Name]>
    ensures { option_copied result ≡ first_of
        (filter_map (target_in alias.now) (entries items.now)) }
{
    'items: for one in items {
        if let Some(target) = target_in(alias, one) {
            return Some(target);
        }
    }
    None
}

/// The target of the alias of that name in the module of that path, as its file has it.
#[tactic(auto, using(crate::proofs::Finding::no_module, crate::proofs::Finding::in_module))]
pub(crate) fn alias_target_at<'a>(
    alloc: Global,
    layout: &'a Layout,
    path: &Modulepath,
    alias: &str,
) -> Result<Option<&'a [Name]>, NoMemory>
    ensures { IfOk result (λ t. option_copied t ≡ alias_target_at layout.now path.now alias.now) }
{
    match laid_at(layout, path) {
        None => Ok(None),
        Some(laid) => {
            let items = items_of_module(alloc, layout.files.as_slice(), laid)?;
            Ok(target_among(alias, items.as_slice()))
        }
    }
}
