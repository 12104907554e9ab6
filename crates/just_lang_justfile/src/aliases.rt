//! The aliases of a module: of recipes, of modules, and those that can't be run.
ghost use Rattle.std.specs.Prelude.{◌≡◌, Some, IfOk};
ghost use Rattle.just_lang_spots.specs.Entries.{entry, entries};
ghost use Rattle.just_lang_justfile.specs.Aliases.{alias_for, target_of, alias_by, aliases_to, disabled_alias, disabled_aliases_of};

use super::linker::{AliasTarget, Linker};
use super::recipes::disabled_for;
use just_lang_spots::{Entry, push_some};
use just_lang_syntax::{AstItem, Name};
use just_lang_types::{Alias, Disabled, Modulepath};
use just_path_text::{NoMemory, Seq, Text};
use std::alloc::Global;

/// What the target of an alias is.
#[derive(Clone, Copy)]
pub(crate) enum AliasKind {
    Recipe,
    Module,
}

/// The alias of that name, with that target.
fn alias_to(alloc: Global, name: &Name, target: Modulepath) -> Result<Option<Alias>, NoMemory>
    ensures { IfOk result (λ a. a ≡ Some (record { name = name.now.text; target = target })) }
{
    let name = Text::from_str(alloc, name.text.as_str())?;
    Ok(Some(Alias { name, target }))
}

/// The alias of that name, where its target is of that kind.
fn alias_for(
    alloc: Global,
    kind: AliasKind,
    name: &Name,
    target: AliasTarget,
) -> Result<Option<Alias>, NoMemory>
    ensures { IfOk result (λ a. a ≡ alias_for kind name.now.text target) }
{
    match target {
        AliasTarget::Recipe(path) => match kind {
            AliasKind::Recipe => alias_to(alloc, name, path),
            AliasKind::Module => Ok(None),
        },
        AliasTarget::Module(path) => match kind {
            AliasKind::Recipe => Ok(None),
            AliasKind::Module => alias_to(alloc, name, path),
        },
        AliasTarget::Nothing => Ok(None),
    }
}

/// The target of an alias of that path in the module of that number; none where it can't be run.
#[tactic(auto, using(crate::proofs::ListLaws::where_empty, crate::proofs::ListLaws::where_filled))]
fn target_of<'a, L: Linker<'a>>(
    alloc: Global,
    links: &L,
    number: usize,
    path: &'a [Name],
) -> Result<Option<AliasTarget>, NoMemory>
    requires { L.known links.now }
    ensures { IfOk result (λ t. t ≡ target_of (L.links links.now) number path.now) }
{
    let modules = links.modules_of_alias(alloc, number, path)?;
    if !modules.is_empty() {
        return Ok(None);
    }
    Ok(Some(links.alias_target(alloc, number, path)?))
}

/// The alias of that kind that an item is, where it can be run.
fn alias_in<'a, L: Linker<'a>>(
    alloc: Global,
    links: &L,
    number: usize,
    kind: AliasKind,
    one: &Entry<'a>,
) -> Result<Option<Alias>, NoMemory>
    requires { L.known links.now }
    ensures { IfOk result (λ a. a ≡ alias_by (L.links links.now) number (alias_for kind) (entry one.now)) }
{
    match one.item {
        AstItem::Alias { name, target, .. } => {
            match target_of(alloc, links, number, target.as_slice())? {
                None => Ok(None),
                Some(target) => alias_for(alloc, kind, name, target),
            }
        }
        _ => Ok(None),
    }
}

/// The aliases of that kind in the module of that number that can be run.
pub(crate) fn aliases_to<'a, L: Linker<'a>>(
    alloc: Global,
    links: &L,
    number: usize,
    kind: AliasKind,
    items: &[Entry<'a>],
) -> Result<Seq<Alias>, NoMemory>
    requires { L.known links.now }
    ensures { IfOk result (λ all. all ≡ aliases_to (L.links links.now) number kind (entries items.now)) }
{
    let mut all = Vec::new(alloc);
    'items: for one in items {
        let alias = alias_in(alloc, links, number, kind, one)?;
        push_some(&mut all, alias)?;
    }
    Ok(Seq::from(all))
}

/// The alias that an item is, where it can't be run.
fn disabled_alias<'a, L: Linker<'a>>(
    alloc: Global,
    links: &L,
    number: usize,
    one: &Entry<'a>,
) -> Result<Option<Disabled>, NoMemory>
    requires { L.known links.now }
    ensures { IfOk result (λ d. d ≡ disabled_alias (L.links links.now) number (entry one.now)) }
{
    match one.item {
        AstItem::Alias { name, target, .. } => {
            let modules = links.modules_of_alias(alloc, number, target.as_slice())?;
            disabled_for(alloc, name.text.as_str(), modules)
        }
        _ => Ok(None),
    }
}

/// The aliases in the module of that number that can't be run.
pub(crate) fn disabled_aliases_of<'a, L: Linker<'a>>(
    alloc: Global,
    links: &L,
    number: usize,
    items: &[Entry<'a>],
) -> Result<Seq<Disabled>, NoMemory>
    requires { L.known links.now }
    ensures { IfOk result (λ all. all ≡ disabled_aliases_of (L.links links.now) number (entries items.now)) }
{
    let mut all = Vec::new(alloc);
    'items: for one in items {
        let disabled = disabled_alias(alloc, links, number, one)?;
        push_some(&mut all, disabled)?;
    }
    Ok(Seq::from(all))
}
