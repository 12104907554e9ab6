//! The modules of a project.

ghost use Rattle.std.specs.Prelude.{◌≡◌, ◌<◌, ◌++◌, ◌∷◌, [], IfOk, OnOk, List, map, filter, filter_map, not, ◌&&◌};
ghost use Rattle.std.specs.List.{list_any};
ghost use Rattle.just_lang_layout.specs.declared.pending.Declaration.{Declaration as DeclarationOf};
ghost use Rattle.just_lang_layout.specs.Modules.{name_at, module_file, declaration_of, declarations, has_name, is_there, is_absent, last_of_each, there, absent, module_with, child, root_module, modules_of, own_visits, module_of, children};
ghost use Rattle.just_lang_layout.specs.Pending.{HasNames, modules_left, all_of, within};

use super::visit::{Visit, own_visits};
use super::{File, Module, Placed, Target};
use just_lang_syntax::AstItem;
use just_lang_types::Modulepath;
use just_path_text::{NoMemory, Seq, Text};
use std::alloc::Global;
use std::collections::BTreeSet;

/// A `mod` among the items of a module.
#[derive(Drop)]
pub struct Declaration {
    pub place: Placed,
    pub name: Text,
    /// The number of its file; none where that is missing.
    pub file: Option<usize>,
}

/// A module that is still to be made.
#[derive(Drop)]
pub struct Pending {
    pub path: Seq<Text>,
    pub file: usize,
    pub declaration: Option<Placed>,
    /// How deep modules may stand within it.
    pub depth: usize,
}

impl Declaration {
    fn try_clone(&self) -> Result<Declaration, NoMemory>
        ensures { IfOk result (λ d. d ≡ self.now) }
    {
        Ok(Declaration {
            place: self.place,
            name: self.name.try_clone()?,
            file: self.file,
        })
    }
}

/// The name of the module that an item declares.
pub(crate) fn name_at(alloc: Global, files: &[File], place: Placed) -> Result<Text, NoMemory>
    ensures { IfOk result (λ t. t ≡ name_at files.now place) }
{
    let Some(file) = files.get(place.file) else {
        return Ok(Text::from(String::new(alloc)));
    };
    match file.items.as_slice().get(place.item) {
        Some(AstItem::Module { name, .. }) => name.text.try_clone(),
        _ => Ok(Text::from(String::new(alloc))),
    }
}

/// The file of a module, if it is there.
fn module_file(target: Target) -> Option<Option<usize>>
    ensures { result ≡ module_file target }
{
    match target {
        Target::Module(file) => Some(Some(file)),
        Target::Absent => Some(None),
        _ => None,
    }
}

/// The module that an item declares.
fn declaration_of(
    alloc: Global,
    files: &[File],
    visit: Visit,
) -> Result<Option<Declaration>, NoMemory>
    ensures { IfOk result (λ d. d ≡ declaration_of files.now visit) }
{
    let Some(file) = module_file(visit.target) else {
        return Ok(None);
    };
    Ok(Some(Declaration {
        place: visit.place,
        name: name_at(alloc, files, visit.place)?,
        file,
    }))
}

/// The modules that items declare.
#[tactic(auto, using(crate::proofs::Standing::goes_none, crate::proofs::Standing::goes_some))]
fn declarations(
    alloc: Global,
    files: &[File],
    visits: &[Visit],
) -> Result<Vec<Declaration>, NoMemory>
    ensures { IfOk result (λ ds. ds.items ≡ declarations files.now visits.now) }
{
    let mut found = Vec::new(alloc);
    for visit in visits {
        if let Some(declaration) = declaration_of(alloc, files, *visit)? {
            found.push(declaration)?;
        }
    }
    Ok(found)
}

/// Those without a later one of the same name.
#[tactic(auto, using(crate::proofs::Seen::names_at, crate::proofs::Seen::kept_at, crate::proofs::Seen::passed_at))]
fn last_of_each(alloc: Global, declarations: &[Declaration]) -> Result<Vec<Declaration>, NoMemory>
    ensures { IfOk result (λ ds. ds.items ≡ last_of_each declarations.now) }
{
    let mut seen: BTreeSet<&str> = BTreeSet::new(alloc);
    let mut last = Vec::new(alloc);
    let mut left = declarations.len();
    'declarations: while left > 0 {
        left -= 1;
        let declaration = &declarations[left];
        if seen.insert(declaration.name.as_str())? {
            last.push(declaration.try_clone()?)?;
        }
    }
    last.reverse();
    Ok(last)
}

/// The names of declarations.
#[tactic(auto, using(crate::proofs::Seen::names_behind))]
fn names_of<'a>(
    alloc: Global,
    declarations: &'a [Declaration],
) -> Result<BTreeSet<&'a str>, NoMemory>
    ensures { IfOk result (HasNames declarations.now) }
{
    let mut names: BTreeSet<&str> = BTreeSet::new(alloc);
    for declaration in declarations {
        names.insert(declaration.name.as_str())?;
    }
    Ok(names)
}

/// Whether a set of names has that one.
fn is_named<'a>(names: &BTreeSet<&'a str>, name: &'a str) -> bool
    ensures { (ds : List DeclarationOf) → HasNames ds names.now → result ≡ list_any (has_name name.now) ds }
{
    names.contains(&name)
}

/// Those that are there.
fn present(alloc: Global, declarations: &[Declaration]) -> Result<Vec<Declaration>, NoMemory>
    ensures { IfOk result (λ ds. ds.items ≡ filter is_there declarations.now) }
{
    let mut found = Vec::new(alloc);
    for declaration in declarations {
        if declaration.file.is_some() {
            found.push(declaration.try_clone()?)?;
        }
    }
    Ok(found)
}

/// Those that are missing and have the name of none of these.
fn missing(
    alloc: Global,
    declarations: &[Declaration],
    present: &[Declaration],
) -> Result<Vec<Declaration>, NoMemory>
    ensures { IfOk result (λ ds. ds.items ≡ filter (λ d. not (is_there d) && not (list_any (has_name d.name) present.now)) declarations.now) }
{
    let names = names_of(alloc, present)?;
    let mut found = Vec::new(alloc);
    for declaration in declarations {
        if declaration.file.is_none() && !is_named(&names, declaration.name.as_str()) {
            found.push(declaration.try_clone()?)?;
        }
    }
    Ok(found)
}

/// The places of declarations.
fn places_of(alloc: Global, declarations: &[Declaration]) -> Result<Seq<Placed>, NoMemory>
    ensures { IfOk result (λ ps. ps ≡ map (λ d. d.place) declarations.now) }
{
    let mut places = Vec::new(alloc);
    for declaration in declarations {
        places.push(declaration.place)?;
    }
    Ok(Seq::from(places))
}

/// The places of items.
fn placed_of(alloc: Global, visits: &[Visit]) -> Result<Seq<Placed>, NoMemory>
    ensures { IfOk result (λ ps. ps ≡ map (λ v. v.place) visits.now) }
{
    let mut places = Vec::new(alloc);
    for visit in visits {
        places.push(visit.place)?;
    }
    Ok(Seq::from(places))
}

/// The places of the absent modules that stand.
fn absent(alloc: Global, declarations: &[Declaration]) -> Result<Seq<Placed>, NoMemory>
    ensures { IfOk result (λ ps. ps ≡ map (λ d. d.place) (absent declarations.now)) }
{
    let present = present(alloc, declarations)?;
    let missing = missing(alloc, declarations, present.as_slice())?;
    let last = last_of_each(alloc, missing.as_slice())?;
    places_of(alloc, last.as_slice())
}

/// The modules that stand and are there.
fn there(alloc: Global, declarations: &[Declaration]) -> Result<Vec<Declaration>, NoMemory>
    ensures { IfOk result (λ ds. ds.items ≡ there declarations.now) }
{
    let present = present(alloc, declarations)?;
    last_of_each(alloc, present.as_slice())
}

/// A module within a module.
fn child(pending: &Pending, declaration: Declaration) -> Result<Pending, NoMemory>
    requires { 0 < pending.now.depth }
    ensures { IfOk result (λ p. p ≡ child pending.now declaration) }
{
    let mut path = pending.path.try_clone()?.into_vec();
    path.push(declaration.name)?;
    Ok(Pending {
        path: Seq::from(path),
        file: declaration.file.unwrap_or(0),
        declaration: Some(declaration.place),
        depth: pending.depth - 1,
    })
}

/// Puts the modules within a module on a stack, the first on top.
#[tactic(auto, using(crate::proofs::PendingLists::child_pushed))]
fn push_children(
    files: &[File],
    table: &[Seq<Target>],
    pending: &Pending,
    declarations: Vec<Declaration>,
    stack: &mut Vec<Pending>,
) -> Result<(), NoMemory>
    requires { 0 < pending.now.depth }
    ensures { OnOk result (modules_left files.now table.now stack.new.items ≡ all_of files.now table.now (map (child pending.now) declarations.items) ++ modules_left files.now table.now stack.old.items) }
{
    let mut left = declarations;
    'declarations: while let Some(declaration) = left.pop() {
        stack.push(child(pending, declaration)?)?;
    }
    Ok(())
}

/// Puts the modules within a module on a stack, if any may stand there.
fn push_within(
    alloc: Global,
    files: &[File],
    table: &[Seq<Target>],
    pending: &Pending,
    declarations: &[Declaration],
    stack: &mut Vec<Pending>,
) -> Result<(), NoMemory>
    ensures { OnOk result (modules_left files.now table.now stack.new.items ≡ within files.now table.now pending.now.depth pending.now declarations.now ++ modules_left files.now table.now stack.old.items) }
{
    if pending.depth == 0 {
        return Ok(());
    }
    let there = there(alloc, declarations)?;
    push_children(files, table, pending, there, stack)
}

/// A module of those items.
fn module_with(
    alloc: Global,
    pending: Pending,
    visits: &[Visit],
    declarations: &[Declaration],
) -> Result<Module, NoMemory>
    ensures { IfOk result (λ m. m ≡ module_with pending visits.now declarations.now) }
{
    let placed = placed_of(alloc, visits)?;
    let absent = absent(alloc, declarations)?;
    Ok(Module {
        path: Modulepath {
            components: pending.path,
        },
        file: pending.file,
        declaration: pending.declaration,
        placed,
        absent,
    })
}

/// Makes a module that was taken from a stack, and puts those within it there.
#[tactic(auto, using(crate::proofs::PendingLists::module_taken))]
fn make(
    alloc: Global,
    files: &[File],
    table: &[Seq<Target>],
    pending: Pending,
    stack: &mut Vec<Pending>,
) -> Result<Module, NoMemory>
    ensures { IfOk result (λ m. modules_left files.now table.now (stack.old.items ++ pending ∷ []) ≡ m ∷ modules_left files.now table.now stack.new.items) }
{
    let visits = own_visits(alloc, table, pending.file)?;
    let declarations = declarations(alloc, files, visits.as_slice())?;
    push_within(
        alloc,
        files,
        table,
        &pending,
        declarations.as_slice(),
        stack,
    )?;
    module_with(alloc, pending, visits.as_slice(), declarations.as_slice())
}

/// The modules of files whose items have those targets.
pub(crate) fn modules_of(
    alloc: Global,
    files: &[File],
    table: &[Seq<Target>],
) -> Result<Seq<Module>, NoMemory>
    ensures { IfOk result (λ ms. ms ≡ modules_of files.now table.now) }
{
    let mut modules = Vec::new(alloc);
    let mut stack = Vec::new(alloc);
    stack.push(Pending {
        path: Seq::new(alloc),
        file: 0,
        declaration: None,
        depth: table.len(),
    })?;
    'modules: while let Some(pending) = stack.pop() {
        modules.push(make(alloc, files, table, pending, &mut stack)?)?;
    }
    Ok(Seq::from(modules))
}
