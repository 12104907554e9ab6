//! What the items of a project's files say of its other files.

ghost use Rattle.std.specs.Prelude.{◌≡◌, ◌&&◌, IfOk, Some, position, count_by};
ghost use Rattle.std.specs.Option.{option_copied};
ghost use Rattle.just_path_text.specs.Environ.{home_of};
ghost use Rattle.just_lang_layout.specs.Paths.{Means, path_under};
ghost use Rattle.just_lang_layout.specs.Targets.{import_at, import_target, module_at, module_target, is_module_end, is_module_file, module_base, one_of, module_beside, IsImportTarget, IsModuleTarget, IsTarget, AreItemTargets, AreFileTargets, paths_of, AreTargets};

use super::File;
use super::numbers::Paths;
use super::path::{meaning, path_under};
use just_lang_syntax::{AstItem, StringLiteral};
use just_path::{Utf8Path, Utf8PathBuf};
use just_path_text::{Environ, NoMemory, Seq, Text};
use std::alloc::Global;

/// What an item names. A file is told by its number.
#[derive(Clone, Copy)]
pub enum Target {
    /// No file: the item is no import and no module, or one whose file may be missing and is, or one with a string that
    /// means no path.
    Nothing,
    Import(usize),
    Module(usize),
    /// A module whose file may be missing and is.
    Absent,
    MissingImport,
    MissingModule,
    /// A module with several files.
    Ambiguous,
    /// A path that begins with `~`, where there is no home folder.
    Homeless,
}

fn import_at(paths: &Paths, optional: bool, path: Option<Utf8PathBuf>) -> Target
    ensures { result ≡ import_at paths.now.all.items optional path }
{
    let Some(path) = path else {
        return Target::Homeless;
    };
    let place = Text::from(path.into_string());
    match paths.number(&place) {
        Some(number) => Target::Import(number),
        None => {
            if optional {
                Target::Nothing
            } else {
                Target::MissingImport
            }
        }
    }
}

fn module_at(paths: &Paths, optional: bool, path: Option<Utf8PathBuf>) -> Target
    ensures { result ≡ module_at paths.now.all.items optional path }
{
    let Some(path) = path else {
        return Target::Homeless;
    };
    let place = Text::from(path.into_string());
    match paths.number(&place) {
        Some(number) => Target::Module(number),
        None => {
            if optional {
                Target::Absent
            } else {
                Target::MissingModule
            }
        }
    }
}

/// The target of an import by its string.
fn import_target(
    alloc: Global,
    environ: &Environ,
    paths: &Paths,
    root: &Utf8PathBuf,
    optional: bool,
    string: &StringLiteral,
) -> Result<Target, NoMemory>
    ensures { IfOk result
        (IsImportTarget environ.now.pairs paths.now.all.items root.now optional string.now) }
{
    match meaning(alloc, environ, string)? {
        None => Ok(Target::Nothing),
        Some(text) => {
            let path = path_under(alloc, environ, root, text.as_str());
            drop(text);
            Ok(import_at(paths, optional, path?))
        }
    }
}

/// Whether this, behind a module's name, makes the path of a file that may be its.
fn is_module_end(end: &[u8]) -> bool
    ensures { result ≡ is_module_end end.now }
{
    end == b".just".as_slice()
        || end == b"/mod.just".as_slice()
        || end.eq_ignore_ascii_case(b"/justfile".as_slice())
        || end.eq_ignore_ascii_case(b"/.justfile".as_slice())
}

/// Whether a path is that of a file that may be the module's whose name's path is `base`.
pub(crate) fn is_module_file(base: &[u8], path: &[u8]) -> bool
    ensures { result ≡ is_module_file base.now path.now }
{
    path.starts_with(base) && is_module_end(&path[base.len()..])
}

/// The path of a module's name beside a file of that root.
pub fn module_base(alloc: Global, root: &Utf8PathBuf, name: &str) -> Result<Utf8PathBuf, NoMemory>
    ensures { IfOk result (λ p. p ≡ module_base root.now name.now) }
{
    let path = root.as_path().join(alloc, Utf8Path::new(name))?;
    path.as_path().clean(alloc)
}

fn one_of(optional: bool, first: Option<usize>, count: usize) -> Target
    ensures { result ≡ one_of optional first count }
{
    match first {
        Some(number) => {
            if count <= 1 {
                Target::Module(number)
            } else {
                Target::Ambiguous
            }
        }
        None => {
            if optional {
                Target::Absent
            } else {
                Target::MissingModule
            }
        }
    }
}

/// The number of the first file that may be the module's whose name's path is `base`.
fn first_beside(paths: &[Utf8PathBuf], base: &[u8]) -> Option<usize>
    ensures { result ≡ position (is_module_file base.now) paths.now }
{
    paths
        .iter()
        .position(|p| is_module_file(base, p.as_str().as_bytes()))
}

/// How many files may be its.
fn count_beside(paths: &[Utf8PathBuf], base: &[u8]) -> usize
    ensures { result ≡ count_by (is_module_file base.now) paths.now }
{
    paths
        .iter()
        .filter(|p| is_module_file(base, p.as_str().as_bytes()))
        .count()
}

/// The target of a module without a string, beside a file of that root.
fn module_beside(
    alloc: Global,
    paths: &[Utf8PathBuf],
    root: &Utf8PathBuf,
    name: &str,
    optional: bool,
) -> Result<Target, NoMemory>
    ensures { IfOk result (λ t. t ≡ module_beside paths.now root.now name.now optional) }
{
    let base = module_base(alloc, root, name)?;
    let base = base.as_str().as_bytes();
    Ok(one_of(
        optional,
        first_beside(paths, base),
        count_beside(paths, base),
    ))
}

/// The target of a module by its name and its string, if it has one.
fn module_target(
    alloc: Global,
    environ: &Environ,
    paths: &Paths,
    root: &Utf8PathBuf,
    name: &str,
    optional: bool,
    string: &Option<StringLiteral>,
) -> Result<Target, NoMemory>
    ensures { IfOk result
        (IsModuleTarget environ.now.pairs paths.now.all.items root.now name.now optional string.now) }
{
    let Some(string) = string else {
        return module_beside(alloc, paths.all.as_slice(), root, name, optional);
    };
    match meaning(alloc, environ, string)? {
        None => Ok(Target::Nothing),
        Some(text) => {
            let path = path_under(alloc, environ, root, text.as_str());
            drop(text);
            Ok(module_at(paths, optional, path?))
        }
    }
}

/// The target of an item of a file of that root.
fn item_target(
    alloc: Global,
    environ: &Environ,
    paths: &Paths,
    root: &Utf8PathBuf,
    item: &AstItem,
) -> Result<Target, NoMemory>
    ensures { IfOk result (IsTarget environ.now.pairs paths.now.all.items root.now item.now) }
{
    match item {
        AstItem::Import { optional, path, .. } => {
            import_target(alloc, environ, paths, root, *optional, path)
        }
        AstItem::Module {
            optional,
            name,
            path,
            ..
        } => module_target(
            alloc,
            environ,
            paths,
            root,
            name.text.as_str(),
            *optional,
            path,
        ),
        _ => Ok(Target::Nothing),
    }
}

/// The targets of a file's items.
#[tactic(auto, using(crate::proofs::TargetLists::next_item))]
fn item_targets(
    alloc: Global,
    environ: &Environ,
    paths: &Paths,
    root: &Utf8PathBuf,
    items: &[AstItem],
) -> Result<Seq<Target>, NoMemory>
    ensures { IfOk result
        (AreItemTargets environ.now.pairs paths.now.all.items root.now items.now) }
{
    let mut targets = Vec::new(alloc);
    for item in items {
        targets.push(item_target(alloc, environ, paths, root, item)?)?;
    }
    Ok(Seq::from(targets))
}

/// The clean paths of files.
pub(crate) fn paths_of(alloc: Global, files: &[File]) -> Result<Vec<Utf8PathBuf>, NoMemory>
    ensures { IfOk result (λ paths. paths.items ≡ paths_of files.now) }
{
    let mut paths = Vec::new(alloc);
    for file in files {
        paths.push(file.path.as_path().clean(alloc)?)?;
    }
    Ok(paths)
}

/// The targets of the items of files, a sequence for each.
#[tactic(auto, using(crate::proofs::TargetLists::next_file))]
fn file_targets(
    alloc: Global,
    environ: &Environ,
    paths: &Paths,
    files: &[File],
) -> Result<Seq<Seq<Target>>, NoMemory>
    ensures { IfOk result (AreFileTargets environ.now.pairs paths.now.all.items files.now) }
{
    let mut table = Vec::new(alloc);
    for file in files {
        let items = file.items.as_slice();
        table.push(item_targets(alloc, environ, paths, &file.root, items)?)?;
    }
    Ok(Seq::from(table))
}

/// The targets of the items of all files, over an environment.
pub(crate) fn targets(
    alloc: Global,
    environ: &Environ,
    files: &[File],
) -> Result<Seq<Seq<Target>>, NoMemory>
    ensures { IfOk result (AreTargets environ.now.pairs files.now) }
{
    let all = paths_of(alloc, files)?;
    let paths = Paths::new(alloc, all)?;
    let table = file_targets(alloc, environ, &paths, files)?;
    Ok(table)
}
