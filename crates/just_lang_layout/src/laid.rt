//! The layout of sources, or the first rule on files that they break.

ghost use Rattle.std.specs.Prelude.{◌≡◌, ◌≢◌, ◌++◌, true, List, drop, length, nat_eq, IfOk, IfErr};
ghost use Rattle.std.specs.List.{starts_with};
ghost use Rattle.just_lang_layout.specs.Files.{IsFileOf, AreFilesOf};
ghost use Rattle.just_lang_layout.specs.Walk.{is_broken};
ghost use Rattle.just_lang_layout.specs.Laid.{path_of, root_of, ends_with_name, module_files, BreaksAt, IsAmbiguous, circular_import, IsLaid, IsLayoutOf, Refuses};
ghost use Rattle.just_lang_layout.specs.Modules.{name_at};
ghost use Rattle.just_lang_layout.specs.Targets.{paths_of, AreTargets};
ghost use Rattle.just_lang_layout.specs.declared.target.Target.{Target as TargetOf};

use super::imports::imports_of;
use super::pending::{modules_of, name_at};
use super::target::{is_module_file, module_base, paths_of, targets};
use super::visit::{Visit, first_broken};
use super::{File, Layout, LayoutError, Placed, Target};
use just_lang_syntax::{ParseError, parse};
use just_lang_types::Source;
use just_path::Utf8PathBuf;
use just_path_text::{Environ, NoMemory, Seq, Text};
use std::alloc::Global;

/// A source with its tree, or with its fault.
fn file_of(alloc: Global, source: &Source) -> Result<File, NoMemory>
    ensures { IfOk result (IsFileOf source.now) }
{
    let path = source.path.try_clone()?;
    let root = source.root.try_clone()?;
    match parse(alloc, source.text.as_str()) {
        Ok(ast) => Ok(File {
            path,
            root,
            items: ast.items,
            fault: None,
        }),
        Err(ParseError::Fault(fault)) => Ok(File {
            path,
            root,
            items: Seq::new(alloc),
            fault: Some(fault),
        }),
        Err(ParseError::NoMemory) => Err(NoMemory),
    }
}

/// The files that sources are.
#[tactic(auto, using(crate::proofs::Sources::next_source))]
fn files_of(alloc: Global, sources: &[Source]) -> Result<Seq<File>, NoMemory>
    ensures { IfOk result (AreFilesOf sources.now) }
{
    let mut files = Vec::new(alloc);
    for source in sources {
        files.push(file_of(alloc, source)?)?;
    }
    Ok(Seq::from(files))
}

/// The path of the file of that number.
fn path_of(alloc: Global, files: &[File], number: usize) -> Result<Utf8PathBuf, NoMemory>
    ensures { IfOk result (λ p. p ≡ path_of files.now number) }
{
    match files.get(number) {
        Some(file) => file.path.try_clone(),
        None => Ok(Utf8PathBuf::new(alloc)),
    }
}

/// The root of the file of that number.
fn root_of(alloc: Global, files: &[File], number: usize) -> Result<Utf8PathBuf, NoMemory>
    ensures { IfOk result (λ p. p ≡ root_of files.now number) }
{
    match files.get(number) {
        Some(file) => file.root.try_clone(),
        None => Ok(Utf8PathBuf::new(alloc)),
    }
}

/// A name, and behind it what a path has behind that name's path.
fn end_with_name(alloc: Global, base: &str, path: &str, name: &str) -> Result<Text, NoMemory>
    requires { starts_with nat_eq path.now base.now ≡ true }
    ensures { IfOk result (λ t. t ≡ name.now ++ drop (length base.now) path.now) }
{
    let (_, end) = path.split_at(base.len());
    let mut text = String::from_str(alloc, name)?;
    text.push_str(end)?;
    Ok(Text::from(text))
}

/// The paths, under a root, of the files of a module of that name; `base` is the path of the name.
#[tactic(auto, using(crate::proofs::Ends::one_more, crate::proofs::Ends::no_more))]
fn ends_with_name(
    alloc: Global,
    paths: &[Utf8PathBuf],
    base: &str,
    name: &str,
) -> Result<Vec<Text>, NoMemory>
    ensures { IfOk result (λ found. found.items ≡ ends_with_name paths.now base.now name.now) }
{
    let mut found = Vec::new(alloc);
    for path in paths {
        let path = path.as_str();
        if is_module_file(base.as_bytes(), path.as_bytes()) {
            found.push(end_with_name(alloc, base, path, name)?)?;
        }
    }
    Ok(found)
}

/// The paths of the files of the module that an item declares, under the root of its file.
fn module_files(
    alloc: Global,
    files: &[File],
    place: Placed,
    name: &str,
) -> Result<Vec<Text>, NoMemory>
    requires { name.now ≡ name_at files.now place }
    ensures { IfOk result (λ found. found.items ≡ module_files files.now place) }
{
    let root = root_of(alloc, files, place.file)?;
    let base = module_base(alloc, &root, name)?;
    let paths = paths_of(alloc, files)?;
    ends_with_name(alloc, paths.as_slice(), base.as_str(), name)
}

/// The refusal of a module with several files.
fn ambiguous(alloc: Global, files: &[File], place: Placed) -> Result<LayoutError, NoMemory>
    ensures { IfOk result (IsAmbiguous files.now place) }
{
    let module = name_at(alloc, files, place)?;
    let mut found = module_files(alloc, files, place, module.as_str())?;
    found.sort()?;
    Ok(LayoutError::AmbiguousModuleFile {
        module,
        found: Seq::from(found),
    })
}

/// The refusal of an item that names a file on the way to it.
fn circular(
    alloc: Global,
    files: &[File],
    current: usize,
    file: usize,
) -> Result<LayoutError, NoMemory>
    ensures { IfOk result (λ e. e ≡ circular_import files.now current file) }
{
    Ok(LayoutError::CircularImport {
        current: path_of(alloc, files, current)?,
        import: path_of(alloc, files, file)?,
    })
}

/// The refusal of an item that breaks a rule on files.
fn refusal(alloc: Global, files: &[File], visit: Visit) -> Result<LayoutError, NoMemory>
    requires { is_broken visit ≡ true }
    ensures { IfOk result (BreaksAt files.now visit.place visit.target) }
{
    match visit.target {
        Target::Import(file) | Target::Module(file) => {
            circular(alloc, files, visit.place.file, file)
        }
        Target::MissingImport => Ok(LayoutError::MissingImportFile),
        Target::MissingModule => Ok(LayoutError::MissingModuleFile {
            module: name_at(alloc, files, visit.place)?,
        }),
        Target::Ambiguous => ambiguous(alloc, files, visit.place),
        Target::Homeless | Target::Nothing | Target::Absent => Ok(LayoutError::Homedir),
    }
}

/// The layout of sources, or the first rule on files that they break.
#[tactic(auto, using(crate::proofs::Layouts::laid, crate::proofs::Layouts::broken))]
fn layout_of(alloc: Global, sources: &[Source], environ: &Environ) -> Result<Layout, LayoutError>
    ensures found { IfOk result (IsLayoutOf sources.now environ.now.pairs) }
    ensures refused { IfErr result (Refuses sources.now environ.now.pairs) }
{
    let files = files_of(alloc, sources)?;
    let table = targets(alloc, environ, files.as_slice())?;
    if let Some(visit) = first_broken(alloc, table.as_slice())? {
        return Err(refusal(alloc, files.as_slice(), visit)?);
    }
    let modules = modules_of(alloc, files.as_slice(), table.as_slice())?;
    let imports = imports_of(alloc, table.as_slice())?;
    Ok(Layout {
        files,
        modules,
        imports,
    })
}

/// The layout of sources, the first of which is the root: the files with their trees, and the modules that they make.
/// The first rule on files that is broken, in the order in which the files would be loaded, is refused: a file that is
/// named and isn't among the sources, that leads to itself, or that isn't the only one that a module may have. Without
/// sources the root has no items.
pub fn lay(alloc: Global, sources: &[Source], environ: &Environ) -> Result<Layout, LayoutError>
    // The files are those of the sources, no rule on files is broken, and the modules are theirs.
    ensures found { IfOk result (IsLayoutOf sources.now environ.now.pairs) }
    // Nothing else is a layout of these files.
    ensures only { IfOk result (λ l. (table : List (List TargetOf)) → AreTargets environ.now.pairs l.files table → IsLaid l.files table l.modules l.imports) }
    // The rule that is refused is the first one that is broken.
    ensures refused { IfErr result (Refuses sources.now environ.now.pairs) }
{
    layout_of(alloc, sources, environ)
}
