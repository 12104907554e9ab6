//! The folders of recipes and of their scripts.

ghost use Rattle.std.specs.Prelude.{◌≡◌, IfOk};
ghost use Rattle.just_path.specs.Path.{text_of};
ghost use Rattle.just_exec_work.specs.Folders.{module_folder, under, recipe_folder, script_folder};

use super::{RunAttributes, RunFlags};
use just_lang_types::{Modulepath, Settings};
use just_path::{Utf8Path, Utf8PathBuf};
use just_path_text::{NoMemory, Text};
use std::alloc::Global;

/// The folder of a module: of the root it is the working folder, of any other that of its file.
pub fn module_folder<'p>(
    working: Utf8Path<'p>,
    path: &Modulepath,
    source: Utf8Path<'p>,
) -> Utf8Path<'p>
    ensures { text_of result ≡ module_folder (text_of working.entry) path.now (text_of source.entry) }
{
    if path.components.len() == 0 {
        return working;
    }
    match source.parent() {
        Some(parent) => parent,
        None => source,
    }
}

/// A path under a folder, where there is one.
fn under(alloc: Global, folder: Utf8Path<'_>, path: &Option<Text>) -> Result<Utf8PathBuf, NoMemory>
    ensures { IfOk result (λ p. p ≡ under (text_of folder.entry) path.now) }
{
    match path {
        Some(path) => folder.join(alloc, Utf8Path::new(path.as_str())),
        None => folder.to_path_buf(alloc),
    }
}

/// The folder of a recipe in a module with that folder, if it has one.
pub(crate) fn recipe_folder(
    alloc: Global,
    settings: &Settings,
    attributes: &RunAttributes,
    folder: Utf8Path<'_>,
) -> Result<Option<Utf8PathBuf>, NoMemory>
    ensures { IfOk result (λ p. p ≡ recipe_folder settings.now attributes.now (text_of folder.entry)) }
{
    if settings.no_cd || attributes.no_cd {
        return Ok(None);
    }
    let base = under(alloc, folder, &settings.working_directory)?;
    match &attributes.working_directory {
        Some(path) => Ok(Some(base.as_path().join(alloc, Utf8Path::new(path.as_str()))?)),
        None => Ok(Some(base)),
    }
}

/// The folder in which the fresh folder of a script is made, if one is asked for.
pub(crate) fn script_folder(
    alloc: Global,
    flags: &RunFlags,
    settings: &Settings,
) -> Result<Option<Utf8PathBuf>, NoMemory>
    ensures { IfOk result (λ p. p ≡ script_folder flags.now settings.now) }
{
    if let Some(folder) = &flags.tempdir {
        return Ok(Some(flags.folder.as_path().join(alloc, folder.as_path())?));
    }
    match &settings.tempdir {
        Some(folder) => {
            let path = Utf8Path::new(folder.as_str());
            Ok(Some(flags.folder.as_path().join(alloc, path)?))
        }
        None => Ok(None),
    }
}
