//! The files of scripts: each in a fresh folder of its own, which goes when its child has ended. Nothing is claimed of what the system answers, so that
//! clauses speak of paths alone.
ghost use Rattle.std.specs.Prelude.{◌≡◌, IfOk};
ghost use Rattle.just_host_system.specs.ScriptFiles.{path_in};

use just_host_files::system::here;
use just_host_files::{fresh_folder, in_memory};
use just_host_record::Script;
use just_path::Utf8Path;
use just_path_text::{NoMemory, Text};
use std::alloc::Global;
use std::fs::{self, Files, Permissions};
use std::os::unix::fs::PermissionsExt;
use std::rt::Env;
use std::{env, io};

/// The file of a script, and the folder that is made for it.
pub(crate) struct ScriptFile {
    pub(crate) folder: Text,
    pub(crate) path: Text,
}

impl Drop for ScriptFile {
    fn drop(self) {
        let ScriptFile { folder: _, path: _ } = self;
    }
}

/// The path of a name in a folder.
pub(crate) fn path_in(alloc: Global, folder: &str, name: &str) -> Result<Text, NoMemory>
    ensures { IfOk result (λ p. p ≡ path_in folder.now name.now) }
{
    let mut path = String::from_str(alloc, folder)?;
    path.push_str("/")?;
    path.push_str(name)?;
    Ok(Text::from(path))
}

/// The file of that name in a folder.
fn file_in(alloc: Global, folder: Text, name: &str) -> Result<ScriptFile, NoMemory>
    ensures { IfOk result (λ f. f.path ≡ path_in f.folder name.now) }
{
    let path = path_in(alloc, folder.as_str(), name)?;
    Ok(ScriptFile { folder, path })
}

/// Makes a fresh folder in another, which this user alone may use, and answers where the file of that name is to stand in it.
fn make_folder<F: Files>(
    files: &F,
    alloc: Global,
    parent: &str,
    name: &str,
) -> io::Result<ScriptFile>
    ensures { IfOk result (λ f. f.path ≡ path_in f.folder name.now) }
{
    let folder = fresh_folder(files, alloc, Utf8Path::new(parent), "just-")?;
    in_memory(file_in(alloc, Text::from(folder.into_string()), name))
}

/// The folder that a script asks for, else the system's for temporary files.
/// No clause: nothing is claimed of what the system answers.
fn asked_folder<R: Env>(rt: &R, alloc: Global, script: &Script) -> io::Result<Text> {
    match &script.folder {
        Some(folder) => in_memory(Text::from_str(alloc, folder.as_path().as_str())),
        None => Ok(Text::from(env::temp_dir(&(rt, alloc))?.into_string())),
    }
}

/// The same as a path from the root, since the child may have another current folder.
/// No clause: nothing is claimed of what the system answers.
fn parent_of<R: Env>(rt: &R, alloc: Global, script: &Script) -> io::Result<Text> {
    let asked = asked_folder(rt, alloc, script)?;
    if asked.as_str().starts_with('/') {
        return Ok(asked);
    }
    let path = match here(rt, alloc) {
        Ok(current) => in_memory(path_in(alloc, current.as_path().as_str(), asked.as_str())),
        Err(error) => Err(error),
    };
    drop(asked);
    path
}

/// Writes the text of a script to its file; one that runs itself may be run by this user.
/// No clause: nothing is claimed of files.
fn write<F: Files>(files: &F, alloc: Global, path: &str, script: &Script) -> io::Result<()> {
    let text = in_memory(script.text.to_string(alloc))?;
    fs::write(files, path, text.as_str())?;
    if script.run {
        fs::set_permissions(files, path, Permissions::from_mode(0o700))?;
    }
    Ok(())
}

/// Writes a script to a file in a fresh folder, in the folder that it asks for, else in that of the system. Where that fails, nothing of it is left.
pub(crate) fn place<R: Files + Env>(
    rt: &R,
    alloc: Global,
    script: &Script,
) -> io::Result<ScriptFile>
    ensures { IfOk result (λ f. f.path ≡ path_in f.folder script.now.name) }
{
    let parent = parent_of(rt, alloc, script)?;
    let made = make_folder(rt, alloc, parent.as_str(), script.name.as_str());
    drop(parent);
    let file = made?;
    match write(rt, alloc, file.path.as_str(), script) {
        Ok(()) => Ok(file),
        Err(error) => {
            remove(rt, &file);
            Err(error)
        }
    }
}

/// Removes the file of a script and its folder. What can't be removed stays.
/// No clause: nothing is claimed of files.
pub(crate) fn remove<F: Files>(files: &F, file: &ScriptFile) {
    let _ = fs::remove_file(files, file.path.as_str());
    let _ = fs::remove_dir(files, file.folder.as_str());
}
