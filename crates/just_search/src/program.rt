//! The program that a name means.

ghost use Rattle.std.specs.Prelude.{◌≡◌, ◌⊎◌, Some, None, Ok, Err, IfOk, IfErr, map, option_map, string_bytes, codes, [], ◌∷◌};
ghost use Rattle.std.specs.Option.{option_copied};
ghost use Rattle.just_path_text.specs.Environ.{value_of};
ghost use Rattle.just_path.specs.Path.{text_of, pushed};
ghost use Rattle.just_path.specs.View.{place_under};
ghost use Rattle.just_env.specs.Answers.{GainsMisses};
ghost use Rattle.just_search.specs.declared.which_error.WhichError.TheVariants.{NoMemory as OutOfMemory, Fault};
ghost use Rattle.just_path.specs.declared.host.PathFault.TheVariants.{Failed};
ghost use Rattle.just_search.specs.First.{First};
ghost use Rattle.just_search.specs.Programs.{shows_program, failed_entries, paths_listed, program_paths, SeesProgram, LooksAtProgram, LocatesAmong, Locates, GainsLooks};

use super::WhichError;
use just_config_words::cut::add_parts;
use just_host_record::Host;
use just_path::{Kind, Meta, PathFault, Utf8Path, Utf8PathBuf};
use just_path_text::{Environ, NoMemory, Text};
use std::alloc::Global;

/// The path of a name in a part of `PATH`: under a folder, and clean.
fn path_in(
    alloc: Global,
    folder: Utf8Path<'_>,
    name: &str,
    part: &str,
) -> Result<Utf8PathBuf, NoMemory>
    ensures { IfOk result (λ path. path ≡ place_under (text_of folder.entry) (pushed part.now name.now)) }
{
    let path = Utf8Path::new(part).join(alloc, Utf8Path::new(name))?;
    let path = folder.join(alloc, path.as_path())?;
    path.as_path().clean(alloc)
}

/// The paths of a name in the parts of `PATH`.
fn paths_in(
    alloc: Global,
    folder: Utf8Path<'_>,
    name: &str,
    parts: &[Text],
) -> Result<Vec<Utf8PathBuf>, NoMemory>
    ensures { IfOk result (λ paths. paths.items ≡ map (λ part. place_under (text_of folder.entry) (pushed part name.now)) parts.now) }
{
    let mut paths = Vec::new(alloc);
    'parts: for part in parts {
        paths.push(path_in(alloc, folder, name, part.as_str())?)?;
    }
    Ok(paths)
}

/// The paths of a name in the folders that `PATH` lists.
fn paths_listed(
    alloc: Global,
    folder: Utf8Path<'_>,
    name: &str,
    path: &str,
) -> Result<Vec<Utf8PathBuf>, NoMemory>
    ensures { IfOk result (λ paths. paths_listed (text_of folder.entry) name.now (Some path.now) ≡ Ok paths.items) }
{
    let mut parts = Vec::new(alloc);
    add_parts(alloc, &mut parts, path, ':')?;
    paths_in(alloc, folder, name, parts.as_slice())
}

/// The path of the name itself.
fn path_alone(alloc: Global, folder: Utf8Path<'_>, name: &str) -> Result<Vec<Utf8PathBuf>, NoMemory>
    ensures { IfOk result (λ paths. paths.items ≡ place_under (text_of folder.entry) name.now ∷ []) }
{
    let path = folder.join(alloc, Utf8Path::new(name))?;
    let mut paths = Vec::new(alloc);
    paths.push(path.as_path().clean(alloc)?)?;
    Ok(paths)
}

/// The paths at which the program may stand.
fn program_paths(
    alloc: Global,
    folder: Utf8Path<'_>,
    name: &str,
    environ: &Environ,
) -> Result<Vec<Utf8PathBuf>, WhichError>
    ensures paths { IfOk result (λ paths. program_paths (text_of folder.entry) name.now (value_of (codes "PATH") environ.now.pairs) ≡ Ok paths.items) }
    ensures refused { IfErr result (λ e. (e ≡ OutOfMemory) ⊎ (program_paths (text_of folder.entry) name.now (value_of (codes "PATH") environ.now.pairs) ≡ Err e)) }
    ensures unheard { IfErr result (λ e. failed_entries e ≡ []) }
{
    let mut components = Utf8Path::new(name).components();
    if components.next().is_none() {
        return Err(WhichError::Empty);
    }
    if components.next().is_some() {
        return Ok(path_alone(alloc, folder, name)?);
    }
    match environ.get("PATH") {
        Some(path) => Ok(paths_listed(alloc, folder, name, path)?),
        None => Err(WhichError::NoPath),
    }
}

/// Whether it is an executable file.
fn is_program(meta: &Meta) -> bool
    ensures { result ≡ shows_program (Ok meta.now) }
{
    meta.kind == Kind::File && meta.executable
}

/// Looks whether an executable file stands where a path leads.
#[tactic(auto, using(crate::proofs::Looks::program_told, crate::proofs::Looks::program_missed, crate::proofs::Looks::looks_missed, crate::proofs::Looks::looks_same, crate::proofs::Looks::looks_without_memory, crate::proofs::Looks::looks_failed))]
fn sees_program<H: Host>(host: &mut H, path: Utf8Path<'_>) -> Result<bool, WhichError>
    ensures seen { IfOk result (SeesProgram (H.told host.old).world (text_of path.entry)) }
    ensures refused { IfErr result (λ e. (e ≡ OutOfMemory) ⊎ (e ≡ Fault Failed)) }
    ensures entries { GainsLooks (H.told host.old).entries (H.told host.new).entries result }
    ensures world { (H.told host.new).world ≡ (H.told host.old).world }
{
    match path.metadata(host) {
        Ok(meta) => Ok(is_program(&meta)),
        Err(PathFault::Missed(_)) => Ok(false),
        Err(PathFault::Failed) => Err(WhichError::Fault(PathFault::Failed)),
        Err(PathFault::NoMemory) => Err(WhichError::NoMemory),
    }
}

/// The first of some paths at which an executable file stands.
fn first_program<H: Host>(
    host: &mut H,
    paths: &[Utf8PathBuf],
) -> Result<Option<Utf8PathBuf>, WhichError>
    ensures located { Locates (H.told host.old).world (Ok paths.now) result }
    ensures entries { GainsLooks (H.told host.old).entries (H.told host.new).entries result }
    ensures world { (H.told host.new).world ≡ (H.told host.old).world }
{
    'paths: for path in paths {
        match sees_program(host, path.as_path()) {
            Ok(true) => return Ok(Some(path.try_clone()?)),
            Ok(false) => {}
            Err(error) => return Err(error),
        }
    }
    Ok(None)
}

/// The path of the program that a name means in a folder: the name itself, where it has several components, else the first in the folders
/// that `PATH` lists. Links are followed.
#[tactic(auto, using(crate::proofs::Looks::which_some, crate::proofs::Looks::which_none, crate::proofs::Looks::which_without))]
pub fn which<H: Host>(
    alloc: Global,
    name: &str,
    folder: Utf8Path<'_>,
    environ: &Environ,
    host: &mut H,
) -> Result<Option<String>, WhichError>
    ensures located { IfOk result (λ found. LocatesAmong (H.told host.old).world (program_paths (text_of folder.entry) name.now (value_of (codes "PATH") environ.now.pairs)) (Ok (option_map string_bytes found))) }
    ensures refused { IfErr result (λ e. (e ≡ OutOfMemory) ⊎ LocatesAmong (H.told host.old).world (program_paths (text_of folder.entry) name.now (value_of (codes "PATH") environ.now.pairs)) (Err e)) }
    ensures entries { GainsLooks (H.told host.old).entries (H.told host.new).entries result }
    ensures world { (H.told host.new).world ≡ (H.told host.old).world }
{
    match program_paths(alloc, folder, name, environ) {
        Ok(paths) => match first_program(host, paths.as_slice()) {
            Ok(Some(path)) => Ok(Some(path.into_string())),
            Ok(None) => Ok(None),
            Err(error) => Err(error),
        },
        Err(error) => Err(error),
    }
}
