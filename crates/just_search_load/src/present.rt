//! Which of some paths lead to files.

ghost use Rattle.std.specs.Prelude.{◌≡◌, map, filter, IfOk, OnOk, ◌++◌, ◌∷◌, []};
ghost use Rattle.just_search_load.specs.Gathers.{Gathers, Adds};
ghost use Rattle.just_search_load.specs.Named.{IfPresent, ModuleFiles, is_justfile_name, module_paths};
ghost use Rattle.just_env.specs.Answers.{Gains};

use super::SearchError;
use super::shown::{names_in, sees_file};
use just_host_record::Host;
use just_path::Utf8PathBuf;
use just_path_text::{NoMemory, Text};
use std::alloc::Global;

/// Adds a path, where a file stands there.
#[tactic(auto, using(just_env::proofs::Laws::gains_nothing, just_env::proofs::Laws::gains_before, just_env::proofs::Laws::gains_none, just_env::proofs::Laws::gains_then, crate::proofs::Sights::adds_present, crate::proofs::Sights::adds_absent))]
pub(crate) fn add_present<H: Host>(
    alloc: Global,
    host: &mut H,
    path: &Utf8PathBuf,
    found: &mut Vec<Utf8PathBuf>,
) -> Result<(), SearchError>
    ensures added { Adds (IfPresent (H.told host.old).world path.now) found.old.items found.new.items result }
    ensures gains { Gains (H.told host.old).entries (H.told host.new).entries result }
    ensures world { (H.told host.new).world ≡ (H.told host.old).world }
{
    if sees_file(alloc, host, path.as_path())? {
        found.push(path.try_clone()?)?;
    }
    Ok(())
}

/// Adds those of some paths at which files stand.
pub(crate) fn add_all_present<H: Host>(
    alloc: Global,
    host: &mut H,
    paths: &[Utf8PathBuf],
    found: &mut Vec<Utf8PathBuf>,
) -> Result<(), SearchError>
    ensures added { Adds (Gathers (IfPresent (H.told host.old).world) paths.now) found.old.items found.new.items result }
    ensures gains { Gains (H.told host.old).entries (H.told host.new).entries result }
    ensures world { (H.told host.new).world ≡ (H.told host.old).world }
{
    'paths: for path in paths {
        match add_present(alloc, host, path, found) {
            Ok(()) => {}
            Err(error) => return Err(error),
        }
    }
    Ok(())
}

/// A path with an end behind it.
fn behind(alloc: Global, base: &str, end: &str) -> Result<Utf8PathBuf, NoMemory>
    ensures { IfOk result (λ p. p ≡ base.now ++ end.now) }
{
    let mut path = String::from_str(alloc, base)?;
    path.push_str(end)?;
    Ok(Utf8PathBuf::from(path))
}

/// A name under a path.
fn under(alloc: Global, base: &str, name: &str) -> Result<Utf8PathBuf, NoMemory>
    ensures { IfOk result (λ p. p ≡ base.now ++ 47 ∷ name.now) }
{
    let mut path = String::from_str(alloc, base)?;
    path.push_str("/")?;
    path.push_str(name)?;
    Ok(Utf8PathBuf::from(path))
}

fn is_justfile_name(name: &str) -> bool
    ensures { result ≡ is_justfile_name name.now }
{
    name.eq_ignore_ascii_case("justfile") || name.eq_ignore_ascii_case(".justfile")
}

/// Adds those of the names under a path that a justfile may have.
fn add_justfiles(
    alloc: Global,
    base: &str,
    names: &[Text],
    paths: &mut Vec<Utf8PathBuf>,
) -> Result<(), NoMemory>
    ensures { OnOk result (paths.new.items ≡ paths.old.items ++ map (λ name. base.now ++ 47 ∷ name) (filter is_justfile_name names.now)) }
{
    'names: for name in names {
        if is_justfile_name(name.as_str()) {
            paths.push(under(alloc, base, name.as_str())?)?;
        }
    }
    Ok(())
}

/// The paths of the files that may be a module's: that is its name's path, and those are the names in the folder there.
fn module_paths(alloc: Global, base: &str, names: &[Text]) -> Result<Vec<Utf8PathBuf>, NoMemory>
    ensures { IfOk result (λ paths. paths.items ≡ module_paths base.now names.now) }
{
    let mut paths = Vec::new(alloc);
    paths.push(behind(alloc, base, ".just")?)?;
    paths.push(behind(alloc, base, "/mod.just")?)?;
    add_justfiles(alloc, base, names, &mut paths)?;
    Ok(paths)
}

/// Adds the files that may be a module's whose name's path that is.
#[tactic(auto, using(just_env::proofs::Laws::gains_nothing, just_env::proofs::Laws::gains_before, just_env::proofs::Laws::gains_none, just_env::proofs::Laws::gains_then, crate::proofs::Naming::adds_folder))]
pub(crate) fn add_module_files<H: Host>(
    alloc: Global,
    host: &mut H,
    base: &Utf8PathBuf,
    found: &mut Vec<Utf8PathBuf>,
) -> Result<(), SearchError>
    ensures added { Adds (ModuleFiles (H.told host.old).world base.now) found.old.items found.new.items result }
    ensures gains { Gains (H.told host.old).entries (H.told host.new).entries result }
    ensures world { (H.told host.new).world ≡ (H.told host.old).world }
{
    let names = match names_in(alloc, host, base.as_path()) {
        Ok(names) => names,
        Err(error) => return Err(error),
    };
    let paths = module_paths(alloc, base.as_str(), names.as_slice())?;
    add_all_present(alloc, host, paths.as_slice(), found)
}
