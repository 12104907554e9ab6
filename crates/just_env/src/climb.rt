//! The dotenv files of a module.

ghost use Rattle.std.specs.Prelude.{◌≡◌};
ghost use Rattle.just_path.specs.Path.{text_of};
ghost use Rattle.just_path.specs.Ancestors.{ancestors_of};
ghost use Rattle.just_env.specs.DotenvAnswers.{Answers, Gains};
ghost use Rattle.just_env.specs.Files.{LoadsUnder};
ghost use Rattle.just_env.specs.Loads.{FindsFiles};
ghost use Rattle.just_env.specs.Sequences.{First};

use super::EnvError;
use super::files::load_files;
use super::pairs::Pairs;
use just_host_record::Host;
use just_path::Utf8Path;
use just_path_text::{Environ, Text};
use std::alloc::Global;

/// The pairs of the first folder, from one upwards, in which any file of some names is.
fn climb<H: Host>(
    alloc: Global,
    host: &mut H,
    environ: &Environ,
    names: &[Text],
    start: Utf8Path<'_>,
) -> Result<Option<Pairs>, EnvError>
    ensures found { Answers (First (LoadsUnder (H.told host.old).world environ.now.pairs names.now) (ancestors_of (text_of start.entry))) result }
    ensures gains { Gains (H.told host.old).entries (H.told host.new).entries result }
    ensures world { (H.told host.new).world ≡ (H.told host.old).world }
{
    let mut folders = start.ancestors();
    'folders: while let Some(folder) = folders.next() {
        match load_files(alloc, host, environ, names, folder) {
            Ok(Some(pairs)) => return Ok(Some(pairs)),
            Ok(None) => {}
            Err(error) => return Err(error),
        }
    }
    Ok(None)
}

/// The pairs of a module's files: those at the given paths under its folder; where none is there, those of the first folder, from that one
/// upwards, in which any file of the names is.
pub(crate) fn find_files<H: Host>(
    alloc: Global,
    host: &mut H,
    environ: &Environ,
    paths: &[Text],
    names: &[Text],
    folder: Utf8Path<'_>,
) -> Result<Option<Pairs>, EnvError>
    ensures found { Answers (FindsFiles (H.told host.old).world environ.now.pairs paths.now names.now (text_of folder.entry)) result }
    ensures gains { Gains (H.told host.old).entries (H.told host.new).entries result }
    ensures world { (H.told host.new).world ≡ (H.told host.old).world }
{
    match load_files(alloc, host, environ, paths, folder) {
        Ok(Some(pairs)) => Ok(Some(pairs)),
        Ok(None) => climb(alloc, host, environ, names, folder),
        Err(error) => Err(error),
    }
}
