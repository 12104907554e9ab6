//! Several dotenv files under a folder.

ghost use Rattle.std.specs.Prelude.{◌≡◌};
ghost use Rattle.just_path.specs.Path.{text_of};
ghost use Rattle.just_env.specs.DotenvAnswers.{Answers, Gains};
ghost use Rattle.just_env.specs.Files.{LoadsFile, LoadsUnder};
ghost use Rattle.just_path.specs.Path.{pushed};

use super::EnvError;
use super::file::load_file;
use super::pairs::{Pairs, join};
use just_host_record::Host;
use just_path::Utf8Path;
use just_path_text::{Environ, Text};
use std::alloc::Global;

/// The pairs of the file of a name under a folder, if one is there.
#[tactic(auto, using(crate::proofs::Record::gains_nothing))]
fn load_under<H: Host>(
    alloc: Global,
    host: &mut H,
    environ: &Environ,
    folder: Utf8Path<'_>,
    name: &Text,
) -> Result<Option<Pairs>, EnvError>
    ensures loaded { Answers (LoadsFile (H.told host.old).world environ.now.pairs (pushed (text_of folder.entry) name.now)) result }
    ensures gains { Gains (H.told host.old).entries (H.told host.new).entries result }
    ensures world { (H.told host.new).world ≡ (H.told host.old).world }
{
    let path = folder.join(alloc, Utf8Path::new(name.as_str()))?;
    load_file(alloc, host, environ, path.as_path())
}

/// The pairs of all files of some names under a folder, one behind the other; nothing where none is there.
pub(crate) fn load_files<H: Host>(
    alloc: Global,
    host: &mut H,
    environ: &Environ,
    names: &[Text],
    folder: Utf8Path<'_>,
) -> Result<Option<Pairs>, EnvError>
    ensures loaded { Answers (LoadsUnder (H.told host.old).world environ.now.pairs names.now (text_of folder.entry)) result }
    ensures gains { Gains (H.told host.old).entries (H.told host.new).entries result }
    ensures world { (H.told host.new).world ≡ (H.told host.old).world }
{
    let mut found: Option<Pairs> = None;
    'names: for name in names {
        match load_under(alloc, host, environ, folder, name) {
            Ok(more) => found = join(found, more)?,
            Err(error) => return Err(error),
        }
    }
    Ok(found)
}
