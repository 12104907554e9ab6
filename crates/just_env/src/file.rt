//! One dotenv file.

ghost use Rattle.std.specs.Prelude.{◌≡◌, ◌⊎◌, ℕ, [], chars, IfOk, IfErr};
ghost use Rattle.just_path.specs.Path.{text_of};
ghost use Rattle.just_dotenv.specs.File.{Gives, Stops};
ghost use Rattle.just_env.specs.DotenvAnswers.{Answers, Gains, entries_of};
ghost use Rattle.just_env.specs.Files.{is_absence, FindsText, LoadsFile};
ghost use Rattle.just_env.specs.declared.env_error.EnvError.TheVariants as error;

use super::EnvError;
use just_dotenv::{DotenvError, read};
use just_host_record::{Host, HostFault};
use just_path::{Miss, Utf8Path, Utf8PathBuf};
use just_path_text::{Environ, Seq, Text};
use std::alloc::Global;

/// Whether no file is there, by a miss of its path. A folder in its place is none.
fn is_absence(miss: Miss) -> bool
    ensures { result ≡ is_absence miss }
{
    match miss {
        Miss::NotFound | Miss::NotFolder | Miss::IsFolder => true,
        _ => false,
    }
}

/// The text of the file at a path, if one is there.
#[tactic(auto, using(crate::proofs::Record::gains_nothing, crate::proofs::Record::gains_miss, crate::proofs::Record::gains_same, crate::proofs::Record::gains_refused))]
fn find_text<H: Host>(
    alloc: Global,
    host: &mut H,
    path: Utf8Path<'_>,
) -> Result<Option<Text>, EnvError>
    ensures text { Answers (FindsText (H.told host.old).world (text_of path.entry)) result }
    ensures gains { Gains (H.told host.old).entries (H.told host.new).entries result }
    ensures world { (H.told host.new).world ≡ (H.told host.old).world }
{
    let named = path.to_path_buf(alloc)?;
    match host.read(path) {
        Ok(text) => Ok(Some(Text::from(text))),
        Err(HostFault::NoMemory) => Err(EnvError::NoMemory),
        Err(HostFault::Failed(call)) => Err(EnvError::Io(HostFault::Failed(call), named)),
        Err(HostFault::Missed(miss)) => {
            if is_absence(miss) {
                Ok(None)
            } else {
                Err(EnvError::Io(HostFault::Missed(miss), named))
            }
        }
    }
}

/// The pairs of the text of a file.
fn pairs_of_text(
    alloc: Global,
    text: &str,
    environ: &Environ,
    path: Utf8PathBuf,
) -> Result<Seq<(Text, Text)>, EnvError>
    ensures pairs { IfOk result (Gives (chars text.now) environ.now.pairs) }
    ensures unheard { IfErr result (λ e. entries_of [] e ≡ []) }
    ensures refused { IfErr result (λ e. (e ≡ error.NoMemory) ⊎ ((line : ℕ) × Stops (chars text.now) line × (e ≡ error.Dotenv path line))) }
{
    match read(alloc, text, environ) {
        Ok(pairs) => Ok(pairs),
        Err(DotenvError::Line(line)) => Err(EnvError::Dotenv { path, line }),
        Err(DotenvError::NoMemory) => Err(EnvError::NoMemory),
    }
}

/// The pairs of the file at a path, if one is there.
pub(crate) fn load_file<H: Host>(
    alloc: Global,
    host: &mut H,
    environ: &Environ,
    path: Utf8Path<'_>,
) -> Result<Option<Seq<(Text, Text)>>, EnvError>
    ensures loaded { Answers (LoadsFile (H.told host.old).world environ.now.pairs (text_of path.entry)) result }
    ensures gains { Gains (H.told host.old).entries (H.told host.new).entries result }
    ensures world { (H.told host.new).world ≡ (H.told host.old).world }
{
    let named = path.to_path_buf(alloc)?;
    let text = match find_text(alloc, host, path) {
        Ok(Some(text)) => text,
        Ok(None) => return Ok(None),
        Err(error) => return Err(error),
    };
    match pairs_of_text(alloc, text.as_str(), environ, named) {
        Ok(pairs) => Ok(Some(pairs)),
        Err(error) => Err(error),
    }
}
