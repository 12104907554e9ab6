//! The environment of a host.

ghost use Rattle.std.specs.Prelude.{◌≡◌, ◌++◌};
ghost use Rattle.just_env.specs.Answers.{Answers, GivesEnviron, told_entries};

use super::SearchError;
use just_host_record::{Host, HostFault};
use just_path::Utf8PathBuf;
use just_path_text::Environ;
use std::alloc::Global;

/// The environment of a host. A failure has the empty path.
pub fn environment<H: Host>(alloc: Global, host: &mut H) -> Result<Environ, SearchError>
    ensures environ { Answers (GivesEnviron (H.told host.old).world) result }
    ensures entries { (H.told host.new).entries ≡ (H.told host.old).entries ++ told_entries result }
    ensures world { (H.told host.new).world ≡ (H.told host.old).world }
{
    match host.environ() {
        Ok(environ) => Ok(environ),
        Err(HostFault::NoMemory) => Err(SearchError::NoMemory),
        Err(io) => Err(SearchError::FilesystemIo {
            path: Utf8PathBuf::new(alloc),
            io,
        }),
    }
}
