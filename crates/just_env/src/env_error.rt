//! Why the dotenv pairs of a module aren't loaded.

ghost use Rattle.std.specs.Prelude.{◌≡◌};
ghost use Rattle.just_env.specs.declared.env_error.EnvError.TheVariants.{NoMemory as OutOfMemory};

use just_host_record::HostFault;
use just_path::Utf8PathBuf;
use just_path_text::{NoMemory, Text};
use std::alloc::AllocFailed;

/// Why the output of a command isn't read.
#[derive(Clone, Copy)]
pub enum OutputError {
    /// The command ended with this code, which isn't 0.
    Code(i32),
    /// Its child can't be run to its end.
    Io(HostFault),
    /// A signal of this number ended it.
    Signal(i32),
    /// Neither a code nor a signal was told.
    Unknown,
    /// Its output isn't UTF-8.
    Utf8,
}

/// Why the dotenv pairs of a module aren't loaded. The fault of a host that a variant holds is no want of memory.
#[derive(Drop)]
pub enum EnvError {
    /// A dotenv file is required, and none was found.
    DotenvRequired,
    /// The text of a file, or what a command printed in a folder, isn't a dotenv text; the line, from 1, on which the first entry begins that can't be read.
    Dotenv {
        path: Utf8PathBuf,
        line: usize,
    },
    /// Several names or several paths are given as options, and the module doesn't set `lists`.
    DotenvArgumentsRequireLists,
    /// A command gives no pairs.
    DotenvCommand {
        command: Text,
        output_error: OutputError,
    },
    /// The file of that path can't be read.
    Io(HostFault, Utf8PathBuf),
    NoMemory,
}

impl From<NoMemory> for EnvError {
    ghost from_gives = { λ _ e. e ≡ OutOfMemory };

    fn from(_refused: NoMemory) -> EnvError {
        EnvError::NoMemory
    }
}

impl<T: Drop> From<AllocFailed<T>> for EnvError {
    ghost from_gives = { λ _ e. e ≡ OutOfMemory };

    fn from(_refused: AllocFailed<T>) -> EnvError {
        EnvError::NoMemory
    }
}
