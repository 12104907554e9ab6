//! Fresh folders of the system, and want of memory as an error of the system.
ghost use Rattle.std.specs.Prelude.{◌≡◌, Ok, IfOk};
ghost use Rattle.just_path.specs.Path.{text_of};
ghost use Rattle.just_host_files.specs.Fresh.{IsNamedIn};

use just_path::{Utf8Path, Utf8PathBuf};
use just_path_text::NoMemory;
use std::alloc::Global;
use std::fs::{self, DirBuilder, Files};
use std::io::{self, ErrorKind, Read};
use std::os::unix::fs::DirBuilderExt;

/// How many names are tried for a fresh folder.
const ATTEMPTS: usize = 16;

/// Hands on what was made; want of memory as an error of the system.
pub fn in_memory<T>(made: Result<T, NoMemory>) -> io::Result<T>
    ensures { IfOk result (λ x. made ≡ Ok x) }
{
    match made {
        Ok(value) => Ok(value),
        Err(NoMemory) => Err(io::Error::from(ErrorKind::OutOfMemory)),
    }
}

/// A number of 64 bits that tells a folder from those of other programs.
/// No clause: nothing is claimed of what the system answers.
fn random_number<F: Files>(files: &F) -> io::Result<u64> {
    let mut bytes = [0u8; 8];
    fs::open(files, "/dev/urandom")?.read_exact(&mut bytes)?;
    Ok(u64::from_le_bytes(bytes))
}

/// A path in a folder whose name begins with `prefix`, and hardly stands there.
pub(crate) fn random_path<F: Files>(
    files: &F,
    alloc: Global,
    parent: Utf8Path<'_>,
    prefix: &str,
) -> io::Result<Utf8PathBuf>
    ensures { IfOk result (IsNamedIn (text_of parent.entry) prefix.now) }
{
    let number = random_number(files)?;
    let name = format!(in alloc; "{prefix}{number:016x}")?;
    in_memory(parent.join(alloc, Utf8Path::new(name.as_str())))
}

/// Makes a fresh folder in another, which this user alone may use. Its name begins with `prefix`. Where each name that is tried is taken, the error is
/// `AlreadyExists`. Nothing is claimed of what the system makes.
pub fn fresh_folder<F: Files>(
    files: &F,
    alloc: Global,
    parent: Utf8Path<'_>,
    prefix: &str,
) -> io::Result<Utf8PathBuf>
    ensures { IfOk result (IsNamedIn (text_of parent.entry) prefix.now) }
{
    for _ in 0..ATTEMPTS {
        let folder = random_path(files, alloc, parent, prefix)?;
        match DirBuilder::new()
            .mode(0o700)
            .create(files, folder.as_path().as_str())
        {
            Ok(()) => return Ok(folder),
            Err(error) if error.kind() == ErrorKind::AlreadyExists => {}
            Err(error) => return Err(error),
        }
    }
    Err(io::Error::from(ErrorKind::AlreadyExists))
}
