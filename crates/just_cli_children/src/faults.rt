//! The errors of calls of the host that are refused.

ghost use Rattle.std.specs.Prelude.{◌≡◌};
ghost use Rattle.just_cli_children.specs.Faults.{fault_of_path as host_fault, io_error as told_io, folder_error as told_folder, print_error as told_print, write_error as told_write};

use just_exec::Error;
use just_host_record::{Call, HostFault};
use just_path::{PathFault, Utf8PathBuf};

/// The fault of asking for the current folder, as a fault of a host.
pub fn fault_of_path(fault: PathFault) -> HostFault
    ensures { result ≡ host_fault fault }
{
    match fault {
        PathFault::Missed(miss) => HostFault::Missed(miss),
        PathFault::Failed => HostFault::Failed(Call::Current),
        PathFault::NoMemory => HostFault::NoMemory,
    }
}

/// The error of a refused call on that path.
pub fn io_error(path: Utf8PathBuf, fault: HostFault) -> Error
    ensures { result ≡ told_io path fault }
{
    match fault {
        HostFault::NoMemory => Error::NoMemory,
        HostFault::Missed(_) | HostFault::Failed(_) => Error::FilesystemIo { path, io: fault },
    }
}

/// The error of a current folder that isn't answered.
pub fn folder_error(fault: HostFault) -> Error
    ensures { result ≡ told_folder fault }
{
    match fault {
        HostFault::NoMemory => Error::NoMemory,
        HostFault::Missed(_) | HostFault::Failed(_) => Error::CurrentDir { io: fault },
    }
}

/// The error of a text that wasn't printed.
pub fn print_error(fault: HostFault) -> Error
    ensures { result ≡ told_print fault }
{
    match fault {
        HostFault::NoMemory => Error::NoMemory,
        HostFault::Missed(_) | HostFault::Failed(_) => Error::StdoutIo { io: fault },
    }
}

/// The error of a justfile that wasn't written.
pub fn write_error(justfile: Utf8PathBuf, fault: HostFault) -> Error
    ensures { result ≡ told_write justfile fault }
{
    match fault {
        HostFault::NoMemory => Error::NoMemory,
        HostFault::Missed(_) | HostFault::Failed(_) => Error::WriteJustfile {
            justfile,
            io: fault,
        },
    }
}
