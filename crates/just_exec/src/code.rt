//! The exit codes that errors stand for, and which errors are printed.

ghost use Rattle.std.specs.Prelude.{◌≡◌, IfOk, string_bytes};
ghost use Rattle.just_exec.specs.Texts.{error_text};
ghost use Rattle.just_exec.specs.Codes.{code_of, status_code, output_code, prints, prints_always, is_environ_fault, exit_code};

use super::Error;
use just_env::OutputError;
use just_host_record::{Call, HostFault, Status};
use just_path_text::NoMemory;
use std::alloc::Global;

/// Whether a fault is that of asking for the environment.
fn is_environ_fault(io: HostFault) -> bool
    ensures { result ≡ is_environ_fault io }
{
    match io {
        HostFault::Failed(Call::Environ) => true,
        _ => false,
    }
}

/// The exit code of a child that ended so.
fn status_code(status: Status) -> Option<i32>
    ensures { result ≡ status_code status }
{
    match status {
        Status::Code(code) => Some(code),
        Status::Signal(number) => number.checked_add(128),
        Status::Unknown => None,
    }
}

/// The exit code of a command that gives no dotenv pairs.
fn output_code(error: OutputError) -> Option<i32>
    ensures { result ≡ output_code error }
{
    match error {
        OutputError::Code(code) => Some(code),
        OutputError::Signal(number) => number.checked_add(128),
        OutputError::Io(_) | OutputError::Unknown | OutputError::Utf8 => Some(1),
    }
}

impl Error {
    /// The text of the error, as it is told.
    pub fn text(&self, alloc: Global) -> Result<String, NoMemory>
        ensures { IfOk result (λ s. string_bytes s ≡ error_text self.now) }
    {
        Ok(format!(in alloc; "{self}")?)
    }

    /// The exit code that the error stands for, where it stands for one.
    pub fn code(&self) -> Option<i32>
        ensures { result ≡ code_of self.now }
    {
        match self {
            Error::Code { code, .. } => Some(*code),
            Error::Signal { signal, .. } => signal.checked_add(128),
            Error::Interrupted(signal) => Some(signal.code()),
            Error::DotenvCommand { output_error, .. } => output_code(*output_error),
            Error::ChooserStatus { status, .. }
            | Error::EditorStatus { status, .. }
            | Error::CommandStatus { status, .. } => status_code(*status),
            _ => None,
        }
    }

    /// The exit code of a run that ends with the error: 2 for faulty words, 125 for want of memory, else the error's own or 1.
    pub fn exit_code(&self) -> i32
        ensures { result ≡ exit_code self.now }
    {
        match self {
            Error::Usage(_) => 2,
            Error::NoMemory => 125,
            _ => self.code().unwrap_or(1),
        }
    }

    /// Whether the error is printed, where the words don't ask for quiet.
    pub fn print_message(&self) -> bool
        ensures { result ≡ prints self.now }
    {
        match self {
            Error::Code { message, .. } => *message,
            _ => true,
        }
    }

    /// Whether the error is printed also where the words ask for quiet.
    pub fn prints_always(&self) -> bool
        ensures { result ≡ prints_always self.now }
    {
        match self {
            Error::Usage(_) | Error::Config(_) | Error::CurrentDir { .. } => true,
            Error::FilesystemIo { io, .. } => is_environ_fault(*io),
            _ => false,
        }
    }
}
