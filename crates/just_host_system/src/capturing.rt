//! Children that are run to their end. What a child is to read stands in a file that has no name any more, so that feeding it and reading its
//! output never wait for each other. Nothing is claimed of what the system does; clauses say how a refusal is told.
ghost use Rattle.std.specs.Prelude.{◌≡◌, ◌⊎◌, ◌≤◌, ℕ, List, Ok, IfOk, length};
ghost use Rattle.just_host_record.specs.declared.outside.TheConstants.{MAX_BYTES};
ghost use Rattle.just_host_record.specs.declared.entry.HostFault.{HostFault};
ghost use Rattle.just_host_record.specs.Record.{IsCaptureFault};

use super::child::Captured;
use super::command::command_of;
use super::script::{ScriptFile, place, remove};
use just_host_files::disk::temp_folder;
use just_host_files::in_memory;
use just_host_record::{Call, HostFault, MAX_BYTES, Spec};
use just_path::{Miss, Utf8Path};
use std::alloc::Global;
use std::fs::{self, File, Files};
use std::io::{self, ErrorKind, Read};
use std::process::{Child, Command, Processes, Stdio, SystemProcess};
use std::rt::Env;

/// The failure of a call that the system refused.
fn failure(call: Call, error: &io::Error) -> HostFault
    ensures { (result ≡ HostFault.Failed call) ⊎ (result ≡ HostFault.NoMemory) }
{
    if error.kind() == ErrorKind::OutOfMemory {
        HostFault::NoMemory
    } else {
        HostFault::Failed(call)
    }
}

/// A file in that folder that holds these bytes, open to be read, and without a name.
/// No clause: nothing is claimed of files.
fn nameless_in<F: Files>(
    files: &F,
    alloc: Global,
    folder: Utf8Path<'_>,
    bytes: &[u8],
) -> io::Result<F::File> {
    let path = in_memory(folder.join(alloc, Utf8Path::new("input")))?;
    let path = path.as_path().as_str();
    let told = match fs::write(files, path, bytes) {
        Ok(()) => fs::open(files, path),
        Err(error) => Err(error),
    };
    let _ = fs::remove_file(files, path);
    told
}

/// A file that holds these bytes, open to be read, and without a name.
/// No clause: nothing is claimed of files.
fn nameless<R: Files + Env>(rt: &R, alloc: Global, bytes: &[u8]) -> io::Result<R::File> {
    let folder = temp_folder(rt, alloc, None, "just-")?;
    let folder = folder.as_path();
    let told = nameless_in(rt, alloc, folder, bytes);
    let _ = fs::remove_dir(rt, folder.as_str());
    told
}

/// The standard input of a child that is to read these bytes.
fn fed<R: Files<File = File> + Env>(rt: &R, alloc: Global, input: &[u8]) -> Result<Stdio, HostFault>
    ensures { IsCaptureFault input.now result }
{
    if input.is_empty() {
        return Ok(Stdio::null());
    }
    match nameless(rt, alloc, input) {
        Ok(file) => Ok(Stdio::from(file)),
        Err(error) => Err(failure(Call::Write, &error)),
    }
}

/// The file of a child's script, where it has one.
fn script_file<R: Files + Env>(
    rt: &R,
    alloc: Global,
    spec: &Spec,
) -> Result<Option<ScriptFile>, HostFault>
    ensures { (input : List ℕ) → IsCaptureFault input result }
{
    let Some(script) = &spec.script else {
        return Ok(None);
    };
    match place(rt, alloc, script) {
        Ok(file) => Ok(Some(file)),
        Err(error) => Err(failure(Call::Capture, &error)),
    }
}

/// The path of the file of a script; empty where there is none.
fn path_of(file: &Option<ScriptFile>) -> &str {
    match file {
        Some(file) => file.path.as_str(),
        None => "",
    }
}

/// Starts a child that reads that stream, and whose output is read here.
fn begin<P: Processes<Started = SystemProcess>>(
    processes: &P,
    command: Command,
    input: Stdio,
) -> Result<Child<SystemProcess>, HostFault>
    ensures { (input : List ℕ) → IsCaptureFault input result }
{
    let mut command = command;
    command.stdin(input);
    command.stdout(Stdio::piped());
    let told = command.spawn(processes);
    drop(command);
    match told {
        Ok(child) => Ok(child),
        Err(error) => Err(failure(Call::Start, &error)),
    }
}

/// What a child prints, up to one byte more than it may.
/// No clause: nothing is claimed of what a child prints.
fn output_of(alloc: Global, child: &mut Child<SystemProcess>) -> io::Result<Vec<u8>> {
    let mut bytes = Vec::new(alloc);
    if let Some(pipe) = child.stdout.take() {
        pipe.take(MAX_BYTES as u64 + 1).read_to_end(&mut bytes)?;
    }
    Ok(bytes)
}

/// What a child printed, unless it can't be read or is too long.
fn bounded(told: io::Result<Vec<u8>>) -> Result<Vec<u8>, HostFault>
    ensures fault { (input : List ℕ) → IsCaptureFault input result }
    ensures limit { IfOk result (λ v. length v.items ≤ MAX_BYTES) }
    ensures told { IfOk result (λ v. told ≡ Ok v) }
{
    match told {
        Ok(bytes) => {
            if bytes.len() > MAX_BYTES {
                return Err(HostFault::Missed(Miss::TooLarge));
            }
            Ok(bytes)
        }
        Err(error) => Err(failure(Call::Capture, &error)),
    }
}

/// Waits for a child that printed this.
fn waited(child: Child<SystemProcess>, output: Vec<u8>) -> Result<Captured, HostFault>
    ensures fault { (input : List ℕ) → IsCaptureFault input result }
    ensures output { IfOk result (λ e. e.output ≡ output) }
{
    match Captured::after(child, output) {
        Ok(end) => Ok(end),
        Err(error) => Err(failure(Call::Capture, &error)),
    }
}

/// Ends a child.
/// No clause: nothing is claimed of how a child ends.
fn end(child: Child<SystemProcess>) {
    let mut child = child;
    let _ = child.kill();
    let _ = child.wait();
    drop(child);
}

/// Reads what a child prints, and waits for it. One whose output can't be read or is too long is ended.
fn finish(alloc: Global, child: Child<SystemProcess>) -> Result<Captured, HostFault>
    ensures fault { (input : List ℕ) → IsCaptureFault input result }
    ensures limit { IfOk result (λ e. length e.output.items ≤ MAX_BYTES) }
{
    let mut child = child;
    let told = output_of(alloc, &mut child);
    match bounded(told) {
        Ok(bytes) => waited(child, bytes),
        Err(fault) => {
            end(child);
            Err(fault)
        }
    }
}

/// Runs a child whose script is in that file, if it has one, and which reads that stream.
fn capture_with<P: Processes<Started = SystemProcess>>(
    processes: &P,
    alloc: Global,
    spec: &Spec,
    file: &Option<ScriptFile>,
    input: Stdio,
) -> Result<Captured, HostFault>
    ensures fault { (input : List ℕ) → IsCaptureFault input result }
    ensures limit { IfOk result (λ e. length e.output.items ≤ MAX_BYTES) }
{
    let Ok(command) = command_of(alloc, spec, path_of(file)) else {
        drop(input);
        return Err(HostFault::NoMemory);
    };
    match begin(processes, command, input) {
        Ok(child) => finish(alloc, child),
        Err(fault) => Err(fault),
    }
}

/// Runs a child that reads that stream. The file of its script, if it has one, goes when it has ended.
fn capture_fed<R: Files + Env + Processes<Started = SystemProcess>>(
    rt: &R,
    alloc: Global,
    spec: &Spec,
    stream: Stdio,
) -> Result<Captured, HostFault>
    ensures fault { (input : List ℕ) → IsCaptureFault input result }
    ensures limit { IfOk result (λ e. length e.output.items ≤ MAX_BYTES) }
{
    match script_file(rt, alloc, spec) {
        Ok(file) => {
            let told = capture_with(rt, alloc, spec, &file, stream);
            if let Some(file) = &file {
                remove(rt, file);
            }
            told
        }
        Err(fault) => {
            drop(stream);
            Err(fault)
        }
    }
}

/// Runs a child to its end, feeds it these bytes, and answers how it ended and what it printed.
pub(crate) fn capture<R: Files<File = File> + Env + Processes<Started = SystemProcess>>(
    rt: &R,
    alloc: Global,
    spec: &Spec,
    input: &[u8],
) -> Result<Captured, HostFault>
    ensures fault { IsCaptureFault input.now result }
    ensures limit { IfOk result (λ e. length e.output.items ≤ MAX_BYTES) }
{
    match fed(rt, alloc, input) {
        Ok(stream) => capture_fed(rt, alloc, spec, stream),
        Err(fault) => Err(fault),
    }
}
