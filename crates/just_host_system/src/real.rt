//! The host of this process, over the system.
ghost use Rattle.std.specs.Prelude.{◌≡◌, ◌++◌, ◌<◌, [], ◌∷◌, Ok, None, IfOk, IfSome, OnOk, option_map, refl, length};
ghost use Rattle.just_path.specs.Path.{text_of};
ghost use Rattle.just_host_record.specs.declared.entry.Entry.{Entry};
ghost use Rattle.just_host_record.specs.Record.{gained, IsOwn, IsStartFault, script_folder, text_or_empty, children, faults_of, misses_of};
ghost use Rattle.just_host_record.specs.Logs.{entries_of, spare_of, started_of, HasRoom, LogWent};
ghost use Rattle.just_host_record.proofs.Laws.{counts_noted};
ghost use Rattle.just_host_files.specs.Fresh.{IsTemporary};
ghost use Rattle.just_host_system.specs.Commands.{IsCommandOf};
ghost use Rattle.just_host_system.specs.Real.{record_of, path_of};

use super::answers::{
    answer, answer_ask, answer_check, answer_path, answer_print, answer_probe, answer_read,
    answer_save, answer_sum, answer_temp, note_capture, ready_capture, ready_check, ready_start,
    ready_text, refuse, refuse_capture,
};
use super::capturing::capture;
use super::child::{RealChild, RealDone};
use super::command::{command_at, command_of, names_shell};
use super::script::{ScriptFile, place, remove};
use super::shell::Shell;
use super::surrounding::Surrounding;
use super::within::command_within;
use just_host_files::disk::{self, is_absent};
use just_host_files::system::{
    ask, canonical, here, list, look, names, pairs, read, read_text, show, target,
};
use just_host_files::{path_or_empty, ready_path, ready_probe};
use just_host_record::{Call, Entry, Host, HostFault, Log, Look, Script, Spec, Status, Stream};
use just_lang_read::Boxed;
use just_path::{Item, Meta, PathCall, PathFault, PathHost, Utf8Path, Utf8PathBuf};
use just_path_text::{Environ, NoMemory, Seq, Text};
use std::alloc::Global;
use std::fs::File;
use std::io::{self, ErrorKind, Input};
use std::process::{Child, Command, Processes, SystemProcess};
use std::rt::{Env, Files, Runtime};

/// The host of this process: its files, its environment and its children. It tells no world.
///
/// A path that the system can't take, such as one with a NUL, isn't found. What is neither a file nor a folder isn't
/// read. The script of a child is written to a file in a fresh folder, which goes when the child's end is noted; what can't be removed stays.
/// The shell is looked for in `PATH` at the first start, and started from where it stood then as long as it can be. An environment of more than a
/// thousand pairs is looked at then too, and each child is told them.
#[derive(Drop)]
pub struct RealHost<R> {
    rt: R,
    alloc: Global,
    log: Log,
    shell: Shell,
    surrounding: Surrounding,
}

impl<R: Runtime> RealHost<R> {
    /// A host over a copy of the runtime, with an empty record.
    pub fn new(rt: &R, alloc: Global) -> Result<RealHost<R>, NoMemory>
        ensures entries { IfOk result (λ h. record_of h ≡ []) }
        ensures spare { IfOk result (λ h. spare_of h.log ≡ 0) }
    {
        let rt = rt.clone()?;
        Ok(RealHost {
            rt,
            alloc,
            log: Log::new(alloc),
            shell: Shell::Unknown,
            surrounding: Surrounding::Unknown,
        })
    }
}

impl<R> RealHost<R> {
    /// The record: what was asked of this host, and what it answered.
    pub fn entries(&self) -> &[Entry]
        ensures { result.now ≡ record_of self.now }
    {
        self.log.entries()
    }
}

/// The number of the first output that isn't there, and the place of one that isn't found for another reason, with its error. Nothing
/// is claimed of files.
fn first_absent<F: Files>(
    files: &F,
    outputs: &[Utf8PathBuf],
) -> Result<Option<usize>, (usize, io::Error)>
    ensures { IfOk result (λ o. IfSome o (λ i. i < length outputs.now)) }
{
    for i in 0..outputs.len() {
        match is_absent(files, outputs[i].as_path().as_str()) {
            Ok(false) => {}
            Ok(true) => return Ok(Some(i)),
            Err(error) => return Err((i, error)),
        }
    }
    Ok(None)
}

/// The folder of a script, which is the path of a miss of its file.
fn folder_of(script: &Script) -> Utf8Path<'_>
    ensures { text_of result ≡ text_or_empty script.now.folder }
{
    match &script.folder {
        Some(folder) => folder.as_path(),
        None => Utf8Path::new(""),
    }
}

/// Writes the script of a child to a file, where it has one, and notes a refusal.
fn place_script<R: Files + Env>(
    rt: &R,
    log: &mut Log,
    alloc: Global,
    spec: &Spec,
) -> Result<Option<ScriptFile>, HostFault>
    ensures same { OnOk result (log.new ≡ log.old) }
    ensures entries { entries_of log.new ≡ entries_of log.old ++ gained (script_folder spec.now) (λ _. []) result }
    ensures fault { IsStartFault spec.now result }
    ensures spare { spare_of log.new ≡ spare_of log.old }
{
    let Some(script) = &spec.script else {
        return Ok(None);
    };
    match place(rt, alloc, script) {
        Ok(file) => Ok(Some(file)),
        Err(error) => Err(refuse(log, alloc, Call::Temp, folder_of(script), &error)),
    }
}

/// The path of the file of a script; empty where there is none.
fn path_of(file: &Option<ScriptFile>) -> &str
    ensures { result.now ≡ path_of file.now }
{
    match file {
        Some(file) => file.path.as_str(),
        None => "",
    }
}

/// The command of a child whose script is in that file, if it has one.
fn command_for(alloc: Global, spec: &Spec, file: &Option<ScriptFile>) -> Result<Command, NoMemory>
    ensures { IfOk result (IsCommandOf (path_of file.now) spec.now) }
{
    command_of(alloc, spec, path_of(file))
}

/// Starts a command, if there is memory for it.
/// No clause: nothing is said of what the system starts.
fn begin<P: Processes<Started = SystemProcess>>(
    processes: &P,
    command: Result<Command, NoMemory>,
) -> io::Result<Child<SystemProcess>> {
    match command {
        Ok(mut command) => {
            let told = command.spawn(processes);
            drop(command);
            told
        }
        Err(NoMemory) => Err(io::Error::from(ErrorKind::OutOfMemory)),
    }
}

/// Starts a child that is asked for by the shell's name from the path at which the shell was found. None where that can't be done.
/// No clause: nothing is said of what the system starts; the command is `command_at`'s.
fn spawn_shell<R: Runtime + Processes<Started = SystemProcess>>(
    rt: &R,
    alloc: Global,
    shell: &mut Shell,
    spec: &Spec,
    file: &str,
) -> Option<Child<SystemProcess>> {
    if !names_shell(spec, file) {
        return None;
    }
    shell.look(rt, alloc);
    let path = shell.path()?;
    begin(rt, command_at(alloc, path, spec, file)).ok()
}

/// Starts a child that inherits the environment.
/// No clause: nothing is said of what the system starts; the command is `command_for`'s.
fn spawn_inheriting<R: Runtime + Processes<Started = SystemProcess>>(
    rt: &R,
    alloc: Global,
    shell: &mut Shell,
    spec: &Spec,
    file: &Option<ScriptFile>,
) -> io::Result<Child<SystemProcess>> {
    match spawn_shell(rt, alloc, shell, spec, path_of(file)) {
        Some(child) => Ok(child),
        None => begin(rt, command_for(alloc, spec, file)),
    }
}

/// Starts the child. Where that fails, the file of its script goes.
/// No clause: nothing is said of what the system starts; the command is `command_for`'s, or `command_within`'s where the environment is large.
fn spawn<R: Runtime + Processes<Started = SystemProcess>>(
    rt: &R,
    alloc: Global,
    shell: &mut Shell,
    surrounding: &mut Surrounding,
    spec: &Spec,
    file: &Option<ScriptFile>,
) -> io::Result<Child<SystemProcess>> {
    surrounding.look(rt, alloc);
    let told = match surrounding.pairs() {
        Some(pairs) => begin(rt, command_within(alloc, pairs, spec, path_of(file))),
        None => spawn_inheriting(rt, alloc, shell, spec, file),
    };
    if told.is_err() {
        clear(rt, file);
    }
    told
}

/// Removes the file of a script, if there is one.
/// No clause: nothing is claimed of files.
fn clear<F: Files>(files: &F, file: &Option<ScriptFile>) {
    if let Some(file) = file {
        remove(files, file);
    }
}

/// Notes the start of a child, or that it failed, where the log was made ready.
fn answer_start(
    log: &mut Log,
    spec: Boxed<Spec>,
    script: Option<ScriptFile>,
    told: io::Result<Child<SystemProcess>>,
) -> Result<RealChild, HostFault>
    requires room { HasRoom log.old }
    requires number { started_of log.old < u32.MAX }
    ensures entries { entries_of log.new ≡ entries_of log.old ++ gained (script_folder spec) (λ c. Entry.Started c.number spec ∷ []) result }
    ensures number { IfOk result (λ c. c.number ≡ children (entries_of log.old)) }
    ensures process { IfOk result (λ c. told ≡ Ok c.process) }
    ensures fault { IsStartFault spec result }
    ensures spare { spare_of log.new ≡ spare_of log.old }
{
    match told {
        Ok(process) => {
            let number = log.start(spec);
            Ok(RealChild {
                number,
                process,
                script,
            })
        }
        Err(error) if error.kind() == ErrorKind::OutOfMemory => Err(HostFault::NoMemory),
        Err(_) => {
            log.append(Entry::Failed(Call::Start));
            Err(HostFault::Failed(Call::Start))
        }
    }
}

impl<R: Runtime + Processes<Started = SystemProcess>> PathHost for RealHost<R> {
    ghost faults = { λ h. faults_of (record_of h) };

    ghost misses = { λ h. misses_of (record_of h) };

    ghost view = { λ h. None };

    ghost went = { λ a b n. LogWent a.log b.log n };

    fn meta(&mut self, path: Utf8Path<'_>, follow: bool) -> Result<Meta, PathFault> {
        let told = look(&self.rt, path.as_str(), follow);
        answer_path(&mut self.log, self.alloc, PathCall::Meta, path, told)
    }

    fn list(&mut self, path: Utf8Path<'_>) -> Result<Vec<Item>, PathFault> {
        let told = list(&self.rt, self.alloc, path.as_str());
        answer_path(&mut self.log, self.alloc, PathCall::List, path, told)
    }

    fn names(&mut self, path: Utf8Path<'_>) -> Result<Seq<Text>, PathFault> {
        let told = names(&self.rt, self.alloc, path.as_str());
        answer_path(&mut self.log, self.alloc, PathCall::List, path, told)
    }

    fn canonical(&mut self, path: Utf8Path<'_>) -> Result<Utf8PathBuf, PathFault> {
        let told = canonical(&self.rt, self.alloc, path.as_str());
        answer_path(&mut self.log, self.alloc, PathCall::Canonical, path, told)
    }

    fn link(&mut self, path: Utf8Path<'_>) -> Result<Utf8PathBuf, PathFault> {
        let told = target(&self.rt, self.alloc, path.as_str());
        answer_path(&mut self.log, self.alloc, PathCall::Link, path, told)
    }

    fn current(&mut self) -> Result<Utf8PathBuf, PathFault> {
        let told = here(&self.rt, self.alloc);
        answer_path(
            &mut self.log,
            self.alloc,
            PathCall::Current,
            Utf8Path::new(""),
            told,
        )
    }

    ghost counts = { λ a b n w. counts_noted (record_of a) (record_of b) n w.entries };

    ghost view_clean = { λ h. tt };

    ghost went_view = { λ a b n w. refl };
}

impl<R: Runtime + Files<File = File> + Processes<Started = SystemProcess>> Host for RealHost<R> {
    type Child = RealChild;

    type Done = RealDone;

    ghost told = { λ h. record { entries = record_of h; world = None } };

    ghost spare = { λ h. spare_of h.log };

    ghost child_number = { λ c. c.number };

    ghost done_number = { λ d. d.number };

    ghost waited = { λ d. d.status };

    fn read(&mut self, path: Utf8Path<'_>) -> Result<String, HostFault> {
        let told = read(&self.rt, self.alloc, path.as_str());
        answer_read(&mut self.log, self.alloc, Call::Read, path, told)
    }

    fn input(&mut self) -> Result<String, HostFault> {
        let told = read_text(self.alloc, self.rt.reader(), 0);
        answer_read(
            &mut self.log,
            self.alloc,
            Call::Input,
            Utf8Path::new("-"),
            told,
        )
    }

    fn ask(&mut self, prompt: &str) -> Result<String, HostFault> {
        let Ok(noted) = ready_text(&mut self.log, self.alloc, prompt) else {
            return Err(HostFault::NoMemory);
        };
        let told = ask(&self.rt, self.alloc, prompt);
        answer_ask(&mut self.log, self.alloc, noted, told)
    }

    fn environ(&mut self) -> Result<Environ, HostFault> {
        let pairs = pairs(&self.rt, self.alloc)?;
        Ok(Environ { pairs })
    }

    fn write(&mut self, path: Utf8Path<'_>, bytes: &[u8]) -> Result<(), HostFault> {
        let told = disk::write(&self.rt, self.alloc, path, bytes);
        answer(&mut self.log, self.alloc, Call::Write, path, told)
    }

    fn make_folder(&mut self, path: Utf8Path<'_>) -> Result<(), HostFault> {
        let told = disk::make_folder(&self.rt, path.as_str());
        answer(&mut self.log, self.alloc, Call::MakeFolder, path, told)
    }

    fn temp_folder(
        &mut self,
        parent: Option<Utf8Path<'_>>,
        prefix: &str,
    ) -> Result<Utf8PathBuf, HostFault>
        ensures entries { record_of self.new ≡ record_of self.old
            ++ gained (text_or_empty (option_map text_of parent.entry))
            (λ p. Entry.Made p ∷ []) result }
        ensures own { IsOwn Call.Temp result }
        ensures spare { spare_of self.new.log ≡ spare_of self.old.log }
        ensures named { IfOk result (IsTemporary (option_map text_of parent.entry) prefix.now) }
    {
        let Ok(()) = self.log.ready() else {
            return Err(HostFault::NoMemory);
        };
        let told = disk::temp_folder(&self.rt, self.alloc, parent, prefix);
        answer_temp(&mut self.log, self.alloc, path_or_empty(parent), told)
    }

    fn remove(&mut self, path: Utf8Path<'_>) -> Result<(), HostFault> {
        let told = disk::remove(&self.rt, path.as_str());
        answer(&mut self.log, self.alloc, Call::Remove, path, told)
    }

    fn print(&mut self, stream: Stream, text: &str) -> Result<(), HostFault> {
        let Ok(copy) = ready_text(&mut self.log, self.alloc, text) else {
            return Err(HostFault::NoMemory);
        };
        let told = show(&self.rt, stream, text);
        answer_print(&mut self.log, stream, copy, told)
    }

    fn sum(&mut self, path: Utf8Path<'_>) -> Result<[u8; 32], HostFault> {
        let Ok(copy) = ready_path(&mut self.log, self.alloc, path) else {
            return Err(HostFault::NoMemory);
        };
        let told = disk::sum(&self.rt, self.alloc, path.as_str());
        answer_sum(&mut self.log, self.alloc, path, copy, told)
    }

    fn probe(&mut self, entry: Utf8Path<'_>, outputs: &[Utf8PathBuf]) -> Result<Look, HostFault> {
        let Ok((copy, copies)) = ready_probe(&mut self.log, self.alloc, entry, outputs) else {
            return Err(HostFault::NoMemory);
        };
        let told = disk::probe(&self.rt, entry, outputs);
        answer_probe(&mut self.log, self.alloc, entry, copy, copies, told)
    }

    fn check(&mut self, outputs: &[Utf8PathBuf]) -> Result<Option<u32>, HostFault> {
        let Ok(copies) = ready_check(&mut self.log, self.alloc, outputs) else {
            return Err(HostFault::NoMemory);
        };
        let told = first_absent(&self.rt, outputs);
        answer_check(&mut self.log, self.alloc, outputs, copies, told)
    }

    fn save(&mut self, entry: Utf8Path<'_>, bytes: &[u8]) -> Result<(), HostFault> {
        let Ok(copy) = ready_path(&mut self.log, self.alloc, entry) else {
            return Err(HostFault::NoMemory);
        };
        let told = disk::save(&self.rt, entry.as_str(), bytes);
        answer_save(&mut self.log, self.alloc, entry, copy, told)
    }

    fn capture(&mut self, spec: &Spec, input: &[u8]) -> Result<(Status, Vec<u8>), HostFault> {
        let Ok((copy, fed)) = ready_capture(&mut self.log, self.alloc, spec, input) else {
            return Err(HostFault::NoMemory);
        };
        match capture(&self.rt, self.alloc, spec, input) {
            Ok(end) => note_capture(&mut self.log, self.alloc, copy, fed, end),
            Err(fault) => Err(refuse_capture(&mut self.log, self.alloc, &spec.program, fault)),
        }
    }

    fn start(&mut self, spec: &Spec) -> Result<RealChild, HostFault> {
        let Ok(copy) = ready_start(&mut self.log, self.alloc, spec) else {
            return Err(HostFault::NoMemory);
        };
        match place_script(&self.rt, &mut self.log, self.alloc, spec) {
            Ok(file) => {
                let told = spawn(
                    &self.rt,
                    self.alloc,
                    &mut self.shell,
                    &mut self.surrounding,
                    spec,
                    &file,
                );
                answer_start(&mut self.log, copy, file, told)
            }
            Err(fault) => Err(fault),
        }
    }

    fn number(child: &RealChild) -> u32 {
        child.number
    }

    fn wait(child: RealChild) -> RealDone {
        RealDone::after(child)
    }

    fn settle(&mut self, child: u32, done: RealDone) -> Result<Status, HostFault> {
        clear(&self.rt, &done.script);
        let number = done.number;
        let status = done.status;
        drop(done);
        self.log.settle(child, number, status)
    }

    fn room(&mut self, n: usize) -> Result<(), NoMemory> {
        self.log.room(n)
    }

    ghost faults_are = { λ h. refl };

    ghost misses_are = { λ h. refl };

    ghost view_is = { λ h. refl };

    ghost went_entries = { λ a b n w. w.entries };

    ghost went_world = { λ a b n w. refl };

    ghost went_spare = { λ a b n w. w.spare };
}
