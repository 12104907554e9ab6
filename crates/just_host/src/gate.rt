//! A host in memory whose first child is held until a second one was started: it shows whether children run side by side.
ghost use Rattle.std.specs.Prelude.{◌≡◌, Some, refl, option_map, IfOk};
ghost use Rattle.just_host_record.specs.Record.{faults_of, misses_of};
ghost use Rattle.just_host_record.specs.Logs.{spare_of};
ghost use Rattle.just_host_record.specs.World.{view_of};
ghost use Rattle.just_host_record.proofs.Laws.{counts_noted};
ghost use Rattle.just_host.specs.Mem.{record_of, world_of, Went};

use super::memory::{MemChild, MemDone, MemHost};
use just_host_record::{Entry, Host, HostFault, Look, Spec, Status, Stream};
use just_path::{Item, Meta, PathFault, PathHost, Utf8Path, Utf8PathBuf};
use just_path_text::{Environ, NoMemory, Seq, Text};
use std::sync::Arc;
use std::sync::atomic::{AtomicBool, Ordering};

/// How often child 0 looks whether child 1 was started, before it gives up.
const TURNS: u32 = 2_000_000_000;

/// A host in memory whose child 0 is held in `wait` until child 1 was started. Where that doesn't happen within 2,000,000,000
/// turns, nobody knows how child 0 has ended.
pub struct GateHost {
    mem: MemHost,
    /// Whether child 1 was started.
    gate: Arc<AtomicBool>,
}

impl Drop for GateHost {
    fn drop(self) {
        let GateHost { mem: _, gate: _ } = self;
    }
}

/// A child over a `GateHost`.
#[derive(Drop)]
pub struct GateChild {
    child: MemChild,
    gate: Arc<AtomicBool>,
}

impl GateHost {
    /// The host, with its gate shut.
    pub fn new(mem: MemHost) -> Result<GateHost, NoMemory>
        ensures { IfOk result (λ h. h.mem ≡ mem) }
    {
        match Arc::new(mem.alloc, AtomicBool::new(false)) {
            Ok(gate) => Ok(GateHost { mem, gate }),
            Err(_) => {
                drop(mem);
                Err(NoMemory)
            }
        }
    }

    /// The record: what was asked of this host, and what it answered.
    pub fn entries(&self) -> &[Entry]
        ensures { result.now ≡ record_of self.now.mem }
    {
        self.mem.entries()
    }
}

/// Whether the gate was opened in time.
fn is_opened(gate: &AtomicBool) -> bool {
    for _ in 0..TURNS {
        if gate.load(Ordering::SeqCst) {
            return true;
        }
    }
    false
}

impl PathHost for GateHost {
    ghost faults = { λ h. faults_of (record_of h.mem) };

    ghost misses = { λ h. misses_of (record_of h.mem) };

    ghost view = { λ h. Some (view_of (world_of h.mem)) };

    ghost went = { λ a b n. Went a.mem b.mem n };

    fn meta(&mut self, path: Utf8Path<'_>, follow: bool) -> Result<Meta, PathFault> {
        self.mem.meta(path, follow)
    }

    fn list(&mut self, path: Utf8Path<'_>) -> Result<Vec<Item>, PathFault> {
        self.mem.list(path)
    }

    fn names(&mut self, path: Utf8Path<'_>) -> Result<Seq<Text>, PathFault> {
        self.mem.names(path)
    }

    fn canonical(&mut self, path: Utf8Path<'_>) -> Result<Utf8PathBuf, PathFault> {
        self.mem.canonical(path)
    }

    fn link(&mut self, path: Utf8Path<'_>) -> Result<Utf8PathBuf, PathFault> {
        self.mem.link(path)
    }

    fn current(&mut self) -> Result<Utf8PathBuf, PathFault> {
        self.mem.current()
    }

    ghost counts = { λ a b n w. counts_noted (record_of a.mem) (record_of b.mem) n w.entries };

    ghost view_clean = { λ h. record { current = h.mem.folder.clean; places = h.mem.tree.clean } };

    ghost went_view = { λ a b n w. λ i. option_map view_of (w.world i) };
}

impl Host for GateHost {
    type Child = GateChild;

    type Done = MemDone;

    ghost told = { λ h. record { entries = record_of h.mem; world = Some (world_of h.mem) } };

    ghost spare = { λ h. spare_of h.mem.log };

    ghost child_number = { λ c. c.child.number };

    ghost done_number = { λ d. d.number };

    ghost waited = { λ d. d.status };

    fn read(&mut self, path: Utf8Path<'_>) -> Result<String, HostFault> {
        self.mem.read(path)
    }

    fn input(&mut self) -> Result<String, HostFault> {
        self.mem.input()
    }

    fn ask(&mut self, prompt: &str) -> Result<String, HostFault> {
        self.mem.ask(prompt)
    }

    fn environ(&mut self) -> Result<Environ, HostFault> {
        self.mem.environ()
    }

    fn write(&mut self, path: Utf8Path<'_>, bytes: &[u8]) -> Result<(), HostFault> {
        self.mem.write(path, bytes)
    }

    fn make_folder(&mut self, path: Utf8Path<'_>) -> Result<(), HostFault> {
        self.mem.make_folder(path)
    }

    fn temp_folder(
        &mut self,
        parent: Option<Utf8Path<'_>>,
        prefix: &str,
    ) -> Result<Utf8PathBuf, HostFault> {
        self.mem.temp_folder(parent, prefix)
    }

    fn remove(&mut self, path: Utf8Path<'_>) -> Result<(), HostFault> {
        self.mem.remove(path)
    }

    fn sum(&mut self, path: Utf8Path<'_>) -> Result<[u8; 32], HostFault> {
        self.mem.sum(path)
    }

    fn probe(&mut self, entry: Utf8Path<'_>, outputs: &[Utf8PathBuf]) -> Result<Look, HostFault> {
        self.mem.probe(entry, outputs)
    }

    fn check(&mut self, outputs: &[Utf8PathBuf]) -> Result<Option<u32>, HostFault> {
        self.mem.check(outputs)
    }

    fn save(&mut self, entry: Utf8Path<'_>, bytes: &[u8]) -> Result<(), HostFault> {
        self.mem.save(entry, bytes)
    }

    fn capture(&mut self, spec: &Spec, input: &[u8]) -> Result<(Status, Vec<u8>), HostFault> {
        self.mem.capture(spec, input)
    }

    fn print(&mut self, stream: Stream, text: &str) -> Result<(), HostFault> {
        self.mem.print(stream, text)
    }

    fn start(&mut self, spec: &Spec) -> Result<GateChild, HostFault> {
        let Ok(gate) = Arc::try_clone(&self.gate) else {
            return Err(HostFault::NoMemory);
        };
        match self.mem.start(spec) {
            Ok(child) => {
                if child.number == 1 {
                    self.gate.store(true, Ordering::SeqCst);
                }
                Ok(GateChild { child, gate })
            }
            Err(fault) => Err(fault),
        }
    }

    fn number(child: &GateChild) -> u32 {
        child.child.number
    }

    fn wait(child: GateChild) -> MemDone {
        let GateChild { child, gate } = child;
        if child.number == 0 && !is_opened(&gate) {
            return MemDone {
                number: 0,
                status: Some(Status::Unknown),
            };
        }
        MemHost::wait(child)
    }

    fn settle(&mut self, child: u32, done: MemDone) -> Result<Status, HostFault> {
        self.mem.settle(child, done)
    }

    fn room(&mut self, n: usize) -> Result<(), NoMemory> {
        self.mem.room(n)
    }

    ghost faults_are = { λ h. refl };

    ghost misses_are = { λ h. refl };

    ghost view_is = { λ h. refl };

    ghost went_entries = { λ a b n w. w.entries };

    ghost went_world = { λ a b n w. w.world };

    ghost went_spare = { λ a b n w. w.spare };
}
