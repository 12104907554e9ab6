//! The trait of hosts.
ghost use Rattle.std.specs.Prelude.{◌≡◌, ◌+◌, ◌<◌, ◌≤◌, ℕ, List, [], ◌∷◌, ◌++◌, length, Option, Result, Ok, option_map, IfOk, IfSome, MatchOption, OnOk, OnErr, string_bytes};
ghost use Rattle.just_path.specs.Path.{text_of};
ghost use Rattle.just_path.specs.declared.host.PathNote.{PathNote};
ghost use Rattle.just_host_record.specs.declared.entry.Entry.{Entry};
ghost use Rattle.just_host_record.specs.declared.entry.Status.{Status};
ghost use Rattle.just_host_record.specs.declared.outside.TheConstants.{MAX_BYTES};
ghost use Rattle.just_host_record.specs.Record.{gained, IsOwn, NeverMissed, noted, children, faults_of, misses_of, settled_entry, settled_answer, text_or_empty, script_folder, IsStartFault, IsCaptureFault};
ghost use Rattle.just_host_record.specs.World.{Moment, view_of, ReadTells, Touched, Leaves, LeftAlone};
ghost use Rattle.just_host_record.specs.Changes.{place_written, written, with_cache_entry, IsOfEntry, Changes};
ghost use Rattle.just_host_record.specs.Effects.{LeavesFiles, IsPutSomewhere, HasEntry, MakesFolder};
ghost use Rattle.just_host_record.specs.Folders.{TempTells, Removes};
ghost use Rattle.just_host_record.specs.NewFolders.{with_folder, IsOfFolder};
ghost use Rattle.just_host_record.specs.Scripts.{StartTells};
ghost use Rattle.just_host_record.specs.Looks.{dash, TellsAnswer, told_input, told_sum, told_check, LookTells, ChecksTo};

use super::{Call, Entry, HostFault, Look, Spec, Status, Stream};
use just_path::{PathHost, Utf8Path, Utf8PathBuf};
use just_path_text::{Environ, NoMemory};

/// The most bytes that a read file, a read input or a captured output may have.
pub const MAX_BYTES: usize = 67_108_864;

/// The most bytes that a summed file may have.
pub const MAX_SUMMED: u64 = 1_099_511_627_776;

/// What a run touches of the outside. Contracts know a host by what it has `told` at a moment: its record of entries, which
/// only grows, and its world, where it tells one; by its `spare`, the entries of `settle` that need no memory; and by the
/// numbers of its children. A refused call for want of memory appends nothing.
pub trait Host: PathHost {
    /// A child that runs. Only `start` gives one.
    type Child: Send + Drop;

    /// A child that was waited for. Only `wait` gives one.
    type Done: Send + Drop;

    ghost told: { Self → Moment };

    ghost spare: { Self → ℕ };

    ghost child_number: { Self.Child → ℕ };

    ghost done_number: { Self.Done → ℕ };

    // the status that waiting gave, or none where waiting failed
    ghost waited: { Self.Done → Option Status };

    /// The text of a file.
    fn read(&mut self, path: Utf8Path<'_>) -> Result<String, HostFault>
        ensures entries { (told self.new).entries ≡ (told self.old).entries
            ++ gained (text_of path.entry) (λ _. []) result }
        ensures own { IsOwn Call.Read result }
        ensures limit { IfOk result (λ s. length (string_bytes s) ≤ MAX_BYTES) }
        ensures told { ReadTells (told self.old).world (text_of path.entry) result }
        ensures world { (told self.new).world ≡ (told self.old).world }
        ensures spare { spare self.new ≡ spare self.old };

    /// The text of standard input, to its end. A refusal names the path `-`.
    fn input(&mut self) -> Result<String, HostFault>
        ensures entries { (told self.new).entries ≡ (told self.old).entries
            ++ gained dash (λ _. []) result }
        ensures own { IsOwn Call.Input result }
        ensures limit { IfOk result (λ s. length (string_bytes s) ≤ MAX_BYTES) }
        ensures told { TellsAnswer (λ s. string_bytes s) told_input (told self.old).world result }
        ensures world { (told self.new).world ≡ (told self.old).world }
        ensures spare { spare self.new ≡ spare self.old };

    /// Prints a prompt to standard error, and reads one line of standard input, without its line end; at the end of input it is empty. A refusal
    /// names the path `-`. Nothing is told of what is answered.
    fn ask(&mut self, prompt: &str) -> Result<String, HostFault>
        ensures entries { (told self.new).entries ≡ (told self.old).entries
            ++ gained dash (λ s. Entry.Asked prompt.now (string_bytes s) ∷ []) result }
        ensures own { IsOwn Call.Ask result }
        ensures limit { IfOk result (λ s. length (string_bytes s) ≤ MAX_BYTES) }
        ensures world { (told self.new).world ≡ (told self.old).world }
        ensures spare { spare self.new ≡ spare self.old };

    /// The environment.
    fn environ(&mut self) -> Result<Environ, HostFault>
        ensures entries { (told self.new).entries ≡ (told self.old).entries
            ++ gained [] (λ _. []) result }
        ensures own { IsOwn Call.Environ result }
        ensures never_missed { NeverMissed result }
        ensures told { MatchOption (told self.old).world (Unit {0})
            (λ w. IfOk result (λ e. e.pairs ≡ w.environ)) }
        ensures world { (told self.new).world ≡ (told self.old).world }
        ensures spare { spare self.new ≡ spare self.old };

    /// Writes a file: behind it, it holds these bytes and no others. Its folder has to be there.
    fn write(&mut self, path: Utf8Path<'_>, bytes: &[u8]) -> Result<(), HostFault>
        ensures entries { (told self.new).entries ≡ (told self.old).entries
            ++ gained (text_of path.entry) (λ _. []) result }
        ensures own { IsOwn Call.Write result }
        ensures world { Changes
            (λ w. written w (text_of path.entry) bytes.now)
            (λ w place. place_written w (text_of path.entry) ≡ Ok place)
            (told self.old).world (told self.new).world result }
        ensures puts { LeavesFiles
            (λ w files. IsPutSomewhere w (text_of path.entry) bytes.now files)
            (told self.old).world (told self.new).world result }
        ensures spare { spare self.new ≡ spare self.old };

    /// Makes a folder, and those above it, where they lack. Where something else stands, it isn't replaced.
    fn make_folder(&mut self, path: Utf8Path<'_>) -> Result<(), HostFault>
        ensures entries { (told self.new).entries ≡ (told self.old).entries
            ++ gained (text_of path.entry) (λ _. []) result }
        ensures own { IsOwn Call.MakeFolder result }
        ensures world { Changes
            (λ w. with_folder w (text_of path.entry))
            (λ w place. IsOfFolder w (text_of path.entry) place)
            (told self.old).world (told self.new).world result }
        ensures makes { LeavesFiles (λ w files. MakesFolder w (text_of path.entry) files)
            (told self.old).world (told self.new).world result }
        ensures spare { spare self.new ≡ spare self.old };

    /// Makes a fresh folder in another one, else where the host keeps temporary folders. Its name begins with `prefix`.
    fn temp_folder(
        &mut self,
        parent: Option<Utf8Path<'_>>,
        prefix: &str,
    ) -> Result<Utf8PathBuf, HostFault>
        ensures entries { (told self.new).entries ≡ (told self.old).entries
            ++ gained (text_or_empty (option_map text_of parent.entry))
            (λ p. Entry.Made p ∷ []) result }
        ensures own { IsOwn Call.Temp result }
        ensures world { TempTells (told self.old).world (told self.new).world
            (option_map text_of parent.entry) prefix.now result }
        ensures spare { spare self.new ≡ spare self.old };

    /// Removes a file, a link or an empty folder.
    fn remove(&mut self, path: Utf8Path<'_>) -> Result<(), HostFault>
        ensures entries { (told self.new).entries ≡ (told self.old).entries
            ++ gained (text_of path.entry) (λ _. []) result }
        ensures own { IsOwn Call.Remove result }
        ensures world { Removes (told self.old).world (told self.new).world
            (text_of path.entry) result }
        ensures spare { spare self.new ≡ spare self.old };

    /// Prints a text.
    fn print(&mut self, stream: Stream, text: &str) -> Result<(), HostFault>
        ensures entries { (told self.new).entries ≡ (told self.old).entries
            ++ gained [] (λ _. Entry.Printed stream text.now ∷ []) result }
        ensures own { IsOwn Call.Print result }
        ensures never_missed { NeverMissed result }
        ensures world { (told self.new).world ≡ (told self.old).world }
        ensures spare { spare self.new ≡ spare self.old };

    /// The SHA-256 of a file.
    fn sum(&mut self, path: Utf8Path<'_>) -> Result<[u8; 32], HostFault>
        ensures entries { (told self.new).entries ≡ (told self.old).entries
            ++ gained (text_of path.entry) (λ d. Entry.Summed (text_of path.entry) d ∷ []) result }
        ensures own { IsOwn Call.Sum result }
        ensures told { TellsAnswer (λ d. d) (λ w. told_sum w (text_of path.entry))
            (told self.old).world result }
        ensures world { (told self.new).world ≡ (told self.old).world }
        ensures spare { spare self.new ≡ spare self.old };

    /// Looks at a cache entry and the outputs beside it. The entry, empty, and its folder are made where they lack. An output
    /// that can't be found, for whatever miss, is missing.
    fn probe(&mut self, entry: Utf8Path<'_>, outputs: &[Utf8PathBuf]) -> Result<Look, HostFault>
        ensures entries { (told self.new).entries ≡ (told self.old).entries
            ++ gained (text_of entry.entry)
            (λ x. Entry.Probed (text_of entry.entry) outputs.now x ∷ []) result }
        ensures own { IsOwn Call.Probe result }
        ensures told { LookTells (told self.old).world (text_of entry.entry) outputs.now result }
        ensures world { Changes
            (λ w. with_cache_entry w (text_of entry.entry))
            (λ w place. IsOfEntry w (text_of entry.entry) place)
            (told self.old).world (told self.new).world result }
        ensures has { LeavesFiles (λ w files. HasEntry w (text_of entry.entry) files)
            (told self.old).world (told self.new).world result }
        ensures spare { spare self.new ≡ spare self.old };

    /// The number of the first output that isn't there. An output that can't be found for another reason is a miss, with its path.
    fn check(&mut self, outputs: &[Utf8PathBuf]) -> Result<Option<u32>, HostFault>
        ensures entries { ChecksTo (told self.old).entries (told self.new).entries
            outputs.now result }
        ensures own { IsOwn Call.Check result }
        ensures within { IfOk result (λ o. IfSome o (λ i. i < length outputs.now)) }
        ensures told { TellsAnswer (λ o. o) (λ w. told_check w outputs.now)
            (told self.old).world result }
        ensures world { (told self.new).world ≡ (told self.old).world }
        ensures spare { spare self.new ≡ spare self.old };

    /// Writes a cache entry: it is emptied, and then holds these bytes. Its folder has to be there.
    fn save(&mut self, entry: Utf8Path<'_>, bytes: &[u8]) -> Result<(), HostFault>
        ensures entries { (told self.new).entries ≡ (told self.old).entries
            ++ gained (text_of entry.entry) (λ _. Entry.Saved (text_of entry.entry) ∷ []) result }
        ensures own { IsOwn Call.Save result }
        ensures world { Changes
            (λ w. written w (text_of entry.entry) bytes.now)
            (λ w place. place_written w (text_of entry.entry) ≡ Ok place)
            (told self.old).world (told self.new).world result }
        ensures puts { LeavesFiles
            (λ w files. IsPutSomewhere w (text_of entry.entry) bytes.now files)
            (told self.old).world (told self.new).world result }
        ensures spare { spare self.new ≡ spare self.old };

    /// Runs a child to its end, feeds it these bytes, and answers how it ended and what it printed. A child that stops reading is no fault. An
    /// output beyond `MAX_BYTES` is a miss, with the program as its path. A told world tells which children leave the files alone.
    fn capture(&mut self, spec: &Spec, input: &[u8]) -> Result<(Status, Vec<u8>), HostFault>
        ensures entries { (told self.new).entries ≡ (told self.old).entries
            ++ gained spec.now.program
            (λ r. Entry.Captured spec.now input.now r.0 r.1.items ∷ []) result }
        ensures limit { IfOk result (λ r. length r.1.items ≤ MAX_BYTES) }
        ensures fault { IsCaptureFault input.now result }
        ensures leaves { Leaves (told self.old).world (told self.new).world result }
        ensures alone { LeftAlone (told self.old).world (told self.new).world spec.now }
        ensures spare { spare self.new ≡ spare self.old };

    /// Starts a child. Its number is the number of children that were started before. A miss is that of the folder or the file of its script.
    fn start(&mut self, spec: &Spec) -> Result<Self::Child, HostFault>
        ensures entries { (told self.new).entries ≡ (told self.old).entries
            ++ gained (script_folder spec.now)
            (λ c. Entry.Started (child_number c) spec.now ∷ []) result }
        ensures number { IfOk result (λ c. child_number c ≡ children (told self.old).entries) }
        ensures fault { IsStartFault spec.now result }
        ensures shown { StartTells (told self.old).world spec.now result }
        ensures leaves { Leaves (told self.old).world (told self.new).world result }
        ensures spare { spare self.new ≡ spare self.old };

    /// The number of a child. It takes no memory.
    fn number(child: &Self::Child) -> u32
        ensures { result ≡ child_number child.now };

    /// Waits until the child has ended. It takes no memory.
    fn wait(child: Self::Child) -> Self::Done
        ensures { done_number result ≡ child_number child };

    /// Notes how a child ended, and answers it. It takes no memory.
    fn settle(&mut self, child: u32, done: Self::Done) -> Result<Status, HostFault>
        requires { 0 < spare self.old }
        ensures entries { (told self.new).entries ≡ (told self.old).entries
            ++ settled_entry child (done_number done) (waited done) ∷ [] }
        ensures answer { result ≡ settled_answer child (done_number done) (waited done) }
        ensures touched { Touched (told self.old).world (told self.new).world }
        ensures spare { spare self.new + 1 ≡ spare self.old };

    /// Makes room, so that the next `n` calls of `settle` need no memory.
    fn room(&mut self, n: usize) -> Result<(), NoMemory>
        ensures entries { (told self.new).entries ≡ (told self.old).entries }
        ensures world { (told self.new).world ≡ (told self.old).world }
        ensures ok { OnOk result (n ≤ spare self.new) }
        ensures kept { spare self.old ≤ spare self.new }
        ensures err { OnErr result (spare self.new ≡ spare self.old) };

    ghost faults_are: { (h : Self) → Self.faults h ≡ faults_of (told h).entries };

    ghost misses_are: { (h : Self) → Self.misses h ≡ misses_of (told h).entries };

    ghost view_is: { (h : Self) → Self.view h ≡ option_map view_of (told h).world };

    ghost went_entries: { (a b : Self) (n : PathNote) → Self.went a b n → (told b).entries ≡ (told a).entries ++ noted n };

    ghost went_world: { (a b : Self) (n : PathNote) → Self.went a b n → (told b).world ≡ (told a).world };

    ghost went_spare: { (a b : Self) (n : PathNote) → Self.went a b n → spare b ≡ spare a };
}
