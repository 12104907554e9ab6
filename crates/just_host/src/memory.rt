//! A host in memory, which does what its plot says.
ghost use Rattle.std.specs.Prelude.{◌≡◌, ◌+◌, ◌<◌, ◌≤◌, List, [], ◌∷◌, ◌++◌, Option, Some, None, Ok, refl, option_map, IfOk, IfSome, OnOk, OnErr, length, string_bytes};
ghost use Rattle.std.specs.FinMap as map;
ghost use Rattle.just_path.specs.Path.{text_of};
ghost use Rattle.just_path.specs.Comps.{slash};
ghost use Rattle.just_path.specs.Host.{note_of};
ghost use Rattle.just_path.specs.View.{place_under, AreInOrder, AreNamesInOrder, Told, TellsItems, TellsNames, meta_told, canonical_told, link_told};
ghost use Rattle.just_path.specs.declared.host.PathCall.{PathCall};
ghost use Rattle.just_path.specs.declared.host.Miss.{Miss};
ghost use Rattle.just_host_record.specs.declared.entry.Entry.{Entry};
ghost use Rattle.just_host_record.specs.declared.entry.Status.{Status};
ghost use Rattle.just_host_record.specs.declared.outside.TheConstants.{MAX_BYTES};
ghost use Rattle.just_host_record.specs.Record.{gained, refused, IsOwn, NeverMissed, children, faults_of, misses_of, settled_entry, settled_answer, text_or_empty, script_folder, IsStartFault, IsCaptureFault};
ghost use Rattle.just_host_record.specs.Logs.{spare_of};
ghost use Rattle.just_host_record.specs.World.{view_of, ReadTells, Touched, Leaves, LeftAlone};
ghost use Rattle.just_host_record.specs.Changes.{place_written, written, with_cache_entry, IsOfEntry, Changes};
ghost use Rattle.just_host_record.specs.Effects.{LeavesFiles, IsPutSomewhere, HasEntry, MakesFolder};
ghost use Rattle.just_host_record.specs.Folders.{TempTells, Removes};
ghost use Rattle.just_host_record.specs.NewFolders.{with_folder, IsOfFolder};
ghost use Rattle.just_host_record.specs.Scripts.{StartTells};
ghost use Rattle.just_host_record.specs.Looks.{dash, TellsAnswer, told_input, told_sum, told_check, LookTells, ChecksTo};
ghost use Rattle.just_host_memory.specs.Trees.{files_of};
ghost use Rattle.just_host.specs.Mem.{record_of, world_of, Went, OnlyNotes, OnlyFiles, Answers, answer_in, Plays, Runs, OnlyMisses, is_struck, is_wait_struck, waited_for, FailsIf, PathFailsIf};
ghost use Rattle.just_host_memory.specs.Playing.{next_call, word_of, ending_of, leave_alone, status_of, output_of};
ghost use Rattle.just_host_record.proofs.Laws.{counts_noted};

use super::children::{captured, started};
use super::notes::{
    copied, fail, next_answer, note_answer, note_fresh, refuse, refuse_call, use_answer,
};
use just_host_files::{copies_of, path_or_empty, ready_path, ready_probe};
use just_host_memory::{Ending, Faults, Place, Plot, Tree, TreeFault, copied_text};
use just_host_record::{
    Call, Entry, Host, HostFault, Log, Look, MAX_BYTES, Signal, Spec, Status, Stream,
};
use just_path::{Item, Meta, Miss, PathCall, PathFault, PathHost, Utf8Path, Utf8PathBuf};
use just_path_text::{Environ, NoMemory, Seq, Text, TryClone};
use std::alloc::Global;

/// A host in memory, which does what its plot says. It tells its world.
pub struct MemHost {
    pub(crate) alloc: Global,
    log: Log,
    tree: Tree,
    folder: Place,
    environ: Environ,
    input: Seq<u8>,
    endings: Vec<Ending>,
    answers: Vec<Text>,
    signals: Seq<(u32, Signal)>,
    faults: Faults,
}

impl Drop for MemHost {
    fn drop(self) {
        let MemHost {
            alloc: _,
            log: _,
            tree: _,
            folder: _,
            environ: _,
            input: _,
            endings: _,
            answers: _,
            signals: _,
            faults: _,
        } = self;
    }
}

/// A child over a `MemHost`.
#[derive(Drop)]
pub struct MemChild {
    pub(crate) number: u32,
    status: Option<Status>,
}

/// A child over a `MemHost` that was waited for.
#[derive(Drop)]
pub struct MemDone {
    pub(crate) number: u32,
    pub(crate) status: Option<Status>,
}

impl MemHost {
    /// A host over these files, in the folder at that place under the root and this environment, with an empty record.
    pub fn new(
        alloc: Global,
        tree: Tree,
        current: Utf8PathBuf,
        environ: Environ,
        plot: Plot,
    ) -> Result<MemHost, NoMemory>
        ensures entries { IfOk result (λ h. record_of h ≡ []) }
        ensures spare { IfOk result (λ h. spare_of h.log ≡ 0) }
        ensures world { IfOk result (λ h. world_of h ≡ record {
          tree = files_of tree;
          current = place_under slash current;
          environ = environ.pairs;
          input = plot.input;
          harmless = λ spec. leave_alone plot.endings.items (word_of spec);
          disk = None;
        }) }
        ensures endings { IfOk result (λ h. h.endings.items ≡ plot.endings.items) }
        ensures answers { IfOk result (λ h. h.answers.items ≡ plot.answers) }
        ensures fails { IfOk result (λ h. h.faults.numbers ≡ plot.fails) }
        ensures calls { IfOk result (λ h. h.faults.calls ≡ 0) }
    {
        let folder = Place::new(alloc, current.as_path())?;
        let Plot {
            endings,
            answers,
            input,
            fails,
            signals,
        } = plot;
        Ok(MemHost {
            alloc,
            log: Log::new(alloc),
            tree,
            folder,
            environ,
            input,
            endings,
            answers: answers.into_vec(),
            signals,
            faults: Faults::new(fails),
        })
    }

    /// The record: what was asked of this host, and what it answered.
    pub fn entries(&self) -> &[Entry]
        ensures { result.now ≡ record_of self.now }
    {
        self.log.entries()
    }

    /// The files, as they are now.
    pub fn tree(&self) -> &Tree
        ensures { files_of result.now ≡ files_of self.now.tree }
    {
        &self.tree
    }
}

impl PathHost for MemHost {
    ghost faults = { λ h. faults_of (record_of h) };

    ghost misses = { λ h. misses_of (record_of h) };

    ghost view = { λ h. Some (view_of (world_of h)) };

    ghost went = { Went };

    fn meta(&mut self, path: Utf8Path<'_>, follow: bool) -> Result<Meta, PathFault>
        ensures went { Went self.old self.new (note_of PathCall.Meta (text_of path.entry) result) }
        ensures told { Told (meta_told (text_of path.entry) follow (view_of (world_of self.old))) result }
        ensures fails { PathFailsIf (is_struck self.old.faults) result }
        ensures stays { OnlyNotes self.old self.new (next_call self.old.faults.calls) }
    {
        if self.faults.strike() {
            return Err(self.log.path_failure(PathCall::Meta));
        }
        match self.tree.meta(self.alloc, &self.folder, path, follow) {
            Ok(meta) => Ok(meta),
            Err(fault) => Err(refuse(&mut self.log, self.alloc, path, fault)),
        }
    }

    fn list(&mut self, path: Utf8Path<'_>) -> Result<Vec<Item>, PathFault>
        ensures went { Went self.old self.new (note_of PathCall.List (text_of path.entry) result) }
        ensures order { IfOk result (λ items. AreInOrder items.items) }
        ensures told { TellsItems (Some (view_of (world_of self.old))) (text_of path.entry) result }
        ensures fails { PathFailsIf (is_struck self.old.faults) result }
        ensures stays { OnlyNotes self.old self.new (next_call self.old.faults.calls) }
    {
        if self.faults.strike() {
            return Err(self.log.path_failure(PathCall::List));
        }
        match self.tree.folder(self.alloc, &self.folder, path) {
            Ok(folder) => match self.tree.items(self.alloc, &folder) {
                Ok(items) => Ok(items),
                Err(NoMemory) => Err(PathFault::NoMemory),
            },
            Err(fault) => Err(refuse(&mut self.log, self.alloc, path, fault)),
        }
    }

    fn names(&mut self, path: Utf8Path<'_>) -> Result<Seq<Text>, PathFault>
        ensures went { Went self.old self.new (note_of PathCall.List (text_of path.entry) result) }
        ensures order { IfOk result AreNamesInOrder }
        ensures told { TellsNames (Some (view_of (world_of self.old))) (text_of path.entry) result }
        ensures fails { PathFailsIf (is_struck self.old.faults) result }
        ensures stays { OnlyNotes self.old self.new (next_call self.old.faults.calls) }
    {
        if self.faults.strike() {
            return Err(self.log.path_failure(PathCall::List));
        }
        match self.tree.folder(self.alloc, &self.folder, path) {
            Ok(folder) => match self.tree.names(self.alloc, &folder) {
                Ok(names) => Ok(names),
                Err(NoMemory) => Err(PathFault::NoMemory),
            },
            Err(fault) => Err(refuse(&mut self.log, self.alloc, path, fault)),
        }
    }

    fn canonical(&mut self, path: Utf8Path<'_>) -> Result<Utf8PathBuf, PathFault>
        ensures went { Went self.old self.new (note_of PathCall.Canonical (text_of path.entry) result) }
        ensures told { Told (canonical_told (text_of path.entry) (view_of (world_of self.old))) result }
        ensures fails { PathFailsIf (is_struck self.old.faults) result }
        ensures stays { OnlyNotes self.old self.new (next_call self.old.faults.calls) }
    {
        if self.faults.strike() {
            return Err(self.log.path_failure(PathCall::Canonical));
        }
        match self.tree.place(self.alloc, &self.folder, path, true) {
            Ok(place) => Ok(place.into_path()),
            Err(fault) => Err(refuse(&mut self.log, self.alloc, path, fault)),
        }
    }

    fn link(&mut self, path: Utf8Path<'_>) -> Result<Utf8PathBuf, PathFault>
        ensures went { Went self.old self.new (note_of PathCall.Link (text_of path.entry) result) }
        ensures told { Told (link_told (text_of path.entry) (view_of (world_of self.old))) result }
        ensures fails { PathFailsIf (is_struck self.old.faults) result }
        ensures stays { OnlyNotes self.old self.new (next_call self.old.faults.calls) }
    {
        if self.faults.strike() {
            return Err(self.log.path_failure(PathCall::Link));
        }
        match self.tree.link(self.alloc, &self.folder, path) {
            Ok(target) => copied(self.alloc, target.as_str()),
            Err(fault) => Err(refuse(&mut self.log, self.alloc, path, fault)),
        }
    }

    fn current(&mut self) -> Result<Utf8PathBuf, PathFault>
        ensures went { Went self.old self.new (note_of PathCall.Current [] result) }
        ensures told { Told (Ok self.old.folder.path) result }
        ensures fails { PathFailsIf (is_struck self.old.faults) result }
        ensures stays { OnlyNotes self.old self.new (next_call self.old.faults.calls) }
    {
        if self.faults.strike() {
            return Err(self.log.path_failure(PathCall::Current));
        }
        copied(self.alloc, self.folder.as_str())
    }

    ghost counts = { λ a b n w. counts_noted (record_of a) (record_of b) n w.entries };

    ghost view_clean = { λ h. record { current = h.folder.clean; places = h.tree.clean } };

    ghost went_view = { λ a b n w. λ i. option_map view_of (w.world i) };
}

impl Host for MemHost {
    type Child = MemChild;

    type Done = MemDone;

    ghost told = { λ h. record { entries = record_of h; world = Some (world_of h) } };

    ghost spare = { λ h. spare_of h.log };

    ghost child_number = { λ c. c.number };

    ghost done_number = { λ d. d.number };

    ghost waited = { λ d. d.status };

    fn read(&mut self, path: Utf8Path<'_>) -> Result<String, HostFault>
        ensures entries { record_of self.new ≡ record_of self.old ++ gained (text_of path.entry) (λ _. []) result }
        ensures own { IsOwn Call.Read result }
        ensures limit { IfOk result (λ s. length (string_bytes s) ≤ MAX_BYTES) }
        ensures told { ReadTells (Some (world_of self.old)) (text_of path.entry) result }
        ensures world { world_of self.new ≡ world_of self.old }
        ensures spare { spare_of self.new.log ≡ spare_of self.old.log }
        ensures fails { FailsIf (is_struck self.old.faults) result }
        ensures stays { OnlyNotes self.old self.new (next_call self.old.faults.calls) }
    {
        if self.faults.strike() {
            return Err(fail(&mut self.log, Call::Read));
        }
        match self.tree.text(self.alloc, &self.folder, path) {
            Ok(text) => Ok(text),
            Err(fault) => Err(refuse_call(&mut self.log, self.alloc, path, fault)),
        }
    }

    fn input(&mut self) -> Result<String, HostFault>
        ensures entries { record_of self.new ≡ record_of self.old ++ gained dash (λ _. []) result }
        ensures own { IsOwn Call.Input result }
        ensures limit { IfOk result (λ s. length (string_bytes s) ≤ MAX_BYTES) }
        ensures told { TellsAnswer (λ s. string_bytes s) told_input (Some (world_of self.old)) result }
        ensures world { Some (world_of self.new) ≡ Some (world_of self.old) }
        ensures spare { spare_of self.new.log ≡ spare_of self.old.log }
        ensures fails { FailsIf (is_struck self.old.faults) result }
        ensures stays { OnlyNotes self.old self.new (next_call self.old.faults.calls) }
    {
        if self.faults.strike() {
            return Err(fail(&mut self.log, Call::Input));
        }
        match copied_text(self.alloc, self.input.as_slice()) {
            Ok(text) => Ok(text),
            Err(fault) => Err(refuse_call(&mut self.log, self.alloc, Utf8Path::new("-"), fault)),
        }
    }

    fn ask(&mut self, prompt: &str) -> Result<String, HostFault>
        ensures entries { record_of self.new ≡ record_of self.old ++ gained dash (λ s. Entry.Asked prompt.now (string_bytes s) ∷ []) result }
        ensures own { IsOwn Call.Ask result }
        ensures limit { IfOk result (λ s. length (string_bytes s) ≤ MAX_BYTES) }
        ensures world { Some (world_of self.new) ≡ Some (world_of self.old) }
        ensures spare { spare_of self.new.log ≡ spare_of self.old.log }
        ensures fails { FailsIf (is_struck self.old.faults) result }
        ensures refusal { OnlyMisses Miss.TooLarge result }
        ensures answer { IfOk result (λ s. string_bytes s ≡ answer_in self.old.answers.items) }
        ensures answers { OnOk result (Answers self.old self.new) }
        ensures refused { OnErr result (OnlyNotes self.old self.new (next_call self.old.faults.calls)) }
    {
        if self.faults.strike() {
            return Err(fail(&mut self.log, Call::Ask));
        }
        let line = next_answer(self.answers.as_slice());
        if line.len() > MAX_BYTES {
            return Err(refuse_call(
                &mut self.log,
                self.alloc,
                Utf8Path::new("-"),
                TreeFault::Missed(Miss::TooLarge),
            ));
        }
        let answer = note_answer(&mut self.log, self.alloc, prompt, line)?;
        use_answer(&mut self.answers);
        Ok(answer)
    }

    fn environ(&mut self) -> Result<Environ, HostFault>
        ensures entries { record_of self.new ≡ record_of self.old ++ gained [] (λ _. []) result }
        ensures own { IsOwn Call.Environ result }
        ensures never_missed { NeverMissed result }
        ensures told { IfOk result (λ e. e.pairs ≡ self.old.environ.pairs) }
        ensures world { world_of self.new ≡ world_of self.old }
        ensures spare { spare_of self.new.log ≡ spare_of self.old.log }
        ensures fails { FailsIf (is_struck self.old.faults) result }
        ensures stays { OnlyNotes self.old self.new (next_call self.old.faults.calls) }
    {
        if self.faults.strike() {
            return Err(fail(&mut self.log, Call::Environ));
        }
        let pairs = self.environ.pairs.try_clone()?;
        Ok(Environ { pairs })
    }

    #[tactic(auto, using(just_host_record::proofs::Effects::written_puts))]
    fn write(&mut self, path: Utf8Path<'_>, bytes: &[u8]) -> Result<(), HostFault>
        ensures entries { record_of self.new ≡ record_of self.old ++ gained (text_of path.entry) (λ _. []) result }
        ensures own { IsOwn Call.Write result }
        ensures world { Changes (λ w. written w (text_of path.entry) bytes.now) (λ w place. place_written w (text_of path.entry) ≡ Ok place) (Some (world_of self.old)) (Some (world_of self.new)) result }
        ensures puts { LeavesFiles
            (λ w files. IsPutSomewhere w (text_of path.entry) bytes.now files)
            (Some (world_of self.old)) (Some (world_of self.new)) result }
        ensures spare { spare_of self.new.log ≡ spare_of self.old.log }
        ensures fails { FailsIf (is_struck self.old.faults) result }
        ensures stays { OnlyFiles self.old self.new (next_call self.old.faults.calls) }
    {
        if self.faults.strike() {
            return Err(fail(&mut self.log, Call::Write));
        }
        match self.tree.write(self.alloc, &self.folder, path, bytes) {
            Ok(()) => Ok(()),
            Err(fault) => Err(refuse_call(&mut self.log, self.alloc, path, fault)),
        }
    }

    #[tactic(auto, using(just_host_record::proofs::MadeFolders::folder_makes))]
    fn make_folder(&mut self, path: Utf8Path<'_>) -> Result<(), HostFault>
        ensures entries { record_of self.new ≡ record_of self.old ++ gained (text_of path.entry) (λ _. []) result }
        ensures own { IsOwn Call.MakeFolder result }
        ensures world { Changes (λ w. with_folder w (text_of path.entry)) (λ w place. IsOfFolder w (text_of path.entry) place) (Some (world_of self.old)) (Some (world_of self.new)) result }
        ensures makes { LeavesFiles (λ w files. MakesFolder w (text_of path.entry) files)
            (Some (world_of self.old)) (Some (world_of self.new)) result }
        ensures spare { spare_of self.new.log ≡ spare_of self.old.log }
        ensures fails { FailsIf (is_struck self.old.faults) result }
        ensures stays { OnlyFiles self.old self.new (next_call self.old.faults.calls) }
    {
        if self.faults.strike() {
            return Err(fail(&mut self.log, Call::MakeFolder));
        }
        match self.tree.make_folder(self.alloc, &self.folder, path) {
            Ok(()) => Ok(()),
            Err(fault) => Err(refuse_call(&mut self.log, self.alloc, path, fault)),
        }
    }

    fn temp_folder(
        &mut self,
        parent: Option<Utf8Path<'_>>,
        prefix: &str,
    ) -> Result<Utf8PathBuf, HostFault>
        ensures entries { record_of self.new ≡ record_of self.old ++ gained (text_or_empty (option_map text_of parent.entry)) (λ p. Entry.Made p ∷ []) result }
        ensures own { IsOwn Call.Temp result }
        ensures world { TempTells (Some (world_of self.old)) (Some (world_of self.new)) (option_map text_of parent.entry) prefix.now result }
        ensures spare { spare_of self.new.log ≡ spare_of self.old.log }
        ensures fails { FailsIf (is_struck self.old.faults) result }
        ensures stays { OnlyFiles self.old self.new (next_call self.old.faults.calls) }
    {
        if self.faults.strike() {
            return Err(fail(&mut self.log, Call::Temp));
        }
        match self.tree.parent_place(self.alloc, &self.folder, parent) {
            Ok(folder) => {
                match note_fresh(&mut self.log, &mut self.tree, self.alloc, folder, prefix) {
                    Ok(made) => Ok(made),
                    Err(NoMemory) => Err(HostFault::NoMemory),
                }
            }
            Err(fault) => Err(refuse_call(&mut self.log, self.alloc, path_or_empty(parent), fault)),
        }
    }

    fn remove(&mut self, path: Utf8Path<'_>) -> Result<(), HostFault>
        ensures entries { record_of self.new ≡ record_of self.old ++ gained (text_of path.entry) (λ _. []) result }
        ensures own { IsOwn Call.Remove result }
        ensures world { Removes (Some (world_of self.old)) (Some (world_of self.new)) (text_of path.entry) result }
        ensures spare { spare_of self.new.log ≡ spare_of self.old.log }
        ensures fails { FailsIf (is_struck self.old.faults) result }
        ensures stays { OnlyFiles self.old self.new (next_call self.old.faults.calls) }
    {
        if self.faults.strike() {
            return Err(fail(&mut self.log, Call::Remove));
        }
        match self.tree.remove_at(self.alloc, &self.folder, path) {
            Ok(()) => Ok(()),
            Err(fault) => Err(refuse_call(&mut self.log, self.alloc, path, fault)),
        }
    }

    fn print(&mut self, stream: Stream, text: &str) -> Result<(), HostFault>
        ensures entries { record_of self.new ≡ record_of self.old ++ gained [] (λ _. Entry.Printed stream text.now ∷ []) result }
        ensures own { IsOwn Call.Print result }
        ensures never_missed { NeverMissed result }
        ensures world { world_of self.new ≡ world_of self.old }
        ensures spare { spare_of self.new.log ≡ spare_of self.old.log }
        ensures fails { FailsIf (is_struck self.old.faults) result }
        ensures stays { OnlyNotes self.old self.new (next_call self.old.faults.calls) }
    {
        if self.faults.strike() {
            return Err(fail(&mut self.log, Call::Print));
        }
        let text = Text::from_str(self.alloc, text)?;
        self.log.note(Entry::Printed(stream, text))?;
        Ok(())
    }

    fn sum(&mut self, path: Utf8Path<'_>) -> Result<[u8; 32], HostFault>
        ensures entries { record_of self.new ≡ record_of self.old ++ gained (text_of path.entry) (λ d. Entry.Summed (text_of path.entry) d ∷ []) result }
        ensures own { IsOwn Call.Sum result }
        ensures told { TellsAnswer (λ d. d) (λ w. told_sum w (text_of path.entry)) (Some (world_of self.old)) result }
        ensures world { Some (world_of self.new) ≡ Some (world_of self.old) }
        ensures spare { spare_of self.new.log ≡ spare_of self.old.log }
        ensures fails { FailsIf (is_struck self.old.faults) result }
        ensures stays { OnlyNotes self.old self.new (next_call self.old.faults.calls) }
    {
        if self.faults.strike() {
            return Err(fail(&mut self.log, Call::Sum));
        }
        match self.tree.sum(self.alloc, &self.folder, path) {
            Ok(sum) => {
                let copy = path.to_path_buf(self.alloc)?;
                self.log.note(Entry::Summed(copy, sum))?;
                Ok(sum)
            }
            Err(fault) => Err(refuse_call(&mut self.log, self.alloc, path, fault)),
        }
    }

    fn probe(&mut self, entry: Utf8Path<'_>, outputs: &[Utf8PathBuf]) -> Result<Look, HostFault>
        ensures entries { record_of self.new ≡ record_of self.old ++ gained (text_of entry.entry) (λ x. Entry.Probed (text_of entry.entry) outputs.now x ∷ []) result }
        ensures own { IsOwn Call.Probe result }
        ensures told { LookTells (Some (world_of self.old)) (text_of entry.entry) outputs.now result }
        ensures world { Changes (λ w. with_cache_entry w (text_of entry.entry)) (λ w place. IsOfEntry w (text_of entry.entry) place) (Some (world_of self.old)) (Some (world_of self.new)) result }
        ensures has { LeavesFiles (λ w files. HasEntry w (text_of entry.entry) files)
            (Some (world_of self.old)) (Some (world_of self.new)) result }
        ensures spare { spare_of self.new.log ≡ spare_of self.old.log }
        ensures fails { FailsIf (is_struck self.old.faults) result }
        ensures stays { OnlyFiles self.old self.new (next_call self.old.faults.calls) }
    {
        if self.faults.strike() {
            return Err(fail(&mut self.log, Call::Probe));
        }
        let Ok(look) = self.tree.look(self.alloc, &self.folder, entry, outputs) else {
            return Err(HostFault::NoMemory);
        };
        let Ok((path, copies)) = ready_probe(&mut self.log, self.alloc, entry, outputs) else {
            return Err(HostFault::NoMemory);
        };
        match self.tree.make_entry(self.alloc, &self.folder, entry) {
            Ok(()) => {
                self.log.append(Entry::Probed(path, copies, look));
                Ok(look)
            }
            Err(fault) => Err(refuse_call(&mut self.log, self.alloc, entry, fault)),
        }
    }

    fn check(&mut self, outputs: &[Utf8PathBuf]) -> Result<Option<u32>, HostFault>
        ensures entries { ChecksTo (record_of self.old) (record_of self.new) outputs.now result }
        ensures own { IsOwn Call.Check result }
        ensures within { IfOk result (λ o. IfSome o (λ i. i < length outputs.now)) }
        ensures told { TellsAnswer (λ o. o) (λ w. told_check w outputs.now) (Some (world_of self.old)) result }
        ensures world { Some (world_of self.new) ≡ Some (world_of self.old) }
        ensures spare { spare_of self.new.log ≡ spare_of self.old.log }
        ensures fails { FailsIf (is_struck self.old.faults) result }
        ensures stays { OnlyNotes self.old self.new (next_call self.old.faults.calls) }
    {
        if self.faults.strike() {
            return Err(fail(&mut self.log, Call::Check));
        }
        let copies = copies_of(self.alloc, outputs)?;
        let Some(number) = self.tree.first_missing(self.alloc, &self.folder, outputs)? else {
            self.log.note(Entry::Checked(copies, None))?;
            return Ok(None);
        };
        let output = outputs[number as usize].as_path();
        match self.tree.absent(self.alloc, &self.folder, output, number) {
            Ok(first) => {
                self.log.note(Entry::Checked(copies, first))?;
                Ok(first)
            }
            Err(fault) => Err(refuse_call(&mut self.log, self.alloc, output, fault)),
        }
    }

    #[tactic(auto, using(just_host_record::proofs::Effects::written_puts))]
    fn save(&mut self, entry: Utf8Path<'_>, bytes: &[u8]) -> Result<(), HostFault>
        ensures entries { record_of self.new ≡ record_of self.old ++ gained (text_of entry.entry) (λ _. Entry.Saved (text_of entry.entry) ∷ []) result }
        ensures own { IsOwn Call.Save result }
        ensures world { Changes (λ w. written w (text_of entry.entry) bytes.now) (λ w place. place_written w (text_of entry.entry) ≡ Ok place) (Some (world_of self.old)) (Some (world_of self.new)) result }
        ensures puts { LeavesFiles
            (λ w files. IsPutSomewhere w (text_of entry.entry) bytes.now files)
            (Some (world_of self.old)) (Some (world_of self.new)) result }
        ensures spare { spare_of self.new.log ≡ spare_of self.old.log }
        ensures fails { FailsIf (is_struck self.old.faults) result }
        ensures stays { OnlyFiles self.old self.new (next_call self.old.faults.calls) }
    {
        if self.faults.strike() {
            return Err(fail(&mut self.log, Call::Save));
        }
        let Ok(path) = ready_path(&mut self.log, self.alloc, entry) else {
            return Err(HostFault::NoMemory);
        };
        match self.tree.write(self.alloc, &self.folder, entry, bytes) {
            Ok(()) => {
                self.log.append(Entry::Saved(path));
                Ok(())
            }
            Err(fault) => Err(refuse_call(&mut self.log, self.alloc, entry, fault)),
        }
    }

    fn capture(&mut self, spec: &Spec, input: &[u8]) -> Result<(Status, Vec<u8>), HostFault>
        ensures entries { record_of self.new ≡ record_of self.old ++ gained spec.now.program (λ r. Entry.Captured spec.now input.now r.0 r.1.items ∷ []) result }
        ensures limit { IfOk result (λ r. length r.1.items ≤ MAX_BYTES) }
        ensures fault { IsCaptureFault input.now result }
        ensures leaves { Leaves (Some (world_of self.old)) (Some (world_of self.new)) result }
        ensures alone { LeftAlone (Some (world_of self.old)) (Some (world_of self.new)) spec.now }
        ensures spare { spare_of self.new.log ≡ spare_of self.old.log }
        ensures fails { FailsIf (is_struck self.old.faults) result }
        ensures told { IfOk result (λ r. (r.0 ≡ status_of (ending_of (word_of spec.now) self.old.endings.items)) × (r.1.items ≡ output_of (ending_of (word_of spec.now) self.old.endings.items))) }
        ensures runs { OnOk result (Runs self.old self.new (word_of spec.now)) }
        ensures refused { OnErr result (OnlyNotes self.old self.new (next_call self.old.faults.calls)) }
    {
        if self.faults.strike() {
            return Err(fail(&mut self.log, Call::Capture));
        }
        let program = Utf8Path::new(spec.program.as_str());
        match captured(
            &mut self.log,
            &mut self.tree,
            &mut self.endings,
            self.alloc,
            &self.folder,
            spec,
            input,
        ) {
            Ok(end) => Ok(end),
            Err(fault) => Err(refuse_call(&mut self.log, self.alloc, program, fault)),
        }
    }

    fn start(&mut self, spec: &Spec) -> Result<MemChild, HostFault>
        ensures entries { record_of self.new ≡ record_of self.old ++ gained (script_folder spec.now) (λ c. Entry.Started c.number spec.now ∷ []) result }
        ensures number { IfOk result (λ c. c.number ≡ children (record_of self.old)) }
        ensures fault { IsStartFault spec.now result }
        ensures shown { StartTells (Some (world_of self.old)) spec.now result }
        ensures leaves { Leaves (Some (world_of self.old)) (Some (world_of self.new)) result }
        ensures spare { spare_of self.new.log ≡ spare_of self.old.log }
        ensures fails { FailsIf (is_struck self.old.faults) result }
        ensures status { IfOk result (λ c. c.status ≡ waited_for (is_wait_struck self.old.faults) (status_of (ending_of (word_of spec.now) self.old.endings.items))) }
        ensures plays { OnOk result (Plays self.old self.new (word_of spec.now)) }
        // one call was counted, that of the start
        ensures refused { OnErr result (OnlyNotes self.old self.new (next_call self.old.faults.calls)) }
    {
        if self.faults.strike() {
            return Err(fail(&mut self.log, Call::Start));
        }
        let (number, status) = started(
            &mut self.log,
            &mut self.tree,
            &mut self.endings,
            self.alloc,
            &self.folder,
            spec,
        )?;
        let fails = self.faults.strike();
        let status = if fails { None } else { Some(status) };
        Ok(MemChild { number, status })
    }

    fn number(child: &MemChild) -> u32
        ensures { result ≡ child.now.number }
    {
        child.number
    }

    fn wait(child: MemChild) -> MemDone
        ensures number { result.number ≡ child.number }
        ensures status { result.status ≡ child.status }
    {
        MemDone {
            number: child.number,
            status: child.status,
        }
    }

    fn settle(&mut self, child: u32, done: MemDone) -> Result<Status, HostFault>
        requires { 0 < spare_of self.old.log }
        ensures entries { record_of self.new ≡ record_of self.old ++ settled_entry child done.number done.status ∷ [] }
        ensures answer { result ≡ settled_answer child done.number done.status }
        ensures touched { Touched (Some (world_of self.old)) (Some (world_of self.new)) }
        ensures spare { spare_of self.new.log + 1 ≡ spare_of self.old.log }
        ensures stays { OnlyNotes self.old self.new self.old.faults.calls }
    {
        self.log.settle(child, done.number, done.status)
    }

    fn room(&mut self, n: usize) -> Result<(), NoMemory>
        ensures entries { record_of self.new ≡ record_of self.old }
        ensures world { Some (world_of self.new) ≡ Some (world_of self.old) }
        ensures ok { OnOk result (n ≤ spare_of self.new.log) }
        ensures kept { spare_of self.old.log ≤ spare_of self.new.log }
        ensures err { OnErr result (spare_of self.new.log ≡ spare_of self.old.log) }
        ensures stays { OnlyNotes self.old self.new self.old.faults.calls }
    {
        self.log.room(n)
    }

    ghost faults_are = { λ h. refl };

    ghost misses_are = { λ h. refl };

    ghost view_is = { λ h. refl };

    ghost went_entries = { λ a b n w. w.entries };

    ghost went_world = { λ a b n w. w.world };

    ghost went_spare = { λ a b n w. w.spare };
}
