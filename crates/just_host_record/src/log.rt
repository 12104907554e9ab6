//! The log that a host keeps its record in.
ghost use Rattle.std.specs.Prelude.{◌≡◌, ◌+◌, ◌-◌, ◌<◌, ◌≤◌, nat_lt, [], ◌∷◌, ◌++◌, false, OnOk, OnErr, IfOk, vec_len, vec_capacity};
ghost use Rattle.just_path.specs.Path.{text_of};
ghost use Rattle.just_host_record.specs.declared.entry.Entry.{Entry};
ghost use Rattle.just_path.specs.Host.{note_of_fault};
ghost use Rattle.just_path.specs.declared.host.PathCall.{PathCall};
ghost use Rattle.just_host_record.specs.Record.{call_of, noted, IsFailure, IsMissOf, children, is_started, settled_entry, settled_answer};

use super::{Call, Entry, HostFault, Spec, Status};
use just_lang_read::Boxed;
use just_path::{Miss, PathCall, PathFault, Utf8Path};
use just_path_text::NoMemory;
use std::alloc::Global;

/// The record of a host, with the memory that is kept for entries to come.
#[derive(Drop)]
pub struct Log {
    entries: Vec<Entry>,
    /// How many children were started.
    started: u32,
    /// How many entries of `settle` need no memory.
    spare: usize,
    ghost room_left: { vec_len entries + spare ≤ vec_capacity entries },
    ghost numbered: { started ≡ children entries.items },
}

impl Log {
    ghost use Rattle.just_host_record.specs.Logs.{entries_of, spare_of, started_of, HasRoom};

    pub fn new(alloc: Global) -> Log
        ensures entries { entries_of result ≡ [] }
        ensures spare { spare_of result ≡ 0 }
    {
        Log {
            entries: Vec::new(alloc),
            started: 0,
            spare: 0,
        }
    }

    pub fn entries(&self) -> &[Entry]
        ensures { result.now ≡ entries_of self.now }
    {
        self.entries.as_slice()
    }

    /// Makes room for `n` entries of `settle`.
    pub fn room(&mut self, n: usize) -> Result<(), NoMemory>
        ensures entries { entries_of self.new ≡ entries_of self.old }
        ensures ok { OnOk result (n ≤ spare_of self.new) }
        ensures kept { spare_of self.old ≤ spare_of self.new }
        ensures err { OnErr result (spare_of self.new ≡ spare_of self.old) }
    {
        self.entries.reserve(n)?;
        if self.spare < n {
            self.spare = n;
        }
        Ok(())
    }

    /// Makes sure that there is memory for one entry beside the spare ones.
    pub fn ready(&mut self) -> Result<(), NoMemory>
        ensures entries { entries_of self.new ≡ entries_of self.old }
        ensures spare { spare_of self.new ≡ spare_of self.old }
        ensures started { started_of self.new ≡ started_of self.old }
        ensures ok { OnOk result (HasRoom self.new) }
    {
        let Some(wanted) = self.spare.checked_add(1) else {
            return Err(NoMemory);
        };
        self.entries.reserve(wanted)?;
        Ok(())
    }

    /// Appends an entry that starts no child, where `ready` made sure of its memory.
    pub fn append(&mut self, entry: Entry)
        requires room { HasRoom self.old }
        requires other { is_started entry ≡ false }
        ensures entries { entries_of self.new ≡ entries_of self.old ++ entry ∷ [] }
        ensures spare { spare_of self.new ≡ spare_of self.old }
        ensures started { started_of self.new ≡ started_of self.old }
    {
        self.entries.push_reserved(entry);
    }

    /// Appends an entry that starts no child.
    pub fn note(&mut self, entry: Entry) -> Result<(), NoMemory>
        requires { is_started entry ≡ false }
        ensures ok { OnOk result (entries_of self.new ≡ entries_of self.old ++ entry ∷ []) }
        ensures err { OnErr result (entries_of self.new ≡ entries_of self.old) }
        ensures spare { spare_of self.new ≡ spare_of self.old }
    {
        match self.ready() {
            Ok(()) => {
                self.append(entry);
                Ok(())
            }
            Err(NoMemory) => {
                drop(entry);
                Err(NoMemory)
            }
        }
    }

    /// Appends the miss of a path.
    pub fn miss(&mut self, alloc: Global, path: Utf8Path<'_>, miss: Miss) -> Result<(), NoMemory>
        ensures ok { OnOk result (entries_of self.new ≡ entries_of self.old ++ Entry.Missed (text_of path.entry) miss ∷ []) }
        ensures err { OnErr result (entries_of self.new ≡ entries_of self.old) }
        ensures spare { spare_of self.new ≡ spare_of self.old }
    {
        let path = path.to_path_buf(alloc)?;
        self.note(Entry::Missed(path, miss))
    }

    /// Appends the failure of a call.
    pub fn failure(&mut self, call: Call) -> Result<(), NoMemory>
        ensures ok { OnOk result (entries_of self.new ≡ entries_of self.old ++ Entry.Failed call ∷ []) }
        ensures err { OnErr result (entries_of self.new ≡ entries_of self.old) }
        ensures spare { spare_of self.new ≡ spare_of self.old }
    {
        self.note(Entry::Failed(call))
    }

    /// Appends the failure of a call of a path host, and answers it.
    pub fn path_failure(&mut self, call: PathCall) -> PathFault
        ensures entries { entries_of self.new ≡ entries_of self.old ++ noted (note_of_fault call [] result) }
        ensures kind { IsFailure result }
        ensures spare { spare_of self.new ≡ spare_of self.old }
    {
        match self.failure(call_of(call)) {
            Ok(()) => PathFault::Failed,
            Err(NoMemory) => PathFault::NoMemory,
        }
    }

    /// Appends the miss of a path, of a call of a path host, and answers it.
    pub fn path_miss(&mut self, alloc: Global, path: Utf8Path<'_>, miss: Miss) -> PathFault
        ensures entries { (call : PathCall) → entries_of self.new ≡ entries_of self.old ++ noted (note_of_fault call (text_of path.entry) result) }
        ensures kind { IsMissOf miss result }
        ensures spare { spare_of self.new ≡ spare_of self.old }
    {
        match self.miss(alloc, path, miss) {
            Ok(()) => PathFault::Missed(miss),
            Err(NoMemory) => PathFault::NoMemory,
        }
    }

    /// Whether one more child can have a number of its own.
    pub fn can_number(&self) -> bool
        ensures { result ≡ nat_lt (started_of self.now) u32.MAX }
    {
        self.started < u32::MAX
    }

    /// Appends the start of a child, and answers its number.
    pub fn start(&mut self, spec: Boxed<Spec>) -> u32
        requires room { HasRoom self.old }
        requires number { started_of self.old < u32.MAX }
        ensures entries { entries_of self.new ≡ entries_of self.old ++ Entry.Started result spec ∷ [] }
        ensures number { result ≡ children (entries_of self.old) }
        ensures spare { spare_of self.new ≡ spare_of self.old }
    {
        let number = self.started;
        self.started = number + 1;
        self.entries.push_reserved(Entry::Started(number, spec));
        number
    }

    /// Appends what settling a child stands for, with the end of the child of that number and the status that
    /// waiting gave, and answers it.
    pub fn settle(
        &mut self,
        child: u32,
        number: u32,
        waited: Option<Status>,
    ) -> Result<Status, HostFault>
        requires { 0 < spare_of self.old }
        ensures entries { entries_of self.new ≡ entries_of self.old ++ settled_entry child number waited ∷ [] }
        ensures answer { result ≡ settled_answer child number waited }
        ensures spare { spare_of self.new + 1 ≡ spare_of self.old }
    {
        self.spare -= 1;
        if number != child {
            self.append(Entry::Strayed(child, number));
            return Err(HostFault::Failed(Call::Wait));
        }
        match waited {
            Some(status) => {
                self.append(Entry::Ended(child, status));
                Ok(status)
            }
            None => {
                self.append(Entry::Failed(Call::Wait));
                Err(HostFault::Failed(Call::Wait))
            }
        }
    }
}

/// The call of a host that a call of a path host is.
fn call_of(call: PathCall) -> Call
    ensures { result ≡ call_of call }
{
    match call {
        PathCall::Meta => Call::Meta,
        PathCall::List => Call::List,
        PathCall::Canonical => Call::Canonical,
        PathCall::Link => Call::Link,
        PathCall::Current => Call::Current,
    }
}
