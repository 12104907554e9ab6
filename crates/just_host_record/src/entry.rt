//! What a host is asked, what it answers, and the entries of its record.
ghost use Rattle.std.specs.Prelude.{◌≡◌};
ghost use Rattle.just_host_record.specs.declared.entry.HostFault.{HostFault};

use super::{ScriptText, Signal};
use just_lang_read::Boxed;
use just_path::{Miss, Utf8PathBuf};
use just_path_text::{NoMemory, Seq, Text};

/// The calls of a host that can fail.
#[derive(Clone, Copy, Debug, PartialEq, Eq)]
pub enum Call {
    Meta,
    List,
    Canonical,
    Link,
    Current,
    Read,
    Input,
    Ask,
    Environ,
    Write,
    MakeFolder,
    Temp,
    Remove,
    Print,
    Sum,
    Probe,
    Check,
    Save,
    Start,
    Wait,
    Capture,
}

/// Why a call of a host has no answer: the world doesn't hold what was asked, the call failed, or memory was wanting.
#[derive(Clone, Copy, Debug, PartialEq, Eq)]
pub enum HostFault {
    Missed(Miss),
    Failed(Call),
    NoMemory,
}

impl From<NoMemory> for HostFault {
    ghost from_gives = { λ _ f. f ≡ HostFault.NoMemory };

    fn from(_wanting: NoMemory) -> HostFault
        ensures { result ≡ HostFault.NoMemory }
    {
        HostFault::NoMemory
    }
}

/// Where a text is printed.
#[derive(Clone, Copy)]
pub enum Stream {
    Out,
    Err,
}

/// How a child ended. `Unknown`: neither a code nor a signal was told.
#[derive(Clone, Copy, Debug, PartialEq)]
pub enum Status {
    Code(i32),
    Signal(i32),
    Unknown,
}

/// What a look at a cache entry and the outputs beside it shows.
#[derive(Clone, Copy, Debug)]
pub enum Look {
    Empty,
    /// The place of the first output that isn't there.
    OutputMissing(u32),
    Full,
}

/// A script that a child runs: its text is written to a file called `name` in a fresh folder under `folder`.
pub struct Script {
    pub folder: Option<Utf8PathBuf>,
    pub name: Text,
    pub text: ScriptText,
    /// Whether the file is made executable and is the program itself.
    pub run: bool,
    /// The words behind the script's path.
    pub after: Seq<Text>,
}

impl Drop for Script {
    fn drop(self) {
        let Script {
            folder: _,
            name: _,
            text: _,
            run: _,
            after: _,
        } = self;
    }
}

/// A child as it is asked for: its program and words, its folder, and what changes in its environment
/// (a name with no value is taken out).
pub struct Spec {
    pub program: Text,
    pub arguments: Seq<Text>,
    pub folder: Option<Utf8PathBuf>,
    pub changes: Seq<(Text, Option<Text>)>,
    pub script: Option<Script>,
}

impl Drop for Spec {
    fn drop(self) {
        let Spec {
            program: _,
            arguments: _,
            folder: _,
            changes: _,
            script: _,
        } = self;
    }
}

/// One entry of a host's record: what was asked of the world, and what it answered.
pub enum Entry {
    /// A path that wasn't found as it was asked for.
    Missed(Utf8PathBuf, Miss),
    Failed(Call),
    /// A prompt and the answer to it.
    Asked(Text, Text),
    Summed(Utf8PathBuf, [u8; 32]),
    Probed(Utf8PathBuf, Seq<Utf8PathBuf>, Look),
    Checked(Seq<Utf8PathBuf>, Option<u32>),
    Saved(Utf8PathBuf),
    /// The number of a child and what it was started by.
    Started(u32, Boxed<Spec>),
    /// The number of a child and how it ended.
    Ended(u32, Status),
    Captured(Boxed<Spec>, Seq<u8>, Status, Seq<u8>),
    /// A child that was to be settled, and the other child whose end was handed in.
    Strayed(u32, u32),
    Signalled(Signal),
    Printed(Stream, Text),
    /// A temporary folder.
    Made(Utf8PathBuf),
}

impl Drop for Entry {
    fn drop(self) {
        match self {
            Entry::Missed(_, _) | Entry::Saved(_) | Entry::Made(_) => {}
            Entry::Asked(_, _) | Entry::Printed(_, _) => {}
            Entry::Summed(_, _) | Entry::Probed(_, _, _) | Entry::Checked(_, _) => {}
            Entry::Started(_, _) | Entry::Captured(_, _, _, _) => {}
            Entry::Failed(_) | Entry::Ended(_, _) | Entry::Strayed(_, _) | Entry::Signalled(_) => {}
        }
    }
}
