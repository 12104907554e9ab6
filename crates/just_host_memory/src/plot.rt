//! What is to happen over a host in memory.
ghost use Rattle.std.specs.Prelude.{◌≡◌, ◌==◌, [], IfOk, string_bytes};
ghost use Rattle.std.specs.List.{list_any};
ghost use Rattle.just_host_memory.specs.Playing.{joined, next_call, word_of, ending_of, output_of};

use super::files::ending_at;
use just_host_record::{Signal, Spec, Status, Thing};
use just_path_text::{NoMemory, Seq, Text};
use std::alloc::Global;

/// How a child over a `MemHost` ends. It is used once, by the first child whose word equals `word`: the text of the
/// child's script, else its arguments joined with one blank.
#[derive(Drop)]
pub struct Ending {
    pub word: Text,
    pub status: Status,
    /// What the child prints, where its output is captured.
    pub output: Seq<u8>,
    /// What stands at these paths once the child is started; nothing where there is no thing.
    pub effects: Vec<(Text, Option<Thing>)>,
}

/// What is to happen over a `MemHost`. A child without an ending ends with `Code(0)` and does nothing.
#[derive(Drop)]
pub struct Plot {
    pub endings: Vec<Ending>,
    /// The lines that are read when a prompt asks; behind the last is the end of input.
    pub answers: Seq<Text>,
    /// The bytes of standard input.
    pub input: Seq<u8>,
    /// The numbers, from 0 on, of the calls that fail. Each call that can fail has a number; that of a child's
    /// `settle` is the one behind that of its `start`.
    pub fails: Seq<u32>,
    /// Signals, by the number from 0 on of the call of `signal` that they arrive at.
    pub signals: Seq<(u32, Signal)>,
}

impl Plot {
    /// The plot in which nothing happens; it takes no memory.
    pub fn new(alloc: Global) -> Plot
        ensures endings { result.endings.items ≡ [] }
        ensures input { result.input ≡ [] }
        ensures fails { result.fails ≡ [] }
    {
        Plot {
            endings: Vec::new(alloc),
            answers: Seq::new(alloc),
            input: Seq::new(alloc),
            fails: Seq::new(alloc),
            signals: Seq::new(alloc),
        }
    }
}

/// Which calls fail: the numbers of those that do, and how many calls there were.
#[derive(Drop)]
pub struct Faults {
    /// The numbers, from 0 on, of the calls that fail.
    pub numbers: Seq<u32>,
    /// How many calls were counted; it stays at the greatest number.
    pub calls: u32,
}

impl Faults {
    /// These calls are to fail, and none was counted.
    pub fn new(numbers: Seq<u32>) -> Faults
        ensures numbers { result.numbers ≡ numbers }
        ensures calls { result.calls ≡ 0 }
    {
        Faults { numbers, calls: 0 }
    }

    /// Counts a call, and tells whether it fails.
    pub fn strike(&mut self) -> bool
        ensures value { result ≡ list_any (λ n. n == self.old.calls) self.old.numbers }
        ensures numbers { self.new.numbers ≡ self.old.numbers }
        ensures calls { self.new.calls ≡ next_call self.old.calls }
    {
        let number = self.calls;
        if number < u32::MAX {
            self.calls = number + 1;
        }
        self.numbers.as_slice().contains(&number)
    }
}

/// The word by which a child's ending is looked up.
pub fn word_of(alloc: Global, spec: &Spec) -> Result<String, NoMemory>
    ensures { IfOk result (λ s. string_bytes s ≡ word_of spec.now) }
{
    match &spec.script {
        Some(script) => script.text.to_string(alloc),
        None => joined(alloc, spec.arguments.as_slice()),
    }
}

/// The texts, with one blank between two of them.
fn joined(alloc: Global, texts: &[Text]) -> Result<String, NoMemory>
    ensures { IfOk result (λ s. string_bytes s ≡ joined texts.now) }
{
    let [first, rest @ ..] = texts else {
        return Ok(String::new(alloc));
    };
    let mut whole = String::from_str(alloc, first.as_str())?;
    for text in rest {
        whole.push_str(" ")?;
        whole.push_str(text.as_str())?;
    }
    Ok(whole)
}

/// What the first child of that word prints.
pub fn output_of(alloc: Global, endings: &[Ending], word: &str) -> Result<Vec<u8>, NoMemory>
    ensures { IfOk result (λ v. v.items ≡ output_of (ending_of word.now endings.now)) }
{
    match ending_at(endings, word) {
        Some(at) => Ok(Vec::from_slice(alloc, endings[at].output.as_slice())?),
        None => Ok(Vec::new(alloc)),
    }
}
