//! What a row gives: its words, and the host that they run over.

use crate::digits::bytes_of_digits;
use just_host::{Ending, MemHost, Plot, Status, Thing, Tree};
use just_path::Utf8PathBuf;
use just_path_text::{Environ, NoMemory, Seq, Text};
use rows_common::Wrong;
use serde_json::Value;
use std::alloc::Global;

/// The items of a list of a row; none where the row has no such list. It promises nothing beyond safety.
pub(crate) fn items<'a>(row: &'a Value, key: &str) -> &'a [Value] {
    match row.get(key) {
        Some(Value::Array(items)) => items.as_slice(),
        _ => &[],
    }
}

/// The text of a row. It promises nothing beyond safety.
pub(crate) fn text<'a>(row: &'a Value, key: &str) -> Result<&'a str, Wrong> {
    match row.get(key) {
        Some(Value::String(text)) => Ok(text.as_str()),
        _ => Err(Wrong::Form),
    }
}

/// What is read of a row. The first fault stays, and `finished` tells it: what is read needs no way out behind each of its parts.
#[derive(Drop)]
struct Reader {
    alloc: Global,
    fault: Option<Wrong>,
}

impl Reader {
    /// Nothing read so far.
    fn new(alloc: Global) -> Reader {
        Reader { alloc, fault: None }
    }

    /// Notes a fault.
    fn fail(&mut self, wrong: Wrong) {
        if self.fault.is_none() {
            self.fault = Some(wrong);
        }
    }

    /// What was made of all that was read; the first fault, where there was one.
    fn finished<T: Drop>(self, made: T) -> Result<T, Wrong> {
        match self.fault {
            None => Ok(made),
            Some(wrong) => Err(wrong),
        }
    }

    /// The text that a value is.
    fn text<'a>(&mut self, value: &'a Value) -> &'a str {
        match value {
            Value::String(text) => text.as_str(),
            _ => {
                self.fail(Wrong::Form);
                ""
            }
        }
    }

    /// A text, owned.
    fn owned(&mut self, text: &str) -> Text {
        match Text::from_str(self.alloc, text) {
            Ok(text) => text,
            Err(NoMemory) => {
                self.fail(Wrong::NoMemory);
                Text::from(String::new(self.alloc))
            }
        }
    }

    /// The bytes of a text.
    fn bytes(&mut self, text: &str) -> Seq<u8> {
        match Vec::from_slice(self.alloc, text.as_bytes()) {
            Ok(bytes) => Seq::from(bytes),
            Err(_) => {
                self.fail(Wrong::NoMemory);
                Seq::new(self.alloc)
            }
        }
    }

    /// The bytes that hexadecimal digits stand for.
    fn bytes_of_digits(&mut self, digits: &str) -> Seq<u8> {
        match bytes_of_digits(self.alloc, digits) {
            Ok(bytes) => Seq::from(bytes),
            Err(wrong) => {
                self.fail(wrong);
                Seq::new(self.alloc)
            }
        }
    }

    /// Adds an item to a list.
    fn push<T: Drop>(&mut self, all: &mut Vec<T>, item: T) {
        if all.push(item).is_err() {
            self.fail(Wrong::NoMemory);
        }
    }

    /// Puts a thing into a tree.
    fn put(&mut self, tree: &mut Tree, path: &str, thing: Thing) {
        if tree.insert(self.alloc, path, thing).is_err() {
            self.fail(Wrong::NoMemory);
        }
    }
}

/// The number that a value is.
fn number(reader: &mut Reader, value: &Value) -> u32 {
    match u32::try_from(value.as_u64().unwrap_or(u64::MAX)) {
        Ok(number) => number,
        Err(_) => {
            reader.fail(Wrong::Form);
            0
        }
    }
}

/// The words of a row. It promises nothing beyond safety.
pub(crate) fn words<'a>(alloc: Global, row: &'a Value) -> Result<Vec<&'a str>, Wrong> {
    let mut reader = Reader::new(alloc);
    let mut words = Vec::new(alloc);
    for word in items(row, "words") {
        let word = reader.text(word);
        reader.push(&mut words, word);
    }
    reader.finished(words)
}

/// The file of a text.
fn file(reader: &mut Reader, text: &str) -> Thing {
    Thing::File {
        bytes: reader.bytes(text),
        executable: false,
    }
}

/// The file of some digits, which are its bytes.
fn file_of_digits(reader: &mut Reader, digits: Option<&Value>) -> Thing {
    let digits = match digits {
        Some(digits) => reader.text(digits),
        None => {
            reader.fail(Wrong::Form);
            ""
        }
    };
    Thing::File {
        bytes: reader.bytes_of_digits(digits),
        executable: false,
    }
}

/// What an object stands for: a link with its target, or a file with the digits of its bytes.
fn thing_told(reader: &mut Reader, told: &Value) -> Thing {
    match told.get("link") {
        Some(target) => {
            let target = reader.text(target);
            Thing::Link(reader.owned(target))
        }
        None => file_of_digits(reader, told.get("hex")),
    }
}

/// What stands at a path of a row: a folder, where that is null; what an object tells; else the file of a text.
fn thing(reader: &mut Reader, told: &Value) -> Thing {
    match told {
        Value::Null => Thing::Folder,
        Value::Object(_) => thing_told(reader, told),
        other => {
            let text = reader.text(other);
            file(reader, text)
        }
    }
}

/// Puts each folder above a path into a tree; the root is the one whose path is empty here.
fn put_folders(reader: &mut Reader, tree: &mut Tree, path: &str) {
    for (place, _) in path.match_indices("/") {
        let folder = match path.get(..place) {
            Some("") | None => "/",
            Some(folder) => folder,
        };
        reader.put(tree, folder, Thing::Folder);
    }
}

/// Puts what a row tells of a path into a tree, and each folder above it.
fn put_thing(reader: &mut Reader, tree: &mut Tree, path: &str, told: &Value) {
    put_folders(reader, tree, path);
    let thing = thing(reader, told);
    reader.put(tree, path, thing);
}

/// The tree of some files, with the current folder and those above them.
fn tree_read(reader: &mut Reader, current: &str, files: &Value) -> Tree {
    let mut tree = Tree::new(reader.alloc);
    reader.put(&mut tree, current, Thing::Folder);
    match files {
        Value::Object(files) => {
            for (path, told) in files {
                put_thing(reader, &mut tree, path.as_str(), told);
            }
        }
        _ => reader.fail(Wrong::Form),
    }
    tree
}

/// The tree of some files, with the current folder and those above them. It promises nothing beyond safety.
pub(crate) fn tree(alloc: Global, current: &str, files: &Value) -> Result<Tree, Wrong> {
    let mut reader = Reader::new(alloc);
    let tree = tree_read(&mut reader, current, files);
    reader.finished(tree)
}

/// A pair of the environment.
fn pair(reader: &mut Reader, name: &str, value: &Value) -> (Text, Text) {
    let value = reader.text(value);
    let name = reader.owned(name);
    (name, reader.owned(value))
}

/// The environment of a row.
fn environ(reader: &mut Reader, row: &Value) -> Environ {
    let mut pairs = Vec::new(reader.alloc);
    if let Some(Value::Object(values)) = row.get("environ") {
        for (name, value) in values {
            let pair = pair(reader, name.as_str(), value);
            reader.push(&mut pairs, pair);
        }
    }
    Environ {
        pairs: Seq::from(pairs),
    }
}

/// The status of a code; none, where it is no code.
fn code(value: &Value) -> Option<Status> {
    match i32::try_from(value.as_i64().unwrap_or(i64::MAX)) {
        Ok(code) => Some(Status::Code(code)),
        Err(_) => None,
    }
}

/// The status of a signal, as a row writes it; none, where it is no signal.
fn signal(text: &str) -> Option<Status> {
    match text.strip_prefix("signal:").unwrap_or("").parse::<i32>() {
        Ok(number) => Some(Status::Signal(number)),
        Err(_) => None,
    }
}

/// A status as a row writes it; none, where it is no status.
fn status(value: &Value) -> Option<Status> {
    match value {
        Value::String(text) if text.as_str() == "unknown" => Some(Status::Unknown),
        Value::String(text) => signal(text.as_str()),
        other => code(other),
    }
}

/// How a child ends.
fn ended(reader: &mut Reader, value: &Value) -> Status {
    match status(value) {
        Some(status) => status,
        None => {
            reader.fail(Wrong::Form);
            Status::Unknown
        }
    }
}

/// What a child does to a file: its text, or nothing where it goes.
fn effect(reader: &mut Reader, path: &str, text: &Value) -> (Text, Option<Thing>) {
    let path = reader.owned(path);
    match text {
        Value::String(text) => (path, Some(file(reader, text.as_str()))),
        _ => (path, None),
    }
}

/// What a child does to the files: the text of each path, or nothing where the file goes.
fn effects(reader: &mut Reader, files: Option<&Value>) -> Vec<(Text, Option<Thing>)> {
    let mut effects = Vec::new(reader.alloc);
    if let Some(Value::Object(files)) = files {
        for (path, text) in files {
            let effect = effect(reader, path.as_str(), text);
            reader.push(&mut effects, effect);
        }
    }
    effects
}

/// The bytes of a value: of a text its own, of an object those of its digits.
fn bytes_told(reader: &mut Reader, told: &Value) -> Seq<u8> {
    match told.get("hex") {
        Some(digits) => {
            let digits = reader.text(digits);
            reader.bytes_of_digits(digits)
        }
        None => {
            let text = reader.text(told);
            reader.bytes(text)
        }
    }
}

/// The bytes of a value; none where there is none.
fn bytes(reader: &mut Reader, told: Option<&Value>) -> Seq<u8> {
    match told {
        Some(told) => bytes_told(reader, told),
        None => reader.bytes(""),
    }
}

/// Adds the ending of a child's word: the word, its status, what it does to files, and what it prints, of which the last two may be left out.
fn push_ending(reader: &mut Reader, endings: &mut Vec<Ending>, parts: &[Value]) {
    let [word, status, rest @ ..] = parts else {
        reader.fail(Wrong::Form);
        return;
    };
    if rest.len() > 2 {
        reader.fail(Wrong::Form);
    }
    let word = reader.text(word);
    let ending = Ending {
        word: reader.owned(word),
        status: ended(reader, status),
        output: bytes(reader, rest.get(1)),
        effects: effects(reader, rest.first()),
    };
    reader.push(endings, ending);
}

/// The endings of a row.
fn endings(reader: &mut Reader, row: &Value) -> Vec<Ending> {
    let mut endings = Vec::new(reader.alloc);
    for parts in items(row, "endings") {
        match parts {
            Value::Array(parts) => push_ending(reader, &mut endings, parts.as_slice()),
            _ => reader.fail(Wrong::Form),
        }
    }
    endings
}

/// The lines that a prompt reads.
fn answers(reader: &mut Reader, row: &Value) -> Seq<Text> {
    let mut answers = Vec::new(reader.alloc);
    for answer in items(row, "answers") {
        let answer = reader.text(answer);
        let answer = reader.owned(answer);
        reader.push(&mut answers, answer);
    }
    Seq::from(answers)
}

/// The numbers of the calls that fail.
fn fails(reader: &mut Reader, row: &Value) -> Seq<u32> {
    let mut fails = Vec::new(reader.alloc);
    for value in items(row, "fails") {
        let number = number(reader, value);
        reader.push(&mut fails, number);
    }
    Seq::from(fails)
}

/// A list of one number.
fn alone(reader: &mut Reader, number: u32) -> Seq<u32> {
    let mut numbers = Vec::new(reader.alloc);
    reader.push(&mut numbers, number);
    Seq::from(numbers)
}

/// What is to happen in a row, where the calls of these numbers fail.
fn plot(reader: &mut Reader, row: &Value, fails: Seq<u32>) -> Plot {
    Plot {
        endings: endings(reader, row),
        answers: answers(reader, row),
        input: bytes(reader, row.get("input")),
        fails,
        signals: Seq::new(reader.alloc),
    }
}

/// The tree of a row, in that folder.
fn tree_of(reader: &mut Reader, row: &Value, current: &str) -> Tree {
    match row.get("files") {
        Some(files) => tree_read(reader, current, files),
        None => {
            reader.fail(Wrong::Form);
            Tree::new(reader.alloc)
        }
    }
}

/// The host of a row, where the calls of these numbers fail.
fn host_of(reader: Reader, row: &Value, fails: Seq<u32>) -> Result<MemHost, Wrong> {
    let mut reader = reader;
    let alloc = reader.alloc;
    let current = text(row, "current")?;
    let folder = Utf8PathBuf::from_str(alloc, current)?;
    let environ = environ(&mut reader, row);
    let tree = tree_of(&mut reader, row, current);
    let plot = plot(&mut reader, row, fails);
    match MemHost::new(alloc, tree, folder, environ, plot) {
        Ok(host) => reader.finished(host),
        Err(NoMemory) => Err(Wrong::NoMemory),
    }
}

/// The host of a row. It promises nothing beyond safety.
pub(crate) fn host(alloc: Global, row: &Value) -> Result<MemHost, Wrong> {
    let mut reader = Reader::new(alloc);
    let fails = fails(&mut reader, row);
    host_of(reader, row, fails)
}

/// The host of a row, where the call of that number fails, and no other. It promises nothing beyond safety.
pub(crate) fn failing_host(alloc: Global, row: &Value, number: u32) -> Result<MemHost, Wrong> {
    let mut reader = Reader::new(alloc);
    let fails = alone(&mut reader, number);
    host_of(reader, row, fails)
}
