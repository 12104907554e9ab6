//! What a host in memory notes of its calls, and how it refuses them.
ghost use Rattle.std.specs.Prelude.{◌≡◌, drop, ℕ, List, [], ◌∷◌, ◌++◌, IfOk, OnErr, MatchResult, string_bytes};
ghost use Rattle.std.specs.FinMap as map;
ghost use Rattle.just_path.specs.Path.{text_of};
ghost use Rattle.just_path.specs.Host.{note_of_fault};
ghost use Rattle.just_path.specs.declared.host.PathCall.{PathCall};
ghost use Rattle.just_host_record.specs.declared.entry.Entry.{Entry};
ghost use Rattle.just_host_record.specs.declared.tree.Thing.{Thing};
ghost use Rattle.just_host_record.specs.Record.{noted, refused};
ghost use Rattle.just_host_record.specs.Logs.{entries_of, spare_of};
ghost use Rattle.just_host_record.specs.Folders.{IsFresh};
ghost use Rattle.just_host_memory.specs.Trees.{files_of, world_from};
ghost use Rattle.just_host.specs.Mem.{answer_in, IsFaultOf, IsHostFaultOf, IsFailureOf};

use just_host_memory::{Place, Tree, TreeFault};
use just_host_record::{Call, Entry, HostFault, Log};
use just_path::{PathCall, PathFault, Utf8Path, Utf8PathBuf};
use just_path_text::{NoMemory, Text};
use std::alloc::Global;

/// A path of that text, unless memory is wanting.
pub(crate) fn copied(alloc: Global, text: &str) -> Result<Utf8PathBuf, PathFault>
    ensures { MatchResult result (λ p. p ≡ text.now) (λ f. f ≡ PathFault.NoMemory) }
{
    match Utf8PathBuf::from_str(alloc, text) {
        Ok(path) => Ok(path),
        Err(NoMemory) => Err(PathFault::NoMemory),
    }
}

/// Notes that a tree has no answer for a path, and answers why.
pub(crate) fn refuse(
    log: &mut Log,
    alloc: Global,
    path: Utf8Path<'_>,
    fault: TreeFault,
) -> PathFault
    ensures entries { (call : PathCall) → entries_of log.new ≡ entries_of log.old ++ noted (note_of_fault call (text_of path.entry) result) }
    ensures kind { IsFaultOf fault result }
    ensures spare { spare_of log.new ≡ spare_of log.old }
{
    match fault {
        TreeFault::Missed(miss) => log.path_miss(alloc, path, miss),
        TreeFault::NoMemory => PathFault::NoMemory,
    }
}

/// The same of a call of a host.
pub(crate) fn refuse_call(
    log: &mut Log,
    alloc: Global,
    path: Utf8Path<'_>,
    fault: TreeFault,
) -> HostFault
    ensures entries { entries_of log.new ≡ entries_of log.old ++ refused (text_of path.entry) result }
    ensures kind { IsHostFaultOf fault result }
    ensures spare { spare_of log.new ≡ spare_of log.old }
{
    match fault {
        TreeFault::Missed(miss) => match log.miss(alloc, path, miss) {
            Ok(()) => HostFault::Missed(miss),
            Err(NoMemory) => HostFault::NoMemory,
        },
        TreeFault::NoMemory => HostFault::NoMemory,
    }
}

/// Notes the failure of a call, and answers it.
pub(crate) fn fail(log: &mut Log, call: Call) -> HostFault
    ensures entries { (path : List ℕ) → entries_of log.new ≡ entries_of log.old ++ refused path result }
    ensures kind { IsFailureOf call result }
    ensures spare { spare_of log.new ≡ spare_of log.old }
{
    match log.failure(call) {
        Ok(()) => HostFault::Failed(call),
        Err(NoMemory) => HostFault::NoMemory,
    }
}

/// The next answer, empty where there is none.
pub(crate) fn next_answer(answers: &[Text]) -> &str
    ensures { result.now ≡ answer_in answers.now }
{
    match answers {
        [] => "",
        [first, ..] => first.as_str(),
    }
}

/// Drops the next answer, where there is one.
pub(crate) fn use_answer(answers: &mut Vec<Text>)
    ensures { answers.new.items ≡ drop 1 answers.old.items }
{
    if !answers.is_empty() {
        answers.remove(0);
    }
}

/// Notes an answer to a prompt, where there is memory for it, and answers it.
pub(crate) fn note_answer(
    log: &mut Log,
    alloc: Global,
    prompt: &str,
    line: &str,
) -> Result<String, NoMemory>
    ensures entries { IfOk result (λ s. entries_of log.new
        ≡ entries_of log.old ++ Entry.Asked prompt.now (string_bytes s) ∷ []) }
    ensures answer { IfOk result (λ s. string_bytes s ≡ line.now) }
    ensures err { OnErr result (entries_of log.new ≡ entries_of log.old) }
    ensures spare { spare_of log.new ≡ spare_of log.old }
{
    let answer = String::from_str(alloc, line)?;
    let prompt = Text::from_str(alloc, prompt)?;
    let noted = Text::from_str(alloc, line)?;
    log.note(Entry::Asked(prompt, noted))?;
    Ok(answer)
}

/// Makes a fresh folder in another one and notes it, where there is memory for it.
pub(crate) fn note_fresh(
    log: &mut Log,
    tree: &mut Tree,
    alloc: Global,
    folder: Place,
    prefix: &str,
) -> Result<Utf8PathBuf, NoMemory>
    ensures entries { IfOk result
        (λ p. entries_of log.new ≡ entries_of log.old ++ Entry.Made p ∷ []) }
    ensures fresh { IfOk result
        (λ p. IsFresh (world_from folder.path (files_of tree.old)) folder.path prefix.now p) }
    ensures made { IfOk result
        (λ p. files_of tree.new ≡ map.insert (files_of tree.old) p Thing.Folder) }
    ensures err { OnErr result (entries_of log.new ≡ entries_of log.old) }
    ensures kept { OnErr result (files_of tree.new ≡ files_of tree.old) }
    ensures spare { spare_of log.new ≡ spare_of log.old }
{
    log.ready()?;
    let (made, copy) = tree.make_fresh(alloc, &folder, prefix)?;
    log.append(Entry::Made(copy));
    Ok(made)
}
