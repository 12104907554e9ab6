//! How a host in memory starts children and runs them to their ends.
ghost use Rattle.std.specs.Prelude.{◌≡◌, ◌≤◌, ◌∷◌, [], ◌++◌, IfOk, IfErr, OnOk, OnErr, length, string_bytes};
ghost use Rattle.just_host_record.specs.declared.entry.Entry.{Entry};
ghost use Rattle.just_host_record.specs.declared.outside.TheConstants.{MAX_BYTES};
ghost use Rattle.just_host_record.specs.Record.{children};
ghost use Rattle.just_host_record.specs.Logs.{entries_of, spare_of, HasRoom};
ghost use Rattle.just_host_memory.specs.Trees.{files_of};
ghost use Rattle.just_host_memory.specs.Playing.{word_of, ending_of, status_of, output_of, others, tree_after};
ghost use Rattle.just_host.specs.Mem.{IsTooLarge};

use just_host_files::copied_bytes;
use just_host_memory::{Ending, Place, Tree, TreeFault, output_of, word_of};
use just_host_record::{Entry, Log, MAX_BYTES, Spec, Status, boxed_copy};
use just_lang_read::Boxed;
use just_path::Miss;
use just_path_text::{NoMemory, Seq};
use std::alloc::Global;

/// Makes sure of the memory for the entry of a captured child, and answers what it is made of.
pub(crate) fn ready_capture(
    log: &mut Log,
    alloc: Global,
    spec: &Spec,
    input: &[u8],
    output: &[u8],
) -> Result<(Boxed<Spec>, (Seq<u8>, Seq<u8>)), NoMemory>
    ensures spec { IfOk result (λ r. r.0 ≡ spec.now) }
    ensures input { IfOk result (λ r. r.1.0 ≡ input.now) }
    ensures output { IfOk result (λ r. r.1.1 ≡ output.now) }
    ensures room { OnOk result (HasRoom log.new) }
    ensures entries { entries_of log.new ≡ entries_of log.old }
    ensures spare { spare_of log.new ≡ spare_of log.old }
{
    log.ready()?;
    let fed = copied_bytes(alloc, input)?;
    let noted = copied_bytes(alloc, output)?;
    let copy = boxed_copy(alloc, spec)?;
    Ok((copy, (fed, noted)))
}

/// The word of a child, and what it prints.
pub(crate) fn output_with_word(
    alloc: Global,
    endings: &[Ending],
    spec: &Spec,
) -> Result<(String, Vec<u8>), NoMemory>
    ensures word { IfOk result (λ r. string_bytes r.0 ≡ word_of spec.now) }
    ensures output { IfOk result
        (λ r. r.1.items ≡ output_of (ending_of (word_of spec.now) endings.now)) }
{
    let word = word_of(alloc, spec)?;
    let output = output_of(alloc, endings, word.as_str())?;
    Ok((word, output))
}

/// Runs a child to its end and notes it, unless it prints too much or memory is wanting.
pub(crate) fn captured(
    log: &mut Log,
    tree: &mut Tree,
    endings: &mut Vec<Ending>,
    alloc: Global,
    folder: &Place,
    spec: &Spec,
    input: &[u8],
) -> Result<(Status, Vec<u8>), TreeFault>
    ensures entries { IfOk result (λ r. entries_of log.new
        ≡ entries_of log.old ++ Entry.Captured spec.now input.now r.0 r.1.items ∷ []) }
    ensures limit { IfOk result (λ r. length r.1.items ≤ MAX_BYTES) }
    ensures status { IfOk result
        (λ r. r.0 ≡ status_of (ending_of (word_of spec.now) endings.old.items)) }
    ensures output { IfOk result
        (λ r. r.1.items ≡ output_of (ending_of (word_of spec.now) endings.old.items)) }
    ensures effects { OnOk result (files_of tree.new ≡ tree_after folder.now.path
        (files_of tree.old) (ending_of (word_of spec.now) endings.old.items)) }
    ensures used { OnOk result (endings.new.items ≡ others (word_of spec.now) endings.old.items) }
    ensures err { OnErr result (entries_of log.new ≡ entries_of log.old) }
    ensures refusal { IfErr result IsTooLarge }
    ensures files { OnErr result (files_of tree.new ≡ files_of tree.old) }
    ensures kept { OnErr result (endings.new.items ≡ endings.old.items) }
    ensures spare { spare_of log.new ≡ spare_of log.old }
{
    let Ok((word, output)) = output_with_word(alloc, endings.as_slice(), spec) else {
        return Err(TreeFault::NoMemory);
    };
    if output.len() > MAX_BYTES {
        return Err(TreeFault::Missed(Miss::TooLarge));
    }
    let Ok((copy, (fed, noted))) = ready_capture(log, alloc, spec, input, output.as_slice()) else {
        return Err(TreeFault::NoMemory);
    };
    match tree.play(alloc, folder, endings, word.as_str()) {
        Ok(status) => {
            log.append(Entry::Captured(copy, fed, status, noted));
            Ok((status, output))
        }
        Err(NoMemory) => Err(TreeFault::NoMemory),
    }
}

/// Starts a child and notes it, where there is memory, and answers its number and how it ends.
pub(crate) fn started(
    log: &mut Log,
    tree: &mut Tree,
    endings: &mut Vec<Ending>,
    alloc: Global,
    folder: &Place,
    spec: &Spec,
) -> Result<(u32, Status), NoMemory>
    ensures entries { IfOk result
        (λ r. entries_of log.new ≡ entries_of log.old ++ Entry.Started r.0 spec.now ∷ []) }
    ensures number { IfOk result (λ r. r.0 ≡ children (entries_of log.old)) }
    ensures status { IfOk result
        (λ r. r.1 ≡ status_of (ending_of (word_of spec.now) endings.old.items)) }
    ensures effects { OnOk result (files_of tree.new ≡ tree_after folder.now.path
        (files_of tree.old) (ending_of (word_of spec.now) endings.old.items)) }
    ensures used { OnOk result (endings.new.items ≡ others (word_of spec.now) endings.old.items) }
    ensures err { OnErr result (entries_of log.new ≡ entries_of log.old) }
    ensures files { OnErr result (files_of tree.new ≡ files_of tree.old) }
    ensures kept { OnErr result (endings.new.items ≡ endings.old.items) }
    ensures spare { spare_of log.new ≡ spare_of log.old }
{
    if !log.can_number() {
        return Err(NoMemory);
    }
    log.ready()?;
    let word = word_of(alloc, spec)?;
    let copy = boxed_copy(alloc, spec)?;
    match tree.play(alloc, folder, endings, word.as_str()) {
        Ok(status) => Ok((log.start(copy), status)),
        Err(NoMemory) => Err(NoMemory),
    }
}
