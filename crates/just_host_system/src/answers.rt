//! What the host of this process notes of its calls, and how it hands on what the system answered. Memory for an entry is made sure of, by `ready_..`,
//! before the system is asked; a copy of the answer may want memory behind it.
ghost use Rattle.std.specs.Prelude.{◌≡◌, ◌⊎◌, ◌++◌, ◌<◌, [], ◌∷◌, Ok, ◌≤◌, IfOk, IfErr, IfSome, OnOk, length, string_bytes};
ghost use Rattle.just_path.specs.Path.{text_of};
ghost use Rattle.just_path.specs.Host.{note_of, note_of_fault};
ghost use Rattle.just_host_record.specs.declared.entry.Entry.{Entry};
ghost use Rattle.just_host_record.specs.declared.entry.HostFault.{HostFault};
ghost use Rattle.just_host_record.specs.declared.outside.TheConstants.{MAX_BYTES};
ghost use Rattle.just_host_record.specs.Record.{noted, gained, refused, IsOwn, IsOwnFault, NeverMissed};
ghost use Rattle.just_host_record.specs.Looks.{ChecksTo, dash};
ghost use Rattle.just_host_record.specs.Logs.{entries_of, spare_of, started_of, HasRoom, LogWent};

use super::child::Captured;
use just_host_files::system::miss_of;
use just_host_files::{copied_bytes, copies_of};
use just_host_record::{Call, Entry, HostFault, Log, Look, Spec, Status, Stream, boxed_copy};
use just_lang_read::Boxed;
use just_path::{Miss, PathCall, PathFault, Utf8Path, Utf8PathBuf};
use just_path_text::{NoMemory, Seq, Text, TryClone};
use std::alloc::Global;
use std::io::{self, ErrorKind};

/// Notes that the system refused a call on a path, and answers how.
pub(crate) fn refuse(
    log: &mut Log,
    alloc: Global,
    call: Call,
    path: Utf8Path<'_>,
    error: &io::Error,
) -> HostFault
    ensures entries { entries_of log.new ≡ entries_of log.old ++ refused (text_of path.entry) result }
    ensures own { IsOwnFault call result }
    ensures spare { spare_of log.new ≡ spare_of log.old }
{
    if error.kind() == ErrorKind::OutOfMemory {
        return HostFault::NoMemory;
    }
    let Some(miss) = miss_of(error) else {
        return match log.failure(call) {
            Ok(()) => HostFault::Failed(call),
            Err(NoMemory) => HostFault::NoMemory,
        };
    };
    match log.miss(alloc, path, miss) {
        Ok(()) => HostFault::Missed(miss),
        Err(NoMemory) => HostFault::NoMemory,
    }
}

/// Hands on what the system answered to a call, and notes a refusal.
pub(crate) fn answer<T>(
    log: &mut Log,
    alloc: Global,
    call: Call,
    path: Utf8Path<'_>,
    told: io::Result<T>,
) -> Result<T, HostFault>
    ensures entries { entries_of log.new ≡ entries_of log.old ++ gained (text_of path.entry) (λ _. []) result }
    ensures same { OnOk result (log.new ≡ log.old) }
    ensures own { IsOwn call result }
    ensures answer { IfOk result (λ x. told ≡ Ok x) }
    ensures spare { spare_of log.new ≡ spare_of log.old }
{
    match told {
        Ok(answer) => Ok(answer),
        Err(error) => Err(refuse(log, alloc, call, path, &error)),
    }
}

/// Notes that a child wasn't captured, and answers why.
pub(crate) fn refuse_capture(
    log: &mut Log,
    alloc: Global,
    program: &Text,
    fault: HostFault,
) -> HostFault
    ensures entries { entries_of log.new ≡ entries_of log.old ++ refused program.now result }
    ensures same { (result ≡ fault) ⊎ (result ≡ HostFault.NoMemory) }
    ensures spare { spare_of log.new ≡ spare_of log.old }
{
    let noted = match fault {
        HostFault::Missed(miss) => log.miss(alloc, Utf8Path::new(program.as_str()), miss),
        HostFault::Failed(call) => log.failure(call),
        HostFault::NoMemory => Err(NoMemory),
    };
    match noted {
        Ok(()) => fault,
        Err(NoMemory) => HostFault::NoMemory,
    }
}

/// Notes that the system refused a call of a path host, and answers how.
fn refuse_path(
    log: &mut Log,
    alloc: Global,
    call: PathCall,
    path: Utf8Path<'_>,
    error: &io::Error,
) -> PathFault
    ensures entries { entries_of log.new ≡ entries_of log.old ++ noted (note_of_fault call (text_of path.entry) result) }
    ensures spare { spare_of log.new ≡ spare_of log.old }
{
    if error.kind() == ErrorKind::OutOfMemory {
        return PathFault::NoMemory;
    }
    match miss_of(error) {
        Some(miss) => log.path_miss(alloc, path, miss),
        None => log.path_failure(call),
    }
}

/// Hands on what the system answered to a call of a path host, and notes a refusal.
pub(crate) fn answer_path<T>(
    log: &mut Log,
    alloc: Global,
    call: PathCall,
    path: Utf8Path<'_>,
    told: io::Result<T>,
) -> Result<T, PathFault>
    ensures went { LogWent log.old log.new (note_of call (text_of path.entry) result) }
    ensures answer { IfOk result (λ x. told ≡ Ok x) }
{
    match told {
        Ok(answer) => Ok(answer),
        Err(error) => Err(refuse_path(log, alloc, call, path, &error)),
    }
}

/// Hands on a text that was read, and notes a refusal.
pub(crate) fn answer_read(
    log: &mut Log,
    alloc: Global,
    call: Call,
    path: Utf8Path<'_>,
    told: io::Result<Result<String, Miss>>,
) -> Result<String, HostFault>
    ensures entries { entries_of log.new ≡ entries_of log.old ++ gained (text_of path.entry) (λ _. []) result }
    ensures own { IsOwn call result }
    ensures same { OnOk result (log.new ≡ log.old) }
    ensures answer { IfOk result (λ s. told ≡ Ok (Ok s)) }
    ensures spare { spare_of log.new ≡ spare_of log.old }
{
    match told {
        Ok(Ok(text)) => Ok(text),
        Ok(Err(miss)) => {
            log.miss(alloc, path, miss)?;
            Err(HostFault::Missed(miss))
        }
        Err(error) => Err(refuse(log, alloc, call, path, &error)),
    }
}

/// Makes the log ready for an entry, and answers a copy of a text for it.
pub(crate) fn ready_text(log: &mut Log, alloc: Global, text: &str) -> Result<Text, NoMemory>
    ensures copy { IfOk result (λ t. t ≡ text.now) }
    ensures room { OnOk result (HasRoom log.new) }
    ensures entries { entries_of log.new ≡ entries_of log.old }
    ensures spare { spare_of log.new ≡ spare_of log.old }
{
    log.ready()?;
    Text::from_str(alloc, text)
}

/// Makes the log ready for the entry of a check, and answers copies of its outputs.
pub(crate) fn ready_check(
    log: &mut Log,
    alloc: Global,
    outputs: &[Utf8PathBuf],
) -> Result<Seq<Utf8PathBuf>, NoMemory>
    ensures copies { IfOk result (λ s. s ≡ outputs.now) }
    ensures room { OnOk result (HasRoom log.new) }
    ensures entries { entries_of log.new ≡ entries_of log.old }
    ensures spare { spare_of log.new ≡ spare_of log.old }
{
    log.ready()?;
    copies_of(alloc, outputs)
}

/// Makes the log ready for a captured child, and answers copies of what it is and of what is fed to it.
pub(crate) fn ready_capture(
    log: &mut Log,
    alloc: Global,
    spec: &Spec,
    input: &[u8],
) -> Result<(Boxed<Spec>, Seq<u8>), NoMemory>
    ensures spec { IfOk result (λ r. r.0 ≡ spec.now) }
    ensures input { IfOk result (λ r. r.1 ≡ input.now) }
    ensures room { OnOk result (HasRoom log.new) }
    ensures entries { entries_of log.new ≡ entries_of log.old }
    ensures spare { spare_of log.new ≡ spare_of log.old }
{
    log.ready()?;
    let fed = copied_bytes(alloc, input)?;
    let copy = boxed_copy(alloc, spec)?;
    Ok((copy, fed))
}

/// Makes the log ready for the start of a child, and answers a copy of what it is started by.
pub(crate) fn ready_start(
    log: &mut Log,
    alloc: Global,
    spec: &Spec,
) -> Result<Boxed<Spec>, NoMemory>
    ensures copy { IfOk result (λ p. p ≡ spec.now) }
    ensures room { OnOk result (HasRoom log.new) }
    ensures number { OnOk result (started_of log.new < u32.MAX) }
    ensures entries { entries_of log.new ≡ entries_of log.old }
    ensures spare { spare_of log.new ≡ spare_of log.old }
{
    if !log.can_number() {
        return Err(NoMemory);
    }
    log.ready()?;
    boxed_copy(alloc, spec)
}

/// Notes an answer to a prompt, where the log was made ready.
fn note_answer(
    log: &mut Log,
    alloc: Global,
    prompt: Text,
    text: String,
) -> Result<String, HostFault>
    requires { HasRoom log.old }
    ensures entries { entries_of log.new ≡ entries_of log.old
        ++ gained dash (λ s. Entry.Asked prompt (string_bytes s) ∷ []) result }
    ensures own { IsOwn Call.Ask result }
    ensures answer { IfOk result (λ s. s ≡ text) }
    ensures spare { spare_of log.new ≡ spare_of log.old }
{
    match Text::from_str(alloc, text.as_str()) {
        Ok(copy) => {
            log.append(Entry::Asked(prompt, copy));
            Ok(text)
        }
        Err(NoMemory) => Err(HostFault::NoMemory),
    }
}

/// Hands on the answer to a prompt and notes it, or why there is none, where the log was made ready.
pub(crate) fn answer_ask(
    log: &mut Log,
    alloc: Global,
    prompt: Text,
    told: io::Result<Result<String, Miss>>,
) -> Result<String, HostFault>
    requires { HasRoom log.old }
    ensures entries { entries_of log.new ≡ entries_of log.old
        ++ gained dash (λ s. Entry.Asked prompt (string_bytes s) ∷ []) result }
    ensures own { IsOwn Call.Ask result }
    ensures answer { IfOk result (λ s. told ≡ Ok (Ok s)) }
    ensures spare { spare_of log.new ≡ spare_of log.old }
{
    match answer_read(log, alloc, Call::Ask, Utf8Path::new("-"), told) {
        Ok(text) => note_answer(log, alloc, prompt, text),
        Err(fault) => Err(fault),
    }
}

/// Hands on a fresh folder and notes it, or why there is none, where the log was made ready.
pub(crate) fn answer_temp(
    log: &mut Log,
    alloc: Global,
    parent: Utf8Path<'_>,
    told: io::Result<Utf8PathBuf>,
) -> Result<Utf8PathBuf, HostFault>
    requires { HasRoom log.old }
    ensures entries { entries_of log.new ≡ entries_of log.old
        ++ gained (text_of parent.entry) (λ p. Entry.Made p ∷ []) result }
    ensures own { IsOwn Call.Temp result }
    ensures answer { IfOk result (λ p. told ≡ Ok p) }
    ensures spare { spare_of log.new ≡ spare_of log.old }
{
    match told {
        Ok(made) => match made.try_clone() {
            Ok(copy) => {
                log.append(Entry::Made(copy));
                Ok(made)
            }
            Err(NoMemory) => Err(HostFault::NoMemory),
        },
        Err(error) => Err(refuse(log, alloc, Call::Temp, parent, &error)),
    }
}

/// Hands on a sum and notes it, or why there is none, where the log was made ready.
pub(crate) fn answer_sum(
    log: &mut Log,
    alloc: Global,
    path: Utf8Path<'_>,
    copy: Utf8PathBuf,
    told: io::Result<[u8; 32]>,
) -> Result<[u8; 32], HostFault>
    requires room { HasRoom log.old }
    requires copy { copy ≡ text_of path }
    ensures entries { entries_of log.new ≡ entries_of log.old
        ++ gained (text_of path.entry) (λ d. Entry.Summed (text_of path.entry) d ∷ []) result }
    ensures own { IsOwn Call.Sum result }
    ensures answer { IfOk result (λ d. told ≡ Ok d) }
    ensures spare { spare_of log.new ≡ spare_of log.old }
{
    match told {
        Ok(sum) => {
            log.append(Entry::Summed(copy, sum));
            Ok(sum)
        }
        Err(error) => Err(refuse(log, alloc, Call::Sum, path, &error)),
    }
}

/// Hands on a look and notes it, or why there is none, where the log was made ready.
pub(crate) fn answer_probe(
    log: &mut Log,
    alloc: Global,
    entry: Utf8Path<'_>,
    copy: Utf8PathBuf,
    outputs: Seq<Utf8PathBuf>,
    told: io::Result<Look>,
) -> Result<Look, HostFault>
    requires room { HasRoom log.old }
    requires copy { copy ≡ text_of entry }
    ensures entries { entries_of log.new ≡ entries_of log.old
        ++ gained (text_of entry.entry)
        (λ x. Entry.Probed (text_of entry.entry) outputs x ∷ []) result }
    ensures own { IsOwn Call.Probe result }
    ensures answer { IfOk result (λ x. told ≡ Ok x) }
    ensures spare { spare_of log.new ≡ spare_of log.old }
{
    match told {
        Ok(look) => {
            log.append(Entry::Probed(copy, outputs, look));
            Ok(look)
        }
        Err(error) => Err(refuse(log, alloc, Call::Probe, entry, &error)),
    }
}

/// Notes a check, or why it has no answer, where the log was made ready.
pub(crate) fn answer_check(
    log: &mut Log,
    alloc: Global,
    outputs: &[Utf8PathBuf],
    copies: Seq<Utf8PathBuf>,
    told: Result<Option<usize>, (usize, io::Error)>,
) -> Result<Option<u32>, HostFault>
    requires room { HasRoom log.old }
    requires copies { copies ≡ outputs.now }
    requires told { IfOk told (λ o. IfSome o (λ i. i < length outputs.now)) }
    ensures within { IfOk result (λ o. IfSome o (λ i. i < length outputs.now)) }
    ensures answer { IfOk result (λ o. told ≡ Ok o) }
    ensures entries { ChecksTo (entries_of log.old) (entries_of log.new) outputs.now result }
    ensures own { IsOwn Call.Check result }
    ensures spare { spare_of log.new ≡ spare_of log.old }
{
    match told {
        Ok(None) => {
            log.append(Entry::Checked(copies, None));
            Ok(None)
        }
        Ok(Some(at)) => {
            let Ok(number) = u32::try_from(at) else {
                return Err(HostFault::NoMemory);
            };
            log.append(Entry::Checked(copies, Some(number)));
            Ok(Some(number))
        }
        Err((at, error)) => match outputs.get(at) {
            Some(output) => Err(refuse(log, alloc, Call::Check, output.as_path(), &error)),
            None => Err(HostFault::NoMemory),
        },
    }
}

/// Notes a save, or why there is none, where the log was made ready.
pub(crate) fn answer_save(
    log: &mut Log,
    alloc: Global,
    entry: Utf8Path<'_>,
    copy: Utf8PathBuf,
    told: io::Result<()>,
) -> Result<(), HostFault>
    requires room { HasRoom log.old }
    requires copy { copy ≡ text_of entry }
    ensures entries { entries_of log.new ≡ entries_of log.old
        ++ gained (text_of entry.entry) (λ _. Entry.Saved (text_of entry.entry) ∷ []) result }
    ensures own { IsOwn Call.Save result }
    ensures answer { IfOk result (λ x. told ≡ Ok x) }
    ensures spare { spare_of log.new ≡ spare_of log.old }
{
    match told {
        Ok(()) => {
            log.append(Entry::Saved(copy));
            Ok(())
        }
        Err(error) => Err(refuse(log, alloc, Call::Save, entry, &error)),
    }
}

/// Notes a print, or that it failed, where the log was made ready.
pub(crate) fn answer_print(
    log: &mut Log,
    stream: Stream,
    text: Text,
    told: io::Result<()>,
) -> Result<(), HostFault>
    requires { HasRoom log.old }
    ensures entries { entries_of log.new ≡ entries_of log.old ++ gained [] (λ _. Entry.Printed stream text ∷ []) result }
    ensures own { IsOwn Call.Print result }
    ensures answer { IfOk result (λ x. told ≡ Ok x) }
    ensures never_missed { NeverMissed result }
    ensures spare { spare_of log.new ≡ spare_of log.old }
{
    match told {
        Ok(()) => {
            log.append(Entry::Printed(stream, text));
            Ok(())
        }
        Err(error) if error.kind() == ErrorKind::OutOfMemory => Err(HostFault::NoMemory),
        Err(_) => {
            log.append(Entry::Failed(Call::Print));
            Err(HostFault::Failed(Call::Print))
        }
    }
}

/// Notes how a captured child ended and what it printed, where the log was made ready, and answers it. A copy of that takes memory.
pub(crate) fn note_capture(
    log: &mut Log,
    alloc: Global,
    spec: Boxed<Spec>,
    input: Seq<u8>,
    end: Captured,
) -> Result<(Status, Vec<u8>), HostFault>
    requires room { HasRoom log.old }
    requires limit { length end.output.items ≤ MAX_BYTES }
    ensures entries { entries_of log.new ≡ entries_of log.old
        ++ gained spec.program (λ r. Entry.Captured spec input r.0 r.1.items ∷ []) result }
    ensures limit { IfOk result (λ r. length r.1.items ≤ MAX_BYTES) }
    ensures status { IfOk result (λ r. r.0 ≡ end.status) }
    ensures output { IfOk result (λ r. r.1 ≡ end.output) }
    ensures fault { IfErr result (λ f. f ≡ HostFault.NoMemory) }
    ensures spare { spare_of log.new ≡ spare_of log.old }
{
    let (status, output) = end.into_parts();
    match copied_bytes(alloc, output.as_slice()) {
        Ok(noted) => {
            log.append(Entry::Captured(spec, input, status, noted));
            Ok((status, output))
        }
        Err(NoMemory) => Err(HostFault::NoMemory),
    }
}
