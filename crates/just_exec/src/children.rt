//! How children are told of that commands run.

ghost use Rattle.std.specs.Prelude.{◌++◌, ◌∷◌, codes};
ghost use Rattle.std.specs.Fmt.{WritesOnOk};
ghost use Rattle.just_print.specs.SmallTexts.{ticked};
ghost use Rattle.just_exec.specs.Parts.{fault_text, naming};
ghost use Rattle.just_exec.specs.Texts.{status_text, chooser_text, ticked_behind, words_ticked};

use super::parts::fault_text;
use super::sentences::tell_naming;
use just_host_record::{HostFault, Status};
use just_path_text::Text;
use std::fmt;

/// How a child ended.
fn tell_status<W: fmt::Write>(status: Status, f: &mut fmt::Formatter<W>) -> fmt::Result
    ensures { WritesOnOk W.write_str_gives f.old result (status_text status) f.new }
{
    match status {
        Status::Code(code) => write!(f, "exit status: {code}"),
        Status::Signal(number) => write!(f, "signal: {number}"),
        Status::Unknown => f.write_str("unknown status"),
    }
}

/// A child that didn't end with the code 0; the word for it has a blank behind it.
pub(crate) fn tell_ended<W: fmt::Write>(
    noun: &str,
    program: &Text,
    status: Status,
    f: &mut fmt::Formatter<W>,
) -> fmt::Result
    ensures { WritesOnOk W.write_str_gives f.old result
        (naming noun.now program.now (codes " failed: ") ++ status_text status) f.new }
{
    tell_naming(noun, program.as_str(), " failed: ", f)?;
    tell_status(status, f)
}

/// A chooser whose shell couldn't be started.
pub(crate) fn tell_invocation<W: fmt::Write>(
    shell: &Text,
    arguments: &Text,
    chooser: &Text,
    io: HostFault,
    f: &mut fmt::Formatter<W>,
) -> fmt::Result
    ensures { WritesOnOk W.write_str_gives f.old result
        (chooser_text shell.now arguments.now chooser.now io) f.new }
{
    let shell = shell.as_str();
    let arguments = arguments.as_str();
    let chooser = chooser.as_str();
    write!(f, "error: chooser `{shell} {arguments} {chooser}`")?;
    write!(f, " invocation failed: {}", fault_text(io))
}

/// An editor that couldn't be started or waited for.
pub(crate) fn tell_editor<W: fmt::Write>(
    editor: &Text,
    io: HostFault,
    f: &mut fmt::Formatter<W>,
) -> fmt::Result
    ensures { WritesOnOk W.write_str_gives f.old result
        (naming (codes "editor ") editor.now (codes " invocation failed: " ++ fault_text io))
        f.new }
{
    let editor = editor.as_str();
    write!(
        f,
        "error: editor `{editor}` invocation failed: {}",
        fault_text(io)
    )
}

/// A text in backquotes behind a blank.
fn tell_word<W: fmt::Write>(text: &Text, f: &mut fmt::Formatter<W>) -> fmt::Result
    ensures { WritesOnOk W.write_str_gives f.old result (32 ∷ ticked text.now) f.new }
{
    let text = text.as_str();
    write!(f, " `{text}`")
}

/// Texts in backquotes, each behind a blank.
fn tell_behind<W: fmt::Write>(texts: &[Text], f: &mut fmt::Formatter<W>) -> fmt::Result
    ensures { WritesOnOk W.write_str_gives f.old result (ticked_behind texts.now) f.new }
{
    'texts: for text in texts {
        tell_word(text, f)?;
    }
    Ok(())
}

/// A program and its arguments, each in backquotes.
fn tell_words<W: fmt::Write>(
    binary: &Text,
    arguments: &[Text],
    f: &mut fmt::Formatter<W>,
) -> fmt::Result
    ensures { WritesOnOk W.write_str_gives f.old result
        (words_ticked binary.now arguments.now) f.new }
{
    let binary = binary.as_str();
    write!(f, "`{binary}`")?;
    tell_behind(arguments, f)
}

/// A command that couldn't be started or waited for.
pub(crate) fn tell_unstarted<W: fmt::Write>(
    binary: &Text,
    arguments: &[Text],
    io: HostFault,
    f: &mut fmt::Formatter<W>,
) -> fmt::Result
    ensures { WritesOnOk W.write_str_gives f.old result (codes "error: failed to invoke "
        ++ (words_ticked binary.now arguments.now ++ (codes ": " ++ fault_text io))) f.new }
{
    f.write_str("error: failed to invoke ")?;
    tell_words(binary, arguments, f)?;
    write!(f, ": {}", fault_text(io))
}

/// A command that didn't end with the code 0.
pub(crate) fn tell_unwell<W: fmt::Write>(
    binary: &Text,
    arguments: &[Text],
    status: Status,
    f: &mut fmt::Formatter<W>,
) -> fmt::Result
    ensures { WritesOnOk W.write_str_gives f.old result (codes "error: command "
        ++ (words_ticked binary.now arguments.now ++ (codes " failed: " ++ status_text status)))
        f.new }
{
    f.write_str("error: command ")?;
    tell_words(binary, arguments, f)?;
    f.write_str(" failed: ")?;
    tell_status(status, f)
}
