//! The commands of lines.

ghost use Rattle.std.specs.Prelude.{◌≡◌, ◌++◌, ◌∷◌, IfOk, OnOk, map, filter};
ghost use Rattle.just_exec_work.specs.Works.{run_of, positional_words, words_of_line, line_child, line_command, is_filled};

use super::copies::{copied_changes, push_texts};
use super::echo::{line_echo, shows_line};
use super::folder::recipe_folder;
use super::line_shell::shell;
use super::positional::positional_words;
use super::{Command, RunAttributes, Running};
use crate::ShellKind;
use just_host_record::Spec;
use just_lang_types::{BodyLine, Interpreter};
use just_path_text::{NoMemory, Seq, Text};
use std::alloc::Global;
use std::mem;

/// Adds the words behind a line.
fn push_words(
    words: &mut Vec<Text>,
    run: &Running<'_>,
    shell: &Interpreter,
    texts: &Option<Seq<Text>>,
) -> Result<(), NoMemory>
    ensures { OnOk result (words.new.items ≡ words.old.items ++ words_of_line (run_of run.now) shell.now texts.now) }
{
    let Some(texts) = texts else {
        return Ok(());
    };
    if ShellKind::from(shell.command.as_str()).takes_shell_name() {
        words.push(run.recipe.name.try_clone()?)?;
    }
    push_texts(words, texts.as_slice())
}

/// The arguments of the child that runs a line: those of the shell, the line, and the words behind it.
fn line_arguments(
    alloc: Global,
    run: &Running<'_>,
    attributes: &RunAttributes,
    shell: &Interpreter,
    line: &str,
) -> Result<Seq<Text>, NoMemory>
    ensures { IfOk result (λ ts. ts ≡ shell.now.arguments ++ (line.now ∷ words_of_line (run_of run.now) shell.now (positional_words (run_of run.now) attributes.now))) }
{
    let mut words = Vec::new(alloc);
    push_texts(&mut words, shell.arguments.as_slice())?;
    words.push(Text::from_str(alloc, line)?)?;
    let texts = positional_words(alloc, run, attributes)?;
    let pushed = push_words(&mut words, run, shell, &texts);
    drop(texts);
    pushed?;
    Ok(Seq::from(words))
}

/// The child that runs a line.
fn line_child(
    alloc: Global,
    run: &Running<'_>,
    attributes: &RunAttributes,
    line: &str,
) -> Result<Spec, NoMemory>
    ensures { IfOk result (λ s. s ≡ line_child (run_of run.now) attributes.now line.now) }
{
    let changes = copied_changes(alloc, run.changes)?;
    let folder = recipe_folder(alloc, run.settings, attributes, run.folder)?;
    let mut shell = shell(alloc, run.flags, run.settings)?;
    let arguments = line_arguments(alloc, run, attributes, &shell, line)?;
    Ok(Spec {
        program: mem::replace(&mut shell.command, Text::from(String::new(alloc))),
        arguments,
        folder,
        changes,
        script: None,
    })
}

/// The command of a line.
fn line_command(
    alloc: Global,
    run: &Running<'_>,
    attributes: &RunAttributes,
    line: &BodyLine,
) -> Result<Command, NoMemory>
    ensures { IfOk result (λ c. c ≡ line_command (run_of run.now) attributes.now line.now) }
{
    let text = line.text.as_str();
    let shown = shows_line(
        run.flags,
        run.settings,
        attributes,
        run.recipe.quiet,
        line.quiet,
    );
    let echo = line_echo(alloc, shown, text)?;
    Ok(Command {
        spec: line_child(alloc, run, attributes, text)?,
        echo,
        line: Some(line.number),
        forgiving: line.forgiving,
        guard: line.guard,
    })
}

/// Whether a line is a command.
fn is_filled(line: &BodyLine) -> bool
    ensures { result ≡ is_filled line.now }
{
    line.text.as_str().len() != 0
}

/// The commands of the lines that aren't empty.
#[tactic(auto, using(crate::proofs::Lists::kept_more, crate::proofs::Lists::kept_passed, crate::proofs::Lists::kept_all))]
pub(crate) fn line_commands(
    alloc: Global,
    run: &Running<'_>,
    attributes: &RunAttributes,
    lines: &[BodyLine],
) -> Result<Vec<Command>, NoMemory>
    ensures { IfOk result (λ cs. cs.items ≡ map (line_command (run_of run.now) attributes.now) (filter is_filled lines.now)) }
{
    let mut commands = Vec::new(alloc);
    'lines: for line in lines {
        if !is_filled(line) {
            continue;
        }
        commands.push(line_command(alloc, run, attributes, line)?)?;
    }
    Ok(commands)
}
