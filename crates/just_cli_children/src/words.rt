//! The child of a command's words.

ghost use Rattle.std.specs.Prelude.{◌≡◌, ◌++◌, IfOk, OnOk};
ghost use Rattle.just_cli_texts.specs.Kinds.{words_of};
ghost use Rattle.just_cli_children.specs.Children.{first_word, later_words, program_of, arguments_of, words_spec, words_child};

use super::child::{Child, Role};
use super::environment::module_changes;
use just_cli_texts::words_of;
use just_config::Config;
use just_exec_work::{Interpreter, RunFlags, shell};
use just_host_record::Spec;
use just_lang_types::Scopes;
use just_lang_types::project::Justfile;
use just_path::Utf8PathBuf;
use just_path_text::{NoMemory, Seq, Text, TryClone};
use std::alloc::Global;

/// A copy of the first of some words; the empty text where there are none.
fn first_word(alloc: Global, words: &[Text]) -> Result<Text, NoMemory>
    ensures { IfOk result (λ t. t ≡ first_word words.now) }
{
    match words {
        [] => Text::from_str(alloc, ""),
        [first, ..] => first.try_clone(),
    }
}

/// The words behind the first.
fn later_words(words: &[Text]) -> &[Text]
    ensures { result.now ≡ later_words words.now }
{
    match words {
        [] => words,
        [_, later @ ..] => later,
    }
}

/// Adds copies of texts.
fn push_copies(texts: &mut Vec<Text>, copied: &[Text]) -> Result<(), NoMemory>
    ensures { OnOk result (texts.new.items ≡ texts.old.items ++ copied.now) }
{
    'texts: for text in copied {
        texts.push(text.try_clone()?)?;
    }
    Ok(())
}

/// Copies of texts, behind those of some others.
fn copies(alloc: Global, front: &[Text], back: &[Text]) -> Result<Seq<Text>, NoMemory>
    ensures { IfOk result (λ ts. ts ≡ front.now ++ back.now) }
{
    let mut texts = Vec::new(alloc);
    push_copies(&mut texts, front)?;
    push_copies(&mut texts, back)?;
    Ok(Seq::from(texts))
}

/// The program of words that may go through a shell.
fn program_of(
    alloc: Global,
    through: bool,
    shell: &Interpreter,
    words: &[Text],
) -> Result<Text, NoMemory>
    ensures { IfOk result (λ t. t ≡ program_of through shell.now words.now) }
{
    if through {
        shell.command.try_clone()
    } else {
        first_word(alloc, words)
    }
}

/// The arguments of that program.
fn arguments_of(
    alloc: Global,
    through: bool,
    shell: &Interpreter,
    words: &[Text],
) -> Result<Seq<Text>, NoMemory>
    ensures { IfOk result (λ ts. ts ≡ arguments_of through shell.now words.now) }
{
    if through {
        copies(alloc, shell.arguments.as_slice(), words)
    } else {
        copies(alloc, &[], later_words(words))
    }
}

/// What words are run as in that folder, with these changes in the environment.
fn words_spec(
    alloc: Global,
    through: bool,
    shell: &Interpreter,
    words: &[Text],
    folder: &Utf8PathBuf,
    changes: Seq<(Text, Option<Text>)>,
) -> Result<Spec, NoMemory>
    ensures { IfOk result (λ spec.
        spec ≡ words_spec through shell.now words.now folder.now changes) }
{
    let program = program_of(alloc, through, shell, words)?;
    let arguments = arguments_of(alloc, through, shell, words)?;
    let folder = folder.try_clone()?;
    Ok(Spec {
        program,
        arguments,
        folder: Some(folder),
        changes,
        script: None,
    })
}

/// The role of words.
fn words_role(alloc: Global, words: &[Text]) -> Result<Role, NoMemory>
    ensures { IfOk result (λ r. r ≡ Role.Command (first_word words.now) (later_words words.now)) }
{
    let binary = first_word(alloc, words)?;
    let arguments = copies(alloc, &[], later_words(words))?;
    Ok(Role::Command(binary, arguments))
}

/// The child of a configuration's words, in the environment of a module of a project.
pub fn words_child(
    alloc: Global,
    config: &Config,
    flags: &RunFlags,
    scopes: &Scopes,
    justfile: &Justfile,
) -> Result<Child, NoMemory>
    ensures { IfOk result (λ c.
        c ≡ words_child config.now flags.now scopes.now justfile.now) }
{
    let words = words_of(&config.subcommand);
    let through = config.shell_command;
    let shell = shell(alloc, flags, &justfile.settings)?;
    let changes = module_changes(alloc, scopes, justfile)?;
    let spec = words_spec(alloc, through, &shell, words, &flags.folder, changes)?;
    let role = words_role(alloc, words)?;
    Ok(Child { spec, role })
}
