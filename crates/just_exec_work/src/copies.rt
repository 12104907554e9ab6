//! Copies.

ghost use Rattle.std.specs.Prelude.{◌≡◌, ◌++◌, ◌∷◌, [], IfOk, OnOk, codes};

use just_lang_types::Interpreter;
use just_path_text::{NoMemory, Seq, Text};
use std::alloc::Global;

/// A copy of an interpreter.
pub(crate) fn copied_interpreter(interpreter: &Interpreter) -> Result<Interpreter, NoMemory>
    ensures { IfOk result (λ i. i ≡ interpreter.now) }
{
    Ok(Interpreter {
        command: interpreter.command.try_clone()?,
        arguments: interpreter.arguments.try_clone()?,
    })
}

/// The program `sh` with one argument.
pub(crate) fn sh_with(alloc: Global, argument: &str) -> Result<Interpreter, NoMemory>
    ensures { IfOk result (λ i. i ≡ record { command = codes "sh"; arguments = argument.now ∷ [] }) }
{
    Ok(Interpreter {
        command: Text::from_str(alloc, "sh")?,
        arguments: one_text(alloc, argument)?,
    })
}

/// The sequence of one text.
pub fn one_text(alloc: Global, text: &str) -> Result<Seq<Text>, NoMemory>
    ensures { IfOk result (λ ts. ts ≡ text.now ∷ []) }
{
    let mut texts = Vec::with_capacity(alloc, 1)?;
    texts.push(Text::from_str(alloc, text)?)?;
    Ok(Seq::from(texts))
}

/// Adds copies of texts.
#[tactic(auto, using(crate::proofs::Lists::added_more, crate::proofs::Lists::added_all))]
pub(crate) fn push_texts(all: &mut Vec<Text>, texts: &[Text]) -> Result<(), NoMemory>
    ensures { OnOk result (all.new.items ≡ all.old.items ++ texts.now) }
{
    'texts: for text in texts {
        all.push(text.try_clone()?)?;
    }
    Ok(())
}

/// A copy of a text, where there is one.
fn copied_text(text: &Option<Text>) -> Result<Option<Text>, NoMemory>
    ensures { IfOk result (λ t. t ≡ text.now) }
{
    match text {
        Some(text) => Ok(Some(text.try_clone()?)),
        None => Ok(None),
    }
}

/// A copy of changes of the environment.
#[tactic(auto, using(crate::proofs::Lists::added_more, crate::proofs::Lists::added_all))]
pub(crate) fn copied_changes(
    alloc: Global,
    changes: &[(Text, Option<Text>)],
) -> Result<Seq<(Text, Option<Text>)>, NoMemory>
    ensures { IfOk result (λ cs. cs ≡ changes.now) }
{
    let mut copies = Vec::new(alloc);
    'changes: for (name, value) in changes {
        copies.push((name.try_clone()?, copied_text(value)?))?;
    }
    Ok(Seq::from(copies))
}
