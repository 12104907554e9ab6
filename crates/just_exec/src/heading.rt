//! What is printed when the body of a recipe is begun.

ghost use Rattle.std.specs.Prelude.{◌≡◌, ◌++◌, [], if◌then◌else◌, IfOk, OnOk, string_bytes};
ghost use Rattle.just_exec.specs.Banners.{name_line, doc_line, banner};

use just_exec_work::RunFlags;
use just_lang_types::Recipe;
use just_path_text::{NoMemory, Text};
use std::alloc::Global;

/// Adds the line with a recipe's name, where it is to be told.
fn push_name_line(text: &mut String, told: bool, name: &str) -> Result<(), NoMemory>
    ensures { OnOk result (string_bytes text.new ≡ string_bytes text.old ++ (if told then name_line name.now else [])) }
{
    if !told {
        return Ok(());
    }
    text.push_str("===> Running recipe `")?;
    text.push_str(name)?;
    text.push_str("`...\n")?;
    Ok(())
}

/// Adds the line with a recipe's doc, if it has one, where it is to be told.
fn push_doc_line(text: &mut String, told: bool, doc: &Option<Text>) -> Result<(), NoMemory>
    ensures { OnOk result (string_bytes text.new ≡ string_bytes text.old ++ (if told then doc_line doc.now else [])) }
{
    if !told {
        return Ok(());
    }
    let Some(doc) = doc else {
        return Ok(());
    };
    text.push_str("# ")?;
    text.push_str(doc.as_str())?;
    text.push_str("\n")?;
    Ok(())
}

/// What is printed when the body of a recipe is begun: its name where much is told, and its doc where that is asked for.
pub fn banner(alloc: Global, flags: &RunFlags, recipe: &Recipe) -> Result<Text, NoMemory>
    ensures { IfOk result (λ t. t ≡ banner flags.now recipe.now) }
{
    let mut text = String::new(alloc);
    push_name_line(&mut text, flags.loquacious, recipe.name.as_str())?;
    push_doc_line(&mut text, flags.explain, &recipe.doc)?;
    Ok(Text::from(text))
}
