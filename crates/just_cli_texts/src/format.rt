//! The text of a justfile as it is written anew.

ghost use Rattle.std.specs.Prelude.{◌≡◌, Ok, Err, IfOk, IfErr};
ghost use Rattle.just_lang_layout.specs.Items.{in_file};
ghost use Rattle.just_lang_spots.specs.Entries.{entries};
ghost use Rattle.just_cli_plan.specs.Own.{OrMemory};
ghost use Rattle.just_cli_texts.specs.Formatted.{format_text, Formats};

use super::summary::borrowed;
use just_config::Config;
use just_exec::Error;
use just_lang_rulebook::Meanings;
use just_lang_shapes::settings_of;
use just_lang_spots::Entry;
use just_lang_syntax::AstItem;
use just_lang_types::{Source, parse};
use just_path_text::{Environ, NoMemory, Text};
use just_print::print_items;
use just_print_lists::chosen_indentation;
use std::alloc::Global;

/// Items as those of the first file.
fn entries_of<'a>(alloc: Global, items: &'a [AstItem]) -> Result<Vec<Entry<'a>>, NoMemory>
    ensures { IfOk result (λ v. entries v.items ≡ in_file 0 items.now) }
{
    let mut all = Vec::new(alloc);
    'items: for item in items {
        all.push(Entry { file: 0, item })?;
    }
    Ok(all)
}

/// The text of items, whose bodies are indented as is given, else as the file itself has it set.
fn format_text(
    alloc: Global,
    config: &Config,
    environ: &Environ,
    items: &[AstItem],
) -> Result<Text, NoMemory>
    ensures { IfOk result (λ t. t ≡ format_text config.now environ.now.pairs items.now) }
{
    let texts = Meanings { environ };
    let entries = entries_of(alloc, items)?;
    let settings = settings_of(alloc, &texts, entries.as_slice())?;
    let given = borrowed(&config.indentation);
    let indentation = chosen_indentation(alloc, given, borrowed(&settings.indentation))?;
    Ok(Text::from(print_items(alloc, items, indentation.as_str())?))
}

/// The text of a source as it is written anew; or why it has no tree.
pub fn formatted(
    alloc: Global,
    config: &Config,
    environ: &Environ,
    source: &Source,
) -> Result<Text, Error>
    ensures text { IfOk result (λ t. Formats config.now environ.now.pairs source.now (Ok t)) }
    ensures refused { IfErr result (OrMemory (λ e.
        Formats config.now environ.now.pairs source.now (Err e))) }
{
    let ast = match parse(alloc, source) {
        Ok(ast) => ast,
        Err(error) => return Err(Error::from(error)),
    };
    let text = format_text(alloc, config, environ, ast.items.as_slice())?;
    Ok(text)
}
