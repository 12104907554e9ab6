//! The paths of a project's recipes, and the tree of its root.

ghost use Rattle.std.specs.Prelude.{◌≡◌, IfOk};
ghost use Rattle.std.specs.Option.{option_copied};
ghost use Rattle.just_print_commands.specs.Projects.{parts};
ghost use Rattle.just_cli_texts.specs.Prints.{no_recipes, items_in, dump_text, IsSummed};

use super::printed::Printed;
use just_config::Config;
use just_lang_layout::File;
use just_lang_syntax::AstItem;
use just_path_text::{NoMemory, Text};
use just_print::print_items;
use just_print_commands::Project;
use just_print_lists::{chosen_indentation, is_nil, joined_line, public_paths};
use std::alloc::Global;

/// What is told beside the paths of recipes.
fn no_recipes(alloc: Global, paths: &[Text]) -> Result<Option<Text>, NoMemory>
    ensures { IfOk result (λ t. t ≡ no_recipes paths.now) }
{
    if is_nil(paths) {
        return Ok(Some(Text::from_str(alloc, "justfile contains no recipes\n")?));
    }
    Ok(None)
}

/// The paths of a project's public recipes.
pub(crate) fn summary(
    alloc: Global,
    config: &Config,
    project: Project<'_, '_, '_, '_, '_, '_>,
) -> Result<Printed, NoMemory>
    ensures { IfOk result (IsSummed config.now (parts project.entry)) }
{
    let paths = public_paths(alloc, config.unsorted, project.tree)?;
    let told = no_recipes(alloc, paths.as_slice())?;
    let line = joined_line(alloc, paths.as_slice())?;
    let text = Text::from(line);
    Ok(Printed { text, told })
}

/// The items of the first of some files.
fn items_in(files: &[File]) -> &[AstItem]
    ensures { result.now ≡ items_in files.now }
{
    match files {
        [] => &[],
        [first, ..] => first.items.as_slice(),
    }
}

/// A text where there is one, borrowed.
pub(crate) fn borrowed(text: &Option<Text>) -> Option<&str>
    ensures { option_copied result ≡ text.now }
{
    match text {
        Some(text) => Some(text.as_str()),
        None => None,
    }
}

/// The tree of a project's root.
pub(crate) fn dump(
    alloc: Global,
    config: &Config,
    project: Project<'_, '_, '_, '_, '_, '_>,
) -> Result<Text, NoMemory>
    ensures { IfOk result (λ t. t ≡ dump_text config.now (parts project.entry)) }
{
    let given = borrowed(&config.indentation);
    let set = borrowed(&project.root.settings.indentation);
    let indentation = chosen_indentation(alloc, given, set)?;
    let items = items_in(project.layout.files.as_slice());
    Ok(Text::from(print_items(alloc, items, indentation.as_str())?))
}
