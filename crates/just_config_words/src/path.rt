//! Module paths as texts.
ghost use Rattle.std.specs.Prelude.{◌≡◌, IfOk, string_bytes};
ghost use Rattle.just_config_words.specs.Paths.{prefix_of};

use just_path_text::{NoMemory, Text};
use std::alloc::Global;

/// The modules of a path, each with `::` behind it: what stands in front of a name in the last one.
pub fn prefix_of(alloc: Global, path: &[Text]) -> Result<String, NoMemory>
    ensures { IfOk result (λ text. string_bytes text ≡ prefix_of path.now) }
{
    let mut text = String::new(alloc);
    'path: for component in path {
        text.push_str(component.as_str())?;
        text.push_str("::")?;
    }
    Ok(text)
}
