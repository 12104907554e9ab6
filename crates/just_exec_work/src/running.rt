//! A recipe that is run.

use super::RunFlags;
use just_lang_types::{Recipe, Settings, Value};
use just_path::Utf8Path;
use just_path_text::Text;

/// A recipe that is run, with what its children depend on beside the lines of its body.
#[derive(Clone, Copy)]
pub struct Running<'r> {
    pub recipe: &'r Recipe,
    /// The settings of its module.
    pub settings: &'r Settings,
    /// The folder of its module.
    pub folder: Utf8Path<'r>,
    /// A value for each of its parameters.
    pub values: &'r [Value],
    /// What changes in the environment of its children: a name with no value is taken out.
    pub changes: &'r [(Text, Option<Text>)],
    pub flags: &'r RunFlags,
}
