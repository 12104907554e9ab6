//! What a key holds.

use just_lang_types::{Interpreter, Modulepath};
use just_path::Utf8PathBuf;
use just_path_text::{Seq, Text};

/// What runs the script of a body.
#[derive(Drop)]
pub enum KeyExecutor {
    /// A command with its arguments.
    Command(Interpreter),
    /// What the first line of the script names.
    Shebang {
        argument: Option<Text>,
        interpreter: Text,
    },
}

/// All that the body of a cached recipe depends on.
pub struct CacheKey {
    /// The lines with their values.
    pub body: Seq<Text>,
    /// The variables that are set for the body, and those that are taken from it, in byte order of their names.
    pub environment: Seq<(Text, Option<Text>)>,
    pub executor: KeyExecutor,
    /// What the name of the script ends in.
    pub extension: Option<Text>,
    /// What the recipe names as a further dependence.
    pub extra: Option<Text>,
    /// The files that the recipe names, with their digests, in byte order of their names.
    pub inputs: Option<Seq<(Text, Text)>>,
    /// The words that the body is given as arguments.
    pub positional: Option<Seq<Text>>,
    pub recipe: Modulepath,
    /// The folder in which the body runs, where the recipe names one.
    pub working_directory: Option<Utf8PathBuf>,
}

impl Drop for CacheKey {
    fn drop(self) {
        let CacheKey {
            body: _,
            environment: _,
            executor: _,
            extension: _,
            extra: _,
            inputs: _,
            positional: _,
            recipe: _,
            working_directory: _,
        } = self;
    }
}
