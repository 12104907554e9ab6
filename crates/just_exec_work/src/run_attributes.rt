//! How the attributes of a recipe ask it to be run.

use just_path_text::{Seq, Text};

/// How the attributes of a recipe ask it to be run.
pub struct RunAttributes {
    /// The texts of `script`, where it is there: a command and its arguments, or none.
    pub script: Option<Seq<Text>>,
    /// How the name of its script ends, the dot included.
    pub extension: Option<Text>,
    /// Its folder, under that of its module.
    pub working_directory: Option<Text>,
    /// Whether it is run where the program is.
    pub no_cd: bool,
    /// Whether the setting `quiet` doesn't concern it.
    pub no_quiet: bool,
    /// Whether its children are given its positional arguments.
    pub positional_arguments: bool,
}

impl Drop for RunAttributes {
    fn drop(self) {
        let RunAttributes {
            script: _,
            extension: _,
            working_directory: _,
            no_cd: _,
            no_quiet: _,
            positional_arguments: _,
        } = self;
    }
}
