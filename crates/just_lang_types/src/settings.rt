//! The settings of a justfile.

use just_path_text::{Seq, Text};

/// A program and the arguments that stand before those of a call.
pub struct Interpreter {
    pub command: Text,
    pub arguments: Seq<Text>,
}

impl Drop for Interpreter {
    fn drop(self) {
        let Interpreter {
            command: _,
            arguments: _,
        } = self;
    }
}

/// The settings of a justfile, one field for each, with `_` for `-`.
pub struct Settings {
    pub allow_duplicate_recipes: bool,
    pub allow_duplicate_variables: bool,
    pub default_list: bool,
    pub dotenv_load: bool,
    pub dotenv_override: bool,
    pub dotenv_required: bool,
    pub export: bool,
    pub fallback: bool,
    pub guards: bool,
    pub ignore_comments: bool,
    pub lists: bool,
    pub no_cd: bool,
    pub no_exit_message: bool,
    pub positional_arguments: bool,
    pub quiet: bool,
    pub unstable: bool,
    pub windows_powershell: bool,
    pub dotenv_command: Option<Text>,
    pub dotenv_filename: Option<Text>,
    pub dotenv_path: Option<Text>,
    pub indentation: Option<Text>,
    pub tempdir: Option<Text>,
    pub working_directory: Option<Text>,
    pub shell: Option<Interpreter>,
    pub script_interpreter: Option<Interpreter>,
    pub windows_shell: Option<Interpreter>,
}

impl Drop for Settings {
    fn drop(self) {
        let Settings {
            allow_duplicate_recipes: _,
            allow_duplicate_variables: _,
            default_list: _,
            dotenv_load: _,
            dotenv_override: _,
            dotenv_required: _,
            export: _,
            fallback: _,
            guards: _,
            ignore_comments: _,
            lists: _,
            no_cd: _,
            no_exit_message: _,
            positional_arguments: _,
            quiet: _,
            unstable: _,
            windows_powershell: _,
            dotenv_command: _,
            dotenv_filename: _,
            dotenv_path: _,
            indentation: _,
            tempdir: _,
            working_directory: _,
            shell: _,
            script_interpreter: _,
            windows_shell: _,
        } = self;
    }
}
