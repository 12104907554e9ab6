//! The settings of a module.

use super::lines::{Thing, begin_line, push_flag, push_line, push_text};
use super::page::Page;
use just_lang_types::{Interpreter, Settings};

/// Adds the line of a program with its arguments.
fn push_interpreter(page: &mut Page, module: Thing<'_>, field: &str, value: &Option<Interpreter>) {
    let Some(interpreter) = value else {
        push_line(page, module, field, "-");
        return;
    };
    begin_line(page, module, field);
    page.push(interpreter.command.as_str());
    for argument in interpreter.arguments.as_slice() {
        page.push(" ");
        page.push(argument.as_str());
    }
    page.push("\n");
}

/// Adds the lines of flags.
fn push_flags(page: &mut Page, module: Thing<'_>, flags: &[(&str, bool)]) {
    for flag in flags {
        push_flag(page, module, flag.0, flag.1);
    }
}

/// Adds the lines of the flags of settings.
fn push_own_flags(page: &mut Page, module: Thing<'_>, settings: &Settings) {
    push_flags(
        page,
        module,
        &[
            ("allow-duplicate-recipes", settings.allow_duplicate_recipes),
            (
                "allow-duplicate-variables",
                settings.allow_duplicate_variables,
            ),
            ("default-list", settings.default_list),
            ("dotenv-load", settings.dotenv_load),
            ("dotenv-override", settings.dotenv_override),
            ("dotenv-required", settings.dotenv_required),
            ("export", settings.export),
            ("fallback", settings.fallback),
            ("guards", settings.guards),
            ("ignore-comments", settings.ignore_comments),
            ("lists", settings.lists),
            ("no-cd", settings.no_cd),
            ("no-exit-message", settings.no_exit_message),
            ("positional-arguments", settings.positional_arguments),
            ("quiet", settings.quiet),
            ("unstable", settings.unstable),
        ],
    );
}

/// Adds the lines of settings.
pub(crate) fn push_settings(page: &mut Page, module: Thing<'_>, settings: &Settings) {
    push_own_flags(page, module, settings);
    push_text(page, module, "dotenv-command", &settings.dotenv_command);
    push_text(page, module, "dotenv-filename", &settings.dotenv_filename);
    push_text(page, module, "dotenv-path", &settings.dotenv_path);
    push_text(page, module, "indentation", &settings.indentation);
    push_text(page, module, "tempdir", &settings.tempdir);
    let folder = &settings.working_directory;
    push_text(page, module, "working-directory", folder);
    push_interpreter(page, module, "shell", &settings.shell);
    let interpreter = &settings.script_interpreter;
    push_interpreter(page, module, "script-interpreter", interpreter);
}
