//! The first line of a script that names its interpreter.

ghost use Rattle.std.specs.Prelude.{◌≡◌};
ghost use Rattle.std.specs.Option.{option_map};
ghost use Rattle.just_exec_work.specs.Cuts.{last_piece};
ghost use Rattle.just_exec_work.specs.Shebangs.{shebang, named_of, keeps_shebang_lines};

use super::cut::{first_line, last_piece, split_at_blank};

/// The interpreter that the first line of a script names.
///
/// ```
/// let shebang = Shebang::new("#!/usr/bin/env python3");
/// // the interpreter is `/usr/bin/env`, the argument `python3`
/// ```
#[derive(Clone, Copy, Drop)]
pub struct Shebang<'l> {
    /// All that is behind the first blank behind the interpreter: it is handed on as one argument.
    pub argument: Option<&'l str>,
    pub interpreter: &'l str,
}

impl<'l> Shebang<'l> {
    /// What the first line of a text says behind its `#!`; none where it doesn't begin so, or names no interpreter. White space around it
    /// goes.
    ///
    /// ```
    /// assert!(Shebang::new("#!").is_none());
    /// ```
    pub fn new(line: &'l str) -> Option<Shebang<'l>>
        ensures { option_map named_of result ≡ shebang line.now }
    {
        let text = line.strip_prefix("#!")?;
        let (interpreter, argument) = split_at_blank(first_line(text).trim());
        if interpreter.is_empty() {
            return None;
        }
        Some(Shebang {
            argument,
            interpreter,
        })
    }

    /// The interpreter's last piece at `/` or `\`.
    ///
    /// ```
    /// assert!(shebang.interpreter_filename() == "env");
    /// ```
    pub fn interpreter_filename(&self) -> &'l str
        ensures { result.now ≡ last_piece self.now.interpreter.now }
    {
        last_piece(self.interpreter)
    }

    /// Whether the script keeps the lines in front that begin with `#!`. `cmd.exe` would take them for commands.
    ///
    /// ```
    /// assert!(shebang.include_shebang_line());
    /// ```
    pub fn include_shebang_line(&self) -> bool
        ensures { result ≡ keeps_shebang_lines (named_of self.now) }
    {
        !matches!(self.interpreter_filename(), "cmd" | "cmd.exe")
    }
}
