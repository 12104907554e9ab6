//! What runs a script.

ghost use Rattle.std.specs.Prelude.{◌≡◌, IfOk, string_bytes};
ghost use Rattle.std.specs.Option.{option_map};
ghost use Rattle.just_exec_work.specs.Cuts.{last_piece};
ghost use Rattle.just_exec_work.specs.Kinds.{kind_of};
ghost use Rattle.just_exec_work.specs.Scripts.{runner_of, program, script_name, needs_bom, byte_order_mark, script_text};
ghost use Rattle.just_exec_work.specs.Lines.{KeepsNumbers};

use super::cut::last_piece;
use super::placed::{placed_behind, shebang_count, shebang_text};
use super::{Shebang, ShellKind};
use just_host_record::ScriptText;
use just_lang_types::{BodyLine, Interpreter};
use just_path_text::{NoMemory, Text};
use std::alloc::Global;

/// What runs a script: a command, which takes the script's path behind its arguments, or the script itself, whose first line
/// names the interpreter.
#[derive(Drop)]
pub enum Executor<'l> {
    Command(Interpreter),
    Shebang(Shebang<'l>),
}

impl<'l> Executor<'l> {
    /// The last piece of a path at `/` or `\`.
    ///
    /// ```
    /// assert!(Executor::filename("/bin/sh") == "sh");
    /// ```
    pub fn filename(path: &str) -> &str
        ensures { result.now ≡ last_piece path.now }
    {
        last_piece(path)
    }

    /// The kind of the program that runs the script.
    fn shell_kind(&self) -> ShellKind
        ensures { result ≡ kind_of (program (runner_of self.now)) }
    {
        match self {
            Executor::Command(interpreter) => ShellKind::from(interpreter.command.as_str()),
            Executor::Shebang(shebang) => ShellKind::from(shebang.interpreter),
        }
    }

    /// Whether the script begins with the byte order mark: that of a command does where the command is a powershell, which would
    /// else take it for a text of another encoding.
    ///
    /// ```
    /// assert!(!Executor::Shebang(shebang).needs_bom());
    /// ```
    pub fn needs_bom(&self) -> bool
        ensures { result ≡ needs_bom (runner_of self.now) }
    {
        match self {
            Executor::Command(_) => self.shell_kind() == ShellKind::Powershell,
            Executor::Shebang(_) => false,
        }
    }

    /// The name of a recipe's script: the recipe's, and behind it the extension, its dot included. Without one the kind of
    /// the program decides.
    ///
    /// ```
    /// let name = executor.script_filename(alloc, "build", Some(".py"))?;
    /// ```
    pub fn script_filename(
        &self,
        alloc: Global,
        recipe: &str,
        extension: Option<&str>,
    ) -> Result<String, NoMemory>
        ensures { IfOk result (λ s. string_bytes s ≡ script_name (runner_of self.now) recipe.now (option_map (λ t. t.now) extension.entry)) }
    {
        let mut name = String::from_str(alloc, recipe)?;
        if let Some(end) = extension.or(self.shell_kind().extension()) {
            name.push_str(end)?;
        }
        Ok(name)
    }

    /// The byte order mark, where the script begins with it.
    fn byte_order_mark(&self, alloc: Global) -> Result<Text, NoMemory>
        ensures { IfOk result (λ t. t ≡ byte_order_mark (runner_of self.now)) }
    {
        let mark = if self.needs_bom() { "\u{FEFF}" } else { "" };
        Text::from_str(alloc, mark)
    }

    /// The text of the script of some lines. Those in front that begin with `#!` are the shebang of a script that is run by itself; they are
    /// left blank for `cmd.exe`. Each other line stands at its own number, blank lines filling in what is missing; those in front of the first
    /// such line take no memory.
    ///
    /// ```
    /// let text = executor.script_text(alloc, lines.as_slice())?;
    /// ```
    #[tactic(auto, using(crate::proofs::Numbering::script_keeps_numbers))]
    pub fn script_text(&self, alloc: Global, lines: &[BodyLine]) -> Result<ScriptText, NoMemory>
        ensures text { IfOk result (λ t. t ≡ script_text (runner_of self.now) lines.now) }
        ensures numbers { IfOk result (λ t. KeepsNumbers (runner_of self.now) lines.now t) }
    {
        match self {
            Executor::Command(_) => placed_behind(alloc, self.byte_order_mark(alloc)?, 0, lines),
            Executor::Shebang(shebang) => {
                let (front, rest) = lines.split_at(shebang_count(lines));
                let front_text = shebang_text(alloc, shebang.include_shebang_line(), front)?;
                placed_behind(alloc, front_text, front.len(), rest)
            }
        }
    }

    /// The same as one string.
    ///
    /// ```
    /// let text = executor.script(alloc, lines.as_slice())?;
    /// ```
    #[tactic(auto, using(crate::proofs::Numbering::script_keeps_numbers))]
    pub fn script(&self, alloc: Global, lines: &[BodyLine]) -> Result<String, NoMemory>
        ensures text { IfOk result (λ s. string_bytes s ≡ script_text (runner_of self.now) lines.now) }
        ensures numbers { IfOk result (λ s. KeepsNumbers (runner_of self.now) lines.now (string_bytes s)) }
    {
        self.script_text(alloc, lines)?.to_string(alloc)
    }
}
