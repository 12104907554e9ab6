//! The kinds of shells.

ghost use Rattle.std.specs.Prelude.{◌≡◌};
ghost use Rattle.std.specs.Option.{option_map};
ghost use Rattle.just_exec_work.specs.Kinds.{kind_of, extension_of, takes_shell_name};

use super::cut::last_piece;

/// What a shell is, as far as its scripts and arguments go.
#[derive(Clone, Copy, PartialEq, Eq)]
pub enum ShellKind {
    /// The command prompt of Windows.
    Cmd,
    Other,
    Powershell,
}

impl ShellKind {
    /// The kind of the shell at a path, by the path's last piece at `/` or `\`.
    ///
    /// ```
    /// assert!(ShellKind::from("/bin/pwsh") == ShellKind::Powershell);
    /// ```
    pub fn from(name: &str) -> ShellKind
        ensures { result ≡ kind_of name.now }
    {
        match last_piece(name) {
            "cmd" | "cmd.exe" => ShellKind::Cmd,
            "powershell" | "powershell.exe" | "pwsh" | "pwsh.exe" => ShellKind::Powershell,
            _ => ShellKind::Other,
        }
    }

    /// How the name of a script ends that is run by such a shell, its dot included.
    ///
    /// ```
    /// assert!(ShellKind::Cmd.extension() == Some(".bat"));
    /// ```
    pub fn extension(self) -> Option<&'static str>
        ensures { option_map (λ t. t.now) result ≡ extension_of self }
    {
        match self {
            ShellKind::Cmd => Some(".bat"),
            ShellKind::Other => None,
            ShellKind::Powershell => Some(".ps1"),
        }
    }

    /// Whether such a shell takes the first argument behind a command as its own name.
    ///
    /// ```
    /// assert!(ShellKind::Other.takes_shell_name());
    /// ```
    pub fn takes_shell_name(self) -> bool
        ensures { result ≡ takes_shell_name self }
    {
        match self {
            ShellKind::Cmd => false,
            ShellKind::Other => true,
            ShellKind::Powershell => false,
        }
    }
}
