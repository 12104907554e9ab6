//! What the kind of an option says of it.

use super::Kind;

impl Kind {
    ghost use Rattle.std.specs.Prelude.{◌≡◌};
    ghost use Rattle.just_config_words.specs.Kinds.{is_once, is_command, is_help, is_version, is_left_out};

    /// Whether it may stand at most once.
    pub(crate) fn is_once(self) -> bool
        ensures { result ≡ is_once self }
    {
        matches!(self, Kind::Flag | Kind::Single)
    }

    /// Whether it says what is done in place of a run.
    pub(crate) fn is_command(self) -> bool
        ensures { result ≡ is_command self }
    {
        matches!(self, Kind::Command)
    }

    /// Whether it asks for the help.
    pub(crate) fn is_help(self) -> bool
        ensures { result ≡ is_help self }
    {
        matches!(self, Kind::Help)
    }

    /// Whether it asks for the version.
    pub(crate) fn is_version(self) -> bool
        ensures { result ≡ is_version self }
    {
        matches!(self, Kind::Version)
    }

    /// Whether it is an option of `just` that isn't read here.
    pub(crate) fn is_left_out(self) -> bool
        ensures { result ≡ is_left_out self }
    {
        matches!(self, Kind::LeftOut)
    }
}
