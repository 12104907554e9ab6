//! Signals that end a run.
ghost use Rattle.std.specs.Prelude.{◌≡◌, ◌+◌, ℕ, List, Some, true, pos, ok_or, IfOk};
ghost use Rattle.just_host_record.specs.declared.signal.Signal.{Signal};
ghost use Rattle.just_host_record.specs.Signals.{number_of, name_of, all, named, numbered};

use std::fmt;

/// A signal that ends a run.
#[derive(Clone, Copy, Debug, PartialEq, Eq)]
pub enum Signal {
    Hangup,
    Interrupt,
    Quit,
    Terminate,
}

impl Signal {
    pub const ALL: [Signal; 4] = [
        Signal::Hangup,
        Signal::Interrupt,
        Signal::Quit,
        Signal::Terminate,
    ];

    /// The number of the signal on Linux.
    pub fn number(self) -> i32
        ensures { result ≡ pos (number_of self) }
    {
        match self {
            Signal::Hangup => 1,
            Signal::Interrupt => 2,
            Signal::Quit => 3,
            Signal::Terminate => 15,
        }
    }

    /// The exit code of a run that the signal ended: 128 and its number.
    pub fn code(self) -> i32
        ensures { result ≡ pos (128 + number_of self) }
    {
        match self {
            Signal::Hangup => 129,
            Signal::Interrupt => 130,
            Signal::Quit => 131,
            Signal::Terminate => 143,
        }
    }

    /// Whether the signal ends a run. Each does.
    pub fn is_fatal(self) -> bool
        ensures { result ≡ true }
    {
        true
    }

    /// The signal of that name, but for SIGTERM, which no name asks for.
    pub fn from_name(name: &str) -> Option<Signal>
        ensures { result ≡ named name.now }
    {
        match name {
            "SIGHUP" => Some(Signal::Hangup),
            "SIGINT" => Some(Signal::Interrupt),
            "SIGQUIT" => Some(Signal::Quit),
            _ => None,
        }
    }

    fn name(self) -> &'static str
        ensures { result.now ≡ name_of self }
    {
        match self {
            Signal::Hangup => "SIGHUP",
            Signal::Interrupt => "SIGINT",
            Signal::Quit => "SIGQUIT",
            Signal::Terminate => "SIGTERM",
        }
    }
}

/// The signal of that number, else the number.
impl TryFrom<u8> for Signal {
    type Error = u8;

    ghost try_from_gives = { λ n r. r ≡ ok_or (numbered n) n };

    fn try_from(number: u8) -> Result<Signal, u8> {
        match number {
            1 => Ok(Signal::Hangup),
            2 => Ok(Signal::Interrupt),
            3 => Ok(Signal::Quit),
            15 => Ok(Signal::Terminate),
            _ => Err(number),
        }
    }
}

impl fmt::Display for Signal {
    ghost output = { λ s. Some (name_of s) };

    fn fmt<W: fmt::Write>(&self, f: &mut fmt::Formatter<W>) -> fmt::Result {
        f.write_str(self.name())
    }
}
