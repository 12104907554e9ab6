//! Switches of options.
ghost use Rattle.std.specs.Prelude.{Some};

use just_path_text::{NoMemory, Text, TryClone};
use std::fmt;

/// A switch of an option, as a command line has it.
pub enum Switch {
    /// `--NAME`
    Long(Text),
    /// `-LETTER`
    Short(char),
}

impl Drop for Switch {
    fn drop(self) {
        match self {
            Switch::Long(_) => {}
            Switch::Short(_) => {}
        }
    }
}

impl TryClone for Switch {
    fn try_clone(&self) -> Result<Switch, NoMemory> {
        match self {
            Switch::Long(name) => Ok(Switch::Long(name.try_clone()?)),
            Switch::Short(letter) => Ok(Switch::Short(*letter)),
        }
    }
}

impl fmt::Display for Switch {
    ghost use Rattle.just_lang_types.specs.Switches.{switch_text};

    ghost output = { λ s. Some (switch_text s) };

    /// The switch with its dashes.
    fn fmt<W: fmt::Write>(&self, f: &mut fmt::Formatter<W>) -> fmt::Result {
        match self {
            Switch::Long(name) => {
                let name = name.as_str();
                write!(f, "--{name}")
            }
            Switch::Short(letter) => write!(f, "-{letter}"),
        }
    }
}
