//! A word that many options share.
ghost use Rattle.std.specs.Prelude.{◌≡◌, IfOk};

use just_path_text::{NoMemory, Text};
use std::alloc::Global;
use std::marker::Model;
use std::rc::Rc;

/// A word of the command line, or the name of a variable: one text, which all options share that it gives. Contracts see it as the list of
/// its bytes.
pub struct Word {
    kept: Rc<Text>,
}

impl Drop for Word {
    fn drop(self) {
        let Word { kept: _ } = self;
    }
}

impl Model for Word {
    ghost use Rattle.std.specs.Prelude.{ℕ, List};

    ghost Value = { List ℕ };

    ghost view = { λ w. w.kept.value };
}

impl Word {
    /// The word with this text.
    pub(crate) fn new(alloc: Global, text: &str) -> Result<Word, NoMemory>
        ensures { IfOk result (λ w. w ≡ text.now) }
    {
        let text = Text::from_str(alloc, text)?;
        let kept = Rc::new(alloc, text)?;
        Ok(Word { kept })
    }

    /// The same word for a further option; its text isn't copied.
    pub(crate) fn share(&self) -> Result<Word, NoMemory>
        ensures { IfOk result (λ w. w ≡ self.now) }
    {
        let kept = self.kept.clone()?;
        Ok(Word { kept })
    }

    /// Its text.
    pub(crate) fn text(&self) -> &Text
        ensures { result.now ≡ self.now }
    {
        self.kept.as_ref()
    }
}
