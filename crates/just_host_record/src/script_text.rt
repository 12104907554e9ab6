//! The texts of scripts.
ghost use Rattle.std.specs.Prelude.{◌≡◌, ◌++◌, replicate, IfOk, OnOk, string_bytes};

use just_path_text::{NoMemory, Text, TryClone};
use std::alloc::Global;
use std::marker::Model;

/// The text of a script, which contracts see as the list of its bytes. A script's lines stand at the numbers that they have in the
/// justfile, so most of it may be blank lines in front of them: these are counted and not kept, so that the scripts of a project
/// take memory by their lines, wherever these stand.
///
/// ```
/// let text = ScriptText::new(Text::from_str(alloc, "#!/bin/sh\n")?, 3, Text::from_str(alloc, "ls\n")?);
/// assert!(text.to_string(alloc)?.as_str() == "#!/bin/sh\n\n\n\nls\n");
/// ```
pub struct ScriptText {
    front: Text,
    blank_lines: usize,
    rest: Text,
}

impl Drop for ScriptText {
    fn drop(self) {
        let ScriptText {
            front: _,
            blank_lines: _,
            rest: _,
        } = self;
    }
}

impl Model for ScriptText {
    ghost use Rattle.std.specs.Prelude.{ℕ, List, ◌++◌, replicate};

    ghost Value = { List ℕ };

    ghost view = { λ t. t.front ++ (replicate t.blank_lines 10 ++ t.rest) };
}

impl ScriptText {
    /// The text of a front, so many blank lines, and what stands behind them.
    ///
    /// ```
    /// let text = ScriptText::new(front, 15, rest);
    /// ```
    pub fn new(front: Text, blank_lines: usize, rest: Text) -> ScriptText
        ensures { result ≡ front ++ (replicate blank_lines 10 ++ rest) }
    {
        ScriptText {
            front,
            blank_lines,
            rest,
        }
    }

    /// That text, whatever it holds.
    ///
    /// ```
    /// let text = ScriptText::from_text(alloc, Text::from_str(alloc, "ls\n")?);
    /// ```
    pub fn from_text(alloc: Global, text: Text) -> ScriptText
        ensures { result ≡ text }
    {
        ScriptText::new(Text::from(String::new(alloc)), 0, text)
    }

    /// The text as one string.
    ///
    /// ```
    /// let whole = script.text.to_string(alloc)?;
    /// ```
    #[tactic(auto, using(crate::proofs::ThreeTexts::three_texts))]
    pub fn to_string(&self, alloc: Global) -> Result<String, NoMemory>
        ensures { IfOk result (λ s. string_bytes s ≡ self.now) }
    {
        let mut whole = String::from_str(alloc, self.front.as_str())?;
        push_blank_lines(&mut whole, self.blank_lines)?;
        whole.push_str(self.rest.as_str())?;
        Ok(whole)
    }

    /// A copy on the same allocators; it is equal to this text.
    ///
    /// ```
    /// let copy = script.text.try_clone()?;
    /// ```
    pub fn try_clone(&self) -> Result<ScriptText, NoMemory>
        ensures { IfOk result (λ t. t ≡ self.now) }
    {
        let front = self.front.try_clone()?;
        let rest = self.rest.try_clone()?;
        Ok(ScriptText::new(front, self.blank_lines, rest))
    }
}

impl TryClone for ScriptText {
    fn try_clone(&self) -> Result<ScriptText, NoMemory> {
        ScriptText::try_clone(self)
    }
}

/// Adds blank lines.
fn push_blank_lines(text: &mut String, count: usize) -> Result<(), NoMemory>
    ensures { OnOk result (string_bytes text.new ≡ string_bytes text.old ++ replicate count 10) }
{
    'count: for _at in 0..count {
        text.push_str("\n")?;
    }
    Ok(())
}
