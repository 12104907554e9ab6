//! An environment as a list of pairs.
ghost use Rattle.std.specs.Prelude.{◌≡◌};
ghost use Rattle.std.specs.Option.{option_copied};
ghost use Rattle.just_path_text.specs.Environ.{value_of, home_of};

use super::{Seq, Text};

/// An environment: its pairs of a name and a value, in order. Of several pairs of one name the last counts.
#[derive(Debug, Drop)]
pub struct Environ {
    pub pairs: Seq<(Text, Text)>,
}

impl Environ {
    /// The value of the last pair of that name; none exactly where there is no such pair.
    ///
    /// ```
    /// // of A=1, A=2
    /// assert!(environ.get("A") == Some("2"));
    /// ```
    pub fn get(&self, name: &str) -> Option<&str>
        ensures { option_copied result ≡ value_of name.now self.now.pairs }
    {
        let mut found: Option<&str> = None;
        for pair in self.pairs.as_slice() {
            if pair.0.as_str() == name {
                found = Some(pair.1.as_str());
            }
        }
        found
    }

    /// `HOME`, where it isn't empty.
    ///
    /// ```
    /// assert!(environ.home() == environ.get("HOME").filter(|home| !home.is_empty()));
    /// ```
    pub fn home(&self) -> Option<&str>
        ensures { option_copied result ≡ home_of self.now.pairs }
    {
        match self.get("HOME") {
            Some("") => None,
            found => found,
        }
    }
}
