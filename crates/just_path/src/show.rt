//! Paths and their components print their text.
ghost use Rattle.std.specs.Prelude.{Some};
ghost use Rattle.std.specs.Fmt.{styled_text, debug_str};
ghost use Rattle.just_path.specs.Path.{text_of};
ghost use Rattle.just_path.specs.Comps.{comp_text};
ghost use Rattle.just_path.specs.Component.{comp_of};
ghost use Rattle.just_path.specs.Prefix.{prefix_text};

use super::{Utf8Component, Utf8Path, Utf8PathBuf, Utf8PrefixComponent};
use std::fmt;

impl<'a> fmt::Display for Utf8Path<'a> {
    ghost output = { λ p. Some (text_of p) };

    ghost styled_output = { λ p style. Some (styled_text style (text_of p)) };

    fn fmt<W: fmt::Write>(&self, f: &mut fmt::Formatter<W>) -> fmt::Result {
        f.pad(self.as_str())
    }
}

impl fmt::Display for Utf8PathBuf {
    ghost output = { λ p. Some p };

    ghost styled_output = { λ p style. Some (styled_text style p) };

    fn fmt<W: fmt::Write>(&self, f: &mut fmt::Formatter<W>) -> fmt::Result {
        f.pad(self.as_str())
    }
}

impl<'a> fmt::Display for Utf8Component<'a> {
    ghost output = { λ c. Some (comp_text (comp_of c)) };

    ghost styled_output = { λ c style. Some (styled_text style (comp_text (comp_of c))) };

    fn fmt<W: fmt::Write>(&self, f: &mut fmt::Formatter<W>) -> fmt::Result {
        f.pad(self.as_str())
    }
}

impl<'a> fmt::Display for Utf8PrefixComponent<'a> {
    ghost output = { λ p. Some (prefix_text p) };

    ghost styled_output = { λ p style. Some (styled_text style (prefix_text p)) };

    fn fmt<W: fmt::Write>(&self, f: &mut fmt::Formatter<W>) -> fmt::Result {
        f.pad(self.as_str())
    }
}

impl<'a> fmt::Debug for Utf8Path<'a> {
    ghost debug_output = { λ p. debug_str (text_of p) };

    fn fmt<W: fmt::Write>(&self, f: &mut fmt::Formatter<W>) -> fmt::Result {
        fmt::Debug::fmt(&self.as_str(), f)
    }
}

impl fmt::Debug for Utf8PathBuf {
    ghost debug_output = { λ p. debug_str p };

    fn fmt<W: fmt::Write>(&self, f: &mut fmt::Formatter<W>) -> fmt::Result {
        fmt::Debug::fmt(&self.as_str(), f)
    }
}
