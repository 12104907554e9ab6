//! A path is written to a format, and read from one, as its text.
ghost use Rattle.std.specs.Prelude.{OnOk, IfOk};
ghost use Rattle.serde.specs.Event.{Logs, text};
ghost use Rattle.serde.specs.Steps.{Gives};
ghost use Rattle.just_path.specs.Path.{text_of};

use super::{Utf8Path, Utf8PathBuf};
use serde::{Described, Deserialize, Deserializer, Format, Serialize, Serializer};
use std::alloc::Global;

impl<'a> Described for Utf8Path<'a> {
    ghost writes = { λ p old new. Logs old new (text (text_of p)) };
}

impl<'a> Serialize for Utf8Path<'a> {
    fn serialize<S: Serializer>(&self, out: &mut S) -> Result<(), S::Error> {
        out.str(self.as_str())
    }
}

impl Described for Utf8PathBuf {
    ghost writes = { λ p old new. Logs old new (text p) };
}

impl Serialize for Utf8PathBuf {
    fn serialize<S: Serializer>(&self, out: &mut S) -> Result<(), S::Error> {
        self.as_path().serialize(out)
    }
}

impl<'de> Deserialize<'de> for Utf8Path<'de> {
    /// An `Ok` is the text that was read, which the format must be able to lend.
    fn deserialize<F: Format>(
        alloc: Global,
        from: &mut Deserializer<'de, '_, F>,
    ) -> Result<Utf8Path<'de>, F::Error>
        ensures { IfOk result (λ p. Gives F.gives from.old (text (text_of p)) from.new) }
    {
        let text: &'de str = Deserialize::deserialize(alloc, from)?;
        Ok(Utf8Path::new(text))
    }
}

impl<'de> Deserialize<'de> for Utf8PathBuf {
    /// An `Ok` is the text that was read.
    fn deserialize<F: Format>(
        alloc: Global,
        from: &mut Deserializer<'de, '_, F>,
    ) -> Result<Utf8PathBuf, F::Error>
        ensures { IfOk result (λ p. Gives F.gives from.old (text p) from.new) }
    {
        let text: String = Deserialize::deserialize(alloc, from)?;
        Ok(Utf8PathBuf::from(text))
    }
}
