//! Owned texts: a `String` that contracts see as the list of its bytes.
ghost use Rattle.std.specs.Prelude.{◌≡◌, ◌↔◌, IsTrue, IfOk, Some, string_bytes, IsUtf8};
ghost use Rattle.std.specs.Str.{bytes_eq};
ghost use Rattle.std.specs.Ordering.{nat_cmp};
ghost use Rattle.std.specs.Cmp;
ghost use Rattle.std.specs.Cmp.Lexicographic.{slice_cmp, nat_list_eq_equiv, nat_list_cmp_total, texts_ties, texts_po};
ghost use Rattle.std.specs.Cmp.Rules.{hashing};
ghost use Rattle.std.specs.Hash as fed;
ghost use Rattle.std.proofs.Common.{refl, rules};

use super::{NoMemory, TryClone};
use arrayvec::ArrayString;
use std::alloc::Global;
use std::cmp::Ordering;
use std::hash::{Hash, Hasher};
use std::marker::Model;

/// An owned text that contracts see as the list of its bytes. Texts are compared, ordered and hashed as these lists.
///
/// ```
/// let some = Text::from_str(alloc, "a")?;
/// let other = some.try_clone()?;
/// assert!(some == other && some.as_str() == "a");
/// ```
#[derive(Debug)]
pub struct Text {
    kept: Kept,
}

impl Drop for Text {
    fn drop(self) {
        let Text { kept: _ } = self;
    }
}

/// How a text is kept: a short one in place, a longer one on the heap.
#[derive(Debug, Drop)]
enum Kept {
    Short(ArrayString<16>),
    Long(String),
}

impl Model for Text {
    ghost use Rattle.std.specs.Prelude.{ℕ, List, string_bytes};

    ghost Value = { List ℕ };

    ghost use Rattle.just_path_text.specs.Texts.{kept_bytes};

    ghost view = { λ t. kept_bytes t.kept };
}

impl From<String> for Text {
    ghost from_gives = { λ s t. t ≡ string_bytes s };

    /// The text of a string, without taking memory.
    fn from(string: String) -> Text
        ensures { result ≡ string_bytes string }
    {
        let kept = match ArrayString::from(string.as_str()) {
            Ok(short) => Kept::Short(short),
            Err(_) => Kept::Long(string),
        };
        Text { kept }
    }
}

impl Text {
    /// A copy of a borrowed text.
    ///
    /// ```
    /// assert!(Text::from_str(alloc, "a")?.as_str() == "a");
    /// ```
    pub fn from_str(alloc: Global, text: &str) -> Result<Text, NoMemory>
        ensures { IfOk result (λ t. t ≡ text.now) }
    {
        let kept = match ArrayString::from(text) {
            Ok(short) => Kept::Short(short),
            Err(_) => Kept::Long(String::from_str(alloc, text)?),
        };
        Ok(Text { kept })
    }

    /// The text, borrowed.
    ///
    /// ```
    /// assert!(Text::from_str(alloc, "a")?.as_str() == "a");
    /// ```
    pub fn as_str(&self) -> &str
        ensures { result.now ≡ self.now }
    {
        match &self.kept {
            Kept::Short(short) => short.as_str(),
            Kept::Long(string) => string.as_str(),
        }
    }

    /// A copy on the same allocator; it is equal to this text.
    ///
    /// ```
    /// assert!(text.try_clone()? == text);
    /// ```
    pub fn try_clone(&self) -> Result<Text, NoMemory>
        ensures { IfOk result (λ t. t ≡ self.now) }
    {
        let kept = match &self.kept {
            Kept::Short(short) => Kept::Short(*short),
            Kept::Long(string) => Kept::Long(string.clone()?),
        };
        Ok(Text { kept })
    }

    /// The text as a string of its own.
    ///
    /// ```
    /// let string = text.to_string(alloc)?;
    /// ```
    pub fn to_string(&self, alloc: Global) -> Result<String, NoMemory>
        ensures { IfOk result (λ s. string_bytes s ≡ self.now) }
    {
        Ok(String::from_str(alloc, self.as_str())?)
    }
}

impl TryClone for Text {
    fn try_clone(&self) -> Result<Text, NoMemory> {
        Text::try_clone(self)
    }
}

impl PartialEq for Text {
    ghost eq = { bytes_eq };

    ghost laws = { Cmp.partial_equiv_from_equiv nat_list_eq_equiv };

    /// Whether both are the same text.
    fn eq(&self, other: &Text) -> bool
        ensures eq { result ≡ bytes_eq self.now other.now }
        ensures same { IsTrue result ↔ (self.now ≡ other.now) }
    {
        self.as_str() == other.as_str()
    }
}

impl Eq for Text {
    ghost laws = { nat_list_eq_equiv };
}

impl PartialOrd for Text {
    ghost partial_cmp = { λ x y. Some (slice_cmp nat_cmp x y) };

    ghost laws = { texts_po };

    fn partial_cmp(&self, other: &Text) -> Option<Ordering> {
        Some(self.as_str().cmp(other.as_str()))
    }
}

impl Ord for Text {
    ghost cmp = { slice_cmp nat_cmp };

    ghost total = { nat_list_cmp_total };

    ghost matches_partial_cmp = { λ x y. refl };

    ghost matches_eq = { λ x y. texts_ties x y };

    /// The order of the bytes.
    fn cmp(&self, other: &Text) -> Ordering {
        self.as_str().cmp(other.as_str())
    }
}

impl Hash for Text {
    ghost hash_input = { λ t. fed.str t };

    ghost respects_eq = { Prim.search (hashing, rules) };

    fn hash<H: Hasher>(&self, state: &mut H) {
        self.as_str().hash(state);
    }
}
