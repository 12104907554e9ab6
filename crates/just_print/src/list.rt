//! Lists of texts in prose.
ghost use Rattle.std.specs.Prelude.{◌≡◌, ◌<◌, Some, codes, length};
ghost use Rattle.std.specs.Fmt.{WritesOnOk};
ghost use Rattle.just_print.specs.SmallTexts.{list_text, before_item, item_text};

use just_path_text::Text;
use std::fmt;

/// Texts in backquotes, as prose has them: `a`; `a` and `b`; `a`, `b`, and `c`.
#[derive(Clone, Copy, Drop)]
pub struct List<'a> {
    pub items: &'a [Text],
    /// The word before the last one.
    pub conjunction: &'a str,
}

impl<'a> List<'a> {
    /// With `and` before the last one.
    pub fn and_ticked(items: &'a [Text]) -> List<'a>
        ensures items { result.items.now ≡ items.now }
        ensures word { result.conjunction.now ≡ codes "and" }
    {
        List {
            items,
            conjunction: "and",
        }
    }

    /// With `or` before the last one.
    pub fn or_ticked(items: &'a [Text]) -> List<'a>
        ensures items { result.items.now ≡ items.now }
        ensures word { result.conjunction.now ≡ codes "or" }
    {
        List {
            items,
            conjunction: "or",
        }
    }
}

impl<'a> fmt::Display for List<'a> {
    ghost output = { λ l. Some (list_text l.conjunction.now l.items.now) };

    fn fmt<W: fmt::Write>(&self, f: &mut fmt::Formatter<W>) -> fmt::Result {
        write_list(self.items, self.conjunction, f)
    }
}

/// Writes what stands before the item at a place, in a list of so many.
fn write_before<W: fmt::Write>(
    word: &str,
    count: usize,
    at: usize,
    f: &mut fmt::Formatter<W>,
) -> fmt::Result
    requires { at < count }
    ensures { WritesOnOk W.write_str_gives f.old result (before_item word.now count at) f.new }
{
    if at == 0 {
        return Ok(());
    }
    if at + 1 < count {
        return f.write_str(", ");
    }
    if count == 2 {
        write!(f, " {word} ")
    } else {
        write!(f, ", {word} ")
    }
}

/// Writes the item at a place, and what stands before it.
fn write_item<W: fmt::Write>(
    items: &[Text],
    word: &str,
    at: usize,
    f: &mut fmt::Formatter<W>,
) -> fmt::Result
    requires { at < length items.now }
    ensures { WritesOnOk W.write_str_gives f.old result (item_text word.now items.now at) f.new }
{
    write_before(word, items.len(), at, f)?;
    write!(f, "`{}`", items[at].as_str())
}

/// Writes the texts with what parts them.
#[tactic(auto, using(crate::proofs::ListLaws::item_here))]
fn write_list<W: fmt::Write>(items: &[Text], word: &str, f: &mut fmt::Formatter<W>) -> fmt::Result
    ensures { WritesOnOk W.write_str_gives f.old result (list_text word.now items.now) f.new }
{
    'items: for at in 0..items.len() {
        write_item(items, word, at, f)?;
    }
    Ok(())
}
