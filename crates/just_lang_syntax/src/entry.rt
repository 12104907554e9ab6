//! The entries of a text: what stands in it line by line, before body lines are gathered into their recipes.
ghost use Rattle.std.specs.Prelude.{◌≡◌, reverse, IfOk};
ghost use Rattle.just_lang_read.specs.Reader.{Reads};
ghost use Rattle.just_lang_syntax.specs.File.{items_of, gather_one, gather_blank};
ghost use Rattle.just_lang_syntax.specs.declared.entry.Entry.TheVariants as entry;
ghost use Rattle.just_lang_syntax.specs.ItemReaders as read;
ghost use Rattle.just_lang_syntax.specs.Room.{may_be_item, most_items};

use super::body::{blanks, body_line, is_body_line};
use super::item::item;
use super::list::list_of;
use super::{AstItem, AstRecipe, Line};
use just_lang_read::{Blank, Boxed, Cursor, ReadError, blank_line, is_blank_line};
use just_path_text::{NoMemory, Seq};
use std::alloc::{AllocError, Global};
use std::mem;

/// An entry of a text.
pub enum Entry {
    /// A line of blanks, by its number.
    Blank(usize),
    /// An item that isn't a recipe.
    Item(Boxed<AstItem>),
    /// The line of a recipe, with its attributes; the body is empty.
    Recipe(Boxed<AstRecipe>),
    /// A line of the body of the recipe above.
    Line(Line),
}

impl Drop for Entry {
    fn drop(self) {
        match self {
            Entry::Blank(_) => {}
            Entry::Item(_) => {}
            Entry::Recipe(_) => {}
            Entry::Line(line) => drop(line),
        }
    }
}

impl Entry {
    ghost use Rattle.just_lang_syntax.specs.File.{behind_item};

    /// The body to which a line behind the entry may belong.
    fn body(&self) -> Body
        ensures { result ≡ behind_item self.now }
    {
        match self {
            Entry::Recipe(_) => Body::Begins,
            Entry::Blank(_) | Entry::Item(_) | Entry::Line(_) => Body::Closed,
        }
    }

    /// Adds the entry before those that were gathered: to the lines of a body or to the items, the last one first.
    #[tactic(auto, using(crate::proofs::Gather::reverse_last))]
    fn add_to(
        self,
        alloc: Global,
        lines: &mut Vec<Line>,
        items: &mut Vec<AstItem>,
    ) -> Result<(), NoMemory>
        ensures { IfOk result (λ u. (reverse lines.new.items, reverse items.new.items)
            ≡ gather_one self (reverse lines.old.items) (reverse items.old.items)) }
    {
        match self {
            Entry::Blank(number) => Ok(add_blank(alloc, number, lines, items)?),
            Entry::Item(item) => Ok(items.push(item.into_inner())?),
            Entry::Recipe(recipe) => add_recipe(alloc, recipe, lines, items),
            Entry::Line(line) => Ok(lines.push(line)?),
        }
    }
}

/// The body to which a line may belong.
pub enum Body {
    /// None.
    Closed,
    /// The one that would begin with this line.
    Begins,
    /// The one with this indentation.
    Open(Seq<u8>),
}

impl Drop for Body {
    fn drop(self) {
        match self {
            Body::Closed | Body::Begins => {}
            Body::Open(_) => {}
        }
    }
}

impl Body {
    ghost use Rattle.just_lang_syntax.specs.File.{behind_blank, indentation_at};

    /// The body to which a line behind a blank one may belong.
    fn behind_blank(self) -> Body
        ensures { result ≡ behind_blank self }
    {
        match self {
            Body::Closed | Body::Begins => Body::Closed,
            Body::Open(indentation) => Body::Open(indentation),
        }
    }

    /// The indentation that a line which begins here has in the body.
    fn indentation_at(
        self,
        alloc: Global,
        cursor: &Cursor<'_>,
    ) -> Result<Option<Seq<u8>>, AllocError>
        ensures { IfOk result (λ i. i ≡ indentation_at self cursor.now) }
    {
        match self {
            Body::Closed => Ok(None),
            Body::Begins => {
                if cursor.starts::<Blank>() {
                    Ok(Some(blanks(alloc, cursor)?))
                } else {
                    Ok(None)
                }
            }
            Body::Open(indentation) => Ok(Some(indentation)),
        }
    }
}

/// The entry that begins here, and the body to which the next line may belong.
#[tactic(auto, unfolding(crate::specs::ItemReaders::entry_at))]
pub fn read_entry(
    alloc: Global,
    cursor: &mut Cursor<'_>,
    body: Body,
) -> Result<(Entry, Body), ReadError>
    ensures { Reads (read.entry_at body cursor.old) result cursor.new }
{
    if is_blank_line(cursor) {
        let number = cursor.line();
        blank_line(cursor)?;
        return Ok((Entry::Blank(number), body.behind_blank()));
    }
    match body.indentation_at(alloc, cursor)? {
        Some(indentation) => line_or_item(alloc, cursor, indentation),
        None => entry_item(alloc, cursor),
    }
}

/// A line of the body with this indentation, or else an item.
fn line_or_item(
    alloc: Global,
    cursor: &mut Cursor<'_>,
    indentation: Seq<u8>,
) -> Result<(Entry, Body), ReadError>
    ensures { Reads (read.line_or_item indentation cursor.old) result cursor.new }
{
    if !is_body_line(cursor, indentation.as_slice()) {
        return entry_item(alloc, cursor);
    }
    let line = body_line(alloc, cursor, indentation.as_slice())?;
    Ok((Entry::Line(line), Body::Open(indentation)))
}

/// An item, and the body to which the next line may belong.
fn entry_item(alloc: Global, cursor: &mut Cursor<'_>) -> Result<(Entry, Body), ReadError>
    ensures { Reads (read.entry_item cursor.old) result cursor.new }
{
    let entry = item(alloc, cursor)?;
    let body = entry.body();
    Ok((entry, body))
}

/// The items of a text's entries: each recipe has the lines that follow it, and the blank lines between these.
#[tactic(auto, using(crate::proofs::Gather::gather_begin, crate::proofs::Gather::gather_last, crate::proofs::Gather::gather_end, crate::proofs::Gather::reverse_last))]
pub fn gather(alloc: Global, mut entries: Vec<Entry>) -> Result<Seq<AstItem>, NoMemory>
    ensures { IfOk result (λ items. items ≡ items_of entries.items) }
{
    let mut lines: Vec<Line> = Vec::new(alloc);
    let mut items: Vec<AstItem> = Vec::with_capacity(alloc, most_items(entries.as_slice()))?;
    'entries: while let Some(entry) = entries.pop() {
        entry.add_to(alloc, &mut lines, &mut items)?;
    }
    items.reverse();
    Ok(list_of(items))
}

/// How many items these entries make at most, so that room is taken for them once.
fn most_items(entries: &[Entry]) -> usize
    ensures { result ≡ most_items entries.now }
{
    entries.iter().filter(|entry| may_be_item(entry)).count()
}

/// Whether an entry may make an item: it is no line of a body.
fn may_be_item(entry: &Entry) -> bool
    ensures { result ≡ may_be_item entry.now }
{
    match entry {
        Entry::Blank(_) | Entry::Item(_) | Entry::Recipe(_) => true,
        Entry::Line(_) => false,
    }
}

/// Adds a recipe to the items, the last one first. The lines of a body are its own, and none are left.
#[tactic(auto, using(crate::proofs::Gather::reverse_last))]
fn add_recipe(
    alloc: Global,
    recipe: Boxed<AstRecipe>,
    lines: &mut Vec<Line>,
    items: &mut Vec<AstItem>,
) -> Result<(), NoMemory>
    ensures { IfOk result (λ u. (reverse lines.new.items, reverse items.new.items)
        ≡ gather_one (entry.Recipe recipe) (reverse lines.old.items) (reverse items.old.items)) }
{
    let body = mem::replace(lines, Vec::new(alloc));
    let whole = with_body(alloc, recipe, body)?;
    Ok(items.push(whole)?)
}

/// Adds a blank line: to the lines of a body, the last one first, where there are any, else to the items.
#[tactic(auto, using(crate::proofs::Gather::blank_item, crate::proofs::Gather::blank_line_more))]
fn add_blank(
    alloc: Global,
    number: usize,
    lines: &mut Vec<Line>,
    items: &mut Vec<AstItem>,
) -> Result<(), AllocError>
    ensures { IfOk result (λ u. (reverse lines.new.items, reverse items.new.items) ≡ gather_blank number (reverse lines.old.items) (reverse items.old.items)) }
{
    if lines.is_empty() {
        items.push(AstItem::Blank)?;
        return Ok(());
    }
    lines.push(Line {
        number,
        fragments: Seq::new(alloc),
    })?;
    Ok(())
}

/// A recipe with these lines as its body, the last one first.
fn with_body(
    alloc: Global,
    recipe: Boxed<AstRecipe>,
    mut lines: Vec<Line>,
) -> Result<AstItem, NoMemory>
    ensures { IfOk result (λ x. x ≡ AstItem.Recipe (record recipe { body = reverse lines.items })) }
{
    lines.reverse();
    let whole = recipe.into_inner().with_lines(list_of(lines));
    Ok(AstItem::Recipe(Boxed::new(alloc, whole)?))
}
