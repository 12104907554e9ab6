//! The comments directly above recipes and modules.
ghost use Rattle.std.specs.Prelude.{◌≡◌, ◌<◌, ℕ, Some, length, if◌then◌else◌, IfOk, OnOk};
ghost use Rattle.std.specs.Option.{MatchOption, option_copied};
ghost use Rattle.just_lang_shapes.specs.Comments.{without_blanks, said_by, said_in, is_place_of, is_at, found_at, comment_in, AreComments};

use just_lang_read::strip;
use just_lang_syntax::{AstItem, Name};
use just_path_text::NoMemory;
use std::alloc::Global;
use std::collections::BTreeMap;

/// A text without its first character, where that is a blank.
#[tactic(auto, using(crate::proofs::Blanks::space_says, crate::proofs::Blanks::space_shorter, crate::proofs::Blanks::tab_says, crate::proofs::Blanks::tab_shorter, crate::proofs::Blanks::no_blank))]
fn strip_blank(text: &str) -> Option<&str>
    ensures { MatchOption result (without_blanks text.now ≡ text.now) (λ x. (without_blanks text.now ≡ without_blanks x.now) × (length x.now < length text.now)) }
{
    match strip(text, ' ') {
        Some(rest) => Some(rest),
        None => match strip(text, '\t') {
            Some(rest) => Some(rest),
            None => None,
        },
    }
}

/// A text without the blanks in front.
fn without_blanks(text: &str) -> &str
    ensures { result.now ≡ without_blanks text.now }
{
    let mut rest = text;
    'blanks: while let Some(behind) = strip_blank(rest) {
        rest = behind;
    }
    rest
}

/// What a comment says: its text behind the `#` and the blanks there.
fn said_by(text: &str) -> &str
    ensures { result.now ≡ said_by text.now }
{
    match strip(text, '#') {
        Some(behind) => without_blanks(behind),
        None => without_blanks(text),
    }
}

/// What the item says of the one below it: a comment does.
fn said_in(item: &AstItem) -> Option<&str>
    ensures { option_copied result ≡ said_in item.now }
{
    match item {
        AstItem::Comment(text) => Some(said_by(text.as_str())),
        _ => None,
    }
}

/// What the comments say that stand directly above the recipes and modules of a file, by the places of their names.
#[derive(Drop)]
pub struct Comments<'a> {
    table: BTreeMap<(usize, usize), Option<&'a str>>,
}

/// Adds what stands above the recipe or module of that name.
fn insert<'a>(
    table: &mut BTreeMap<(usize, usize), Option<&'a str>>,
    name: &Name,
    above: Option<&'a str>,
) -> Result<(), NoMemory>
    ensures { OnOk result ((place : ℕ × ℕ) → found_at table.new place ≡ (if is_place_of place name.now then Some (option_copied above.entry) else found_at table.old place)) }
{
    table.insert((name.line, name.column), above)?;
    Ok(())
}

/// Adds what stands above the item, where this is a recipe or a module.
fn add<'a>(
    table: &mut BTreeMap<(usize, usize), Option<&'a str>>,
    item: &AstItem,
    above: Option<&'a str>,
) -> Result<(), NoMemory>
    ensures { OnOk result ((place : ℕ × ℕ) → found_at table.new place ≡ (if is_at place item.now then Some (option_copied above.entry) else found_at table.old place)) }
{
    match item {
        AstItem::Recipe(recipe) => insert(table, &recipe.get().name, above),
        AstItem::Module { name, .. } => insert(table, name, above),
        _ => Ok(()),
    }
}

/// What the comments among the items of a file say of recipes and modules.
pub fn comments_of<'a>(alloc: Global, items: &'a [AstItem]) -> Result<Comments<'a>, NoMemory>
    ensures { IfOk result (λ comments. AreComments items.now comments) }
{
    let mut table = BTreeMap::new(alloc);
    let mut above = None;
    'items: for item in items {
        add(&mut table, item, above)?;
        above = said_in(item);
    }
    Ok(Comments { table })
}

impl<'a> Comments<'a> {
    /// What the comment says that stands directly above the recipe or module of that name.
    pub fn above(&self, name: &Name) -> Option<&'a str>
        ensures { option_copied result ≡ comment_in self.now name.now }
    {
        match self.table.get(&(name.line, name.column)) {
            Some(above) => *above,
            None => None,
        }
    }
}
