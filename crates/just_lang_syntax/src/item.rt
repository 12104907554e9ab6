//! Items: which one begins at a place, and the items that aren't recipes.
ghost use Rattle.std.specs.Prelude.{◌≡◌, ◌&&◌, ◌||◌, IfOk, codes};
ghost use Rattle.just_lang_read.specs.Place.{begins};
ghost use Rattle.just_lang_read.specs.Quotes.{begins_string};
ghost use Rattle.just_lang_read.specs.Lines.{is_word, behind_word};
ghost use Rattle.just_lang_read.specs.Reader.{Reads};
ghost use Rattle.just_lang_syntax.specs.Items.{is_assignment, is_last_name, is_module, opening_at, opens_module, goes_on};
ghost use Rattle.just_lang_syntax.specs.ItemReaders as read;

use super::attribute::{attributes, trailing};
use super::entry::Entry;
use super::expr::{LEVELS, expr};
use super::form::{Sort, sort_of};
use super::list::{add, list_of};
use super::recipe::recipe_line;
use super::string::string;
use super::token::{comment, name, path, rest};
use super::{AstItem, Attribute, SettingValue, StringLiteral};
use just_lang_read::{
    Boxed, Cursor, NameStart, ReadError, begins_string, behind_word, is_rest, is_word, maybe, skip,
    token, word,
};
use just_path_text::Seq;
use std::alloc::{AllocError, Global};

/// The items by what they begin with.
#[derive(Clone, Copy)]
pub enum Opening {
    Comment,
    Alias,
    Import,
    Module,
    Export,
    Assignment,
    Unexport,
    Setting,
    Recipe,
}

/// Whether a name and `:=` stand here.
fn is_assignment(cursor: &Cursor<'_>) -> bool
    ensures { result ≡ is_assignment cursor.now }
{
    cursor.starts::<NameStart>() && behind_word(cursor).begins(b":=")
}

/// Whether a `?` stands here, or a name with a string or the end of the line behind it.
fn is_module(cursor: &Cursor<'_>) -> bool
    ensures { result ≡ is_module cursor.now }
{
    if cursor.begins(b"?") {
        return true;
    }
    let ahead = behind_word(cursor);
    cursor.starts::<NameStart>() && (begins_string(&ahead) || is_rest(&ahead))
}

/// Whether a name stands here with the end of the line behind it.
fn is_last_name(cursor: &Cursor<'_>) -> bool
    ensures { result ≡ is_last_name cursor.now }
{
    cursor.starts::<NameStart>() && is_rest(&behind_word(cursor))
}

/// Whether this word stands here, with an assignment behind it.
fn opens_assignment(cursor: &Cursor<'_>, front: &[u8]) -> bool
    ensures { result ≡ (is_word front.now cursor.now && is_assignment (behind_word cursor.now)) }
{
    is_word(cursor, front) && is_assignment(&behind_word(cursor))
}

/// Whether this word stands here, with a last name behind it.
fn opens_last_name(cursor: &Cursor<'_>, front: &[u8]) -> bool
    ensures { result ≡ (is_word front.now cursor.now && is_last_name (behind_word cursor.now)) }
{
    is_word(cursor, front) && is_last_name(&behind_word(cursor))
}

/// Whether `import` stands here, with a `?` or a string behind it.
fn opens_import(cursor: &Cursor<'_>) -> bool
    ensures { result ≡ (is_word (codes "import") cursor.now
        && (begins (codes "?") (behind_word cursor.now) || begins_string (behind_word cursor.now))) }
{
    if !is_word(cursor, b"import") {
        return false;
    }
    let ahead = behind_word(cursor);
    ahead.begins(b"?") || begins_string(&ahead)
}

/// Whether `set` stands here, with an assignment or a last name behind it.
fn opens_setting(cursor: &Cursor<'_>) -> bool
    ensures { result ≡ (is_word (codes "set") cursor.now
        && (is_assignment (behind_word cursor.now) || is_last_name (behind_word cursor.now))) }
{
    if !is_word(cursor, b"set") {
        return false;
    }
    let ahead = behind_word(cursor);
    is_assignment(&ahead) || is_last_name(&ahead)
}

/// Whether a module stands here, behind attributes; else it is a recipe.
fn opens_module(cursor: &Cursor<'_>) -> bool
    ensures { result ≡ opens_module cursor.now }
{
    is_word(cursor, b"mod") && is_module(&behind_word(cursor))
}

/// Which item begins here. No word is reserved: what follows it tells.
pub fn opening_at(cursor: &Cursor<'_>) -> Opening
    ensures { result ≡ opening_at cursor.now }
{
    if cursor.sees('#') {
        return Opening::Comment;
    }
    if is_assignment(cursor) {
        return Opening::Assignment;
    }
    if opens_assignment(cursor, b"alias") {
        return Opening::Alias;
    }
    if opens_assignment(cursor, b"export") {
        return Opening::Export;
    }
    if opens_last_name(cursor, b"unexport") {
        return Opening::Unexport;
    }
    if opens_import(cursor) {
        return Opening::Import;
    }
    if opens_module(cursor) {
        return Opening::Module;
    }
    if opens_setting(cursor) {
        return Opening::Setting;
    }
    Opening::Recipe
}

/// The item, or the line of a recipe, that stands here.
#[tactic(auto, unfolding(crate::specs::ItemReaders::item_at))]
pub fn item(alloc: Global, cursor: &mut Cursor<'_>) -> Result<Entry, ReadError>
    ensures { Reads (read.item_at cursor.old) result cursor.new }
{
    match opening_at(cursor) {
        Opening::Comment => {
            let text = comment(alloc, cursor)?;
            Ok(entry_of(alloc, AstItem::Comment(text))?)
        }
        Opening::Alias => alias(alloc, cursor),
        Opening::Import => import(alloc, cursor),
        Opening::Module => module(alloc, cursor, Seq::new(alloc)),
        Opening::Export => {
            token(cursor, b"export")?;
            assignment(alloc, cursor, true)
        }
        Opening::Assignment => assignment(alloc, cursor, false),
        Opening::Unexport => unexport(alloc, cursor),
        Opening::Setting => setting(alloc, cursor),
        Opening::Recipe => attributed(alloc, cursor),
    }
}

/// The entry of an item that isn't a recipe.
fn entry_of(alloc: Global, item: AstItem) -> Result<Entry, AllocError>
    ensures { IfOk result (λ x. x ≡ Entry.Item item) }
{
    Ok(Entry::Item(Boxed::new(alloc, item)?))
}

/// Attributes, and the module or the recipe that has them.
#[tactic(auto, unfolding(crate::specs::ItemReaders::attributed))]
fn attributed(alloc: Global, cursor: &mut Cursor<'_>) -> Result<Entry, ReadError>
    ensures { Reads (read.attributed cursor.old) result cursor.new }
{
    let attributes = attributes(alloc, cursor)?;
    if opens_module(cursor) {
        return module(alloc, cursor, attributes);
    }
    let recipe = recipe_line(alloc, cursor, attributes)?;
    Ok(Entry::Recipe(Boxed::new(alloc, recipe)?))
}

#[tactic(auto, unfolding(crate::specs::ItemReaders::alias))]
fn alias(alloc: Global, cursor: &mut Cursor<'_>) -> Result<Entry, ReadError>
    ensures { Reads (read.as_item read.alias cursor.old) result cursor.new }
{
    token(cursor, b"alias")?;
    let name = name(alloc, cursor)?;
    token(cursor, b":=")?;
    let target = path(alloc, cursor)?;
    let comment = rest(alloc, cursor)?;
    let item = AstItem::Alias {
        name,
        target,
        comment,
    };
    Ok(entry_of(alloc, item)?)
}

#[tactic(auto, unfolding(crate::specs::ItemReaders::import))]
fn import(alloc: Global, cursor: &mut Cursor<'_>) -> Result<Entry, ReadError>
    ensures { Reads (read.as_item read.import cursor.old) result cursor.new }
{
    token(cursor, b"import")?;
    let optional = maybe(cursor, b"?")?;
    let path = string(alloc, cursor)?;
    let comment = rest(alloc, cursor)?;
    let item = AstItem::Import {
        optional,
        path,
        comment,
    };
    Ok(entry_of(alloc, item)?)
}

#[tactic(auto, unfolding(crate::specs::ItemReaders::module_item))]
fn module(
    alloc: Global,
    cursor: &mut Cursor<'_>,
    attributes: Seq<Attribute>,
) -> Result<Entry, ReadError>
    ensures { Reads (read.as_item (read.module_item attributes) cursor.old) result cursor.new }
{
    token(cursor, b"mod")?;
    let optional = maybe(cursor, b"?")?;
    let name = name(alloc, cursor)?;
    let path = module_path(alloc, cursor)?;
    let comment = rest(alloc, cursor)?;
    let item = AstItem::Module {
        attributes,
        optional,
        name,
        path,
        comment,
    };
    Ok(entry_of(alloc, item)?)
}

/// The string behind a module's name, if there is one.
#[tactic(auto, unfolding(crate::specs::ItemReaders::module_path))]
fn module_path(alloc: Global, cursor: &mut Cursor<'_>) -> Result<Option<StringLiteral>, ReadError>
    ensures { Reads (read.module_path cursor.old) result cursor.new }
{
    if begins_string(cursor) {
        let found = string(alloc, cursor)?;
        Ok(Some(found))
    } else {
        Ok(None)
    }
}

#[tactic(auto, unfolding(crate::specs::ItemReaders::assignment))]
fn assignment(alloc: Global, cursor: &mut Cursor<'_>, export: bool) -> Result<Entry, ReadError>
    ensures { Reads (read.as_item (read.assignment export) cursor.old) result cursor.new }
{
    let name = name(alloc, cursor)?;
    token(cursor, b":=")?;
    let value = expr(alloc, cursor, LEVELS)?;
    match rest(alloc, cursor) {
        Ok(comment) => {
            let item = AstItem::Assignment {
                export,
                name,
                value,
                comment,
            };
            Ok(entry_of(alloc, item)?)
        }
        Err(refused) => {
            drop(value);
            Err(refused)
        }
    }
}

#[tactic(auto, unfolding(crate::specs::ItemReaders::unexport))]
fn unexport(alloc: Global, cursor: &mut Cursor<'_>) -> Result<Entry, ReadError>
    ensures { Reads (read.as_item read.unexport cursor.old) result cursor.new }
{
    token(cursor, b"unexport")?;
    let name = name(alloc, cursor)?;
    let comment = rest(alloc, cursor)?;
    Ok(entry_of(alloc, AstItem::Unexport { name, comment })?)
}

#[tactic(auto, unfolding(crate::specs::ItemReaders::setting_item))]
fn setting(alloc: Global, cursor: &mut Cursor<'_>) -> Result<Entry, ReadError>
    ensures { Reads (read.as_item read.setting_item cursor.old) result cursor.new }
{
    token(cursor, b"set")?;
    let name = name(alloc, cursor)?;
    let value = setting_value(alloc, cursor, sort_of(name.text.as_str()))?;
    let comment = rest(alloc, cursor)?;
    let item = AstItem::Setting {
        name,
        value,
        comment,
    };
    Ok(entry_of(alloc, item)?)
}

/// What stands behind the name of a setting of that sort.
#[tactic(auto, unfolding(crate::specs::ItemReaders::setting_value))]
fn setting_value(
    alloc: Global,
    cursor: &mut Cursor<'_>,
    sort: Sort,
) -> Result<Option<SettingValue>, ReadError>
    ensures { Reads (read.setting_value sort cursor.old) result cursor.new }
{
    if !cursor.begins(b":=") {
        return match sort {
            Sort::Flag | Sort::Open => Ok(None),
            Sort::Text | Sort::List => Err(ReadError::Syntax),
        };
    }
    token(cursor, b":=")?;
    let value = value_of(alloc, cursor, sort)?;
    Ok(Some(value))
}

/// A value of that sort.
fn value_of(alloc: Global, cursor: &mut Cursor<'_>, sort: Sort) -> Result<SettingValue, ReadError>
    ensures { Reads (read.value_of sort cursor.old) result cursor.new }
{
    match sort {
        Sort::Flag => {
            let flag = truth(cursor)?;
            Ok(SettingValue::Bool(flag))
        }
        Sort::Text => text_value(alloc, cursor),
        Sort::List => list_value(alloc, cursor),
        Sort::Open => open_value(alloc, cursor),
    }
}

fn text_value(alloc: Global, cursor: &mut Cursor<'_>) -> Result<SettingValue, ReadError>
    ensures { Reads (read.text_value cursor.old) result cursor.new }
{
    let value = expr(alloc, cursor, LEVELS)?;
    Ok(SettingValue::Text(value))
}

fn list_value(alloc: Global, cursor: &mut Cursor<'_>) -> Result<SettingValue, ReadError>
    ensures { Reads (read.list_value cursor.old) result cursor.new }
{
    let values = strings(alloc, cursor)?;
    Ok(SettingValue::List(values))
}

/// A value of a setting that isn't known.
fn open_value(alloc: Global, cursor: &mut Cursor<'_>) -> Result<SettingValue, ReadError>
    ensures { Reads (read.open_value cursor.old) result cursor.new }
{
    if cursor.begins(b"[") {
        list_value(alloc, cursor)
    } else {
        text_value(alloc, cursor)
    }
}

/// `true` or `false`
#[tactic(auto, unfolding(crate::specs::ItemReaders::truth))]
fn truth(cursor: &mut Cursor<'_>) -> Result<bool, ReadError>
    ensures { Reads (read.truth cursor.old) result cursor.new }
{
    if is_word(cursor, b"true") {
        word(cursor, b"true")?;
        Ok(true)
    } else {
        word(cursor, b"false")?;
        Ok(false)
    }
}

/// Whether a comma and a further string stand here.
fn goes_on(cursor: &Cursor<'_>) -> bool
    ensures { result ≡ goes_on cursor.now }
{
    if !cursor.begins(b",") {
        return false;
    }
    let mut ahead = cursor.copied();
    ahead.step();
    skip(&mut ahead);
    begins_string(&ahead)
}

/// A comma and a string.
#[tactic(auto, unfolding(crate::specs::ItemReaders::further_string))]
fn further_string(alloc: Global, cursor: &mut Cursor<'_>) -> Result<StringLiteral, ReadError>
    ensures { Reads (read.further_string cursor.old) result cursor.new }
{
    token(cursor, b",")?;
    string(alloc, cursor)
}

/// Strings in brackets.
#[tactic(auto, unfolding(crate::specs::ItemReaders::strings))]
fn strings(alloc: Global, cursor: &mut Cursor<'_>) -> Result<Seq<StringLiteral>, ReadError>
    ensures { Reads (read.strings cursor.old) result cursor.new }
{
    token(cursor, b"[")?;
    let found = some_strings(alloc, cursor)?;
    token(cursor, b"]")?;
    Ok(found)
}

/// Strings with commas between them, and maybe one behind them; or nothing.
#[tactic(auto, unfolding(crate::specs::ItemReaders::some_strings))]
fn some_strings(alloc: Global, cursor: &mut Cursor<'_>) -> Result<Seq<StringLiteral>, ReadError>
    ensures { Reads (read.some_strings cursor.old) result cursor.new }
{
    if !begins_string(cursor) {
        return Ok(Seq::new(alloc));
    }
    let found = string_list(alloc, cursor)?;
    trailing(cursor)?;
    Ok(found)
}

/// Strings with commas between them, at least one.
#[tactic(auto, using(crate::proofs::AttributeLoops::strings_begin, crate::proofs::AttributeLoops::strings_more, crate::proofs::AttributeLoops::strings_done, crate::proofs::AttributeLoops::strings_wrong, crate::proofs::AttributeLoops::strings_shorter, crate::proofs::AttributeLoops::strings_refused))]
fn string_list(alloc: Global, cursor: &mut Cursor<'_>) -> Result<Seq<StringLiteral>, ReadError>
    ensures { Reads (read.string_list cursor.old) result cursor.new }
{
    let first = string(alloc, cursor)?;
    let mut found = Vec::new(alloc);
    add(&mut found, first)?;
    'strings: while goes_on(cursor) {
        match further_string(alloc, cursor) {
            Ok(next) => add(&mut found, next)?,
            Err(refused) => return Err(refused),
        }
    }
    Ok(list_of(found))
}
