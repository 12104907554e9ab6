//! Attributes: lines of them in brackets, and what may stand behind the name of each.
ghost use Rattle.std.specs.Prelude.{◌≡◌, ◌++◌, true, false, [], IfOk};
ghost use Rattle.just_lang_read.specs.Reader.{Reads};
ghost use Rattle.just_lang_syntax.specs.Attributes.{goes_on, is_keyed, attribute_of, with_comment, has_key, may_cache, may_have};
ghost use Rattle.just_lang_syntax.specs.Collected.{ReadsVec};
ghost use Rattle.just_lang_syntax.specs.ItemReaders as read;

use super::expr::{LEVELS, expr};
use super::form::{Form, KeyForm, form_of, is_cache_key, key_form};
use super::list::{add, list_of};
use super::string::string;
use super::token::{name, rest};
use super::{Argument, Attribute, Expr, Name};
use just_lang_read::{Cursor, NameStart, ReadError, behind_word, decimal, skip, token};
use just_path_text::{Seq, Text};
use std::alloc::{AllocError, Global};

/// The attributes before an item, line by line.
#[tactic(auto, using(crate::proofs::AttributeLoops::lines_begin, crate::proofs::AttributeLoops::lines_more, crate::proofs::AttributeLoops::lines_done, crate::proofs::AttributeLoops::lines_wrong, crate::proofs::AttributeLoops::lines_shorter))]
pub fn attributes(alloc: Global, cursor: &mut Cursor<'_>) -> Result<Seq<Attribute>, ReadError>
    ensures { Reads (read.attributes cursor.old) result cursor.new }
{
    let mut found = Vec::new(alloc);
    'lines: while cursor.begins(b"[") {
        match attribute_line(alloc, cursor) {
            Ok(line) => append(&mut found, line)?,
            Err(refused) => return Err(refused),
        }
    }
    Ok(list_of(found))
}

/// Adds attributes behind others. The first ones take room for themselves alone.
fn append(found: &mut Vec<Attribute>, mut line: Vec<Attribute>) -> Result<(), AllocError>
    ensures { IfOk result (λ u. found.new.items ≡ found.old.items ++ line.items) }
{
    if found.is_empty() {
        found.reserve_exact(line.len())?;
    }
    found.append(&mut line)
}

/// A line of attributes in brackets, with the comment behind it, and the blanks in front of the next line.
#[tactic(auto, unfolding(crate::specs::ItemReaders::attribute_line))]
fn attribute_line(alloc: Global, cursor: &mut Cursor<'_>) -> Result<Vec<Attribute>, ReadError>
    ensures { ReadsVec (read.attribute_line cursor.old) result cursor.new }
{
    token(cursor, b"[")?;
    let mut found = attribute_list(alloc, cursor)?;
    token(cursor, b"]")?;
    let comment = rest(alloc, cursor)?;
    skip(cursor);
    comment_last(&mut found, comment)?;
    Ok(found)
}

/// Gives the last attribute its comment.
#[tactic(auto, using(crate::proofs::Comments::comment_last, crate::proofs::Comments::comment_none))]
fn comment_last(found: &mut Vec<Attribute>, comment: Option<Text>) -> Result<(), AllocError>
    ensures { IfOk result (λ u. found.new.items ≡ with_comment comment found.old.items) }
{
    match found.pop() {
        Some(last) => Ok(found.push(last.commented(comment))?),
        None => {
            drop(comment);
            Ok(())
        }
    }
}

/// Attributes with commas between them, at least one.
#[tactic(auto, using(crate::proofs::AttributeLoops::list_begin, crate::proofs::AttributeLoops::list_more, crate::proofs::AttributeLoops::list_done, crate::proofs::AttributeLoops::list_wrong, crate::proofs::AttributeLoops::list_shorter, crate::proofs::AttributeLoops::list_refused))]
fn attribute_list(alloc: Global, cursor: &mut Cursor<'_>) -> Result<Vec<Attribute>, ReadError>
    ensures { ReadsVec (read.attribute_list cursor.old) result cursor.new }
{
    let first = attribute(alloc, cursor)?;
    let mut found = Vec::new(alloc);
    add(&mut found, first)?;
    'attributes: while cursor.begins(b",") {
        match further_attribute(alloc, cursor) {
            Ok(next) => add(&mut found, next)?,
            Err(refused) => return Err(refused),
        }
    }
    Ok(found)
}

/// A comma and an attribute.
#[tactic(auto, unfolding(crate::specs::ItemReaders::further_attribute))]
fn further_attribute(alloc: Global, cursor: &mut Cursor<'_>) -> Result<Attribute, ReadError>
    ensures { Reads (read.further_attribute cursor.old) result cursor.new }
{
    token(cursor, b",")?;
    attribute(alloc, cursor)
}

/// An attribute: its name, and what its form has behind it.
#[tactic(auto, unfolding(crate::specs::ItemReaders::attribute))]
fn attribute(alloc: Global, cursor: &mut Cursor<'_>) -> Result<Attribute, ReadError>
    ensures { Reads (read.attribute cursor.old) result cursor.new }
{
    let name = name(alloc, cursor)?;
    let form = form_of(name.text.as_str());
    if cursor.begins(b":") {
        let arguments = colon_argument(alloc, cursor, form)?;
        return Ok(attribute_of(name, true, arguments));
    }
    if cursor.begins(b"(") {
        let arguments = arguments(alloc, cursor, form)?;
        return Ok(attribute_of(name, false, arguments));
    }
    if !form.may_be_bare() {
        return Err(ReadError::Syntax);
    }
    Ok(attribute_of(name, false, Seq::new(alloc)))
}

/// The attribute of these parts. The comment behind its line isn't read yet.
fn attribute_of(name: Name, colon: bool, arguments: Seq<Argument>) -> Attribute
    ensures { result ≡ attribute_of name colon arguments }
{
    Attribute {
        name,
        colon,
        arguments,
        comment: None,
    }
}

/// A colon and one string.
fn colon_argument(
    alloc: Global,
    cursor: &mut Cursor<'_>,
    form: Form,
) -> Result<Seq<Argument>, ReadError>
    ensures { Reads (read.colon_argument form cursor.old) result cursor.new }
{
    if !form.has_colon() {
        return Err(ReadError::Syntax);
    }
    token(cursor, b":")?;
    let line = cursor.line();
    let column = cursor.column();
    let value = string(alloc, cursor)?;
    let mut found = Vec::new(alloc);
    let only = Argument {
        key: None,
        line,
        column,
        value: Expr::Literal(value),
    };
    add(&mut found, only)?;
    Ok(list_of(found))
}

/// Whether a comma and a further argument stand here.
fn goes_on(cursor: &Cursor<'_>) -> bool
    ensures { result ≡ goes_on cursor.now }
{
    if !cursor.begins(b",") {
        return false;
    }
    let mut ahead = cursor.copied();
    ahead.step();
    skip(&mut ahead);
    !ahead.begins(b")")
}

/// A comma, or nothing.
#[tactic(auto, unfolding(crate::specs::ItemReaders::trailing))]
pub fn trailing(cursor: &mut Cursor<'_>) -> Result<(), ReadError>
    ensures { Reads (read.trailing cursor.old) result cursor.new }
{
    if cursor.begins(b",") {
        token(cursor, b",")
    } else {
        Ok(())
    }
}

/// The arguments of an attribute in parentheses.
#[tactic(auto, unfolding(crate::specs::ItemReaders::arguments))]
fn arguments(alloc: Global, cursor: &mut Cursor<'_>, form: Form) -> Result<Seq<Argument>, ReadError>
    ensures { Reads (read.arguments form cursor.old) result cursor.new }
{
    token(cursor, b"(")?;
    let found = argument_list(alloc, cursor, form)?;
    trailing(cursor)?;
    token(cursor, b")")?;
    Ok(found)
}

/// Arguments with commas between them, at least one.
#[tactic(auto, using(crate::proofs::AttributeLoops::arguments_begin, crate::proofs::AttributeLoops::arguments_more, crate::proofs::AttributeLoops::arguments_done, crate::proofs::AttributeLoops::arguments_wrong, crate::proofs::AttributeLoops::arguments_shorter, crate::proofs::AttributeLoops::arguments_refused))]
fn argument_list(
    alloc: Global,
    cursor: &mut Cursor<'_>,
    form: Form,
) -> Result<Seq<Argument>, ReadError>
    ensures { Reads (read.argument_list form cursor.old) result cursor.new }
{
    let first = argument(alloc, cursor, form, &[])?;
    let mut found = Vec::new(alloc);
    add(&mut found, first)?;
    'arguments: while goes_on(cursor) {
        match further_argument(alloc, cursor, form, found.as_slice()) {
            Ok(next) => add(&mut found, next)?,
            Err(refused) => return Err(refused),
        }
    }
    Ok(list_of(found))
}

/// A comma and an argument behind these.
#[tactic(auto, unfolding(crate::specs::ItemReaders::further_argument))]
fn further_argument(
    alloc: Global,
    cursor: &mut Cursor<'_>,
    form: Form,
    earlier: &[Argument],
) -> Result<Argument, ReadError>
    ensures { Reads (read.further_argument form earlier.now cursor.old) result cursor.new }
{
    token(cursor, b",")?;
    argument(alloc, cursor, form, earlier)
}

/// The next argument of an attribute of that form.
#[tactic(auto, unfolding(crate::specs::ItemReaders::argument))]
fn argument(
    alloc: Global,
    cursor: &mut Cursor<'_>,
    form: Form,
    earlier: &[Argument],
) -> Result<Argument, ReadError>
    ensures { Reads (read.argument form earlier.now cursor.old) result cursor.new }
{
    match form {
        Form::Bare => Err(ReadError::Syntax),
        Form::MaybeText | Form::Text => first_text(alloc, cursor, earlier),
        Form::Texts => plain(alloc, cursor, None),
        Form::Arg => match earlier {
            [] => plain(alloc, cursor, None),
            [_, keys @ ..] => option(alloc, cursor, keys),
        },
        Form::Cache => cached(alloc, cursor, earlier),
        Form::Open => {
            if is_keyed(cursor) {
                keyed(alloc, cursor)
            } else {
                plain(alloc, cursor, None)
            }
        }
    }
}

/// The one text of an attribute.
fn first_text(
    alloc: Global,
    cursor: &mut Cursor<'_>,
    earlier: &[Argument],
) -> Result<Argument, ReadError>
    ensures { Reads (read.first_text earlier.now cursor.old) result cursor.new }
{
    if earlier.is_empty() {
        plain(alloc, cursor, None)
    } else {
        Err(ReadError::Syntax)
    }
}

/// An expression as the argument with that key.
#[tactic(auto, unfolding(crate::specs::ItemReaders::plain))]
fn plain(alloc: Global, cursor: &mut Cursor<'_>, key: Option<Name>) -> Result<Argument, ReadError>
    ensures { Reads (read.plain key cursor.old) result cursor.new }
{
    let line = cursor.line();
    let column = cursor.column();
    match expr(alloc, cursor, LEVELS) {
        Ok(value) => Ok(Argument {
            key,
            line,
            column,
            value,
        }),
        Err(refused) => {
            drop(key);
            Err(refused)
        }
    }
}

/// Whether a key and its `=` stand here.
fn is_keyed(cursor: &Cursor<'_>) -> bool
    ensures { result ≡ is_keyed cursor.now }
{
    cursor.starts::<NameStart>() && behind_word(cursor).begins(b"=")
}

/// A key and an expression.
#[tactic(auto, unfolding(crate::specs::ItemReaders::keyed))]
fn keyed(alloc: Global, cursor: &mut Cursor<'_>) -> Result<Argument, ReadError>
    ensures { Reads (read.keyed cursor.old) result cursor.new }
{
    let key = name(alloc, cursor)?;
    token(cursor, b"=")?;
    plain(alloc, cursor, Some(key))
}

/// Whether `cache` may have this key behind these arguments.
fn may_cache(earlier: &[Argument], key: &str) -> bool
    ensures { result ≡ may_cache earlier.now key.now }
{
    is_cache_key(key) && !(key == "extra" && has_key(earlier, key))
}

/// Whether `arg` may have this key behind these arguments.
fn may_have(earlier: &[Argument], key: &str) -> bool
    ensures { result ≡ may_have earlier.now key.now }
{
    key == "pattern" || !has_key(earlier, key)
}

/// An argument of `cache`: a key that it may have, and an expression.
#[tactic(auto, unfolding(crate::specs::ItemReaders::cached))]
fn cached(
    alloc: Global,
    cursor: &mut Cursor<'_>,
    earlier: &[Argument],
) -> Result<Argument, ReadError>
    ensures { Reads (read.cached earlier.now cursor.old) result cursor.new }
{
    let key = name(alloc, cursor)?;
    if !may_cache(earlier, key.text.as_str()) {
        return Err(ReadError::Syntax);
    }
    token(cursor, b"=")?;
    plain(alloc, cursor, Some(key))
}

/// A key of `arg`, alone or with its value.
#[tactic(auto, unfolding(crate::specs::ItemReaders::option))]
fn option(
    alloc: Global,
    cursor: &mut Cursor<'_>,
    earlier: &[Argument],
) -> Result<Argument, ReadError>
    ensures { Reads (read.option earlier.now cursor.old) result cursor.new }
{
    let line = cursor.line();
    let column = cursor.column();
    let key = name(alloc, cursor)?;
    if !may_have(earlier, key.text.as_str()) {
        return Err(ReadError::Syntax);
    }
    let form = key_form(key.text.as_str());
    if cursor.begins(b"=") {
        return valued(alloc, cursor, form, key);
    }
    if !form.may_stand_alone() {
        return Err(ReadError::Syntax);
    }
    Ok(Argument {
        key: None,
        line,
        column,
        value: Expr::Variable(key),
    })
}

/// The value of a key of `arg`.
fn valued(
    alloc: Global,
    cursor: &mut Cursor<'_>,
    form: KeyForm,
    key: Name,
) -> Result<Argument, ReadError>
    ensures { Reads (read.valued form key cursor.old) result cursor.new }
{
    match form {
        KeyForm::Value | KeyForm::Either => {
            token(cursor, b"=")?;
            plain(alloc, cursor, Some(key))
        }
        KeyForm::Number => {
            token(cursor, b"=")?;
            number(alloc, cursor, key)
        }
        KeyForm::Alone | KeyForm::Unknown => Err(ReadError::Syntax),
    }
}

/// A string that holds a decimal number.
#[tactic(auto, unfolding(crate::specs::ItemReaders::number_argument))]
fn number(alloc: Global, cursor: &mut Cursor<'_>, key: Name) -> Result<Argument, ReadError>
    ensures { Reads (read.number_argument key cursor.old) result cursor.new }
{
    let line = cursor.line();
    let column = cursor.column();
    let value = string(alloc, cursor)?;
    let text = value.text(alloc)?;
    let fits = decimal(text.as_str()).is_some();
    drop(text);
    if !fits {
        return Err(ReadError::Syntax);
    }
    Ok(Argument {
        key: Some(key),
        line,
        column,
        value: Expr::Literal(value),
    })
}

/// Whether one of the arguments has this key, with a value or alone.
pub fn has_key(arguments: &[Argument], key: &str) -> bool
    ensures { result ≡ has_key arguments.now key.now }
{
    'arguments: for argument in arguments {
        if argument.is_of_key(key) {
            return true;
        }
    }
    false
}
