//! The expansion of a text's variables: its pieces, put out one by one.
ghost use Rattle.std.specs.Prelude.{◌≡◌, ◌++◌, ◌∷◌, [], List, ℕ, Ok, Err, Some, MatchResult, IfOk, if◌then◌else◌, string_bytes};
ghost use Rattle.std.specs.Cow.{IsBorrowedStr};
ghost use Rattle.just_expand.specs.Bytes.{dollar_sign};
ghost use Rattle.just_expand.specs.Pieces.{piece_text, Lacks};
ghost use Rattle.just_expand.specs.Expansion.{question, own_text, text_without_value, outcome, MayAsk, ExpandsTo};
ghost use Rattle.std.specs.Fn.{TakesAt, CalledAt};
ghost use Rattle.just_expand.specs.Code.{piece_of, AnswersWithMemory, PutsOrFails, PutsPiece};
ghost use Rattle.just_expand.specs.Contexts.{reply_of, IsCause, IsExpansion};

use crate::error::{Expand, LookupError};
use crate::piece::{Piece, split_piece};
use just_path_text::NoMemory;
use std::alloc::{AllocError, Global};
use std::borrow::CowStr;

/// Puts two texts out, one behind the other.
fn put_two(out: &mut String, first: &str, second: &str) -> Result<(), AllocError>
    ensures { IfOk result (λ _. string_bytes out.new ≡ string_bytes out.old ++ (first.now ++ second.now)) }
{
    out.push_str(first)?;
    out.push_str(second)
}

/// Puts three texts out, one behind the other.
fn put_three(out: &mut String, first: &str, second: &str, third: &str) -> Result<(), AllocError>
    ensures { IfOk result (λ _. string_bytes out.new ≡ string_bytes out.old ++ (first.now ++ (second.now ++ third.now))) }
{
    put_two(out, first, second)?;
    out.push_str(third)
}

/// Puts a piece out as it is written.
fn put_piece_text(out: &mut String, piece: Piece<'_>) -> Result<(), AllocError>
    ensures { IfOk result (λ _. string_bytes out.new ≡ string_bytes out.old ++ piece_text (piece_of piece.entry)) }
{
    match piece {
        Piece::Plain(text) => out.push_str(text),
        Piece::Dollar => out.push_str("$$"),
        Piece::Bare(name) => put_two(out, "$", name),
        Piece::Braced(name) => put_three(out, "${", name, "}"),
        Piece::Defaulted(name, default) => {
            put_three(out, "${", name, ":-")?;
            put_two(out, default, "}")
        }
        Piece::Unclosed => out.push_str("${"),
        Piece::Lone => out.push_str("$"),
    }
}

/// Puts out a piece that asks for nothing.
fn put_own_text(out: &mut String, piece: Piece<'_>) -> Result<(), AllocError>
    ensures { IfOk result (λ _. string_bytes out.new ≡ string_bytes out.old ++ own_text (piece_of piece.entry)) }
{
    match piece {
        Piece::Dollar => out.push_str("$"),
        _ => put_piece_text(out, piece),
    }
}

/// Puts out a piece whose name has no value.
fn put_text_without_value(out: &mut String, piece: Piece<'_>) -> Result<(), AllocError>
    ensures { IfOk result (λ _. string_bytes out.new ≡ string_bytes out.old ++ text_without_value (piece_of piece.entry)) }
{
    match piece {
        Piece::Defaulted(_, default) => out.push_str(default),
        _ => put_piece_text(out, piece),
    }
}

/// Puts out what a piece that asks for `name` becomes by the answer.
fn put_outcome<E: Drop>(
    alloc: Global,
    out: &mut String,
    piece: Piece<'_>,
    name: &str,
    reply: Result<Option<String>, E>,
) -> Result<(), Expand<E>>
    ensures { PutsOrFails (string_bytes out.old) (string_bytes out.new) name.now (outcome (piece_of piece.entry) (reply_of reply)) result }
{
    match reply {
        Ok(Some(value)) => out.push_str(value.as_str())?,
        Ok(None) => put_text_without_value(out, piece)?,
        Err(cause) => match piece {
            Piece::Defaulted(_, default) => out.push_str(default)?,
            _ => {
                let var_name = String::from_str(alloc, name)?;
                return Err(Expand::Lookup(LookupError { var_name, cause }));
            }
        },
    }
    Ok(())
}

/// Asks the context for a name.
fn ask<C, E>(context: &mut C, name: &str) -> Result<Result<Option<String>, E>, NoMemory>
where
    C: FnMut(&str) -> Result<Result<Option<String>, E>, NoMemory>,
    requires { TakesAt C.FnMut context.old name.now }
    ensures { CalledAt C.FnMut context.old name.now result context.new }
{
    context(name)
}

/// Puts a piece out as its own text, or as what the context's answer to its question makes of it.
fn put_piece<C, E>(
    alloc: Global,
    out: &mut String,
    context: &mut C,
    piece: Piece<'_>,
) -> Result<(), Expand<E>>
where
    C: FnMut(&str) -> Result<Result<Option<String>, E>, NoMemory>,
    E: Drop,
    requires { (n : List ℕ) → question (piece_of piece) ≡ Some n → TakesAt C.FnMut context.old n }
    ensures { PutsPiece (AnswersWithMemory C.FnMut) context.old (string_bytes out.old) (piece_of piece.entry) context.new (string_bytes out.new) result }
{
    match piece.question() {
        None => Ok(put_own_text(out, piece)?),
        Some(name) => {
            let reply = ask(context, name)?;
            put_outcome(alloc, out, piece, name, reply)
        }
    }
}

/// Expands the text's variables. `context` answers the names; it may itself be out of memory.
pub(crate) fn expand<C, E>(alloc: Global, input: &str, mut context: C) -> Result<String, Expand<E>>
where
    C: FnMut(&str) -> Result<Result<Option<String>, E>, NoMemory> + Drop,
    E: Drop,
    requires { MayAsk (AnswersWithMemory C.FnMut) (TakesAt C.FnMut) context input.now }
    ensures { MatchResult result (λ out. ExpandsTo (AnswersWithMemory C.FnMut) context input.now (string_bytes out)) (IsCause (AnswersWithMemory C.FnMut) context input.now) }
{
    let mut out = String::with_capacity(alloc, input.len())?;
    let mut rest = input;
    let mut may_close = true;
    while let Some((piece, behind)) = split_piece(rest, may_close) {
        match put_piece(alloc, &mut out, &mut context, piece) {
            Ok(()) => {}
            Err(error) => return Err(error),
        }
        may_close = may_close && !piece.is_unclosed();
        rest = behind;
    }
    Ok(out)
}

/// Expands the text's variables; a text without `$` is answered as it stands.
pub(crate) fn expand_text<'a, C, E>(
    alloc: Global,
    input: &'a str,
    context: C,
) -> Result<CowStr<'a, Global>, Expand<E>>
where
    C: FnMut(&str) -> Result<Result<Option<String>, E>, NoMemory> + Drop,
    E: Drop,
    requires { MayAsk (AnswersWithMemory C.FnMut) (TakesAt C.FnMut) context input.now }
    ensures expanded { IsExpansion (AnswersWithMemory C.FnMut) context input.now result }
    ensures borrowed { Lacks dollar_sign input.now → result ≡ Ok (CowStr.Borrowed input.entry) }
    ensures owned { IfOk result (λ text. IsBorrowedStr text → Lacks dollar_sign input.now) }
{
    if !input.contains('$') {
        return Ok(CowStr::Borrowed(input));
    }
    match expand(alloc, input, context) {
        Ok(out) => Ok(CowStr::Owned(out)),
        Err(error) => Err(error),
    }
}
