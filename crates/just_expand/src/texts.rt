//! The calls over texts that expand variables.
ghost use Rattle.std.specs.Prelude.{◌≡◌, Ok, IfOk};
ghost use Rattle.std.specs.Cow.{IsBorrowedStr};
ghost use Rattle.std.specs.Fn.{TakesAt, CalledAt};
ghost use Rattle.just_path_text.specs.Environ.{value_of};
ghost use Rattle.just_expand.specs.Bytes.{dollar_sign};
ghost use Rattle.just_expand.specs.Pieces.{Lacks, HasOneCut};
ghost use Rattle.just_expand.specs.Expansion.{MayAsk, AsksNothing};
ghost use Rattle.just_expand.specs.Code.{IsCallOf, IsLookup};
ghost use Rattle.just_expand.specs.Contexts.{Answers, AnswersWithoutError, EnvironAnswers, IsExpansion, IsSureExpansion};

use crate::error::{Expand, NotPresent};
use crate::expand::expand_text;
use just_path_text::{Environ, NoMemory};
use std::alloc::Global;
use std::borrow::CowStr;
use std::convert::Infallible;

/// What a call is given, and answers where it borrows: a reference to a text.
pub type Xstr<'a> = &'a str;

/// A part of a text: a reference too.
pub type Wstr<'a> = &'a str;

/// A text as it is read: a reference too.
pub type WInput<'a> = &'a str;

/// Expands the variables of a text by `context`, which is asked for each name in turn, from left to right.
///
/// Answers the text with each variable as it becomes by rules 1 to 6 of the crate's head: borrowed where it has no `$`, and else
/// a new text. `context(name)` answers `Ok(Some(value))`; `Ok(None)`, where the name has no value; or an error. An error at a name
/// without a default is the answer: [`Expand::Lookup`] with the name and the error, and nothing behind it is asked for. The other
/// refusal is want of memory, [`Expand::NoMemory`].
///
/// Condition: `context` may be asked for the names of the text in their turn (`MayAsk`). A closure without a `requires` may always
/// be.
///
/// ```
/// let context = |name: &str| -> Result<Option<String>, NotPresent> {
///     if name == "A" {
///         Ok(String::from_str(alloc, "x").ok())
///     } else {
///         Ok(None)
///     }
/// };
/// let text = env_with_context(alloc, "$A-${N:-b}-$N", context)?; // "x-b-$N"
/// ```
pub fn env_with_context<'a, C, E>(
    alloc: Global,
    input: &'a str,
    mut context: C,
) -> Result<CowStr<'a, Global>, Expand<E>>
where
    C: FnMut(&str) -> Result<Option<String>, E> + Drop,
    E: Drop,
    requires { MayAsk (Answers C.FnMut) (TakesAt C.FnMut) context input.now }
    ensures one_cut { HasOneCut input.now }
    ensures expanded { IsExpansion (Answers C.FnMut) context input.now result }
    ensures unasked { Lacks dollar_sign input.now → AsksNothing (Answers C.FnMut) context input.now }
    ensures borrowed { Lacks dollar_sign input.now → result ≡ Ok (CowStr.Borrowed input.entry) }
    ensures owned { IfOk result (λ text. IsBorrowedStr text → Lacks dollar_sign input.now) }
{
    expand_text(
        alloc,
        input,
        |name: &str| -> Result<Result<Option<String>, E>, NoMemory>
            requires { TakesAt C.FnMut context name.now }
            ensures { IsCallOf (CalledAt C.FnMut context.entry name.now) result context.exit }
        { Ok(context(name)) },
    )
}

/// Expands the variables of a text by a `context` that gives no errors.
///
/// As [`env_with_context`], but for a closure that answers each name with a value or with `None`: so the one refusal is want of
/// memory.
///
/// Condition: as there.
///
/// ```
/// let x = |_name: &str| String::from_str(alloc, "x").ok();
/// let text = env_with_context_no_errors(alloc, "a$B", x)?; // "ax"
/// ```
pub fn env_with_context_no_errors<'a, C>(
    alloc: Global,
    input: &'a str,
    mut context: C,
) -> Result<CowStr<'a, Global>, NoMemory>
where
    C: FnMut(&str) -> Option<String> + Drop,
    requires { MayAsk (AnswersWithoutError C.FnMut) (TakesAt C.FnMut) context input.now }
    ensures one_cut { HasOneCut input.now }
    ensures expanded { IsSureExpansion (AnswersWithoutError C.FnMut) context input.now result }
    ensures unasked { Lacks dollar_sign input.now → AsksNothing (AnswersWithoutError C.FnMut) context input.now }
    ensures borrowed { Lacks dollar_sign input.now → result ≡ Ok (CowStr.Borrowed input.entry) }
    ensures owned { IfOk result (λ text. IsBorrowedStr text → Lacks dollar_sign input.now) }
{
    let expanded = env_with_context(
        alloc,
        input,
        |variable: &str| -> Result<Option<String>, Infallible>
            requires { TakesAt C.FnMut context variable.now }
            ensures { IsCallOf (CalledAt C.FnMut context.entry variable.now) result context.exit }
        { Ok(context(variable)) },
    );
    match expanded {
        Ok(text) => Ok(text),
        Err(Expand::Lookup(error)) => match error.cause {},
        Err(Expand::NoMemory) => Err(NoMemory),
    }
}

/// The environment's answer to a name: its value, or that it isn't there.
fn look_up(
    alloc: Global,
    environ: &Environ,
    name: &str,
) -> Result<Result<Option<String>, NotPresent>, NoMemory>
    ensures { IsLookup (value_of name.now environ.now.pairs) result }
{
    match environ.get(name) {
        None => Ok(Err(NotPresent)),
        Some(value) => {
            let copy = String::from_str(alloc, value)?;
            Ok(Ok(Some(copy)))
        }
    }
}

/// Expands the variables of a text by the environment.
///
/// Answers the text with each variable as it becomes by rules 1 to 6 of the crate's head: borrowed where it has no `$`, and else
/// a new text. A name that the environment doesn't have is refused, unless it has a default: [`Expand::Lookup`], with the name and
/// [`NotPresent`]. The other refusal is want of memory, [`Expand::NoMemory`]. There is no condition.
///
/// ```
/// // in an environment where A is `x`, and N isn't there
/// let text = env(alloc, "$A-${N:-b}", &environ)?; // "x-b"
/// let refused = env(alloc, "$A$N", &environ); // error looking key 'N' up: environment variable not found
/// ```
pub fn env<'a>(
    alloc: Global,
    input: &'a str,
    environ: &Environ,
) -> Result<CowStr<'a, Global>, Expand<NotPresent>>
    ensures one_cut { HasOneCut input.now }
    ensures expanded { IsExpansion EnvironAnswers environ.now.pairs input.now result }
    ensures unasked { Lacks dollar_sign input.now → AsksNothing EnvironAnswers environ.now.pairs input.now }
    ensures borrowed { Lacks dollar_sign input.now → result ≡ Ok (CowStr.Borrowed input.entry) }
    ensures owned { IfOk result (λ text. IsBorrowedStr text → Lacks dollar_sign input.now) }
{
    expand_text(
        alloc,
        input,
        |name: &str| -> Result<Result<Option<String>, NotPresent>, NoMemory>
            ensures { IsLookup (value_of name.now environ.entry.now.pairs) result × (environ.exit.now.pairs ≡ environ.entry.now.pairs) }
        { look_up(alloc, environ, name) },
    )
}
