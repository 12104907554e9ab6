//! The same eight calls over paths: each answers what the call of its name at the crate's top answers over the path's text.
//!
//! A path that was given is a `Utf8Path`, and an answer is [`Expanded`]: the same path borrowed, where the call over texts borrows,
//! or a new `Utf8PathBuf`. The refusals and the conditions are those of the calls over texts.
//!
//! ```
//! // in an environment where A is `x` and HOME is `/h`
//! let path = path::full(alloc, Utf8Path::new("~/$A"), &environ)?; // Expanded::Owned, "/h/x"
//! let same = path::full(alloc, Utf8Path::new("a/b"), &environ)?; // Expanded::Borrowed, "a/b"
//! ```
ghost use Rattle.std.specs.Prelude.{◌≡◌, ◌∷◌, List, ℕ, IfOk};
ghost use Rattle.std.specs.Fn.{TakesAt};
ghost use Rattle.just_path_text.specs.Environ.{home_of};
ghost use Rattle.just_path.specs.Path.{text_of};
ghost use Rattle.just_expand.specs.Bytes.{dollar_sign, tilde_sign};
ghost use Rattle.just_expand.specs.Pieces.{Lacks, BeginsWithout, HasOneCut};
ghost use Rattle.just_expand.specs.Expansion.{MayAsk, ExpandsTo, AsksNothing};
ghost use Rattle.just_expand.specs.Tilde.{CallsForHome, NeedsNoHome, MayAskHome, TildeExpandsTo, FullyExpandsTo};
ghost use Rattle.just_expand.specs.Contexts.{Answers, AnswersWithoutError, EnvironAnswers, GivesHome, IsHome, MayCall};
ghost use Rattle.just_expand.specs.Paths.{expanded_bytes, IsBorrowedPath, IsSamePath, IsPathResultOf, IsPathExpansion, IsFullPathExpansion};

pub use crate::error::OString;
use crate::error::{Expand, NotPresent};
pub use crate::texts::{WInput, Wstr};
use crate::{home, texts};
use just_path::{Utf8Path, Utf8PathBuf};
use just_path_text::{Environ, NoMemory};
use std::alloc::Global;
use std::borrow::CowStr;

/// What a call is given, and answers where it borrows: a path.
pub type Xstr<'a> = Utf8Path<'a>;

/// An expanded path: the one that was given, or a new one.
#[derive(Drop)]
pub enum Expanded<'a> {
    /// The path that was given: its text needed no expansion.
    Borrowed(Utf8Path<'a>),
    /// A new path.
    Owned(Utf8PathBuf),
}

/// The result over a text as one over a path.
fn as_path<'a, X>(expanded: Result<CowStr<'a, Global>, X>) -> Result<Expanded<'a>, X>
    ensures { IsPathResultOf expanded.entry result }
{
    match expanded {
        Ok(CowStr::Borrowed(text)) => Ok(Expanded::Borrowed(Utf8Path::new(text))),
        Ok(CowStr::Owned(text)) => Ok(Expanded::Owned(Utf8PathBuf::from(text))),
        Err(error) => Err(error),
    }
}

/// Expands the variables of a path by `context`, which is asked for each name in turn: [`crate::env_with_context`] over its text.
///
/// Answers the path borrowed where its text has no `$`. Refused by [`Expand::Lookup`] at the first error without a default, and by
/// [`Expand::NoMemory`]. Condition: `context` may be asked for the names of the text in their turn (`MayAsk`).
///
/// ```
/// let x = |_name: &str| -> Result<Option<String>, NotPresent> { Ok(String::from_str(alloc, "x").ok()) };
/// let path = path::env_with_context(alloc, Utf8Path::new("~/$A"), x)?; // "~/x"
/// ```
pub fn env_with_context<'a, C, E>(
    alloc: Global,
    input: Utf8Path<'a>,
    context: C,
) -> Result<Expanded<'a>, Expand<E>>
where
    C: FnMut(&str) -> Result<Option<String>, E> + Drop,
    E: Drop,
    requires { MayAsk (Answers C.FnMut) (TakesAt C.FnMut) context (text_of input) }
    ensures one_cut { HasOneCut (text_of input.entry) }
    ensures expanded { IsPathExpansion (Answers C.FnMut) context (text_of input.entry) result }
    ensures unasked { Lacks dollar_sign (text_of input.entry) → AsksNothing (Answers C.FnMut) context (text_of input.entry) }
    ensures borrowed { Lacks dollar_sign (text_of input.entry) → IsSamePath (text_of input.entry) result }
    ensures owned { IfOk result (λ path. IsBorrowedPath path → Lacks dollar_sign (text_of input.entry)) }
{
    as_path(texts::env_with_context(alloc, input.as_str(), context))
}

/// Expands the variables of a path by a `context` that gives no errors: [`crate::env_with_context_no_errors`] over its text.
///
/// Answers the path borrowed where its text has no `$`. The one refusal is want of memory. Condition: `context` may be asked for
/// the names of the text in their turn (`MayAsk`).
///
/// ```
/// let x = |_name: &str| String::from_str(alloc, "x").ok();
/// let path = path::env_with_context_no_errors(alloc, Utf8Path::new("b/$A"), x)?; // "b/x"
/// ```
pub fn env_with_context_no_errors<'a, C>(
    alloc: Global,
    input: Utf8Path<'a>,
    context: C,
) -> Result<Expanded<'a>, NoMemory>
where
    C: FnMut(&str) -> Option<String> + Drop,
    requires { MayAsk (AnswersWithoutError C.FnMut) (TakesAt C.FnMut) context (text_of input) }
    ensures one_cut { HasOneCut (text_of input.entry) }
    ensures expanded { IfOk result (λ path. ExpandsTo (AnswersWithoutError C.FnMut) context (text_of input.entry) (expanded_bytes path)) }
    ensures unasked { Lacks dollar_sign (text_of input.entry) → AsksNothing (AnswersWithoutError C.FnMut) context (text_of input.entry) }
    ensures borrowed { Lacks dollar_sign (text_of input.entry) → IsSamePath (text_of input.entry) result }
    ensures owned { IfOk result (λ path. IsBorrowedPath path → Lacks dollar_sign (text_of input.entry)) }
{
    as_path(texts::env_with_context_no_errors(alloc, input.as_str(), context))
}

/// Expands the variables of a path by the environment: [`crate::env`] over its text.
///
/// Answers the path borrowed where its text has no `$`. A name that isn't there and has no default is refused by [`Expand::Lookup`],
/// and want of memory by [`Expand::NoMemory`]. There is no condition.
///
/// ```
/// // in an environment where A is `x`
/// let path = path::env(alloc, Utf8Path::new("b/$A"), &environ)?; // "b/x"
/// ```
pub fn env<'a>(
    alloc: Global,
    input: Utf8Path<'a>,
    environ: &Environ,
) -> Result<Expanded<'a>, Expand<NotPresent>>
    ensures one_cut { HasOneCut (text_of input.entry) }
    ensures expanded { IsPathExpansion EnvironAnswers environ.now.pairs (text_of input.entry) result }
    ensures unasked { Lacks dollar_sign (text_of input.entry) → AsksNothing EnvironAnswers environ.now.pairs (text_of input.entry) }
    ensures borrowed { Lacks dollar_sign (text_of input.entry) → IsSamePath (text_of input.entry) result }
    ensures owned { IfOk result (λ path. IsBorrowedPath path → Lacks dollar_sign (text_of input.entry)) }
{
    as_path(texts::env(alloc, input.as_str(), environ))
}

/// Puts the home folder in place of a leading tilde that stands before `/` or alone: [`crate::tilde_with_context`] over the
/// path's text.
///
/// Answers the path borrowed where no such tilde stands or `home_dir` gives none. The one refusal is want of memory. Condition:
/// where such a tilde stands, `home_dir` may be called.
///
/// ```
/// let home = || String::from_str(alloc, "/h").ok();
/// let path = path::tilde_with_context(alloc, Utf8Path::new("~/b"), home)?; // "/h/b"
/// ```
pub fn tilde_with_context<'a, H>(
    alloc: Global,
    input: Utf8Path<'a>,
    home_dir: H,
) -> Result<Expanded<'a>, NoMemory>
where
    H: FnOnce() -> Option<String> + Drop,
    requires { (rest : List ℕ) → CallsForHome (text_of input) rest → MayCall H.FnOnce home_dir }
    ensures expanded { IfOk result (λ path. TildeExpandsTo (GivesHome H.FnOnce home_dir) (text_of input.entry) (expanded_bytes path)) }
    ensures borrowed { NeedsNoHome (text_of input.entry) → IsSamePath (text_of input.entry) result }
{
    as_path(home::tilde_with_context(alloc, input.as_str(), home_dir))
}

/// Puts the environment's home folder in place of a leading tilde that stands before `/` or alone: [`crate::tilde`] over the
/// path's text.
///
/// Answers the path borrowed where no such tilde stands or the environment has no home folder. The one refusal is want of memory.
/// There is no condition.
///
/// ```
/// // in an environment where HOME is `/h`
/// let path = path::tilde(alloc, Utf8Path::new("~"), &environ)?; // "/h"
/// ```
pub fn tilde<'a>(
    alloc: Global,
    input: Utf8Path<'a>,
    environ: &Environ,
) -> Result<Expanded<'a>, NoMemory>
    ensures expanded { IfOk result (λ path. TildeExpandsTo (IsHome (home_of environ.now.pairs)) (text_of input.entry) (expanded_bytes path)) }
    ensures borrowed { NeedsNoHome (text_of input.entry) → IsSamePath (text_of input.entry) result }
{
    as_path(home::tilde(alloc, input.as_str(), environ))
}

/// Expands the variables of a path by `context`, and then a leading tilde, unless a variable brought it to the front:
/// [`crate::full_with_context`] over its text.
///
/// Answers the path borrowed where its text has no `$` and begins with no `~`. Refused by [`Expand::Lookup`] at the first error
/// without a default, and by [`Expand::NoMemory`]. Condition: `context` may be asked for the names of the text in their turn
/// (`MayAsk`), and `home_dir` may be called where a tilde calls for it (`MayAskHome`).
///
/// ```
/// let home = || String::from_str(alloc, "/h").ok();
/// let x = |_name: &str| -> Result<Option<String>, NotPresent> { Ok(String::from_str(alloc, "x").ok()) };
/// let path = path::full_with_context(alloc, Utf8Path::new("~/$A"), home, x)?; // "/h/x"
/// ```
pub fn full_with_context<'a, H, C, E>(
    alloc: Global,
    input: Utf8Path<'a>,
    home_dir: H,
    context: C,
) -> Result<Expanded<'a>, Expand<E>>
where
    H: FnOnce() -> Option<String> + Drop,
    C: FnMut(&str) -> Result<Option<String>, E> + Drop,
    E: Drop,
    requires asked { MayAsk (Answers C.FnMut) (TakesAt C.FnMut) context (text_of input) }
    requires home { MayAskHome (Answers C.FnMut) (MayCall H.FnOnce home_dir) context (text_of input) }
    ensures one_cut { HasOneCut (text_of input.entry) }
    ensures expanded { IsFullPathExpansion (Answers C.FnMut) (GivesHome H.FnOnce home_dir) context (text_of input.entry) result }
    ensures unasked { Lacks dollar_sign (text_of input.entry) → AsksNothing (Answers C.FnMut) context (text_of input.entry) }
    ensures brought { BeginsWithout tilde_sign (text_of input.entry) → IfOk result (λ path. ExpandsTo (Answers C.FnMut) context (text_of input.entry) (expanded_bytes path)) }
    ensures borrowed { Lacks dollar_sign (text_of input.entry) → BeginsWithout tilde_sign (text_of input.entry) → IsSamePath (text_of input.entry) result }
    ensures owned { IfOk result (λ path. IsBorrowedPath path → Lacks dollar_sign (text_of input.entry)) }
{
    as_path(home::full_with_context(alloc, input.as_str(), home_dir, context))
}

/// Expands the variables of a path by a `context` that gives no errors, and then a leading tilde, unless a variable brought it to
/// the front: [`crate::full_with_context_no_errors`] over its text.
///
/// Answers the path borrowed where its text has no `$` and begins with no `~`. The one refusal is want of memory. Condition: as of
/// [`full_with_context`].
///
/// ```
/// let home = || String::from_str(alloc, "/h").ok();
/// let x = |_name: &str| String::from_str(alloc, "x").ok();
/// let path = path::full_with_context_no_errors(alloc, Utf8Path::new("~/$A"), home, x)?; // "/h/x"
/// ```
pub fn full_with_context_no_errors<'a, H, C>(
    alloc: Global,
    input: Utf8Path<'a>,
    home_dir: H,
    context: C,
) -> Result<Expanded<'a>, NoMemory>
where
    H: FnOnce() -> Option<String> + Drop,
    C: FnMut(&str) -> Option<String> + Drop,
    requires asked { MayAsk (AnswersWithoutError C.FnMut) (TakesAt C.FnMut) context (text_of input) }
    requires home { MayAskHome (AnswersWithoutError C.FnMut) (MayCall H.FnOnce home_dir) context (text_of input) }
    ensures one_cut { HasOneCut (text_of input.entry) }
    ensures expanded { IfOk result (λ path. FullyExpandsTo (AnswersWithoutError C.FnMut) (GivesHome H.FnOnce home_dir) context (text_of input.entry) (expanded_bytes path)) }
    ensures unasked { Lacks dollar_sign (text_of input.entry) → AsksNothing (AnswersWithoutError C.FnMut) context (text_of input.entry) }
    ensures brought { BeginsWithout tilde_sign (text_of input.entry) → IfOk result (λ path. ExpandsTo (AnswersWithoutError C.FnMut) context (text_of input.entry) (expanded_bytes path)) }
    ensures borrowed { Lacks dollar_sign (text_of input.entry) → BeginsWithout tilde_sign (text_of input.entry) → IsSamePath (text_of input.entry) result }
    ensures owned { IfOk result (λ path. IsBorrowedPath path → Lacks dollar_sign (text_of input.entry)) }
{
    as_path(home::full_with_context_no_errors(alloc, input.as_str(), home_dir, context))
}

/// Expands the variables of a path by the environment, and then a leading tilde by its home folder, unless a variable brought it
/// to the front: [`crate::full`] over its text.
///
/// Answers the path borrowed where its text has no `$` and begins with no `~`. A name that isn't there and has no default is refused
/// by [`Expand::Lookup`], and want of memory by [`Expand::NoMemory`]. There is no condition.
///
/// ```
/// // in an environment where A is `x` and HOME is `/h`
/// let path = path::full(alloc, Utf8Path::new("~/$A"), &environ)?; // "/h/x"
/// ```
pub fn full<'a>(
    alloc: Global,
    input: Utf8Path<'a>,
    environ: &Environ,
) -> Result<Expanded<'a>, Expand<NotPresent>>
    ensures one_cut { HasOneCut (text_of input.entry) }
    ensures expanded { IsFullPathExpansion EnvironAnswers (IsHome (home_of environ.now.pairs)) environ.now.pairs (text_of input.entry) result }
    ensures unasked { Lacks dollar_sign (text_of input.entry) → AsksNothing EnvironAnswers environ.now.pairs (text_of input.entry) }
    ensures brought { BeginsWithout tilde_sign (text_of input.entry) → IfOk result (λ path. ExpandsTo EnvironAnswers environ.now.pairs (text_of input.entry) (expanded_bytes path)) }
    ensures borrowed { Lacks dollar_sign (text_of input.entry) → BeginsWithout tilde_sign (text_of input.entry) → IsSamePath (text_of input.entry) result }
    ensures owned { IfOk result (λ path. IsBorrowedPath path → Lacks dollar_sign (text_of input.entry)) }
{
    as_path(home::full(alloc, input.as_str(), environ))
}
