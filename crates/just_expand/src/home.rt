//! The calls over texts that put the home folder in.
ghost use Rattle.std.specs.Prelude.{◌≡◌, ◌∷◌, List, ℕ, Ok, IfOk};
ghost use Rattle.std.specs.Fn.{TakesAt};
ghost use Rattle.std.specs.Cow.{cow_str_bytes, IsBorrowedStr};
ghost use Rattle.just_path_text.specs.Environ.{home_of};
ghost use Rattle.just_expand.specs.Bytes.{dollar_sign, tilde_sign};
ghost use Rattle.just_expand.specs.Pieces.{Lacks, BeginsWithout, HasOneCut};
ghost use Rattle.just_expand.specs.Expansion.{MayAsk, ExpandsTo, AsksNothing};
ghost use Rattle.just_expand.specs.Tilde.{CallsForHome, NeedsNoHome, MayAskHome, BringsTilde, TildeExpandsTo, OwnTildeExpandsTo, FullyExpandsTo};
ghost use Rattle.just_expand.specs.Contexts.{Answers, AnswersWithoutError, EnvironAnswers, GivesHome, IsHome, MayCall, IsFullExpansion};

use crate::error::{Expand, NotPresent};
use crate::texts::{env, env_with_context, env_with_context_no_errors};
use crate::tildes::{ask_home, behind_own_tilde, behind_tilde, put_home};
use just_path_text::{Environ, NoMemory};
use std::alloc::Global;
use std::borrow::CowStr;

/// Puts the home folder in place of a leading tilde that stands before `/` or alone.
///
/// Answers the text with the folder that `home_dir` gives, and the text as it stands, borrowed, where it begins with no such
/// tilde or `home_dir` gives none. `home_dir` is called where such a tilde stands, and only there. The one refusal is want of
/// memory. Variables stay: for those there is [`full_with_context`].
///
/// Condition: where such a tilde stands, `home_dir` may be called. A closure without a `requires` may always be.
///
/// ```
/// let home = || String::from_str(alloc, "/h").ok();
/// let text = tilde_with_context(alloc, "~/b", home)?; // "/h/b"
/// let same = tilde_with_context(alloc, "~b", home)?; // "~b"
/// ```
pub fn tilde_with_context<'a, H>(
    alloc: Global,
    input: &'a str,
    home_dir: H,
) -> Result<CowStr<'a, Global>, NoMemory>
where
    H: FnOnce() -> Option<String> + Drop,
    requires { (rest : List ℕ) → CallsForHome input.now rest → MayCall H.FnOnce home_dir }
    ensures expanded { IfOk result (λ text. TildeExpandsTo (GivesHome H.FnOnce home_dir) input.now (cow_str_bytes text)) }
    ensures borrowed { NeedsNoHome input.now → result ≡ Ok (CowStr.Borrowed input.entry) }
{
    let Some(behind) = behind_tilde(input) else {
        return Ok(CowStr::Borrowed(input));
    };
    let Some(home) = ask_home(home_dir) else {
        return Ok(CowStr::Borrowed(input));
    };
    let out = put_home(alloc, home.as_str(), behind)?;
    Ok(CowStr::Owned(out))
}

/// Puts the environment's home folder in place of a leading tilde that stands before `/` or alone.
///
/// Answers the text with that folder, and the text as it stands, borrowed, where it begins with no such tilde or the
/// environment has no home folder: its `HOME`, unless that is empty. The one refusal is want of memory. There is no condition.
///
/// ```
/// // in an environment where HOME is `/h`
/// let text = tilde(alloc, "~/$A", &environ)?; // "/h/$A"
/// ```
pub fn tilde<'a>(
    alloc: Global,
    input: &'a str,
    environ: &Environ,
) -> Result<CowStr<'a, Global>, NoMemory>
    ensures expanded { IfOk result (λ text. TildeExpandsTo (IsHome (home_of environ.now.pairs)) input.now (cow_str_bytes text)) }
    ensures borrowed { NeedsNoHome input.now → result ≡ Ok (CowStr.Borrowed input.entry) }
{
    let Some(behind) = behind_tilde(input) else {
        return Ok(CowStr::Borrowed(input));
    };
    let Some(home) = environ.home() else {
        return Ok(CowStr::Borrowed(input));
    };
    let out = put_home(alloc, home, behind)?;
    Ok(CowStr::Owned(out))
}

/// The expanded text with the home folder in place of its leading tilde, unless the expansion of `input` brought that.
fn put_own_home<'a, H>(
    alloc: Global,
    input: &str,
    expanded: CowStr<'a, Global>,
    home_dir: H,
) -> Result<CowStr<'a, Global>, NoMemory>
where
    H: FnOnce() -> Option<String> + Drop,
    requires text { Lacks dollar_sign input.now → cow_str_bytes expanded ≡ input.now }
    requires home { (rest : List ℕ) → (BringsTilde input.now (cow_str_bytes expanded) → ⊥) → CallsForHome (cow_str_bytes expanded) rest → MayCall H.FnOnce home_dir }
    ensures expanded { IfOk result (λ text. OwnTildeExpandsTo (GivesHome H.FnOnce home_dir) input.now (cow_str_bytes expanded.entry) (cow_str_bytes text)) }
    ensures brought { BeginsWithout tilde_sign input.now → result ≡ Ok expanded.entry }
    ensures owned { IfOk result (λ text. IsBorrowedStr text → IsBorrowedStr expanded.entry) }
{
    let Some(behind) = behind_own_tilde(input, &expanded) else {
        return Ok(expanded);
    };
    let Some(home) = ask_home(home_dir) else {
        return Ok(expanded);
    };
    let out = put_home(alloc, home.as_str(), behind)?;
    Ok(CowStr::Owned(out))
}

/// The expanded text with the environment's home folder in place of its leading tilde, unless the expansion of `input`
/// brought that.
fn put_known_home<'a>(
    alloc: Global,
    input: &str,
    expanded: CowStr<'a, Global>,
    environ: &Environ,
) -> Result<CowStr<'a, Global>, NoMemory>
    requires { Lacks dollar_sign input.now → cow_str_bytes expanded ≡ input.now }
    ensures expanded { IfOk result (λ text. OwnTildeExpandsTo (IsHome (home_of environ.now.pairs)) input.now (cow_str_bytes expanded.entry) (cow_str_bytes text)) }
    ensures brought { BeginsWithout tilde_sign input.now → result ≡ Ok expanded.entry }
    ensures owned { IfOk result (λ text. IsBorrowedStr text → IsBorrowedStr expanded.entry) }
{
    let Some(behind) = behind_own_tilde(input, &expanded) else {
        return Ok(expanded);
    };
    let Some(home) = environ.home() else {
        return Ok(expanded);
    };
    let out = put_home(alloc, home, behind)?;
    Ok(CowStr::Owned(out))
}

/// Expands the variables of a text by `context`, and then a leading tilde, unless a variable brought it to the front.
///
/// Answers the text by all of the crate's rules: borrowed where it has no `$` and begins with no `~`, or with one that stays.
/// `context` is asked as in [`env_with_context`], and a name's error without a default is the answer: [`Expand::Lookup`]. Then
/// `home_dir` is called, only where a tilde calls for it. The other refusal is want of memory, [`Expand::NoMemory`].
///
/// Condition: `context` may be asked for the names of the text in their turn (`MayAsk`), and `home_dir` may be called where a
/// tilde calls for it (`MayAskHome`). Closures without a `requires` may always be.
///
/// ```
/// let home = || String::from_str(alloc, "/h").ok();
/// let context = |name: &str| -> Result<Option<String>, NotPresent> {
///     Ok(String::from_str(alloc, if name == "A" { "x" } else { "~" }).ok())
/// };
/// let text = full_with_context(alloc, "~/$A", home, context)?; // "/h/x"
/// let kept = full_with_context(alloc, "$TILDE/b", home, context)?; // "~/b"
/// ```
pub fn full_with_context<'a, H, C, E>(
    alloc: Global,
    input: &'a str,
    home_dir: H,
    context: C,
) -> Result<CowStr<'a, Global>, Expand<E>>
where
    H: FnOnce() -> Option<String> + Drop,
    C: FnMut(&str) -> Result<Option<String>, E> + Drop,
    E: Drop,
    requires asked { MayAsk (Answers C.FnMut) (TakesAt C.FnMut) context input.now }
    requires home { MayAskHome (Answers C.FnMut) (MayCall H.FnOnce home_dir) context input.now }
    ensures one_cut { HasOneCut input.now }
    ensures expanded { IsFullExpansion (Answers C.FnMut) (GivesHome H.FnOnce home_dir) context input.now result }
    ensures unasked { Lacks dollar_sign input.now → AsksNothing (Answers C.FnMut) context input.now }
    ensures brought { BeginsWithout tilde_sign input.now → IfOk result (λ text. ExpandsTo (Answers C.FnMut) context input.now (cow_str_bytes text)) }
    ensures borrowed { Lacks dollar_sign input.now → BeginsWithout tilde_sign input.now → result ≡ Ok (CowStr.Borrowed input.entry) }
    ensures owned { IfOk result (λ text. IsBorrowedStr text → Lacks dollar_sign input.now) }
{
    let expanded = match env_with_context(alloc, input, context) {
        Ok(expanded) => expanded,
        Err(error) => return Err(error),
    };
    match put_own_home(alloc, input, expanded, home_dir) {
        Ok(text) => Ok(text),
        Err(_) => Err(Expand::NoMemory),
    }
}

/// Expands the variables of a text by a `context` that gives no errors, and then a leading tilde, unless a variable brought it
/// to the front.
///
/// As [`full_with_context`], but for a closure that answers each name with a value or with `None`: so the one refusal is want of
/// memory.
///
/// Condition: as there.
///
/// ```
/// let home = || String::from_str(alloc, "/h").ok();
/// let x = |_name: &str| String::from_str(alloc, "x").ok();
/// let text = full_with_context_no_errors(alloc, "~/$A", home, x)?; // "/h/x"
/// ```
pub fn full_with_context_no_errors<'a, H, C>(
    alloc: Global,
    input: &'a str,
    home_dir: H,
    context: C,
) -> Result<CowStr<'a, Global>, NoMemory>
where
    H: FnOnce() -> Option<String> + Drop,
    C: FnMut(&str) -> Option<String> + Drop,
    requires asked { MayAsk (AnswersWithoutError C.FnMut) (TakesAt C.FnMut) context input.now }
    requires home { MayAskHome (AnswersWithoutError C.FnMut) (MayCall H.FnOnce home_dir) context input.now }
    ensures one_cut { HasOneCut input.now }
    ensures expanded { IfOk result (λ text. FullyExpandsTo (AnswersWithoutError C.FnMut) (GivesHome H.FnOnce home_dir) context input.now (cow_str_bytes text)) }
    ensures unasked { Lacks dollar_sign input.now → AsksNothing (AnswersWithoutError C.FnMut) context input.now }
    ensures brought { BeginsWithout tilde_sign input.now → IfOk result (λ text. ExpandsTo (AnswersWithoutError C.FnMut) context input.now (cow_str_bytes text)) }
    ensures borrowed { Lacks dollar_sign input.now → BeginsWithout tilde_sign input.now → result ≡ Ok (CowStr.Borrowed input.entry) }
    ensures owned { IfOk result (λ text. IsBorrowedStr text → Lacks dollar_sign input.now) }
{
    let expanded = match env_with_context_no_errors(alloc, input, context) {
        Ok(expanded) => expanded,
        Err(error) => return Err(error),
    };
    put_own_home(alloc, input, expanded, home_dir)
}

/// Expands the variables of a text by the environment, and then a leading tilde by its home folder, unless a variable brought
/// it to the front.
///
/// Answers the text by all of the crate's rules: borrowed where it has no `$` and begins with no `~`, or with one that stays. A
/// name that the environment doesn't have is refused, unless it has a default: [`Expand::Lookup`], with the name and
/// [`NotPresent`]. The other refusal is want of memory, [`Expand::NoMemory`]. There is no condition.
///
/// ```
/// // in an environment where A is `x`, HOME is `/h`, and N isn't there
/// let text = full(alloc, "~/$A", &environ)?; // "/h/x"
/// let kept = full(alloc, "${N:-~}/$A", &environ)?; // "~/x"
/// ```
pub fn full<'a>(
    alloc: Global,
    input: &'a str,
    environ: &Environ,
) -> Result<CowStr<'a, Global>, Expand<NotPresent>>
    ensures one_cut { HasOneCut input.now }
    ensures expanded { IsFullExpansion EnvironAnswers (IsHome (home_of environ.now.pairs)) environ.now.pairs input.now result }
    ensures unasked { Lacks dollar_sign input.now → AsksNothing EnvironAnswers environ.now.pairs input.now }
    ensures brought { BeginsWithout tilde_sign input.now → IfOk result (λ text. ExpandsTo EnvironAnswers environ.now.pairs input.now (cow_str_bytes text)) }
    ensures borrowed { Lacks dollar_sign input.now → BeginsWithout tilde_sign input.now → result ≡ Ok (CowStr.Borrowed input.entry) }
    ensures owned { IfOk result (λ text. IsBorrowedStr text → Lacks dollar_sign input.now) }
{
    let expanded = match env(alloc, input, environ) {
        Ok(expanded) => expanded,
        Err(error) => return Err(error),
    };
    match put_known_home(alloc, input, expanded, environ) {
        Ok(text) => Ok(text),
        Err(_) => Err(Expand::NoMemory),
    }
}
