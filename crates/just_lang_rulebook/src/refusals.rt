//! Why patterns are refused.
ghost use Rattle.std.specs.Prelude.{◌≡◌, IfOk, string_bytes};
ghost use Rattle.just_lang_rulebook.specs.Patterns.{whole_pattern, is_pattern, refusal_by, IsOwnRefusal, IsRefusal};

use just_path_text::NoMemory;
use regex::{Error, Regex};
use regex_syntax::{Config, parse};
use std::alloc::{AllocError, Global};

/// Why a pattern is refused.
#[derive(Clone, Copy)]
pub enum Refusal {
    /// The grammar of regular expressions doesn't read it, or it nests too deep.
    Syntax,
    /// It is one, but the library doesn't build it, alone or for a whole value.
    Size,
}

/// The pattern that a whole value has to match.
fn whole_pattern(alloc: Global, text: &str) -> Result<String, AllocError>
    ensures { IfOk result (λ s. string_bytes s ≡ whole_pattern text.now) }
{
    let mut whole = String::from_str(alloc, "^(?:")?;
    whole.push_str(text)?;
    whole.push_str(")$")?;
    Ok(whole)
}

/// Why a text isn't built, by the library's answer.
#[tactic(auto, using(crate::proofs::ByErrors::by_none, crate::proofs::ByErrors::by_error))]
fn refusal_by(built: Result<Regex, Error>) -> Result<Option<Refusal>, NoMemory>
    ensures { result ≡ refusal_by built }
{
    match built.err() {
        None => Ok(None),
        Some(Error::Syntax(_)) => Ok(Some(Refusal::Syntax)),
        Some(Error::CompiledTooBig | Error::Internal) => Ok(Some(Refusal::Size)),
        Some(Error::OutOfMemory) => Err(NoMemory),
    }
}

/// Whether the grammar of regular expressions reads the text, nested within the limit. It is read, and nothing is built of it.
#[tactic(auto, using(crate::proofs::ReadPatterns::parsed_is, crate::proofs::ReadPatterns::unparsed_is))]
pub(crate) fn is_pattern(alloc: Global, text: &str) -> Result<bool, NoMemory>
    ensures { IfOk result (λ b. b ≡ is_pattern text.now) }
{
    let config = Config::default();
    match parse(alloc, text, &config).err() {
        None => Ok(true),
        Some(error) => match Error::from(error) {
            Error::OutOfMemory => Err(NoMemory),
            Error::Syntax(_) | Error::CompiledTooBig | Error::Internal => Ok(false),
        },
    }
}

/// Why the library refuses to build the text, where it does.
fn own_refusal(alloc: Global, text: &str) -> Result<Option<Refusal>, NoMemory>
    ensures { IfOk result (IsOwnRefusal (is_pattern text.now)) }
{
    refusal_by(Regex::new(alloc, text))
}

/// Why a pattern of a parameter is refused, where it is. It has to be a regular expression by itself, and is then built for whole
/// values alone: `a)(b` is none, though `^(?:a)(b)$` is one. When one that is read is too big is the library's answer; no clause
/// tells more of it.
pub fn pattern_refusal(alloc: Global, text: &str) -> Result<Option<Refusal>, NoMemory>
    ensures { IfOk result (IsRefusal text.now) }
{
    if !is_pattern(alloc, text)? {
        return Ok(Some(Refusal::Syntax));
    }
    let whole = whole_pattern(alloc, text)?;
    match own_refusal(alloc, whole.as_str())? {
        None => Ok(None),
        Some(_) => Ok(Some(Refusal::Size)),
    }
}
