//! The rules on patterns.
ghost use Rattle.std.specs.Prelude.{◌≡◌, ◌++◌, map, IfOk, OnOk, not};
ghost use Rattle.std.specs.List.{flat_map};
ghost use Rattle.just_lang_spots.specs.Entries.{entries};
ghost use Rattle.just_lang_spots.specs.Spots.{first_spot};
ghost use Rattle.just_lang_rulebook.specs.Patterns.{is_pattern, pattern_pair, patterns_of, unread_spots, IsTooBig, IsFirstTooBig};

use super::patterns::{PatternText, patterns_of, push_of_item};
use super::refusals::{Refusal, is_pattern, pattern_refusal};
use just_lang_spots::{Entry, Rule, Spot, earlier, spot_where};
use just_lang_syntax::AstItem;
use just_lang_types::Texts;
use just_path_text::NoMemory;
use std::alloc::Global;

/// Whether the grammar of regular expressions doesn't read the pattern.
fn is_unread(alloc: Global, text: &str) -> Result<bool, NoMemory>
    ensures { IfOk result (λ b. b ≡ not (is_pattern text.now)) }
{
    let is_read = is_pattern(alloc, text)?;
    Ok(!is_read)
}

/// The first of some patterns that the grammar doesn't read.
#[tactic(auto, using(just_lang_spots::proofs::Spots::earlier_none))]
fn first_unread(alloc: Global, patterns: &[PatternText]) -> Result<Option<Spot>, NoMemory>
    ensures { IfOk result (λ s. s ≡ first_spot (unread_spots (map pattern_pair patterns.now))) }
{
    let mut found = None;
    'patterns: for pattern in patterns {
        let is_unread = is_unread(alloc, pattern.text.as_str())?;
        let here = spot_where(is_unread, pattern.spot);
        found = earlier(found, here);
    }
    Ok(found)
}

/// The rule that each `pattern` of a parameter is a regular expression. Its place is the pattern's value.
#[derive(Clone, Copy, Drop)]
pub struct ArgumentPatternRegex<'a, T> {
    pub texts: &'a T,
}

impl<'a, T: Texts> Rule<AstItem> for ArgumentPatternRegex<'a, T> {
    ghost use Rattle.just_lang_rulebook.specs.Patterns.{patterns_of, unread_spots};

    ghost spots = { λ r file x. unread_spots (patterns_of (T.text_of r.texts.now) file x) };

    fn first(&self, alloc: Global, file: usize, thing: &AstItem) -> Result<Option<Spot>, NoMemory> {
        let patterns = patterns_of(alloc, self.texts, file, thing)?;
        first_unread(alloc, patterns.as_slice())
    }
}

/// A pattern's place, where it is too big.
fn too_big(alloc: Global, pattern: &PatternText) -> Result<Option<Spot>, NoMemory>
    ensures { IfOk result (IsTooBig (pattern_pair pattern.now)) }
{
    match pattern_refusal(alloc, pattern.text.as_str())? {
        Some(Refusal::Size) => Ok(Some(pattern.spot)),
        Some(Refusal::Syntax) | None => Ok(None),
    }
}

/// The first of the places of those that are too big.
fn first_big(alloc: Global, patterns: &[PatternText]) -> Result<Option<Spot>, NoMemory>
    ensures { IfOk result (IsFirstTooBig (map pattern_pair patterns.now)) }
{
    let mut found = None;
    'patterns: for pattern in patterns {
        let here = too_big(alloc, pattern)?;
        found = earlier(found, here);
    }
    Ok(found)
}

/// Adds the patterns of some items.
fn push_of_items<T: Texts>(
    alloc: Global,
    texts: &T,
    items: &[Entry<'_>],
    found: &mut Vec<PatternText>,
) -> Result<(), NoMemory>
    ensures { OnOk result (map pattern_pair found.new.items ≡ map pattern_pair found.old.items ++ flat_map (λ x. patterns_of (T.text_of texts.now) x.0 x.1) (entries items.now)) }
{
    'items: for one in items {
        push_of_item(alloc, texts, one.file, one.item, found)?;
    }
    Ok(())
}

/// The first place of a pattern of these items that the grammar of regular expressions reads, and that is too big to be built.
pub fn first_too_big<T: Texts>(
    alloc: Global,
    texts: &T,
    items: &[Entry<'_>],
) -> Result<Option<Spot>, NoMemory>
    ensures { IfOk result (IsFirstTooBig (flat_map (λ x. patterns_of (T.text_of texts.now) x.0 x.1) (entries items.now))) }
{
    let mut patterns = Vec::new(alloc);
    push_of_items(alloc, texts, items, &mut patterns)?;
    first_big(alloc, patterns.as_slice())
}
