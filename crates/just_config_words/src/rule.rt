//! Which options don't go together, and which need others.
ghost use Rattle.std.specs.Prelude.{◌≡◌, map, if◌then◌else◌, None};
ghost use Rattle.std.specs.List.{list_any};
ghost use Rattle.std.specs.Option.{option_copied};
ghost use Rattle.just_config_words.specs.Rules.{gives_command, is_one_of, later_word, together, first_word, without_positional, conflict, word_of, alone, missing};

use super::Occurrence;
use just_path_text::Text;

impl Occurrence {
    /// Whether the option's name is one of these.
    fn is_one_of(&self, names: &[&str]) -> bool
        ensures { result ≡ is_one_of (map (λ n. n.now) names.now) self.now }
    {
        'names: for name in names {
            if self.option.name.as_str() == *name {
                return true;
            }
        }
        false
    }
}

/// The later word of the first two commands.
fn second_command(given: &[Occurrence]) -> Option<&Text>
    ensures { option_copied result ≡ together gives_command gives_command given.now }
{
    let mut had = false;
    'given: for occurrence in given {
        if occurrence.option.kind.is_command() {
            if had {
                return Some(occurrence.word.text());
            }
            had = true;
        }
    }
    None
}

/// The later word of two options of which the one has one of the first names and the other one of the second names; of several such pairs
/// that of the pair whose later word comes first.
fn together<'a>(first: &[&str], second: &[&str], given: &'a [Occurrence]) -> Option<&'a Text>
    ensures { option_copied result ≡ together (is_one_of (map (λ n. n.now) first.now)) (is_one_of (map (λ n. n.now) second.now)) given.now }
{
    let mut had_first = false;
    let mut had_second = false;
    'given: for occurrence in given {
        let is_first = occurrence.is_one_of(first);
        let is_second = occurrence.is_one_of(second);
        if (is_first && had_second) || (is_second && had_first) {
            return Some(occurrence.word.text());
        }
        had_first = had_first || is_first;
        had_second = had_second || is_second;
    }
    None
}

/// Whether one of the options has one of the names.
fn has_one_of(names: &[&str], given: &[Occurrence]) -> bool
    ensures { result ≡ list_any (is_one_of (map (λ n. n.now) names.now)) given.now }
{
    given.iter().any(|occurrence| occurrence.is_one_of(names))
}

/// The word at which the first rule on options that don't go together is broken.
pub(crate) fn conflict<'a>(given: &'a [Occurrence], positional: &'a [Text]) -> Option<&'a Text>
    ensures { option_copied result ≡ conflict given.now positional.now }
{
    if let Some(word) = second_command(given) {
        return Some(word);
    }
    if let Some(word) = together(&["alias-style"], &["no-aliases"], given) {
        return Some(word);
    }
    let dotenv = ["dotenv-filename", "dotenv-path", "no-dotenv"];
    if let Some(word) = together(&["dotenv-command"], &dotenv, given) {
        return Some(word);
    }
    if let Some(word) = together(&["dotenv-filename"], &["dotenv-path"], given) {
        return Some(word);
    }
    if let Some(word) = together(&["dry-run"], &["quiet"], given) {
        return Some(word);
    }
    let places = ["justfile", "working-directory"];
    if let Some(word) = together(&["global-justfile"], &places, given) {
        return Some(word);
    }
    if has_one_of(&["clean", "list", "show", "usage"], given) {
        positional.first()
    } else {
        None
    }
}

/// The word of the first option that has one of the names.
fn word_of<'a>(names: &[&str], given: &'a [Occurrence]) -> Option<&'a Text>
    ensures { option_copied result ≡ word_of (map (λ n. n.now) names.now) given.now }
{
    'given: for occurrence in given {
        if occurrence.is_one_of(names) {
            return Some(occurrence.word.text());
        }
    }
    None
}

/// The word of the first option that has one of the names, where none has one of the others.
fn alone<'a>(names: &[&str], others: &[&str], given: &'a [Occurrence]) -> Option<&'a Text>
    ensures { option_copied result ≡ alone (map (λ n. n.now) names.now) (map (λ n. n.now) others.now) given.now }
{
    if has_one_of(others, given) {
        None
    } else {
        word_of(names, given)
    }
}

/// The word of the first option that stands without one that it needs.
pub(crate) fn missing<'a>(given: &'a [Occurrence], filled: &'a [Occurrence]) -> Option<&'a Text>
    ensures { option_copied result ≡ missing given.now filled.now }
{
    if let Some(word) = alone(&["check"], &["fmt"], given) {
        return Some(word);
    }
    if let Some(word) = alone(&["group", "list-submodules"], &["list"], given) {
        return Some(word);
    }
    if let Some(word) = alone(&["shell-command"], &["command"], given) {
        return Some(word);
    }
    alone(&["working-directory"], &["justfile"], filled)
}
