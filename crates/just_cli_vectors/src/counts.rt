//! The number that the words give, and how much of a kind stands in a history.
ghost use Rattle.std.specs.Prelude.{◌≡◌, count_by};
ghost use Rattle.just_cli_vectors.specs.Vectors.{count_of, is_begin, is_start};

use just_lang_read::decimal;
use just_path_text::Text;
use just_sched_history::Event;

/// The number that the words give: that of the first of them, up to the greatest of 32 bits; 0 where it is none.
pub fn count_of(words: &[Text]) -> u32
    ensures { result ≡ count_of words.now }
{
    match words {
        [] => 0,
        [word, ..] => match decimal(word.as_str()) {
            Some(number) => u32::try_from(number).unwrap_or(u32::MAX),
            None => 0,
        },
    }
}

/// How many bodies were begun.
pub(crate) fn bodies(history: &[Event]) -> usize
    ensures { result ≡ count_by is_begin history.now }
{
    history
        .iter()
        .filter(|event| matches!(event, Event::Begun(_)))
        .count()
}

/// How many children were started.
pub(crate) fn children(history: &[Event]) -> usize
    ensures { result ≡ count_by is_start history.now }
{
    history
        .iter()
        .filter(|event| matches!(event, Event::Started(_, _, _)))
        .count()
}
