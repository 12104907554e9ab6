//! Rows of keys.
//!
//! A row is a key and its texts: its body, its environment, what runs its script, its extension, its extra text, its
//! inputs, its words, its path and its folder; then the text of the key, the digest of that text, the class text, and the
//! text of the entry. Lists are texts with `|` between; `-` stands where there is no list and no text, `+` is the empty
//! list, and texts that stand alone begin with `=`. Pairs are `NAME=TEXT`; a name alone is a variable that is taken out.
//! What runs the script is `command:` and a list, or `shebang:` and a list of one or two.

use super::key::{key_of, path_of};
use super::said::all_say;
use just_cache::{
    CacheEntry, CacheKey, class_text, class_with_place, digest, key_text, key_text_of_class,
};
use rows_common::Wrong;
use std::alloc::Global;

/// Whether a row says the texts of its key. It promises nothing beyond safety.
pub(crate) fn agrees(alloc: Global, fields: &[&str]) -> Result<bool, Wrong> {
    let key = key_of(alloc, fields)?;
    all_agree(alloc, fields, &key)
}

/// Whether the texts of a key and of its entry are those of its row.
fn all_agree(alloc: Global, fields: &[&str], key: &CacheKey) -> Result<bool, Wrong> {
    Ok(
        texts_agree(alloc, fields, key)?
            && class_agrees(alloc, fields, key)?
            && entry_agrees(alloc, fields)?,
    )
}

/// Whether the texts of a key are those of its row.
fn texts_agree(alloc: Global, fields: &[&str], key: &CacheKey) -> Result<bool, Wrong> {
    let text = key_text(alloc, key)?;
    let digest = digest(alloc, text.as_str())?;
    let class = class_text(alloc, key)?;
    let answers = [
        Some(text.as_str()),
        Some(digest.as_str()),
        Some(class.as_str()),
    ];
    all_say(alloc, fields, 9, &answers)
}

/// Whether the class text with the place of its inputs is that of the row, and gives the text of the key.
fn class_agrees(alloc: Global, fields: &[&str], key: &CacheKey) -> Result<bool, Wrong> {
    let class = class_with_place(alloc, key)?;
    let text = key_text_of_class(alloc, class.text.as_str(), class.inputs_at, &key.inputs)?;
    if all_say(alloc, fields, 9, &[Some(text.as_str())])? {
        all_say(alloc, fields, 11, &[Some(class.text.as_str())])
    } else {
        Ok(false)
    }
}

/// Whether the text of the entry is that of its row.
fn entry_agrees(alloc: Global, fields: &[&str]) -> Result<bool, Wrong> {
    let entry = CacheEntry {
        recipe: path_of(alloc, fields)?,
    };
    let text = entry.text(alloc)?;
    all_say(alloc, fields, 12, &[Some(text.as_str())])
}
