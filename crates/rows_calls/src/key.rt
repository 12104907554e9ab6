//! The key of a body, and texts.

use just_cache::{CacheKey, KeyExecutor};
use just_exec_work::one_text;
use just_lang_read::Boxed;
use just_lang_types::{Interpreter, Modulepath};
use just_path_text::{NoMemory, Seq, Text};
use std::alloc::Global;

/// Some words, parted by one blank each.
pub(crate) fn texts(alloc: Global, words: &str) -> Result<Vec<Text>, NoMemory> {
    let mut texts = Vec::new(alloc);
    for word in words.split(' ') {
        texts.push(Text::from_str(alloc, word)?)?;
    }
    Ok(texts)
}

/// What runs the script: `sh -eu`.
fn executor(alloc: Global) -> Result<KeyExecutor, NoMemory> {
    let arguments = one_text(alloc, "-eu")?;
    let command = Text::from_str(alloc, "sh")?;
    Ok(KeyExecutor::Command(Interpreter { command, arguments }))
}

/// The key of the recipe `m`, whose script is `touch`.
pub(crate) fn key(alloc: Global) -> Result<Boxed<CacheKey>, NoMemory> {
    let body = one_text(alloc, "touch")?;
    let components = one_text(alloc, "m")?;
    let executor = executor(alloc)?;
    let key = CacheKey {
        body,
        environment: Seq::new(alloc),
        executor,
        extension: None,
        extra: None,
        inputs: None,
        positional: None,
        recipe: Modulepath { components },
        working_directory: None,
    };
    Ok(Boxed::new(alloc, key)?)
}
