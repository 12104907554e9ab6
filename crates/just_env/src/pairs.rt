//! Pairs behind pairs, and the pairs that are kept.

ghost use Rattle.std.specs.Prelude.{◌≡◌, ◌||◌, ◌++◌, is_none, IfOk, OnOk};
ghost use Rattle.just_path_text.specs.Environ.{value_of};
ghost use Rattle.just_env.specs.Files.{join};
ghost use Rattle.just_env.specs.Loads.{kept};

use just_path_text::{Environ, NoMemory, Seq, Text};
use std::alloc::Global;

/// Pairs of names and values.
pub(crate) type Pairs = Seq<(Text, Text)>;

/// Pairs behind others.
pub(crate) fn behind(first: Pairs, more: Pairs) -> Result<Pairs, NoMemory>
    ensures { IfOk result (λ pairs. pairs ≡ first ++ more) }
{
    let mut pairs = first.into_vec();
    let more = more.into_vec();
    for pair in more {
        pairs.push(pair)?;
    }
    Ok(Seq::from(pairs))
}

/// The pairs of two files, of those that are there.
pub(crate) fn join(first: Option<Pairs>, more: Option<Pairs>) -> Result<Option<Pairs>, NoMemory>
    ensures { IfOk result (λ pairs. pairs ≡ join first more) }
{
    match first {
        None => Ok(more),
        Some(pairs) => match more {
            None => Ok(Some(pairs)),
            Some(more) => Ok(Some(behind(pairs, more)?)),
        },
    }
}

/// Whether a pair is kept: where pairs go before the environment, or the environment lacks the name.
fn is_kept(overrides: bool, environ: &Environ, pair: &(Text, Text)) -> bool
    ensures { result ≡ (overrides || is_none (value_of pair.now.0 environ.now.pairs)) }
{
    overrides || environ.get(pair.0.as_str()).is_none()
}

/// The pairs that are kept.
pub(crate) fn kept(
    alloc: Global,
    overrides: bool,
    environ: &Environ,
    pairs: Pairs,
) -> Result<Pairs, NoMemory>
    ensures { IfOk result (λ found. found ≡ kept overrides environ.now.pairs pairs) }
{
    let mut found = Vec::new(alloc);
    let pairs = pairs.into_vec();
    for pair in pairs {
        if is_kept(overrides, environ, &pair) {
            found.push(pair)?;
        }
    }
    Ok(Seq::from(found))
}
