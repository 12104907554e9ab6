//! What is told of a run.
ghost use Rattle.std.specs.Prelude.{◌≡◌, IfOk};
ghost use Rattle.just_cli_vectors.specs.Vectors.{lines_of, report_of, run_events, vectors_text};

use super::counts::{bodies, children};
use just_cache::digest;
use just_path_text::{NoMemory, Text};
use just_sched_history::Event;
use just_sched_lines::write_history;
use std::alloc::Global;

/// So many bodies, so many children, and a digest, a line each.
fn lines(alloc: Global, bodies: usize, children: usize, digest: &str) -> Result<Text, NoMemory>
    ensures { IfOk result (λ t. t ≡ lines_of bodies children digest.now) }
{
    Ok(Text::from(format!(in alloc; "bodies {bodies}\nchildren {children}\nhistory {digest}\n")?))
}

/// What is told of a history: its bodies that were begun, its children, and the digest of its text.
fn told(alloc: Global, history: &[Event]) -> Result<Text, NoMemory>
    ensures { IfOk result (λ t. t ≡ report_of history.now) }
{
    let text = write_history(alloc, history)?;
    let digits = digest(alloc, text.as_str())?;
    lines(alloc, bodies(history), children(history), digits.as_str())
}

/// What is told of the history of so many bodies, one behind the other.
///
/// ```
/// // of 1: `bodies 1`, `children 1`, `history ` and the digest of six lines
/// ```
pub fn report(alloc: Global, history: &[Event], count: u32) -> Result<Text, NoMemory>
    requires { history.now ≡ run_events count }
    ensures { IfOk result (λ t. t ≡ vectors_text count) }
{
    told(alloc, history)
}
