//! A history as text.
ghost use Rattle.std.specs.Prelude.{◌≡◌, IfOk, List, string_bytes};
ghost use Rattle.just_sched_history.specs.declared.event.Event.{Event};
ghost use Rattle.just_sched_lines.specs.Lines.{history_text};
ghost use Rattle.just_sched_lines.specs.Fitting.{AreFitting};

use super::line::push_line;
use just_path_text::NoMemory;
use just_sched_history::Event;
use std::alloc::Global;

/// A history as text, one line for each event. The text tells the history.
///
/// ```
/// let text = write_history(alloc, book.history())?;
/// // took 0
/// // begun 0
/// // started 0 0 0
/// // ended 0 0 0 code:0
/// // done 0 well
/// // gave 0
/// ```
pub fn write_history(alloc: Global, history: &[Event]) -> Result<String, NoMemory>
    ensures text { IfOk result (λ t. string_bytes t ≡ history_text history.now) }
    ensures tells { IfOk result (λ t. (other : List Event) → AreFitting history.now
        → AreFitting other → string_bytes t ≡ history_text other → other ≡ history.now) }
{
    lines(alloc, history)
}

fn lines(alloc: Global, history: &[Event]) -> Result<String, NoMemory>
    ensures { IfOk result (λ t. string_bytes t ≡ history_text history.now) }
{
    let mut out = String::new(alloc);
    'events: for event in history {
        push_line(alloc, &mut out, event)?;
    }
    Ok(out)
}
