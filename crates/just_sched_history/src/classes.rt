//! The classes of nodes: their numbers, and which have an open body. Only the numbering takes memory.

ghost use Rattle.std.specs.Prelude.{◌≡◌, ◌<◌, ◌++◌, ◌∷◌, ◌⊎◌, [], ℕ, List, true, false, length, vec_len, Some, None, IfOk, MatchOption, option_map};
ghost use Rattle.std.specs.Option.{option_copied};
ghost use Rattle.just_sched_history.specs.declared.event.Event.{Event};
ghost use Rattle.just_sched_history.specs.declared.plan_node.PlanNode.{PlanNode};
ghost use Rattle.just_sched_history.specs.Cached.{class_is_open};
ghost use Rattle.just_sched_history.specs.Classes.{AreClasses, AreOpen, class_of, IsShift, Numbers, KeepsClasses};
ghost use Rattle.just_sched_history.specs.Nodes.{cache_at};
ghost use Rattle.just_sched_history.specs.State.{is_open};
ghost use Rattle.just_sched_history.specs.Tables.{flag};

use super::{Event, Plan};
use just_path_text::NoMemory;
use std::alloc::Global;
use std::collections::HashMap;

/// The class of the node at a place, if it has one.
fn class_at(plan: &Plan, at: usize) -> Option<&str>
    requires { at < length plan.now.nodes }
    ensures { option_copied result ≡ option_map (λ c. c.class) (cache_at plan.now.nodes at) }
{
    match &plan.nodes.as_slice()[at].cache {
        Some(cache) => Some(cache.get().class.as_str()),
        None => None,
    }
}

/// The number of a class: the one that it has, else the next.
fn number_of<'p>(
    numbers: &mut HashMap<&'p str, usize>,
    class: &'p str,
    next: usize,
) -> Result<usize, NoMemory>
    ensures { IfOk result (λ n. Numbers class.now next n numbers.old numbers.new) }
{
    match numbers.insert(class, next)? {
        None => Ok(next),
        Some(number) => {
            // it gets back the number that it had
            numbers.insert(class, number)?;
            Ok(number)
        }
    }
}

/// For each node the number of its class: that of the first node of it.
pub(crate) fn class_numbers(alloc: Global, plan: &Plan) -> Result<Vec<usize>, NoMemory>
    ensures len { IfOk result (λ v. vec_len v ≡ length plan.now.nodes) }
    ensures numbered { IfOk result (λ v. AreClasses plan.now.nodes v.items) }
{
    let count = plan.nodes.len();
    let mut classes = Vec::with_capacity(alloc, count)?;
    let mut numbers = HashMap::with_capacity(alloc, count)?;
    'nodes: for at in 0..count {
        let number = match class_at(plan, at) {
            Some(class) => number_of(&mut numbers, class, at)?,
            None => at,
        };
        classes.push(number)?;
    }
    Ok(classes)
}

/// Whether some open body is of the class of a node that isn't open.
pub(crate) fn is_class_open(
    plan: &Plan,
    history: &[Event],
    at: usize,
    classes: &[usize],
    opened: &[bool],
) -> bool
    requires within { at < length plan.now.nodes }
    requires sized { length classes.now ≡ length plan.now.nodes }
    requires opened_sized { length opened.now ≡ length plan.now.nodes }
    requires classes { ∥ AreClasses plan.now.nodes classes.now ∥₁ }
    requires opened { ∥ AreOpen plan.now.nodes history.now classes.now opened.now ∥₁ }
    requires closed { is_open history.now at ≡ false }
    ensures { result ≡ class_is_open plan.now.nodes history.now at }
{
    let _events = history.len();
    let _nodes = plan.nodes.len();
    opened[classes[at]]
}

/// The node whose body takes a job by the event, or gives it back, and whether it takes one.
fn shift_of(event: &Event) -> Option<(u32, bool)>
    ensures { IsShift result event.now }
{
    match event {
        Event::Took(node) => Some((*node, true)),
        Event::Gave(node) => Some((*node, false)),
        _ => None,
    }
}

/// Notes an event in the flags of the classes with an open body.
pub(crate) fn mark_class(plan: &Plan, classes: &[usize], opened: &mut Vec<bool>, event: &Event)
    requires sized { length classes.now ≡ length plan.now.nodes }
    requires opened_sized { vec_len opened.old ≡ length plan.now.nodes }
    requires classes { ∥ AreClasses plan.now.nodes classes.now ∥₁ }
    ensures sized { vec_len opened.new ≡ vec_len opened.old }
    ensures opened { (h : List Event) → AreClasses plan.now.nodes classes.now → KeepsClasses plan.now.nodes h event.now → AreOpen plan.now.nodes h classes.now opened.old.items → AreOpen plan.now.nodes (h ++ event.now ∷ []) classes.now opened.new.items }
{
    let _nodes = plan.nodes.len();
    if let Some((node, up)) = shift_of(event) {
        let at = node as usize;
        if at < classes.len() {
            let class = classes[at];
            opened[class] = up;
        }
    }
}
