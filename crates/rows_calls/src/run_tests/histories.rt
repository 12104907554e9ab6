//! Whether a history is legal, event by event, for plans in which no body fails, no node has subsequents, and priors may
//! run side by side; and a history as text.

use just_host::Status;
use just_path_text::NoMemory;
use just_sched::{Event, Outcome, PlanNode, Work, write_history};
use std::alloc::Global;

/// How far a node has come.
#[derive(Clone, Copy, PartialEq)]
enum Phase {
    Waiting,
    Taken,
    /// Its body was begun, so many of its commands have ended, and none runs.
    Between(u32),
    /// The command of that place runs as that child.
    Running(u32, u32),
    Done,
    Given,
}

/// The node of an event; none of one that doesn't come in these runs.
fn node_of(event: &Event) -> Option<u32> {
    match event {
        Event::Took(node)
        | Event::Begun(node)
        | Event::Started(node, _, _)
        | Event::Ended(node, _, _, _)
        | Event::Done(node, _)
        | Event::Gave(node) => Some(*node),
        _ => None,
    }
}

/// That phase where it may come.
fn turned(may: bool, phase: Phase) -> Option<Phase> {
    if may { Some(phase) } else { None }
}

/// The phase of a node behind an event of it, where the event may come; the node has so many commands, and so many
/// children were started before.
fn behind(phase: Phase, event: &Event, commands: u32, children: u32) -> Option<Phase> {
    match event {
        Event::Took(_) => turned(phase == Phase::Waiting, Phase::Taken),
        Event::Begun(_) => turned(phase == Phase::Taken, Phase::Between(0)),
        Event::Started(_, place, child) => {
            let may = phase == Phase::Between(*place) && *place < commands && *child == children;
            turned(may, Phase::Running(*place, *child))
        }
        Event::Ended(_, place, child, status) => {
            let may = phase == Phase::Running(*place, *child) && *status == Status::Code(0);
            turned(may, Phase::Between(place.saturating_add(1)))
        }
        Event::Done(_, outcome) => {
            let may = phase == Phase::Between(commands) && *outcome == Outcome::Well;
            turned(may, Phase::Done)
        }
        Event::Gave(_) => turned(phase == Phase::Done, Phase::Given),
        _ => None,
    }
}

/// How many commands a node has.
fn command_count(node: &PlanNode) -> u32 {
    match &node.work {
        Work::Lines(commands) => u32::try_from(commands.len()).unwrap_or(u32::MAX),
        Work::Script(_) => 1,
        Work::Empty => 0,
    }
}

/// Whether a node's body has ended, or its job was given back.
fn is_done(phases: &[Phase], node: u32) -> bool {
    match phases.get(node as usize) {
        Some(phase) => *phase == Phase::Done || *phase == Phase::Given,
        None => false,
    }
}

/// How many bodies are open.
fn open_count(phases: &[Phase]) -> usize {
    let mut count: usize = 0;
    for phase in phases {
        if *phase != Phase::Waiting && *phase != Phase::Given {
            count = count.saturating_add(1);
        }
    }
    count
}

/// Whether a node may take a job: each of its priors is done, and a job is free.
fn may_take(node: &PlanNode, phases: &[Phase], jobs: usize) -> bool {
    for prior in node.node.priors.as_slice() {
        if !is_done(phases, *prior) {
            return false;
        }
    }
    open_count(phases) < jobs
}

/// Whether an event of a node may come; the node's phase is that behind it then.
fn sees_of(
    nodes: &[PlanNode],
    phases: &mut [Phase],
    node: u32,
    children: u32,
    event: &Event,
) -> bool {
    let Some(planned) = nodes.get(node as usize) else {
        return false;
    };
    let Some(phase) = phases.get_mut(node as usize) else {
        return false;
    };
    match behind(*phase, event, command_count(planned), children) {
        Some(next) => {
            *phase = next;
            true
        }
        None => false,
    }
}

/// Whether a job that an event takes may be taken.
fn has_job(nodes: &[PlanNode], phases: &[Phase], jobs: usize, event: &Event) -> bool {
    match event {
        Event::Took(node) => match nodes.get(*node as usize) {
            Some(planned) => may_take(planned, phases, jobs),
            None => false,
        },
        _ => true,
    }
}

/// Whether each node's job was given back.
fn are_given(phases: &[Phase]) -> bool {
    for phase in phases {
        if *phase != Phase::Given {
            return false;
        }
    }
    true
}

/// Whether an event may come under that limit of jobs, behind so many started children; its node's phase is that behind it
/// then.
fn sees(
    nodes: &[PlanNode],
    phases: &mut [Phase],
    jobs: usize,
    children: u32,
    event: &Event,
) -> bool {
    match node_of(event) {
        Some(node) => {
            has_job(nodes, phases, jobs, event) && sees_of(nodes, phases, node, children, event)
        }
        None => false,
    }
}

/// Whether each event may come in its turn under that limit of jobs; the phases are those behind them then.
fn see_all(nodes: &[PlanNode], phases: &mut [Phase], jobs: usize, history: &[Event]) -> bool {
    let mut children: u32 = 0;
    for event in history {
        if !sees(nodes, phases, jobs, children, event) {
            return false;
        }
        if let Event::Started(_, _, _) = event {
            children = children.saturating_add(1);
        }
    }
    true
}

/// Whether each event may come in its turn under that limit of jobs, and each node's job was given back.
/// The one error is want of memory. No clause: it serves tests alone.
pub fn is_legal(
    alloc: Global,
    nodes: &[PlanNode],
    jobs: usize,
    history: &[Event],
) -> Result<bool, NoMemory> {
    let mut phases = vec![in alloc; Phase::Waiting; nodes.len()]?;
    let seen = see_all(nodes, phases.as_mut_slice(), jobs, history);
    Ok(seen && are_given(phases.as_slice()))
}

/// The history of a run of one node that has one command.
fn of_one_node(alloc: Global) -> Result<Vec<Event>, NoMemory> {
    Ok(vec![in alloc;
        Event::Took(0),
        Event::Begun(0),
        Event::Started(0, 0, 0),
        Event::Ended(0, 0, 0, Status::Code(0)),
        Event::Done(0, Outcome::Well),
        Event::Gave(0),
    ]?)
}

/// A history is written event by event, each on a line of its own.
#[test]
fn lines_of_one_node(rt: HostRuntime) -> Result<(), NoMemory> {
    let alloc = rt.alloc();
    let history = of_one_node(alloc)?;
    let text = write_history(alloc, history.as_slice())?;
    let want = "took 0\nbegun 0\nstarted 0 0 0\nended 0 0 0 code:0\ndone 0 well\ngave 0\n";
    assert_eq!(rt; text.as_str(), want);
    Ok(())
}
