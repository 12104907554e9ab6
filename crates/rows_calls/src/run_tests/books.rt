//! A book on its own: bodies are opened side by side under a limit of jobs, finished, and the book is closed.

ghost use Rattle.std.specs.Prelude.{◌≡◌, ◌+◌, ◌<◌, option_map};
ghost use Rattle.std.specs.Int.NonZero.{non_zero_u64_get};

use super::hosts::{failing, memory, touching};
use super::plans::plan_of;
use super::workers::{left, tells};
use just_host::Host;
use just_path_text::NoMemory;
use just_sched::{
    Book, Desk, Driven, Idle, Named, Naming, Next, OpenBody, Plan, Seat, last_status,
};
use std::alloc::{AllocError, Global};
use std::marker::Brand;
use std::num::NonZeroU64;
use std::process::Abort;
use std::sync::ledger::Blank;

/// Adds a line: what was done, how many bodies are open now, and the states of the nodes.
fn add_states<H: Host + Drop, P: Naming>(
    told: &mut String,
    done: &str,
    desk: &Desk<H, P>,
) -> Result<(), AllocError> {
    let bodies = desk.open_bodies();
    write!(told, "{done} {bodies}:")?;
    for node in 0..desk.book.plan.nodes.len() {
        let state = desk.book.state(node as u32);
        write!(told, " {state:?}")?;
    }
    told.push_str("\n")
}

/// Tells what was done, and how the book stands then.
fn tell<H: Host + Drop, P: Naming>(
    rt: &impl Abort,
    told: &mut String,
    done: &str,
    desk: &Desk<H, P>,
) {
    match add_states(told, done, desk) {
        Ok(()) => {}
        Err(_) => panic!(rt; "no memory"),
    }
}

/// Whether a book's tables are as long as its plan.
fn is_sized<H: Host + Drop, P: Naming>(desk: &Desk<H, P>) -> bool {
    desk.book.tables().size == desk.book.plan.nodes.len()
}

/// A word for why there is nothing to do now.
fn idle_word(idle: Idle) -> &'static str {
    match idle {
        Idle::Nothing => "nothing",
        Idle::Jobs => "jobs",
        Idle::Class => "class",
        Idle::Signal => "signal",
    }
}

/// Finishes a body that runs its only child.
fn finish<H: Host + Drop, P: Naming>(
    rt: &impl Abort,
    desk: &mut Desk<H, P>,
    seat: &mut Seat<P>,
    body: OpenBody<H>,
)
    requires { 0 < seat.old.share.amount }
    ensures parts { seat.new.share.parts ≡ seat.old.share.parts }
    ensures units { seat.new.share.amount + 1 ≡ seat.old.share.amount }
{
    match desk.turn(seat, body.wait()) {
        None => {}
        Some(_body) => panic!(rt; "a further child"),
    }
}

/// Makes a move that opens no body, and tells what it comes to.
fn make_last_move<H: Host + Drop, P: Naming>(
    rt: &impl Abort,
    desk: &mut Desk<H, P>,
    seat: &mut Seat<P>,
    told: &mut String,
)
    ensures parts { seat.new.share.parts ≡ seat.old.share.parts }
    ensures units { seat.new.share.amount ≡ seat.old.share.amount }
{
    match desk.next(seat) {
        Next::Body(_body) => panic!(rt; "a third body"),
        Next::Moved => tell(rt, told, "moved", desk),
        Next::Idle(idle) => tell(rt, told, idle_word(idle), desk),
    }
}

/// Makes a move, and tells what it comes to. Where it opens a body, one more move is made before that body is finished.
fn make_second_move<H: Host + Drop, P: Naming>(
    rt: &impl Abort,
    desk: &mut Desk<H, P>,
    seat: &mut Seat<P>,
    told: &mut String,
)
    ensures parts { seat.new.share.parts ≡ seat.old.share.parts }
    ensures units { seat.new.share.amount ≡ seat.old.share.amount }
{
    match desk.next(seat) {
        Next::Body(body) => {
            tell(rt, told, "opened", desk);
            make_last_move(rt, desk, seat, told);
            finish(rt, desk, seat, body);
            tell(rt, told, "finished", desk);
        }
        Next::Moved => tell(rt, told, "moved", desk),
        Next::Idle(idle) => tell(rt, told, idle_word(idle), desk),
    }
}

/// Makes a move while no body is open, and tells what it comes to. Where it opens a body, one more move is made before that
/// body is finished, and where that one opens a body too, a third one.
fn make_first_move<H: Host + Drop, P: Naming>(
    rt: &impl Abort,
    desk: &mut Desk<H, P>,
    seat: &mut Seat<P>,
    told: &mut String,
)
    ensures parts { seat.new.share.parts ≡ seat.old.share.parts }
    ensures units { seat.new.share.amount ≡ seat.old.share.amount }
{
    match desk.next(seat) {
        Next::Body(body) => {
            tell(rt, told, "opened", desk);
            make_second_move(rt, desk, seat, told);
            finish(rt, desk, seat, body);
            tell(rt, told, "finished", desk);
        }
        Next::Moved => tell(rt, told, "moved", desk),
        Next::Idle(idle) => tell(rt, told, idle_word(idle), desk),
    }
}

/// Makes so many moves while no body is open, each with those that it leads to.
fn make_moves<H: Host + Drop, P: Naming>(
    rt: &impl Abort,
    desk: &mut Desk<H, P>,
    seat: &mut Seat<P>,
    told: &mut String,
    count: u32,
)
    ensures parts { seat.new.share.parts ≡ seat.old.share.parts }
    ensures units { seat.new.share.amount ≡ seat.old.share.amount }
{
    'moves: for _ in 0..count {
        make_first_move(rt, desk, seat, told);
    }
}

/// Opens a book, makes so many moves while no body is open, and closes it.
fn play<H: Host + Drop, P: Naming>(
    rt: &impl Abort,
    alloc: Global,
    plan: Plan,
    blank: Blank,
    host: H,
    jobs: Option<NonZeroU64>,
    told: &mut String,
    count: u32,
) -> Driven<H>
    requires plan { plan ≡ P.start.plan }
    requires ledger { (blank.name ≡ P.name) × (blank.parts ≡ P.parts) }
    requires parts { P.parts ≡ 65 }
    requires jobs { option_map non_zero_u64_get jobs ≡ P.start.jobs }
    requires told { H.told host ≡ P.start.told }
{
    let (book, seat) = match Book::<H, P>::open(alloc, Named::new(plan, blank), host, jobs) {
        Ok(opened) => opened,
        Err(_) => panic!(rt; "no memory"),
    };
    let mut seat = seat;
    let mut desk = Desk::new(book);
    if !is_sized(&desk) {
        panic!(rt; "tables of another plan");
    }
    tell(rt, told, "begun", &desk);
    make_moves(rt, &mut desk, &mut seat, told, count);
    desk.audit(&mut seat);
    desk.into_book().close()
}

/// The same under the name of a run that begins there, with so many jobs.
fn played<H: Host + Drop>(
    rt: &impl Abort,
    alloc: Global,
    plan: Plan,
    host: H,
    jobs: u64,
    told: &mut String,
    count: u32,
) -> Driven<H> {
    let jobs = NonZeroU64::new(jobs);
    play::<H, Brand>(rt, alloc, plan, Blank::new(65), host, jobs, told, count)
}

/// Adds a line: how many events there were, how the last children of the first two nodes ended, and how the run went.
fn add_end<H: Host + Drop>(told: &mut String, driven: Driven<H>) -> Result<(), AllocError> {
    let (_, _, history, verdict) = left(driven);
    let count = history.len();
    let first = last_status(history.as_slice(), 0);
    let second = last_status(history.as_slice(), 1);
    write!(told, "{count} {first:?} {second:?} {verdict:?}\n")
}

/// So many moves over a book of that recipe and so many jobs come to that.
fn plays<H: Host + Drop>(
    rt: &impl Abort,
    alloc: Global,
    (text, name): (&str, &str),
    host: H,
    jobs: u64,
    count: u32,
    want: &str,
) -> Result<(), NoMemory> {
    let plan = plan_of(rt, alloc, text, name)?;
    let mut told = String::new(alloc);
    let driven = played(rt, alloc, plan, host, jobs, &mut told, count);
    add_end(&mut told, driven)?;
    tells(rt, told.as_str(), want);
    Ok(())
}

/// Three priors side by side, each of which runs one child.
const THREE: &str = "[parallel]\nall: a b c\na:\n\techo a\nb:\n\techo b\nc:\n\techo c\n";

/// Two bodies are opened, and no third one while both are open; the second one ends first.
#[test]
fn two_jobs_bound_open_bodies(rt: HostRuntime) -> Result<(), NoMemory> {
    let alloc = rt.alloc();
    let want =
        "begun 0: Ready Ready Ready Waiting\nopened 1: Open Ready Ready Waiting\nopened 2: Open Open Ready Waiting\njobs 2: Open Open Ready Waiting\nfinished 1: Open Finished Ready Waiting\nfinished 0: Finished Finished Ready Waiting\n12 Some(Code(0)) Some(Code(0)) Well\n";
    plays(&rt, alloc, (THREE, "all"), memory(alloc)?, 2, 1, want)
}

/// One body is opened, and no second one while it is open.
#[test]
fn one_job_bounds_open_bodies(rt: HostRuntime) -> Result<(), NoMemory> {
    let alloc = rt.alloc();
    let want =
        "begun 0: Ready Ready Ready Waiting\nopened 1: Open Ready Ready Waiting\njobs 1: Open Ready Ready Waiting\nfinished 0: Finished Ready Ready Waiting\n6 Some(Code(0)) None Well\n";
    plays(&rt, alloc, (THREE, "all"), memory(alloc)?, 1, 1, want)
}

/// Three priors side by side, the first two of which fail.
const TWO_FAIL: &str = "[parallel]\np: a b c\na:\n\texit 3\nb:\n\texit 4\nc:\n\techo c\n";

/// Both of two priors fail, the second one first: the run fails by the first.
#[test]
fn row_least_failed_node(rt: HostRuntime) -> Result<(), NoMemory> {
    let alloc = rt.alloc();
    let want =
        "begun 0: Ready Ready Ready Waiting\nopened 1: Open Ready Ready Waiting\nopened 2: Open Open Ready Waiting\njobs 2: Open Open Ready Waiting\nfinished 1: Open Failed Ready Waiting\nfinished 0: Failed Failed Ready Waiting\n12 Some(Code(3)) Some(Code(4)) Failed(0)\n";
    plays(&rt, alloc, (TWO_FAIL, "p"), failing(alloc)?, 2, 1, want)
}

/// A diamond: the lowest node, the two above it, and the highest one.
const DIAMOND: &str =
    "[parallel]\np: a b\n\techo p\n[parallel]\na: c\n\texit 3\n[parallel]\nb: c\n\techo b\nc:\n\techo c\n";

/// The states of the diamond's nodes at each step, where one of the two in the middle fails.
#[test]
fn states_of_a_diamond(rt: HostRuntime) -> Result<(), NoMemory> {
    let alloc = rt.alloc();
    let want =
        "begun 0: Ready Waiting Waiting Waiting\nopened 1: Open Waiting Waiting Waiting\nnothing 1: Open Waiting Waiting Waiting\nfinished 0: Finished Ready Ready Waiting\nopened 1: Finished Open Ready Waiting\nopened 2: Finished Open Open Waiting\nnothing 2: Finished Open Open Waiting\nfinished 1: Finished Open Finished Waiting\nfinished 0: Finished Failed Finished Waiting\n18 Some(Code(0)) Some(Code(3)) Failed(1)\n";
    plays(&rt, alloc, (DIAMOND, "p"), failing(alloc)?, 2, 2, want)
}

/// A diamond whose nodes come one behind the other.
const IN_TURN: &str = "d: b c\n\techo d\nb: a\n\techo b\nc: a\n\techo c\na:\n\techo a\n";

/// The states of that diamond's nodes as a book is opened, and behind the end of its first body.
#[test]
fn row_states_of_a_diamond_in_turn(rt: HostRuntime) -> Result<(), NoMemory> {
    let alloc = rt.alloc();
    let want =
        "begun 0: Ready Waiting Waiting Waiting\nopened 1: Open Waiting Waiting Waiting\nnothing 1: Open Waiting Waiting Waiting\nfinished 0: Finished Ready Waiting Waiting\n6 Some(Code(0)) None Well\n";
    plays(&rt, alloc, (IN_TURN, "d"), memory(alloc)?, 2, 1, want)
}

/// Two bodies of one class, which read the file `in` and make the file `out`.
const ONE_CLASS: &str =
    "set unstable\n\n[script]\n[cache(inputs='in', outputs='out')]\nm f:\n\ttouch out\n\n[parallel]\nall: (m 'a') (m 'b')\n";

/// While the first body is open, the second waits for it; then it is skipped, and the third, which is empty, ends.
#[test]
fn second_of_a_class_waits(rt: HostRuntime) -> Result<(), NoMemory> {
    let alloc = rt.alloc();
    let host = touching(alloc)?;
    let want =
        "begun 0: Ready Ready Waiting\nopened 1: Open Ready Waiting\nclass 1: Open Ready Waiting\nfinished 0: Finished Ready Waiting\nmoved 0: Finished Finished Ready\nmoved 0: Finished Finished Finished\nnothing 0: Finished Finished Finished\n16 Some(Code(0)) None Well\n";
    plays(&rt, alloc, (ONE_CLASS, "all"), host, 2, 4, want)
}
