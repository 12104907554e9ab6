//! The book of a run: its history, kept legal, and the moves that go on with it.

ghost use Rattle.std.specs.Prelude.{◌≡◌, ◌≢◌, ◌+◌, ◌<◌, ◌≤◌, ◌||◌, ◌⊎◌, ℕ, Bool, true, false, List, [], ◌∷◌, ◌++◌, Option, Some, None, length, option_map, IfOk, IfErr, IfSome, IfNone, OnOk, MatchOption, MatchBool, vec_len, vec_capacity};
ghost use Rattle.std.specs.Int.NonZero.{non_zero_u64_get};
ghost use Rattle.std.proofs.Props.{props};
ghost use Rattle.just_host_record.specs.Record.{children};
ghost use Rattle.just_sched_book.specs.Account.{IsAccount};
ghost use Rattle.just_sched_book.specs.Tabled.{TablesTell};
ghost use Rattle.just_sched_history.specs.CacheRule.{GoesByCacheRule};
ghost use Rattle.just_sched_history.specs.Cached.{may_begin, class_is_open, is_cached, are_one_class};
ghost use Rattle.just_sched_book.specs.Codes.{plan_code};
ghost use Rattle.just_sched_history.specs.Start.{IsKept, run_of};
ghost use Rattle.just_sched_history.specs.Room.{slots, total_commands, settle_count};
ghost use Rattle.just_sched_history.specs.Rows.{IsNoted};
ghost use Rattle.just_sched_history.specs.Running.{running_bodies, EachNoIsDone, IsNotedFor};
ghost use Rattle.just_sched_history.specs.State.{IsToAsk, IsReady, is_open, is_running, is_asked, is_begun, is_done, is_over as over_of, has_taken, has_caught, caught_signal, last_start as start_of, next_step as step_of};
ghost use Rattle.just_sched_history.specs.Legal.{Run, IsClosed, IsComplete, May, open_bodies, all_starts, in_body};
ghost use Rattle.just_sched_history.specs.Match.{StandsFor, IsStranger};
ghost use Rattle.just_sched_history.specs.Idle.{IsIdle, CanMove, HasWork};
ghost use Rattle.just_sched_history.specs.NodeStates.{IsState};
ghost use Rattle.just_sched_history.specs.Turns.{IsTurn};
ghost use Rattle.just_sched_history.specs.Verdict.{IsVerdict};
ghost use Rattle.just_sched_history.specs.Moves.{GrowsBy, GrowsOrCatches, IsMove, RunsWith, Rests};
ghost use Rattle.just_sched_book.specs.MoveAnswers.{MatchNext};
ghost use base.Stored.{Coded-set};

use super::calls::{ask, banner, planned, prompt, start_child, tell};
use super::{Driven, HeldBody, Named, Naming, Next, OpenBody, Seat, WaitedBody};
use just_exec_work::step_behind;
use just_host_record::{Call, Host, Signal};
use just_path_text::{NoMemory, Seq};
use just_sched_history::{
    Event, Idle, NodeState, Outcome, Plan, Reason, Step, Tables, Turn, Verdict, command_count,
    event_count, is_running, note, note_answer,
};
use std::alloc::Global;
use std::marker::PhantomData;
use std::num::NonZeroU64;
use std::sync::ledger;

/// A run that goes on: its plan, its host, and the history so far, which is legal and matches what the host's record
/// gained since the book was opened, and in which each node that was answered by a no is done. It has room for every event,
/// so only the host's calls and the texts of keys and entries
/// take memory.
pub struct Book<H: Host + Drop, P: Naming> {
    pub plan: Plan,
    /// How many bodies may be open at once; any number where it isn't given.
    pub jobs: Option<NonZeroU64>,
    pub host: H,
    pub history: Vec<Event>,
    /// The signal that was caught first.
    caught: Option<Signal>,
    /// How many bodies are open.
    taken: usize,
    pub(crate) tables: Tables,
    /// By it the texts of keys and entries are made.
    pub(crate) alloc: Global,
    /// The ledger of the running bodies.
    tally: ledger::Book<P>,
    of: PhantomData<P>,
    pub ghost plan_named: { plan ≡ P.start.plan } by { Coded-set plan_code plan P.start.plan },
    pub ghost jobs_named: { option_map non_zero_u64_get jobs ≡ P.start.jobs } by { Prim.hlevel props },
    ghost account: { ∥ IsAccount P.start history.items (H.told host) (H.spare host) taken caught ∥₁ },
    ghost roomy: { slots P.start.plan.nodes ≤ vec_capacity history },
    ghost sized: { tables.size ≡ length plan.nodes },
    ghost noted: { ∥ IsNoted plan.nodes plan.invocations history.items tables ∥₁ },
    ghost tallied: { settle_count history.items + tally.total ≡ all_starts history.items },
    pub ghost answered: { EachNoIsDone history.items },
}

/// What a book takes memory for.
struct Room {
    history: Vec<Event>,
    tables: Tables,
}

/// Takes room for every event of a run of the plan.
fn make_room<H: Host>(alloc: Global, plan: &Plan, host: &mut H) -> Result<Room, NoMemory>
    ensures entries { (H.told host.new).entries ≡ (H.told host.old).entries }
    ensures world { (H.told host.new).world ≡ (H.told host.old).world }
    ensures empty { IfOk result (λ r. r.history.items ≡ []) }
    ensures room { IfOk result (λ r. slots plan.now.nodes ≤ vec_capacity r.history) }
    ensures spare { OnOk result (total_commands plan.now.nodes ≤ H.spare host.new) }
    ensures size { IfOk result (λ r. r.tables.size ≡ length plan.now.nodes) }
    ensures noted { IfOk result (λ r. ∥ IsNoted plan.now.nodes plan.now.invocations [] r.tables ∥₁) }
{
    let Some(commands) = command_count(plan) else {
        return Err(NoMemory);
    };
    let Some(events) = event_count(plan, commands) else {
        return Err(NoMemory);
    };
    let history = Vec::with_capacity(alloc, events)?;
    let tables = Tables::new(alloc, plan)?;
    match host.room(commands) {
        Ok(()) => Ok(Room { history, tables }),
        Err(NoMemory) => Err(NoMemory),
    }
}

impl<H: Host + Drop, P: Naming> Book<H, P> {
    /// A book of no events yet, and a seat with every part. It takes room for every event, and asks the host for its own;
    /// where memory is wanting, host and plan come back.
    pub fn open(
        alloc: Global,
        plan: Named<P>,
        host: H,
        jobs: Option<NonZeroU64>,
    ) -> Result<(Book<H, P>, Seat<P>), (H, Named<P>)>
        requires jobs { option_map non_zero_u64_get jobs ≡ P.start.jobs }
        requires told { H.told host ≡ P.start.told }
        ensures empty { IfOk result (λ r. r.0.history.items ≡ []) }
        ensures plan { IfOk result (λ r. r.0.plan ≡ plan.plan) }
        ensures jobs { IfOk result (λ r. r.0.jobs ≡ jobs) }
        ensures seat { IfOk result (λ r. (r.1.share.parts ≡ P.parts) × (r.1.share.amount ≡ 0)) }
        ensures told { IfOk result (λ r. H.told r.0.host ≡ H.told host) }
        ensures back { IfErr result (λ r. (H.told r.0 ≡ H.told host) × (r.1.plan ≡ plan.plan)) }
    {
        let mut host = host;
        match make_room(alloc, &plan.plan, &mut host) {
            Ok(Room { history, tables }) => {
                let (plan, blank) = plan.take_apart();
                let (tally, share) = blank.open::<P>();
                let book = Book {
                    plan,
                    jobs,
                    host,
                    history,
                    caught: None,
                    taken: 0,
                    tables,
                    alloc,
                    tally,
                    of: PhantomData,
                };
                Ok((book, Seat::new(share)))
            }
            Err(NoMemory) => Err((host, plan)),
        }
    }

    /// How many bodies are open: no more than there are jobs.
    pub fn open_bodies(&self) -> usize
        ensures count { result ≡ open_bodies (run_of P.start) self.now.history.items }
        ensures few { MatchOption P.start.jobs (Unit {0}) (λ j. result ≤ j) }
    {
        self.taken
    }

    /// The history so far. It is legal, and matches what the host's record gained; so no two open bodies are of one class.
    pub fn history(&self) -> &[Event]
        ensures items { result.now ≡ self.now.history.items }
        ensures kept { ∥ IsKept P.start result.now (H.told self.now.host) ∥₁ }
        ensures apart { (m n : ℕ) → (m ≡ n → ⊥) → is_open result.now m ≡ true → is_open result.now n ≡ true → are_one_class P.start.plan.nodes m n ≡ false }
    {
        self.history.as_slice()
    }

    /// The signal that was caught first, if one was.
    pub fn caught(&self) -> Option<Signal>
        ensures { result ≡ caught_signal self.now.history.items }
    {
        self.caught
    }

    /// The state of a node. It takes no memory.
    pub fn state(&self, node: u32) -> NodeState
        requires { node < length P.start.plan.nodes }
        ensures { IsState P.start.plan.nodes P.start.plan.invocations self.now.history.items node result }
    {
        self.tables.state(&self.plan, self.history.as_slice(), node)
    }

    /// What the book keeps of its history in tables: they tell the states of all nodes, and no history is read again.
    pub fn tables(&self) -> &Tables
        ensures { ∥ TablesTell P.start.plan.nodes P.start.plan.invocations self.now.history.items result.now ∥₁ }
    {
        &self.tables
    }

    /// Shows that the units of a seat with every part are the number of running bodies. It changes nothing.
    pub fn audit(&mut self, seat: &mut Seat<P>)
        requires { seat.old.share.parts ≡ P.parts }
        ensures same { (self.new.plan ≡ self.old.plan) × (self.new.jobs ≡ self.old.jobs) × (self.new.host ≡ self.old.host) × (self.new.history ≡ self.old.history) }
        ensures seat { (seat.new.share.parts ≡ seat.old.share.parts) × (seat.new.share.amount ≡ seat.old.share.amount) }
        ensures units { seat.new.share.amount ≡ running_bodies (run_of P.start) self.new.history.items }
    {
        self.tally.audit(&mut seat.share);
    }

    /// Makes one move, if there is one, of the node of least number that is to be asked, or is ready while no open body is of its
    /// class. One that is to be asked is asked, and is done where its answer is no yes. A ready one takes a job, and its body is looked
    /// up in its cache, where it has one, and skipped, or begun and gone on with, until a child runs, for which the seat gains a unit, or
    /// the job is given back. Where each job is taken, it is the node of least number that is to be asked. It waits for no child, but
    /// for an answer.
    pub fn next(&mut self, seat: &mut Seat<P>) -> Next<H>
        ensures plan { self.new.plan ≡ self.old.plan }
        ensures jobs { self.new.jobs ≡ self.old.jobs }
        ensures parts { seat.new.share.parts ≡ seat.old.share.parts }
        ensures units { MatchNext result (seat.new.share.amount ≡ seat.old.share.amount) (λ node child. seat.new.share.amount ≡ seat.old.share.amount + 1) (λ i. seat.new.share.amount ≡ seat.old.share.amount) }
        ensures can { MatchNext result (CanMove (run_of P.start) self.old.history.items) (λ node child. CanMove (run_of P.start) self.old.history.items) (λ i. IsIdle (run_of P.start) self.new.history.items i) }
        ensures did { MatchNext result
            ((n : ℕ) × IsMove (run_of P.start) self.old.history.items self.new.history.items n × Rests self.new.history.items n)
            (λ node child. IsMove (run_of P.start) self.old.history.items self.new.history.items node × RunsWith self.new.history.items node child)
            (λ i. (self.new.history.items ≡ self.old.history.items) × ((H.told self.new.host).entries ≡ (H.told self.old.host).entries)) }
    {
        if self.is_caught() {
            return Next::Idle(Idle::Signal);
        }
        match self.turn() {
            Turn::Ask(node) => {
                self.ask(node);
                Next::Moved
            }
            Turn::Take(node) => {
                if !self.is_full() {
                    self.take(node);
                    return self.advance(seat, node);
                }
                let Some(other) = self.first_to_ask() else {
                    return Next::Idle(Idle::Jobs);
                };
                self.ask(other);
                Next::Moved
            }
            Turn::Wait => {
                if self.is_full() {
                    return Next::Idle(Idle::Jobs);
                }
                Next::Idle(Idle::Class)
            }
            Turn::Nothing => Next::Idle(Idle::Nothing),
        }
    }

    /// Notes how a body's child ended, for which the seat gives a unit: of the node that runs with that child, else of the
    /// running node of least number, for which waiting has failed then. It takes no memory, and no signal is caught.
    pub fn note_end(&mut self, seat: &mut Seat<P>, body: WaitedBody<H>) -> HeldBody
        requires unit { 0 < seat.old.share.amount }
        ensures plan { self.new.plan ≡ self.old.plan }
        ensures jobs { self.new.jobs ≡ self.old.jobs }
        ensures parts { seat.new.share.parts ≡ seat.old.share.parts }
        ensures units { seat.new.share.amount + 1 ≡ seat.old.share.amount }
        ensures node { IsNotedFor self.old.history.items body.child result.node }
        ensures grown { GrowsBy self.old.history.items self.new.history.items result.node }
        ensures opened { is_open self.new.history.items result.node ≡ true }
        ensures still { is_running self.new.history.items result.node ≡ false }
    {
        self.tally.audit(&mut seat.share);
        let (told, child, ended) = body.take_apart();
        let (node, own) = self.ending(told, child);
        self.settle(seat, node, own, ended);
        HeldBody::new(node)
    }

    /// Goes on with a body that runs no child, until one runs, for which the seat gains a unit, or the job is given back.
    pub fn go_on(&mut self, seat: &mut Seat<P>, body: HeldBody) -> Next<H>
        requires opened { is_open self.old.history.items body.node ≡ true }
        requires still { is_running self.old.history.items body.node ≡ false }
        ensures plan { self.new.plan ≡ self.old.plan }
        ensures jobs { self.new.jobs ≡ self.old.jobs }
        ensures parts { seat.new.share.parts ≡ seat.old.share.parts }
        ensures units { MatchNext result (seat.new.share.amount ≡ seat.old.share.amount) (λ node child. seat.new.share.amount ≡ seat.old.share.amount + 1) (λ i. ⊥) }
        ensures grown { GrowsOrCatches self.old.history.items self.new.history.items body.node }
        ensures did { MatchNext result (Rests self.new.history.items body.node)
            (λ node child. (node ≡ body.node) × RunsWith self.new.history.items node child)
            (λ i. ⊥) }
    {
        self.advance(seat, body.into_node())
    }

    /// Closes the book of a run in which no body is open; each cached body went by the cache rule. It takes no memory, and time for one pass over the nodes.
    pub fn close(self) -> Driven<H>
        requires { IsClosed (run_of P.start) self.history.items }
        ensures host { result.host ≡ self.host }
        ensures plan { result.plan ≡ self.plan }
        ensures history { result.history ≡ self.history.items }
        ensures kept { ∥ IsKept P.start result.history (H.told result.host) ∥₁ }
        ensures cached { (n : ℕ) → is_cached P.start.plan.nodes n ≡ true → GoesByCacheRule (run_of P.start) result.history n }
        ensures verdict { IsVerdict (run_of P.start) result.history result.verdict }
        ensures complete { result.verdict ≡ Verdict.Well → (HasWork (run_of P.start) result.history → ⊥) → IsComplete (run_of P.start) result.history }
    {
        let Book {
            plan,
            jobs: _,
            host,
            history,
            caught,
            taken: _,
            tables,
            alloc: _,
            tally: _,
            of: _,
        } = self;
        let verdict = tables.verdict(&plan, history.as_slice(), caught);
        Driven {
            host,
            plan,
            history: Seq::from(history),
            verdict,
        }
    }

    /// The child that the node runs with, if it runs.
    pub(crate) fn child_of(&self, node: u32) -> Option<u32>
        ensures { MatchOption result (is_running self.now.history.items node ≡ false) (λ c. RunsWith self.now.history.items node c) }
    {
        if node as usize >= self.tables.size {
            return None;
        }
        let row = self.tables.row(node);
        if !is_running(row) {
            return None;
        }
        match row.started {
            Some((_, child)) => Some(child),
            None => unreachable!(),
        }
    }

    /// Whether a signal was caught.
    fn is_caught(&self) -> bool
        ensures { result ≡ has_caught self.now.history.items }
    {
        self.caught.is_some()
    }

    /// The next move.
    fn turn(&mut self) -> Turn
        ensures same { (self.new.history ≡ self.old.history) × (self.new.plan ≡ self.old.plan) × (self.new.jobs ≡ self.old.jobs) × (self.new.host ≡ self.old.host) × (self.new.taken ≡ self.old.taken) × (self.new.caught ≡ self.old.caught) }
        ensures turn { IsTurn P.start.plan.nodes P.start.plan.invocations self.old.history.items result }
    {
        let plan = &self.plan;
        let history = self.history.as_slice();
        self.tables.turn(plan, history)
    }

    /// The node of least number that is to be asked.
    fn first_to_ask(&self) -> Option<u32>
        ensures to_ask { IfSome result (λ n. (n < length P.start.plan.nodes) × IsToAsk P.start.plan.nodes P.start.plan.invocations self.now.history.items n) }
        ensures least { IfSome result (λ n. (m : ℕ) → m < n → IsToAsk P.start.plan.nodes P.start.plan.invocations self.now.history.items m → ⊥) }
        ensures none { IfNone result ((n : ℕ) → n < length P.start.plan.nodes → IsToAsk P.start.plan.nodes P.start.plan.invocations self.now.history.items n → ⊥) }
    {
        self.tables
            .first_to_ask(&self.plan, self.history.as_slice())
    }

    /// Whether each job is taken.
    fn is_full(&self) -> bool
        ensures { MatchBool result
            (P.start.jobs ≡ Some (open_bodies (run_of P.start) self.now.history.items))
            (MatchOption P.start.jobs (Unit {0}) (λ j. open_bodies (run_of P.start) self.now.history.items < j)) }
    {
        match self.jobs {
            Some(jobs) => self.taken as u64 == jobs.get(),
            None => false,
        }
    }

    /// The place of the command that the node runs.
    fn place(&self, node: u32) -> u32
        requires { is_open self.now.history.items node ≡ true }
        ensures { (i c : ℕ) → start_of self.now.history.items node ≡ Some (i, c) → result ≡ i }
    {
        match self.tables.row(node).started {
            Some((place, _)) => place,
            None => 0,
        }
    }

    /// Whether the node's body was begun.
    fn is_begun(&self, node: u32) -> bool
        requires { is_open self.now.history.items node ≡ true }
        ensures { result ≡ is_begun self.now.history.items node }
    {
        self.tables.row(node).begun
    }

    /// Whether the node's body was skipped or is done.
    fn is_over(&self, node: u32) -> bool
        requires { is_open self.now.history.items node ≡ true }
        ensures { result ≡ over_of self.now.history.items node }
    {
        let row = self.tables.row(node);
        row.skipped || row.done
    }

    /// The next step of the node's body.
    fn next_step(&self, node: u32) -> Step
        requires { is_open self.now.history.items node ≡ true }
        ensures { result ≡ step_of P.start.plan.nodes self.now.history.items node }
    {
        let row = self.tables.row(node);
        let nodes = self.plan.nodes.as_slice();
        step_behind(&nodes[node as usize].work, row.ended, row.last)
    }

    /// Asks the node. It is done where the answer is no yes, or where there is none.
    fn ask(&mut self, node: u32)
        requires to_ask { IsToAsk P.start.plan.nodes P.start.plan.invocations self.old.history.items node }
        requires range { node < length P.start.plan.nodes }
        requires calm { has_caught self.old.history.items ≡ false }
        ensures plan { self.new.plan ≡ self.old.plan }
        ensures jobs { self.new.jobs ≡ self.old.jobs }
        ensures grown { GrowsBy self.old.history.items self.new.history.items node }
        ensures asked { (is_asked self.new.history.items node || is_done self.new.history.items node) ≡ true }
        ensures rests { Rests self.new.history.items node }
    {
        let plan = &self.plan;
        match ask(&mut self.host, prompt(plan, node)) {
            Ok(said) => note_answer(&self.plan, &mut self.history, &mut self.tables, node, said),
            Err(reason) => note(
                &self.plan,
                &mut self.history,
                &mut self.tables,
                Event::Done(node, Outcome::Failed(reason)),
            ),
        }
    }

    /// The node's body takes a job.
    fn take(&mut self, node: u32)
        requires ready { IsReady P.start.plan.nodes P.start.plan.invocations self.old.history.items node }
        requires range { node < length P.start.plan.nodes }
        requires calm { has_caught self.old.history.items ≡ false }
        requires free { MatchOption P.start.jobs (Unit {0}) (λ j. open_bodies (run_of P.start) self.old.history.items < j) }
        requires apart { class_is_open P.start.plan.nodes self.old.history.items node ≡ false }
        ensures plan { self.new.plan ≡ self.old.plan }
        ensures jobs { self.new.jobs ≡ self.old.jobs }
        ensures grown { GrowsBy self.old.history.items self.new.history.items node }
        ensures taken { has_taken self.new.history.items node ≡ true }
        ensures opened { is_open self.new.history.items node ≡ true }
        ensures still { is_running self.new.history.items node ≡ false }
    {
        self.taken += 1;
        note(
            &self.plan,
            &mut self.history,
            &mut self.tables,
            Event::Took(node),
        );
    }

    /// The node's body gives its job back.
    fn give(&mut self, node: u32)
        requires opened { is_open self.old.history.items node ≡ true }
        requires over { over_of self.old.history.items node ≡ true }
        ensures plan { self.new.plan ≡ self.old.plan }
        ensures jobs { self.new.jobs ≡ self.old.jobs }
        ensures grown { GrowsBy self.old.history.items self.new.history.items node }
        ensures rests { Rests self.new.history.items node }
    {
        self.taken -= 1;
        note(
            &self.plan,
            &mut self.history,
            &mut self.tables,
            Event::Gave(node),
        );
    }

    /// The node's body is done with no entry of its own: by its statuses, or since a signal was caught.
    pub(crate) fn end(&mut self, node: u32, outcome: Outcome)
        requires may { May (run_of P.start) self.old.history.items (Event.Done node outcome) }
        requires stands { StandsFor (run_of P.start) self.old.history.items (Event.Done node outcome) [] }
        requires opened { is_open self.old.history.items node ≡ true }
        ensures plan { self.new.plan ≡ self.old.plan }
        ensures jobs { self.new.jobs ≡ self.old.jobs }
        ensures grown { GrowsBy self.old.history.items self.new.history.items node }
        ensures opened { is_open self.new.history.items node ≡ true }
        ensures over { over_of self.new.history.items node ≡ true }
    {
        note(
            &self.plan,
            &mut self.history,
            &mut self.tables,
            Event::Done(node, outcome),
        );
    }

    /// Begins the node's body, and prints its banner; false where that failed, by which the body is done.
    pub(crate) fn begin(&mut self, node: u32) -> bool
        requires inside { in_body self.old.history.items node ≡ true }
        requires fresh { is_begun self.old.history.items node ≡ false }
        requires may { may_begin P.start.plan.nodes self.old.history.items node ≡ true }
        requires still { is_running self.old.history.items node ≡ false }
        ensures plan { self.new.plan ≡ self.old.plan }
        ensures jobs { self.new.jobs ≡ self.old.jobs }
        ensures grown { GrowsBy self.old.history.items self.new.history.items node }
        ensures opened { is_open self.new.history.items node ≡ true }
        ensures did { MatchBool result
            ((in_body self.new.history.items node ≡ true) × (is_begun self.new.history.items node ≡ true) × (is_running self.new.history.items node ≡ false))
            (over_of self.new.history.items node ≡ true) }
    {
        let plan = &self.plan;
        match tell(&mut self.host, banner(plan, node)) {
            Ok(()) => {
                note(
                    &self.plan,
                    &mut self.history,
                    &mut self.tables,
                    Event::Begun(node),
                );
                true
            }
            Err(reason) => {
                note(
                    &self.plan,
                    &mut self.history,
                    &mut self.tables,
                    Event::Done(node, Outcome::Failed(reason)),
                );
                false
            }
        }
    }

    /// Starts a command of the node; None where that failed, by which the body is done.
    fn start(&mut self, seat: &mut Seat<P>, node: u32, place: usize) -> Option<OpenBody<H>>
        requires inside { in_body self.old.history.items node ≡ true }
        requires begun { is_begun self.old.history.items node ≡ true }
        requires still { is_running self.old.history.items node ≡ false }
        requires due { step_of P.start.plan.nodes self.old.history.items node ≡ Step.Start place }
        requires calm { has_caught self.old.history.items ≡ false }
        ensures plan { self.new.plan ≡ self.old.plan }
        ensures jobs { self.new.jobs ≡ self.old.jobs }
        ensures parts { seat.new.share.parts ≡ seat.old.share.parts }
        ensures units { MatchOption result (seat.new.share.amount ≡ seat.old.share.amount) (λ b. seat.new.share.amount ≡ seat.old.share.amount + 1) }
        ensures grown { GrowsBy self.old.history.items self.new.history.items node }
        ensures did { MatchOption result
            ((is_open self.new.history.items node ≡ true) × (over_of self.new.history.items node ≡ true))
            (λ b. (b.node ≡ node) × RunsWith self.new.history.items node b.child) }
    {
        let plan = &self.plan;
        let Some(command) = planned(plan, node, place) else {
            unreachable!()
        };
        match start_child(&mut self.host, command) {
            Ok(inner) => {
                let child = H::number(&inner);
                note(
                    &self.plan,
                    &mut self.history,
                    &mut self.tables,
                    Event::Started(node, place as u32, child),
                );
                self.tally.add(&mut seat.share, 1);
                Some(OpenBody::new(node, child, inner))
            }
            Err(reason) => {
                note(
                    &self.plan,
                    &mut self.history,
                    &mut self.tables,
                    Event::Done(node, Outcome::Failed(reason)),
                );
                None
            }
        }
    }

    /// Settles the child that the node runs; where waiting failed, or another child's end was given, the body is done.
    fn settle(&mut self, seat: &mut Seat<P>, node: u32, child: u32, ended: H::Done)
        requires unit { 0 < seat.old.share.amount }
        requires runs { RunsWith self.old.history.items node child }
        requires own { (child ≡ H.done_number ended) ⊎ IsStranger self.old.history.items (H.done_number ended) }
        ensures plan { self.new.plan ≡ self.old.plan }
        ensures jobs { self.new.jobs ≡ self.old.jobs }
        ensures parts { seat.new.share.parts ≡ seat.old.share.parts }
        ensures units { seat.new.share.amount + 1 ≡ seat.old.share.amount }
        ensures grown { GrowsBy self.old.history.items self.new.history.items node }
        ensures opened { is_open self.new.history.items node ≡ true }
        ensures still { is_running self.new.history.items node ≡ false }
    {
        let place = self.place(node);
        self.tally.sub(&mut seat.share, 1);
        match self.host.settle(child, ended) {
            Ok(status) => note(
                &self.plan,
                &mut self.history,
                &mut self.tables,
                Event::Ended(node, place, child, status),
            ),
            Err(_) => note(
                &self.plan,
                &mut self.history,
                &mut self.tables,
                Event::Done(node, Outcome::Failed(Reason::Fault(Call::Wait))),
            ),
        }
    }

    /// Starts the next command of a body that was begun, or ends it and gives its job back. Once a signal was caught, no
    /// command is started.
    fn step(&mut self, seat: &mut Seat<P>, node: u32) -> Next<H>
        requires inside { in_body self.old.history.items node ≡ true }
        requires begun { is_begun self.old.history.items node ≡ true }
        requires still { is_running self.old.history.items node ≡ false }
        ensures plan { self.new.plan ≡ self.old.plan }
        ensures jobs { self.new.jobs ≡ self.old.jobs }
        ensures parts { seat.new.share.parts ≡ seat.old.share.parts }
        ensures units { MatchNext result (seat.new.share.amount ≡ seat.old.share.amount) (λ node child. seat.new.share.amount ≡ seat.old.share.amount + 1) (λ i. ⊥) }
        ensures grown { GrowsBy self.old.history.items self.new.history.items node }
        ensures did { MatchNext result (Rests self.new.history.items node)
            (λ n child. (n ≡ node) × RunsWith self.new.history.items n child)
            (λ i. ⊥) }
    {
        match self.next_step(node) {
            Step::Start(place) => {
                if self.is_caught() {
                    self.end(node, Outcome::Failed(Reason::Interrupted));
                } else if let Some(body) = self.start(seat, node, place) {
                    return Next::Body(body);
                }
            }
            Step::Well => self.end_well(node),
            Step::Failed => self.end(node, Outcome::Failed(Reason::Status)),
        }
        self.give(node);
        Next::Moved
    }

    /// Goes on with an open body that runs no child: it is skipped or begun, where it wasn't, and then makes a step.
    fn advance(&mut self, seat: &mut Seat<P>, node: u32) -> Next<H>
        requires opened { is_open self.old.history.items node ≡ true }
        requires still { is_running self.old.history.items node ≡ false }
        ensures plan { self.new.plan ≡ self.old.plan }
        ensures jobs { self.new.jobs ≡ self.old.jobs }
        ensures parts { seat.new.share.parts ≡ seat.old.share.parts }
        ensures units { MatchNext result (seat.new.share.amount ≡ seat.old.share.amount) (λ node child. seat.new.share.amount ≡ seat.old.share.amount + 1) (λ i. ⊥) }
        ensures grown { GrowsBy self.old.history.items self.new.history.items node }
        ensures did { MatchNext result (Rests self.new.history.items node)
            (λ n child. (n ≡ node) × RunsWith self.new.history.items n child)
            (λ i. ⊥) }
    {
        if self.is_over(node) {
            self.give(node);
            return Next::Moved;
        }
        if !self.is_begun(node) && !self.enter(node) {
            self.give(node);
            return Next::Moved;
        }
        self.step(seat, node)
    }
}
