//! The closure of some keys: their visits one after the other, by a list of those that are pending.

ghost use Rattle.std.specs.Prelude.{ℕ, ◌≡◌, ◌≢◌, ◌<◌, ◌≤◌, ◌++◌, [], ◌∷◌, length, false, Some, None, Ok, Err, IfOk, IfErr, OnOk};
ghost use Rattle.just_lang_types.specs.declared.project.LangError.{LangError};
ghost use Rattle.just_lang_types.specs.declared.key.Key.{Key};
ghost use Rattle.just_eval_closure.specs.Pending.{stacked, Finishes, AreRight, AreBeside, Proceeds};
ghost use Rattle.just_eval_closure.specs.Places.{is_listed, numbers_of};
ghost use Rattle.just_eval_closure.specs.Ran.{places_of};
ghost use Rattle.just_eval_closure.specs.Visits.{Around, IsRanked, Visits};

use super::copies::copy_of_keys;
use super::number::numbers;
use super::{CLOSURE_LIMIT, Ran};
use just_lang_types::project::LangError;
use just_lang_types::{Key, Place};
use just_path_text::{NoMemory, Seq};
use std::alloc::Global;

/// What knows the keys around a key.
pub trait Surroundings {
    /// The keys that come before a key and those that come behind it, or why they are refused.
    ghost around: { Self → Key → Around };

    /// The rank of a key, by which no key leads to itself.
    ghost rank: { Self → Key → ℕ };

    /// What is known of it.
    ghost known: { Self → Type 0 };

    /// The keys that come before a key, and those that come behind it.
    fn around(&self, alloc: Global, key: &Key) -> Result<(Seq<Key>, Seq<Key>), LangError>
        requires { known self.now }
        ensures keys { IfOk result (λ keys. around self.now key.now ≡ Ok keys) }
        ensures refused { IfErr result (λ e. e ≢ LangError.NoMemory → around self.now key.now ≡ Err e) };
}

/// What stands beside a place: the numbers of the priors of its key, and the key's subsequents.
#[derive(Drop)]
pub(crate) struct Beside {
    pub(crate) priors: Seq<u32>,
    pub(crate) subsequents: Seq<Key>,
}

/// What is still to be done of a walk.
#[derive(Drop)]
pub(crate) enum Pending {
    /// A key is visited in a round.
    Visit(Place),
    /// A key whose priors were visited gets its place, and its subsequents are visited; the keys around it are these.
    Settle(Place, Seq<Key>, Seq<Key>),
}

/// Puts visits of keys in a round on top of what is pending, the first key on top.
#[tactic(auto, using(crate::proofs::Pending::stacked_pop))]
fn push_visits(
    pending: &mut Vec<Pending>,
    round: Option<u32>,
    keys: Seq<Key>,
) -> Result<(), NoMemory>
    ensures { OnOk result (pending.new.items ≡ stacked pending.old.items round keys) }
{
    let mut keys = keys.into_vec();
    'keys: while let Some(key) = keys.pop() {
        pending.push(Pending::Visit(Place { round, key }))?;
    }
    Ok(())
}

/// Puts what a visit of a new key comes to on top of what is pending: its priors, and behind them the key itself.
fn open(
    alloc: Global,
    pending: &mut Vec<Pending>,
    place: Place,
    priors: Seq<Key>,
    subsequents: Seq<Key>,
) -> Result<(), NoMemory>
    ensures { OnOk result (pending.new.items ≡ stacked (pending.old.items ++ Pending.Settle place priors subsequents ∷ []) place.round priors) }
{
    let round = place.round;
    let visits = copy_of_keys(alloc, priors.as_slice())?;
    pending.push(Pending::Settle(place, priors, subsequents))?;
    push_visits(pending, round, visits)
}

/// Visits a key in a round: nothing, where it was visited there before.
#[tactic(auto, using(crate::proofs::Tasks::again, crate::proofs::Tasks::opened, crate::proofs::Pending::refused_leads, crate::proofs::Numbered::found_listed, crate::proofs::Numbered::absent_unlisted))]
fn visit<S: Surroundings>(
    alloc: Global,
    surroundings: &S,
    ran: &Ran,
    pending: &mut Vec<Pending>,
    place: Place,
) -> Result<(), LangError>
    requires known { S.known surroundings.now }
    requires ranked { IsRanked (S.around surroundings.now) (S.rank surroundings.now) }
    requires right { AreRight (S.around surroundings.now) (S.rank surroundings.now) (places_of ran.now) (pending.old.items ++ Pending.Visit place ∷ []) }
    ensures proceeds { OnOk result (Proceeds (S.around surroundings.now) (S.rank surroundings.now) (pending.old.items ++ Pending.Visit place ∷ []) (places_of ran.now) pending.new.items (places_of ran.now)) }
    ensures refused { IfErr result (λ e. e ≢ LangError.NoMemory → Finishes (S.around surroundings.now) (pending.old.items ++ Pending.Visit place ∷ []) (Ok (places_of ran.now)) (Err e)) }
{
    if ran.find(&place).is_some() {
        return Ok(());
    }
    let (priors, subsequents) = surroundings.around(alloc, &place.key)?;
    open(alloc, pending, place, priors, subsequents)?;
    Ok(())
}

/// Gives a key whose priors were visited its place, and puts the visits of its subsequents on top of what is pending.
fn settle(
    alloc: Global,
    ran: &mut Ran,
    beside: &mut Vec<Beside>,
    pending: &mut Vec<Pending>,
    place: Place,
    priors: Seq<Key>,
    subsequents: Seq<Key>,
) -> Result<(), LangError>
    requires new { is_listed (places_of ran.old) place.round place.key ≡ false }
    ensures room { OnOk result (length (places_of ran.old) < CLOSURE_LIMIT) }
    ensures places { OnOk result (places_of ran.new ≡ places_of ran.old ++ place ∷ []) }
    ensures beside { OnOk result (beside.new.items ≡ beside.old.items ++ record { priors = numbers_of (places_of ran.old) place.round priors; subsequents = subsequents } ∷ []) }
    ensures visits { OnOk result (pending.new.items ≡ stacked pending.old.items (Some (length (places_of ran.old))) subsequents) }
    ensures refused { IfErr result (λ e. e ≢ LangError.NoMemory → (e ≡ LangError.ClosureLimit) × (CLOSURE_LIMIT ≤ length (places_of ran.old))) }
{
    if ran.places().len() >= CLOSURE_LIMIT {
        return Err(LangError::ClosureLimit);
    }
    let later = copy_of_keys(alloc, subsequents.as_slice())?;
    let priors = numbers(alloc, ran, place.round, priors)?;
    beside.push(Beside {
        priors,
        subsequents,
    })?;
    let number = ran.add(place)?;
    push_visits(pending, Some(number), later)?;
    Ok(())
}

/// Does one task.
#[tactic(auto, using(crate::proofs::Tasks::settled, crate::proofs::Tasks::unlisted, crate::proofs::Tasks::over, crate::proofs::Tasks::beside_settled))]
fn turn<S: Surroundings>(
    alloc: Global,
    surroundings: &S,
    ran: &mut Ran,
    beside: &mut Vec<Beside>,
    pending: &mut Vec<Pending>,
    task: Pending,
) -> Result<(), LangError>
    requires known { S.known surroundings.now }
    requires ranked { IsRanked (S.around surroundings.now) (S.rank surroundings.now) }
    requires right { AreRight (S.around surroundings.now) (S.rank surroundings.now) (places_of ran.old) (pending.old.items ++ task ∷ []) }
    requires beside { AreBeside (S.around surroundings.now) (places_of ran.old) beside.old.items }
    requires short { length (places_of ran.old) ≤ CLOSURE_LIMIT }
    ensures proceeds { OnOk result (Proceeds (S.around surroundings.now) (S.rank surroundings.now) (pending.old.items ++ task ∷ []) (places_of ran.old) pending.new.items (places_of ran.new)) }
    ensures beside { OnOk result (AreBeside (S.around surroundings.now) (places_of ran.new) beside.new.items) }
    ensures short { OnOk result (length (places_of ran.new) ≤ CLOSURE_LIMIT) }
    ensures refused { IfErr result (λ e. e ≢ LangError.NoMemory → Finishes (S.around surroundings.now) (pending.old.items ++ task ∷ []) (Ok (places_of ran.old)) (Err e)) }
{
    match task {
        Pending::Visit(place) => visit(alloc, surroundings, ran, pending, place),
        Pending::Settle(place, priors, subsequents) => {
            settle(alloc, ran, beside, pending, place, priors, subsequents)
        }
    }
}

/// Does all that is pending.
#[tactic(auto, using(crate::proofs::Tasks::leads_nowhere, crate::proofs::Tasks::leads_on, crate::proofs::Tasks::leads_to_end, crate::proofs::Tasks::leads_to_refusal, crate::proofs::Tasks::right_popped, crate::proofs::Tasks::fewer_popped))]
fn run<S: Surroundings>(
    alloc: Global,
    surroundings: &S,
    ran: &mut Ran,
    beside: &mut Vec<Beside>,
    pending: &mut Vec<Pending>,
) -> Result<(), LangError>
    requires known { S.known surroundings.now }
    requires ranked { IsRanked (S.around surroundings.now) (S.rank surroundings.now) }
    requires right { AreRight (S.around surroundings.now) (S.rank surroundings.now) (places_of ran.old) pending.old.items }
    requires beside { AreBeside (S.around surroundings.now) (places_of ran.old) beside.old.items }
    requires short { length (places_of ran.old) ≤ CLOSURE_LIMIT }
    ensures done { OnOk result (Finishes (S.around surroundings.now) pending.old.items (Ok (places_of ran.old)) (Ok (places_of ran.new))) }
    ensures beside { OnOk result (AreBeside (S.around surroundings.now) (places_of ran.new) beside.new.items) }
    ensures short { OnOk result (length (places_of ran.new) ≤ CLOSURE_LIMIT) }
    ensures refused { IfErr result (λ e. e ≢ LangError.NoMemory → Finishes (S.around surroundings.now) pending.old.items (Ok (places_of ran.old)) (Err e)) }
{
    'tasks: while let Some(task) = pending.pop() {
        turn(alloc, surroundings, ran, beside, pending, task)?;
    }
    Ok(())
}

/// The places that a walk gave, and what stands beside each.
#[derive(Drop)]
pub(crate) struct Walked {
    pub(crate) ran: Ran,
    pub(crate) beside: Vec<Beside>,
}

/// Visits keys in the round of the command line, and what they need.
#[tactic(auto, using(crate::proofs::Pending::all_visits, crate::proofs::Tasks::right_first))]
pub(crate) fn walk<S: Surroundings>(
    alloc: Global,
    surroundings: &S,
    keys: Seq<Key>,
) -> Result<Walked, LangError>
    requires known { S.known surroundings.now }
    requires ranked { IsRanked (S.around surroundings.now) (S.rank surroundings.now) }
    ensures visits { IfOk result (λ w. Visits (S.around surroundings.now) (Ok []) None keys (Ok (places_of w.ran))) }
    ensures beside { IfOk result (λ w. AreBeside (S.around surroundings.now) (places_of w.ran) w.beside.items) }
    ensures short { IfOk result (λ w. length (places_of w.ran) ≤ CLOSURE_LIMIT) }
    ensures refused { IfErr result (λ e. e ≢ LangError.NoMemory → Visits (S.around surroundings.now) (Ok []) None keys (Err e)) }
{
    let mut ran = Ran::new(alloc);
    let mut beside = Vec::new(alloc);
    let mut pending = Vec::new(alloc);
    push_visits(&mut pending, None, keys)?;
    run(alloc, surroundings, &mut ran, &mut beside, &mut pending)?;
    Ok(Walked { ran, beside })
}
