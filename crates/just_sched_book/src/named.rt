//! A plan under the name of its run.

ghost use Rattle.std.specs.Prelude.{◌≡◌};
ghost use Rattle.just_sched_book.specs.Codes.{plan_code};
ghost use base.Stored.{Coded-set};

use super::Naming;
use just_sched_history::Plan;
use std::marker::PhantomData;
use std::sync::ledger::Blank;

/// A plan with the name of the run that is of it, and the ledger of that run, which isn't open yet.
pub struct Named<P: Naming> {
    pub plan: Plan,
    blank: Blank,
    of: PhantomData<P>,
    pub ghost named: { plan ≡ P.start.plan } by { Coded-set plan_code plan P.start.plan },
    ghost name_is: { blank.name ≡ P.name },
    ghost parts_are: { blank.parts ≡ P.parts },
    ghost cut: { blank.parts ≡ 65 },
}

impl<P: Naming> Named<P> {
    /// The plan under that name; its ledger is cut into 65 parts, one for the owner and one for each of up to 64 workers.
    pub fn new(plan: Plan, blank: Blank) -> Named<P>
        requires plan { plan ≡ P.start.plan }
        requires ledger { (blank.name ≡ P.name) × (blank.parts ≡ P.parts) }
        requires parts { P.parts ≡ 65 }
        ensures { result.plan ≡ plan }
    {
        Named {
            plan,
            blank,
            of: PhantomData,
        }
    }

    pub fn into_plan(self) -> Plan
        ensures { result ≡ self.plan }
    {
        let Named {
            plan,
            blank: _,
            of: _,
        } = self;
        plan
    }

    pub(crate) fn take_apart(self) -> (Plan, Blank)
        ensures plan { result.0 ≡ self.plan }
        ensures name { result.1.name ≡ P.name }
        ensures parts { (result.1.parts ≡ P.parts) × (P.parts ≡ 65) }
    {
        let Named { plan, blank, of: _ } = self;
        (plan, blank)
    }
}
