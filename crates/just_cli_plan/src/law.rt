//! What is asked of sources has one answer.

ghost use Rattle.just_cli_plan.specs.Agree.{PlansAgree, PlansAlone};

/// What is asked of sources over told worlds has one plan or one refusal, for which the same children are run, but where a call of the host fails, where a child
/// that gives dotenv pairs isn't run to its end, and where the library can't build a pattern that is too big; and where a child isn't run to its end, no answer that is none of
/// these goes by the same children alone. It does nothing; its contract is a law.
pub fn plans_agree()
    ensures agrees { PlansAgree }
    ensures alone { PlansAlone }
{}
