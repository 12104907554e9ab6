//! That a run is asked for one thing: a root is loaded, a project evaluated and keys closed in one way at most.
ghost use Rattle.just_cli_plan.specs.Loading.{LoadsAgree, RootsAgree};
ghost use Rattle.just_cli_plan.specs.Evaluating.{EvaluationsAgree};
ghost use Rattle.just_cli_plan.specs.Closing.{ClosuresAgree};

/// Over a host that tells a world a root leads to one list of sources, or to one refusal, but where a call of the host fails. It does
/// nothing; its contract is a law.
pub fn loads_agree()
    ensures loads { LoadsAgree }
    ensures roots { RootsAgree }
{}

/// Modules none of whose variables leads to itself have one evaluation: one value for each variable, or one refusal. It does nothing; its
/// contract is a law.
pub fn evaluations_agree()
    ensures { EvaluationsAgree }
{}

/// Keys have one closure, or one refusal. It does nothing; its contract is a law.
pub fn closures_agree()
    ensures { ClosuresAgree }
{}
