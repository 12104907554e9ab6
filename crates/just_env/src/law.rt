//! What is loaded over a told world is one thing.

ghost use Rattle.just_env.specs.Agree.{DotenvAgrees, DotenvAlone};

/// Over a host that tells worlds the modules of a project have their dotenv pairs in one way, or one refusal, for which the same children are run, but where a call of
/// the host fails. Where a child isn't run to its end, no other answer goes by the same children alone.
/// It does nothing; its contract is a law.
pub fn dotenv_agrees()
    ensures agrees { DotenvAgrees }
    ensures alone { DotenvAlone }
{}
