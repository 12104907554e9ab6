//! What the sources of a project come to is one thing: one justfile, or one first broken rule.
ghost use Rattle.just_cli_plan.specs.OneProject.{ProjectsAgree};

/// Sources that break no rule make one justfile over an environment, and others break one first rule; that a pattern is too big for
/// the library to build is left out, since the library decides it. It does nothing; its contract is a law.
pub fn projects_agree()
    ensures { ProjectsAgree }
{}
