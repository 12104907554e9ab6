//! A project that breaks no rule comes to an end: what its recipes depend on, and what its variables use.
ghost use Rattle.just_cli_plan.specs.EndingProjects.{ProjectsEnd};

/// In the justfile of sources that break no rule no chain of dependencies passes more recipes than there are, and no variable leads
/// to itself. So its values have an end, and its closure. It does nothing; its contract is a law.
pub fn projects_end()
    ensures { ProjectsEnd }
{}
