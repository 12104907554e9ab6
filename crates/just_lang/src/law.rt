//! Projects that break no rule are sound.
ghost use Rattle.just_lang.specs.SoundProjects.{ProjectsAreSound};

/// In the justfile of sources that break no rule the names that expressions, dependencies and aliases use lead to what there is, no
/// two aliases of a module have one name, dependencies give what their recipes take, and no parameter that wants a value stands
/// behind one with a default, options aside.
/// It does nothing; its contract is a law.
pub fn projects_are_sound()
    ensures { ProjectsAreSound }
{}
