//! Where temporary folders, and their removal, change a told world.

ghost use Rattle.just_search.specs.Places.{MakesInFolders, RemovesInFolders};

/// A justfile that becomes a file changes a told world in the temporary folder alone that is made for it, where each thing stands in a folder.
/// It does nothing; its contract is a law.
pub fn makes_in_folders()
    ensures { MakesInFolders }
{}

/// The removal of temporary folders changes a told world in these alone. It does nothing; its contract is a law.
pub fn removes_in_folders()
    ensures { RemovesInFolders }
{}
