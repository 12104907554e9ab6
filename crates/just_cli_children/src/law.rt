//! What bodies start whose commands all end well.
ghost use Rattle.just_cli_children.specs.DryRuns.{StartsAll};

/// A body all of whose commands end with the code 0 starts each of them once, in their order, and no other: so a dry run tells just what it would. It does
/// nothing; its contract is a law.
pub fn well_bodies_start_all()
    ensures { StartsAll }
{}
