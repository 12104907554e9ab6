//! Places in a list as people count them.
ghost use Rattle.std.specs.Prelude.{◌≡◌, ◌+◌, ◌<◌, ◌^◌, ◌-◌};

/// The number of the thing at that place, where places count from 0.
pub fn ordinal(place: usize) -> usize
    requires { place + 1 < 2 ^ 64 }
    ensures { result ≡ place + 1 }
{
    place + 1
}
