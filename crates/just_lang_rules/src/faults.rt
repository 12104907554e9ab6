//! Files whose texts are refused, and those that are too many.
ghost use Rattle.std.specs.Prelude.{◌≡◌};
ghost use Rattle.just_lang_spots.specs.Spots.{first_spot};
ghost use Rattle.just_lang_rules.specs.FaultSpots.{is_same_kind, fault_spot, source_limit_spot};

use just_lang_spots::{Spot, spot_where};
use just_lang_syntax::{Fault, FaultKind};

/// Whether the kinds are one.
fn is_same_kind(some: FaultKind, other: FaultKind) -> bool
    ensures { result ≡ is_same_kind some other }
{
    match (some, other) {
        (FaultKind::Syntax, FaultKind::Syntax)
        | (FaultKind::Unsupported, FaultKind::Unsupported)
        | (FaultKind::Depth, FaultKind::Depth) => true,
        _ => false,
    }
}

/// The place of the fault of the file of that number, where it has one of that kind.
pub fn fault_spot(kind: FaultKind, file: usize, fault: &Option<Fault>) -> Option<Spot>
    ensures { result ≡ first_spot (fault_spot kind file fault.now) }
{
    match fault {
        None => None,
        Some(fault) => {
            let spot = Spot {
                file,
                line: fault.line,
                column: fault.column,
            };
            spot_where(is_same_kind(kind, fault.kind), spot)
        }
    }
}

/// The beginning of the first file behind 4,096 others, where there are so many files.
pub fn source_limit_spot(files: usize) -> Option<Spot>
    ensures { result ≡ first_spot (source_limit_spot files) }
{
    let spot = Spot {
        file: 4096,
        line: 1,
        column: 1,
    };
    spot_where(files > 4096, spot)
}
