//! The files whose texts are refused, and those that are too many.
ghost use Rattle.std.specs.Prelude.{◌≡◌};
ghost use Rattle.just_lang_spots.specs.Spots.{first_spot};
ghost use Rattle.just_lang_rulebook.specs.Faults.{fault_spots_from, fault_spots};
ghost use Rattle.just_lang_rulebook.specs.Rules.{source_limit_spots};

use just_lang_layout::{File, Layout};
use just_lang_rules::{fault_spot, source_limit_spot};
use just_lang_spots::{Spot, earlier};
use just_lang_syntax::FaultKind;

/// The first fault of that kind among these files.
#[tactic(auto, using(just_lang_spots::proofs::Spots::earlier_none))]
fn first_among_files(files: &[File], kind: FaultKind) -> Option<Spot>
    ensures { result ≡ first_spot (fault_spots_from kind 0 files.now) }
{
    let mut found = None;
    'files: for number in 0..files.len() {
        let here = fault_spot(kind, number, &files[number].fault);
        found = earlier(found, here);
    }
    found
}

/// The first file's fault of that kind.
#[tactic(auto, unfolding(crate::specs::Faults::fault_spots))]
pub fn first_fault(layout: &Layout, kind: FaultKind) -> Option<Spot>
    ensures { result ≡ first_spot (fault_spots kind layout.now) }
{
    first_among_files(layout.files.as_slice(), kind)
}

/// The beginning of the first file behind 4,096 others, where there are so many files.
#[tactic(auto, unfolding(crate::specs::Rules::source_limit_spots))]
pub fn first_source_limit(layout: &Layout) -> Option<Spot>
    ensures { result ≡ first_spot (source_limit_spots layout.now) }
{
    source_limit_spot(layout.files.len())
}
