//! Where qualities come from that nodes hand on against their edges.

ghost use Rattle.std.specs.Prelude.{ℕ, ◌≡◌, ◌<◌, length, map, get_or, All, Contains, IfOk};
ghost use Rattle.just_lang_spots.specs.Graph.{targets, IsGraph, IsOrder};
ghost use Rattle.just_lang_spots.specs.Origins.{origin_at, AreOrigins};

use just_path_text::{NoMemory, Seq};
use std::alloc::Global;

/// For each node the one that its quality comes from: itself, where it has it of its own; else that of the first target
/// that has it. In `order` each node stands behind its targets.
pub fn origins(
    alloc: Global,
    edges: &[Seq<usize>],
    own: &[bool],
    order: &[usize],
) -> Result<Vec<Option<usize>>, NoMemory>
    requires graph { IsGraph edges.now }
    requires own { length own.now ≡ length edges.now }
    requires nodes { All (λ v. v < length edges.now) order.now }
    requires order { IsOrder edges.now order.now }
    requires whole { (v : ℕ) → v < length edges.now → Contains order.now v }
    ensures { IfOk result (λ os. AreOrigins edges.now own.now os.items) }
{
    let mut origins = vec![in alloc; None; edges.len()]?;
    for node in order {
        let origin = origin_of(edges, own, origins.as_slice(), *node);
        origins[*node] = origin;
    }
    Ok(origins)
}

/// The origin of one node by those of its targets.
fn origin_of(
    edges: &[Seq<usize>],
    own: &[bool],
    origins: &[Option<usize>],
    node: usize,
) -> Option<usize>
    requires graph { IsGraph edges.now }
    requires node { node < length edges.now }
    requires own { length own.now ≡ length edges.now }
    requires size { length origins.now ≡ length edges.now }
    ensures { result ≡ origin_at edges.now own.now origins.now node }
{
    if own[node] {
        return Some(node);
    }
    let targets = edges[node].as_slice();
    for target in targets {
        if let Some(origin) = origins[*target] {
            return Some(origin);
        }
    }
    None
}
