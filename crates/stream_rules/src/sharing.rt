//! Clusters that are owned twice.
ghost use Rattle.std.specs.Prelude.{◌≡◌, ℕ, ◌≤◌, IfOk, MatchOption};
ghost use Rattle.state_model.specs.Rules.{first_failing};
ghost use Rattle.volume_model.specs.Owners.{keeps_owner};
ghost use Rattle.stream_rules.specs.Breaches.{IsLeastShared};
ghost use Rattle.stream_rules.specs.Places.{HaveSome, AreRising, times};

use crate::places::{Place, sorted_places};
use host_base::Memory;
use state_model::Run;
use std::alloc::Global;

// The least cluster that two of the places have: the first one of the first place that begins
// inside the place before it.
fn least_shared(places: &[Place]) -> Option<u64>
    requires some { HaveSome places.now }
    requires rising { AreRising places.now }
    ensures { MatchOption result
        ((x : ℕ) → times places.now x ≤ 1)
        (IsLeastShared places.now) }
{
    let mut end = 0;
    for place in places {
        if place.first < end {
            return Some(place.first);
        }
        end = place.end;
    }
    None
}

/// The least cluster below `clusters` that lies in two of the runs, or None where there is none
/// (Linux-NTFS documentation, "Data runs"). The runs may be any: they may stand in any order, be
/// sparse, and end past the volume. The error is want of memory.
///
/// It takes memory linear in the runs, and time n log n, however long they are.
pub fn first_shared(alloc: Global, runs: &[Run], clusters: u64) -> Result<Option<u64>, Memory>
    ensures { IfOk result (λ shared. shared ≡ first_failing (keeps_owner runs.now) clusters) }
{
    let places = sorted_places(alloc, runs, clusters)?;
    Ok(least_shared(&places))
}
