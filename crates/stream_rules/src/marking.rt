//! Clusters that are owned and not marked.
ghost use Rattle.std.specs.Prelude.{◌≡◌, ℕ, ◌<◌, true, length, IfOk, MatchOption};
ghost use Rattle.bit_set.specs.Bits.{bit};
ghost use Rattle.state_model.specs.Rules.{first_failing};
ghost use Rattle.volume_model.specs.Owners.{keeps_cluster_bit};
ghost use Rattle.stream_rules.specs.Breaches.{IsLeastUnmarked, next_clear, clear_from};
ghost use Rattle.stream_rules.specs.Places.{AreBelow, AreRising, times};

use crate::places::{Place, sorted_places};
use bit_set::BitSet;
use host_base::Memory;
use state_model::Run;
use std::alloc::Global;

// The least clear bit from this one on, or the count of the bits where there is none.
fn next_clear(bits: &BitSet, from: u64) -> u64
    ensures { result ≡ next_clear bits.now from }
{
    match bits.lowest(from) {
        Some(at) => at,
        None => bits.bits(),
    }
}

// The least clear bit from a place's first cluster on, where it was sought from no later one on.
fn clear_from(bits: &BitSet, clear: u64, first: u64) -> u64
    ensures { result ≡ clear_from bits.now clear first }
{
    if clear < first {
        next_clear(bits, first)
    } else {
        clear
    }
}

// The least cluster that a place has and whose bit is clear. The bits are gone through once, since
// the places rise.
fn least_unmarked(bits: &BitSet, places: &[Place]) -> Option<u64>
    requires below { AreBelow (length bits.now) places.now }
    requires rising { AreRising places.now }
    ensures { MatchOption result
        ((x : ℕ) → 0 < times places.now x → bit bits.now x ≡ true)
        (IsLeastUnmarked bits.now places.now) }
{
    let mut clear = next_clear(bits, 0);
    for place in places {
        clear = clear_from(bits, clear, place.first);
        if clear < place.end {
            return Some(clear);
        }
    }
    None
}

/// The least cluster that a run has and whose bit is clear, among as many clusters as there are
/// bits, or None where there is none (Linux-NTFS documentation, "File - $Bitmap": a bit is set
/// where its cluster is in use). The runs may be any: they may stand in any order, overlap, be
/// sparse, and end past the volume. The error is want of memory.
///
/// It takes memory linear in the runs, and time n log n in the runs and linear in the words of the
/// bitmap, however long the runs are.
pub fn first_unmarked(alloc: Global, runs: &[Run], bits: &BitSet) -> Result<Option<u64>, Memory>
    ensures { IfOk result
        (λ unmarked. unmarked ≡ first_failing (keeps_cluster_bit bits.now runs.now) (length bits.now)) }
{
    let places = sorted_places(alloc, runs, bits.bits())?;
    Ok(least_unmarked(bits, &places))
}
