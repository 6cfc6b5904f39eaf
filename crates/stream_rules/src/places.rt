//! The clusters of runs, by rising first cluster.
ghost use Rattle.std.specs.Prelude.{◌≡◌, ℕ, ◌<◌, IfOk, IfSome};
ghost use Rattle.volume_model.specs.Owners.{covers, uses};
ghost use Rattle.stream_rules.specs.Places.{IsBelow, AreBelow, AreRising, is_in_some, times};

use host_base::Memory;
use state_model::Run;
use std::alloc::{AllocError, Global};

/// The clusters from `first` on, below `end`.
#[derive(Clone, Copy)]
pub struct Place {
    pub first: u64,
    pub end: u64,
}

// The clusters of the run that lie below so many, if there are any.
fn place_of(run: &Run, clusters: u64) -> Option<Place>
    ensures below { IfSome result (IsBelow clusters) }
    ensures same { (x : ℕ) → x < clusters → is_in_some x result ≡ covers x run.now }
{
    let first = run.lcn?;
    let end = first.saturating_add(run.len).min(clusters);
    if first < end {
        Some(Place { first, end })
    } else {
        None
    }
}

// The clusters of the runs that lie below so many.
fn places_of(alloc: Global, runs: &[Run], clusters: u64) -> Result<Vec<Place>, Memory>
    ensures below { IfOk result (λ places. AreBelow clusters places.items) }
    ensures same { IfOk result
        (λ places. (x : ℕ) → x < clusters → times places.items x ≡ uses runs.now x) }
{
    let mut places = Vec::new(alloc);
    for run in runs {
        if let Some(place) = place_of(run, clusters) {
            places.push(place).map_err(AllocError::from)?;
        }
    }
    Ok(places)
}

/// The clusters of the runs that lie below so many, by rising first cluster. The error is want of
/// memory. It takes time n log n in the runs.
pub fn sorted_places(alloc: Global, runs: &[Run], clusters: u64) -> Result<Vec<Place>, Memory>
    ensures below { IfOk result (λ places. AreBelow clusters places.items) }
    ensures rising { IfOk result (λ places. AreRising places.items) }
    ensures same { IfOk result
        (λ places. (x : ℕ) → x < clusters → times places.items x ≡ uses runs.now x) }
{
    let mut places = places_of(alloc, runs, clusters)?;
    places.sort_unstable_by_key(|place| place.first);
    Ok(places)
}
