//! Whether a session may be written where the log of a volume was found.
ghost use Rattle.std.specs.Prelude.{◌≡◌, ◌*◌, ◌≤◌, ◌↔◌, true, IfOk, sum_by};
ghost use Rattle.std.specs.List.{list_all};
ghost use Rattle.log_page.specs.declared.places.Extent.{Extent as the_extent};
ghost use Rattle.volume_start.specs.Fitting.{is_low, FitsStart};

use log_page::{Extent, LogPlace};
use log_reading::is_ring_place;
use std::alloc::{AllocError, Global};

// Whether the sectors of a run, and the one behind it, have numbers of 64 bits.
fn is_low(run: &Extent) -> bool
    ensures { result ≡ is_low run.now }
{
    run.first.checked_add(run.sectors).is_some()
}

// Whether those of all runs have.
fn are_low(runs: &[Extent]) -> bool
    ensures { result ≡ list_all is_low runs.now }
{
    runs.iter().all(|run| is_low(run))
}

// Whether the runs have so many sectors together.
fn have_sectors(runs: &[Extent], count: u64) -> bool
    ensures { (result ≡ true) ↔ (sum_by (λ (e : the_extent). e.sectors) runs.now ≡ count) }
{
    let mut left = count;
    for run in runs {
        if run.sectors > left {
            return false;
        }
        left -= run.sectors;
    }
    left == 0
}

// Whether all sectors that are the log's or the volume's lie on a device of so many.
fn lies_on(place: &LogPlace, sectors: u64) -> bool
    ensures { (result ≡ true) ↔ ((place.now.device ≤ sectors) × (8 * place.now.clusters ≤ place.now.device)) }
{
    place.device <= sectors && place.clusters <= place.device / 8
}

/// Whether a session may be written where the log of a volume was found, on a device of so many
/// sectors. The error is want of memory. Time is near-linear in the log's runs.
pub fn fits_start(alloc: Global, place: &LogPlace, sectors: u64) -> Result<bool, AllocError>
    ensures { IfOk result (λ fits. (fits ≡ true) ↔ FitsStart sectors place.now) }
{
    let runs = place.runs.as_slice();
    if !are_low(runs) || !lies_on(place, sectors) {
        return Ok(false);
    }
    if !is_ring_place(alloc, place)? {
        return Ok(false);
    }
    Ok(have_sectors(runs, 8 * place.pages))
}
