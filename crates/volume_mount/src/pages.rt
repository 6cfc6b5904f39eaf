//! The pages that a log needs.
ghost use Rattle.std.specs.Prelude.{◌≡◌, ◌-◌, min, is_some};
ghost use Rattle.host_base.specs.Answers.{Gives};
ghost use Rattle.image_read.specs.image_open.Errors.{scan_cause};
ghost use Rattle.volume_mount.specs.Fronts.{LieInFront};
ghost use Rattle.volume_mount.specs.Mounts.{pages_for, pages_needed, whole_pages, has_pages, front_sectors, lying_pages, pages_lie};
ghost use Rattle.image_read.specs.volume_map.Maps.{volume_in};
ghost use Rattle.volume_state.specs.volume_model.Volumes.{file_in, log_file};

use image_read::{Extent, LogPlace, MountFault, Refusal, VolumeMap};
use volume_shadows::file_at;

// The clusters whose bits lie in one sector of `$Bitmap`.
const SECTOR_BITS: u64 = 4096;

// The number of `$LogFile`.
const LOG_FILE: u64 = 2;

fn pages_for(clusters: u64) -> u64
    ensures { result ≡ pages_for clusters }
{
    512 + clusters.div_ceil(SECTOR_BITS).div_ceil(3)
}

fn pages_needed(place: &LogPlace) -> u64
    ensures { result ≡ pages_needed place.now }
{
    pages_for(place.clusters).max(place.pages)
}

fn whole_pages(place: &LogPlace) -> u64
    ensures { result ≡ whole_pages place.now }
{
    place.initialised / 4096
}

/// Refuses a log at this place that has fewer pages of 4,096 bytes than a session that writes needs:
/// 512, one for each three sectors of the volume's bitmap, and as many as the log has, all of them
/// initialised.
///
/// - [`MountFault::Refused`]: [`Refusal::LogSmall`] with its initialised pages, and those that it
///   needs.
#[tactic(auto, unfolding(crate::specs::Mounts::has_pages))]
pub fn has_pages(place: &LogPlace) -> Result<(), MountFault>
    ensures { Gives (λ x. x) scan_cause result (has_pages place.now) }
{
    let pages = whole_pages(place);
    let needed = pages_needed(place);
    if needed <= pages {
        return Ok(());
    }
    Err(MountFault::Refused(Refusal::LogSmall { pages, needed }))
}

// How many sectors of a run lie on a device of so many.
fn on_device(run: &Extent, device: u64) -> u64
    ensures { result ≡ min (device - run.now.first) run.now.sectors }
{
    device.saturating_sub(run.first).min(run.sectors)
}

// How many of the sectors of these runs lie on a device of so many, from the first one on, of `all`
// at most. It ends at the first that doesn't, and passes once over the runs.
fn lying_in_front(runs: &[Extent], device: u64, all: u64) -> u64
    ensures { LieInFront device all runs.now result }
{
    let mut count = 0;
    for run in runs {
        let more = on_device(run, device);
        if all - count <= more {
            return all;
        }
        count += more;
        if more < run.sectors {
            return count;
        }
    }
    count
}

// How many of the log's sectors are there, from its first one on.
fn front_sectors(place: &LogPlace) -> u64
    ensures { result ≡ front_sectors place.now }
{
    let begun = place.initialised.div_ceil(512);
    lying_in_front(place.runs.as_slice(), place.device, begun)
}

// Whether record 2 is that of a file.
fn has_log_file(map: &VolumeMap) -> bool
    ensures { result ≡ is_some (file_in (volume_in map.now) log_file) }
{
    file_at(&map.files, LOG_FILE).is_some()
}

// The log's pages, from its first one on, that lie on the device.
fn lying_pages(place: &LogPlace, map: &VolumeMap) -> u64
    ensures { result ≡ lying_pages place.now (volume_in map.now) }
{
    if has_log_file(map) {
        front_sectors(place) / 8
    } else {
        0
    }
}

/// Refuses a log at this place of which a page lies nowhere on the device: where record 2 has only the
/// first pieces of its data, as one with an attribute list may, those in other records don't count. Nor
/// does any of a record 2 that only holds attributes of another. It passes once over the runs.
///
/// - [`MountFault::Refused`]: [`Refusal::LogSmall`] with the pages that lie there from the first one
///   on, and those that a session that writes needs.
#[tactic(auto, unfolding(crate::specs::Mounts::pages_lie))]
pub fn pages_lie(place: &LogPlace, map: &VolumeMap) -> Result<(), MountFault>
    ensures { Gives (λ x. x) scan_cause result (pages_lie place.now (volume_in map.now)) }
{
    let pages = lying_pages(place, map);
    if place.pages <= pages {
        return Ok(());
    }
    Err(MountFault::Refused(Refusal::LogSmall {
        pages,
        needed: pages_needed(place),
    }))
}
