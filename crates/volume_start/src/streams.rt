//! The streams of a volume from which operations are planned.
ghost use Rattle.std.specs.Prelude.{◌≡◌, ◌*◌, ◌≤◌, ◌↔◌, true, IfOk};
ghost use Rattle.record_model.specs.Pairs.{HasSpelling};
ghost use Rattle.state_model.specs.Loads.{extents_or};
ghost use Rattle.mounted_states.specs.volume_map.Maps.{volume_in};
ghost use Rattle.volume_start.specs.Streams.{IsFoundBits, AreFoundStreams};

use file_puts::VolumeStreams;
use host_base::Memory;
use mounted_states::{VolumeMap, file_stream};
use planned_streams::have_spelling;
use record_model::DATA;
use state_model::{Extents, Stream};
use std::alloc::{AllocError, Global};
use stream_map::no_extents;

// The numbers of `$MFTMirr` and of `$Bitmap`.
const MIRROR_FILE: u64 = 1;

const BITMAP_FILE: u64 = 6;

// The clusters of a stream, or none where it has none.
fn extents_or(alloc: Global, stream: Option<Stream>) -> Extents
    ensures { result ≡ extents_or stream }
{
    match stream {
        Some(Stream::Placed(extents)) => extents,
        Some(Stream::Held(_)) => no_extents(alloc),
        None => no_extents(alloc),
    }
}

fn copy_of(extents: &Extents) -> Result<Extents, AllocError>
    ensures { IfOk result (λ copy. copy ≡ extents.now) }
{
    Ok(Extents {
        runs: extents.runs.clone()?,
        allocated: extents.allocated,
        real: extents.real,
        initialised: extents.initialised,
    })
}

// Whether a stream has a bit below its initialised size for so many clusters, and runs that have a
// spelling.
fn has_bits(clusters: u64, extents: &Extents) -> bool
    ensures spelled { result ≡ true → HasSpelling 0 extents.now.runs }
    ensures all { result ≡ true → clusters ≤ 8 * extents.now.initialised }
    ensures has { HasSpelling 0 extents.now.runs → clusters ≤ 8 * extents.now.initialised → result ≡ true }
{
    clusters <= extents.initialised.saturating_mul(8) && have_spelling(&extents.runs)
}

// The bits of the clusters, where they lie in clusters.
fn bits_of(alloc: Global, map: &VolumeMap) -> Result<Option<Extents>, Memory>
    ensures { IfOk result (IsFoundBits (volume_in map.now)) }
{
    let Some(Stream::Placed(extents)) = file_stream(alloc, &map.files, BITMAP_FILE, DATA)? else {
        return Ok(None);
    };
    if !has_bits(map.clusters, &extents) {
        return Ok(None);
    }
    Ok(Some(extents))
}

/// The streams of a loaded volume from which operations are planned, or none where the bits of its
/// clusters don't all lie in clusters (Linux-NTFS documentation, "$Bitmap"). The error is want of
/// memory. It takes time and memory linear in the runs of the three streams.
pub fn streams_of(alloc: Global, map: &VolumeMap) -> Result<Option<VolumeStreams>, Memory>
    ensures { IfOk result (AreFoundStreams (volume_in map.now)) }
{
    let Some(bitmap) = bits_of(alloc, map)? else {
        return Ok(None);
    };
    let mirror = extents_or(alloc, file_stream(alloc, &map.files, MIRROR_FILE, DATA)?);
    let table = copy_of(&map.table)?;
    Ok(Some(VolumeStreams {
        table,
        mirror,
        bitmap,
    }))
}
