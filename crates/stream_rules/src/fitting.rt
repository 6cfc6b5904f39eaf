//! Where the runs of a stream lie, and its sizes.
ghost use Rattle.std.specs.Prelude.{◌≡◌, ◌==◌, ◌*◌};
ghost use Rattle.std.specs.List.{list_all, list_any};
ghost use Rattle.volume_model.specs.Sizes.{lies_below, lies_inside, has_sizes, fits_volume, is_hole, has_hole, is_initialised};

use crate::joins::total_clusters;
use state_model::{ClusterSize, Extents, Run, Stream};
use stream_map::is_hole;

// Whether a run lies below so many clusters, or is sparse.
fn lies_inside(clusters: u64, run: &Run) -> bool
    ensures { result ≡ lies_inside clusters run.now }
{
    match run.lcn {
        None => true,
        Some(lcn) => u128::from(lcn) + u128::from(run.len) <= u128::from(clusters),
    }
}

fn lie_inside(clusters: u64, runs: &[Run]) -> bool
    ensures { result ≡ list_all (lies_inside clusters) runs.now }
{
    runs.iter().all(|run| lies_inside(clusters, run))
}

// Whether this is the size in bytes of so many clusters.
fn is_size_of(per: ClusterSize, total: u128, allocated: u64) -> bool
    ensures { result ≡ (allocated == total * (512 * per)) }
{
    match total.checked_mul(u128::from(512 * per.sectors())) {
        None => false,
        Some(bytes) => u128::from(allocated) == bytes,
    }
}

fn has_sizes(per: ClusterSize, extents: &Extents) -> bool
    ensures { result ≡ has_sizes per extents.now }
{
    let total = total_clusters(extents.runs.as_slice());
    extents.initialised <= extents.real
        && extents.real <= extents.allocated
        && is_size_of(per, total, extents.allocated)
}

/// Whether the runs of a stream lie below so many clusters, and its initialised size is at most its
/// real size, this at most the allocated one, and this is that of its clusters (Linux-NTFS
/// documentation, "Attribute Header"); a volume has `per` sectors a cluster. A value in a record
/// fits, and so does a stream that isn't there. Linear in the runs.
pub fn fits_volume(per: ClusterSize, clusters: u64, stream: &Option<Stream>) -> bool
    ensures { result ≡ fits_volume per clusters stream.now }
{
    match stream {
        Some(Stream::Placed(extents)) => {
            lie_inside(clusters, extents.runs.as_slice()) && has_sizes(per, extents)
        }
        Some(Stream::Held(_)) => true,
        None => true,
    }
}

fn have_hole(runs: &[Run]) -> bool
    ensures { result ≡ list_any is_hole runs.now }
{
    runs.iter().any(|run| is_hole(run))
}

/// Whether a stream has a sparse run. Linear in the runs.
pub fn has_hole(stream: &Option<Stream>) -> bool
    ensures { result ≡ has_hole stream.now }
{
    match stream {
        Some(Stream::Placed(extents)) => have_hole(extents.runs.as_slice()),
        Some(Stream::Held(_)) => false,
        None => false,
    }
}

/// Whether the initialised size of a stream is its real size.
pub fn is_initialised(stream: &Option<Stream>) -> bool
    ensures { result ≡ is_initialised stream.now }
{
    match stream {
        Some(Stream::Placed(extents)) => extents.initialised == extents.real,
        Some(Stream::Held(_)) => true,
        None => true,
    }
}
