//! The data of a file.
ghost use Rattle.std.specs.Prelude.{◌≡◌, ◌+◌, [], IfOk, IfSome, length};
ghost use Rattle.std.specs.List.{list_any};
ghost use Rattle.state_model.specs.Loads.{total_clusters, data_stream};
ghost use Rattle.volume_model.specs.Volumes.{size_or};
ghost use Rattle.volume_model.specs.Sizes.{is_hole, has_hole};
ghost use Rattle.volume_model.specs.Nodes.{data_flags, valid_or, clusters_or};

use host_base::Memory;
use state_model::Stream;
use std::alloc::Global;
use volume_map::{DATA, FileRec, Run, is_hole, real_size, stream_flags, stream_of};

/// The flags of the unnamed data.
#[tactic(auto, unfolding(volume_model::specs::Nodes::data_flags))]
pub fn data_flags(file: &FileRec) -> u16
    ensures { result ≡ data_flags file.now }
{
    stream_flags(DATA, &[], file)
}

/// The unnamed data.
#[tactic(auto, unfolding(state_model::specs::Loads::data_stream))]
pub fn data_stream(alloc: Global, file: &FileRec) -> Result<Option<Stream>, Memory>
    ensures value { IfOk result (λ stream. stream ≡ data_stream file.now) }
{
    stream_of(alloc, DATA, &[], file.attrs().as_slice())
}

fn have_hole(runs: &[Run]) -> bool
    ensures { result ≡ list_any is_hole runs.now }
{
    runs.iter().any(|run| is_hole(run))
}

/// Whether the stream has a sparse run.
pub fn has_hole(stream: &Option<Stream>) -> bool
    ensures { result ≡ has_hole stream.now }
{
    match stream {
        None => false,
        Some(Stream::Held(_)) => false,
        Some(Stream::Placed(extents)) => have_hole(extents.runs.as_slice()),
    }
}

/// The real size of a stream; 0 where there is none.
pub fn size_or(stream: &Option<Stream>) -> u64
    ensures { result ≡ size_or stream.now }
{
    match stream {
        None => 0,
        Some(stream) => real_size(stream),
    }
}

/// Its initialised size.
pub fn valid_or(stream: &Option<Stream>) -> u64
    ensures { result ≡ valid_or stream.now }
{
    match stream {
        None => 0,
        Some(Stream::Held(value)) => value.len() as u64,
        Some(Stream::Placed(extents)) => extents.initialised,
    }
}

fn plus(a: u64, b: u64) -> Result<u64, Memory>
    ensures { IfOk result (λ sum. sum ≡ a + b) }
{
    a.checked_add(b).ok_or(Memory)
}

// The clusters of runs. The error is want of memory, since runs of more clusters than a number
// counts would want more than there is.
#[tactic(auto, using(crate::proofs::Totals::total_begins, crate::proofs::Totals::total_more, crate::proofs::Totals::total_ends))]
fn total_clusters(runs: &[Run]) -> Result<u64, Memory>
    ensures { IfOk result (λ total. total ≡ total_clusters runs.now) }
{
    let mut total: u64 = 0;
    for run in runs {
        total = plus(total, run.len)?;
    }
    Ok(total)
}

/// Its clusters, those of sparse runs among them.
pub fn clusters_or(stream: &Option<Stream>) -> Result<u64, Memory>
    ensures { IfOk result (λ clusters. clusters ≡ clusters_or stream.now) }
{
    match stream {
        None => Ok(0),
        Some(Stream::Held(_)) => Ok(0),
        Some(Stream::Placed(extents)) => total_clusters(extents.runs.as_slice()),
    }
}
