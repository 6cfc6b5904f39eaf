//! Where a volume's log lies.
ghost use Rattle.std.specs.Prelude.{◌≡◌, ◌*◌, ◌^◌, ◌<◌, ◌≤◌, nat_lt, if◌then◌else◌, min, All, IfOk, IfSome, OnOk, length};
ghost use Rattle.state_model.specs.declared.stream.Stream.TheVariants.{Placed};
ghost use Rattle.log_recovery.specs.log_reading.LogPages.{IsSmall as IsSmallExtent, IsLogPlace};
ghost use Rattle.image_open.specs.LogPlaces.{first_of, stream_sector, log_of, stream_place, place_of_log, LieAlike, IsHeldAlike, AreSectors};

use disk_model::{Block, BlockKind};
use log_recovery::{Extent, LogPlace, LogRuns};
use state_model::{ClusterSize, Extents as StreamExtents, Run, Runs, Stream};
use std::alloc::{AllocError, Global};
use volume_map::block_at;

// A sector after the end of each device.
const NOWHERE: u64 = 1 << 62;

// Where a block begins; one that there isn't, nowhere.
fn first_of(block: Option<Block>) -> u64
    ensures value { result ≡ first_of block }
{
    match block {
        Some(block) => block.first,
        None => NOWHERE,
    }
}

// Where the sector with this number of a stream lies.
#[tactic(auto, unfolding(crate::specs::LogPlaces::stream_sector))]
fn stream_sector(per: ClusterSize, runs: &Runs, n: u64) -> u64
    requires inside { n < 2 ^ 56 }
    ensures value { result ≡ stream_sector per runs.now n }
    ensures near { result ≤ 2 ^ 62 }
{
    // A cluster has some sectors, and at most 8.
    let _ = per.sectors();
    first_of(block_at(per, runs.as_slice(), BlockKind::Plain, n))
}

// The nearer one of a VCN and the next one, of those above `v`.
fn nearer(v: u64, next: u64, vcn: u64) -> u64
    ensures value { result ≡ if nat_lt v vcn then min next vcn else next }
{
    if v < vcn { next.min(vcn) } else { next }
}

// The next VCN, or a nearer one above `v` at which the run begins or ends.
fn next_of_run(v: u64, next: u64, run: &Run) -> u64
    requires above { v < next }
    requires below { next < 2 ^ 56 }
    ensures above { v < result }
    ensures below { result ≤ next }
    ensures alike { IsHeldAlike v result run.now }
{
    let begin = nearer(v, next, run.vcn);
    nearer(v, begin, run.vcn.saturating_add(run.len))
}

// The next VCN above `v` at which a run begins or ends, at most `end`. Linear in the runs.
fn next_vcn(v: u64, end: u64, runs: &[Run]) -> u64
    requires above { v < end }
    requires below { end < 2 ^ 56 }
    ensures above { v < result }
    ensures below { result ≤ end }
    ensures alike { All (IsHeldAlike v result) runs.now }
{
    let mut next = end;
    for run in runs {
        next = next_of_run(v, next, run);
    }
    next
}

// Adds the sectors of the VCNs from `v` to the next one, at which no run begins or ends between.
fn push_sectors(
    sectors: &mut Vec<Extent>,
    per: ClusterSize,
    runs: &Runs,
    v: u64,
    next: u64,
) -> Result<(), AllocError>
    requires above { v < next }
    requires below { next * per < 2 ^ 56 }
    requires alike { All (IsHeldAlike v next) runs.now }
    ensures value { AreSectors per runs.now (v * per) sectors.old.items → OnOk result (AreSectors per runs.now (next * per) sectors.new.items) }
    ensures small { All IsSmallExtent sectors.old.items → All IsSmallExtent sectors.new.items }
{
    let size = per.sectors();
    let first = stream_sector(per, runs, v * size);
    let count = (next - v) * size;
    sectors.push(Extent {
        first,
        sectors: count,
    })?;
    Ok(())
}

// The sectors of a stream's VCNs below `end`. Quadratic in the runs.
fn sectors_of(
    alloc: Global,
    per: ClusterSize,
    end: u64,
    runs: &Runs,
) -> Result<Vec<Extent>, AllocError>
    requires below { end < 2 ^ 56 }
    requires inside { end * per < 2 ^ 56 }
    ensures value { IfOk result (λ sectors. AreSectors per runs.now (end * per) sectors.items) }
    ensures small { IfOk result (λ sectors. All IsSmallExtent sectors.items) }
{
    let mut sectors = Vec::new(alloc);
    let mut v = 0;
    while v < end {
        let next = next_vcn(v, end, runs.as_slice());
        push_sectors(&mut sectors, per, runs, v, next)?;
        v = next;
    }
    Ok(sectors)
}

// A log with these sectors, so many of whose bytes are initialised.
fn log_of(
    clusters: u64,
    device: u64,
    pages: u64,
    initialised: u64,
    sectors: Vec<Extent>,
) -> LogPlace
    requires small { All IsSmallExtent sectors.items }
    requires pages { pages < 2 ^ 52 }
    ensures value { result ≡ log_of clusters device pages initialised sectors.items }
    ensures place { IsLogPlace result }
{
    LogPlace {
        runs: LogRuns::from(sectors),
        initialised: initialised.min(4096 * pages),
        pages,
        clusters,
        device: device.min(NOWHERE),
    }
}

// Where a stream in clusters lies as a log of so many pages.
fn placed(
    alloc: Global,
    per: ClusterSize,
    clusters: u64,
    device: u64,
    extents: &StreamExtents,
) -> Result<LogPlace, AllocError>
    ensures value { IfOk result (λ place. LieAlike place (stream_place per clusters device (Placed extents.now))) }
    ensures place { IfOk result IsLogPlace }
{
    let size = per.sectors();
    let pages = extents.real / 4096;
    let end = (8 * pages).div_ceil(size);
    let sectors = sectors_of(alloc, per, end, &extents.runs)?;
    Ok(log_of(clusters, device, pages, extents.initialised, sectors))
}

#[tactic(auto, unfolding(crate::specs::LogPlaces::stream_place))]
fn stream_place(
    alloc: Global,
    per: ClusterSize,
    clusters: u64,
    device: u64,
    stream: &Stream,
) -> Result<LogPlace, AllocError>
    ensures value { IfOk result (λ place. LieAlike place (stream_place per clusters device stream.now)) }
    ensures place { IfOk result IsLogPlace }
{
    match stream {
        Stream::Held(value) => {
            let pages = value.len() as u64 / 4096;
            Ok(log_of(clusters, device, pages, 0, Vec::new(alloc)))
        }
        Stream::Placed(extents) => placed(alloc, per, clusters, device, extents),
    }
}

/// Where the log with this stream lies, of a volume of so many clusters on a device of so many
/// sectors. `per` is the sectors of a cluster. The error is want of memory. Quadratic in the
/// stream's runs, which are those of one record: it asks once for each VCN at which a run begins or
/// ends where that one lies, since of runs that overlap the first one holds.
pub fn place_of_log(
    alloc: Global,
    per: ClusterSize,
    clusters: u64,
    device: u64,
    stream: &Option<Stream>,
) -> Result<LogPlace, AllocError>
    ensures value { IfOk result (λ place. LieAlike place (place_of_log per clusters device stream.now)) }
    ensures place { IfOk result IsLogPlace }
{
    match stream {
        Some(stream) => stream_place(alloc, per, clusters, device, stream),
        None => Ok(log_of(clusters, device, 0, 0, Vec::new(alloc))),
    }
}
