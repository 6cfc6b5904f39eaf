//! The shadows of a stream's blocks.
ghost use Rattle.std.specs.Prelude.{◌≡◌, ◌+◌, ◌*◌, ◌^◌, ◌<◌, ◌≤◌, ℕ, None, List, Option, IfOk};
ghost use Rattle.std.specs.List.{filter_map, range_with_len};
ghost use Rattle.std.specs.List.Sorted.{IsNonDecreasingBy};
ghost use Rattle.disk_model.specs.declared.block.BlockKind.{BlockKind as kind_of_block};
ghost use Rattle.disk_model.specs.Sectors.{sectors};
ghost use Rattle.state_model.specs.record_model.declared.runs.Run.{Run as a_run};
ghost use Rattle.state_model.specs.record_model.Runs.{IsSmall, AreSmall};
ghost use Rattle.state_model.specs.Streams.{block_at};
ghost use Rattle.stream_laws.specs.volume_model.Sizes.{begun};
ghost use Rattle.log_recovery.specs.declared.found.Shadow.{Shadow as a_shadow};
ghost use Rattle.volume_shadows.specs.Least.{least_of};
ghost use Rattle.volume_shadows.specs.Live.{blocks_in, least_lsn};
ghost use Rattle.volume_shadows.specs.Tries.{run_first, run_end, number_of, stand_apart, near_of, is_this, tried_at, tried, least_tried};

use crate::numbers::lesser;
use disk_model::{Block, BlockKind};
use log_recovery::Shadow;
use state_model::{ClusterSize, Run, Stream};
use stream_map::block_at;

// How many blocks of this kind begin below an initialised size.
fn begun(kind: BlockKind, initialised: u64) -> u64
    ensures value { result ≡ begun (512 * sectors kind) initialised }
    ensures few { result ≤ 2 ^ 56 }
{
    let size = u128::from(initialised);
    match kind {
        BlockKind::Plain => ((size + 511) / 512) as u64,
        BlockKind::FileRec => ((size + 1023) / 1024) as u64,
        BlockKind::Index => ((size + 4095) / 4096) as u64,
    }
}

// ---- a run

// The first sector of a run.
fn run_first(per: ClusterSize, run: &Run) -> u64
    requires { IsSmall run.now }
    ensures { result ≡ run_first per run.now }
{
    match run.lcn {
        Some(lcn) => lcn * per.sectors(),
        None => 0,
    }
}

// The sector behind its last one.
fn run_end(per: ClusterSize, run: &Run) -> u64
    requires { IsSmall run.now }
    ensures { result ≡ run_end per run.now }
{
    match run.lcn {
        Some(lcn) => (lcn + run.len) * per.sectors(),
        None => 0,
    }
}

// The place in a stream of a block of this kind that begins in this sector of a run.
#[tactic(auto, unfolding(crate::specs::Tries::number_of))]
fn number_of(per: ClusterSize, kind: BlockKind, run: &Run, first: u64) -> Option<u128>
    requires { IsSmall run.now }
    ensures { result ≡ number_of per kind run.now first }
{
    let begin = run_first(per, run);
    if begin <= first && first < run_end(per, run) {
        let place = u128::from(run.vcn) * u128::from(per.sectors()) + u128::from(first - begin);
        return Some(place / kind.sectors() as u128);
    }
    None
}

// Whether runs stand in order: each begins where the one before it ends, or behind.
fn stand_apart(runs: &[Run]) -> bool
    requires { AreSmall runs.now }
    ensures { result ≡ stand_apart 0 runs.now }
{
    let mut end = 0u128;
    for run in runs {
        if u128::from(run.vcn) < end {
            return false;
        }
        end = u128::from(run.vcn) + u128::from(run.len);
    }
    true
}

// ---- a shadow

// The block at a place, looked for in this run alone where the runs stand in order.
fn block_near(
    per: ClusterSize,
    kind: BlockKind,
    apart: bool,
    runs: &[Run],
    run: &Run,
    n: u64,
) -> Option<Block>
    requires small { AreSmall runs.now }
    requires one { IsSmall run.now }
    requires place { n < 2 ^ 56 }
    ensures { result ≡ block_at per (near_of apart runs.now run.now) kind n }
{
    if apart {
        block_at(per, &[*run], kind, n)
    } else {
        block_at(per, runs, kind, n)
    }
}

fn is_this(block: Block, other: Option<Block>) -> bool
    ensures { result ≡ is_this block other }
{
    match other {
        Some(other) => block == other,
        None => false,
    }
}

// The shadow's LSN, where its block is that of this place, below so many.
fn tried_at(
    per: ClusterSize,
    kind: BlockKind,
    count: u64,
    apart: bool,
    runs: &[Run],
    run: &Run,
    shadow: &Shadow,
    number: Option<u128>,
) -> Option<u64>
    requires small { AreSmall runs.now }
    requires one { IsSmall run.now }
    requires few { count ≤ 2 ^ 56 }
    ensures { result ≡ tried_at per kind count (near_of apart runs.now run.now) shadow.now number }
{
    match number {
        None => None,
        Some(n) => {
            if n < u128::from(count)
                && is_this(
                    shadow.block,
                    block_near(per, kind, apart, runs, run, n as u64),
                )
            {
                Some(shadow.lsn)
            } else {
                None
            }
        }
    }
}

// The shadow's LSN, where its block is one of this kind of a stream with these runs, begins in this
// run, and is one of the first so many.
#[tactic(auto, unfolding(crate::specs::Tries::tried))]
fn tried(
    per: ClusterSize,
    kind: BlockKind,
    count: u64,
    apart: bool,
    runs: &[Run],
    run: &Run,
    shadow: &Shadow,
) -> Option<u64>
    requires small { AreSmall runs.now }
    requires one { IsSmall run.now }
    requires few { count ≤ 2 ^ 56 }
    ensures { result ≡ tried per kind count (near_of apart runs.now run.now) run.now shadow.now }
{
    let number = number_of(per, kind, run, shadow.block.first);
    tried_at(per, kind, count, apart, runs, run, shadow, number)
}

// ---- the shadows in a run

// The shadows, which stand by rising first sector, but for those before this one.
fn shadows_from(sorted: &[Shadow], sector: u64) -> &[Shadow]
    requires rising { IsNonDecreasingBy (λ (s : a_shadow). s.block.first) sorted.now }
    ensures rising { IsNonDecreasingBy (λ (s : a_shadow). s.block.first) result.now }
    ensures same { (f : a_shadow → Option ℕ) → ((s : a_shadow) → s.block.first < sector → f s ≡ None) → least_of f result.now ≡ least_of f sorted.now }
{
    let begin = sorted.partition_point(|shadow| shadow.block.first < sector);
    &sorted[begin..]
}

// The shadows before a sector.
fn shadows_before(sorted: &[Shadow], sector: u64) -> &[Shadow]
    requires rising { IsNonDecreasingBy (λ (s : a_shadow). s.block.first) sorted.now }
    ensures same { (f : a_shadow → Option ℕ) → ((s : a_shadow) → sector ≤ s.block.first → f s ≡ None) → least_of f result.now ≡ least_of f sorted.now }
{
    let end = sorted.partition_point(|shadow| shadow.block.first < sector);
    &sorted[..end]
}

// The shadows that begin in a sector of a run.
fn shadows_in<'a>(per: ClusterSize, run: &Run, sorted: &'a [Shadow]) -> &'a [Shadow]
    requires small { IsSmall run.now }
    requires rising { IsNonDecreasingBy (λ (s : a_shadow). s.block.first) sorted.now }
    ensures same { (kind : kind_of_block) (count : ℕ) (near : List a_run) → least_of (tried per kind count near run.now) result.now ≡ least_of (tried per kind count near run.now) sorted.now }
{
    let behind = shadows_from(sorted, run_first(per, run));
    shadows_before(behind, run_end(per, run))
}

// The least LSN of these shadows that are blocks of a stream and begin in this run.
fn least_among(
    per: ClusterSize,
    kind: BlockKind,
    count: u64,
    apart: bool,
    runs: &[Run],
    run: &Run,
    shadows: &[Shadow],
) -> Option<u64>
    requires small { AreSmall runs.now }
    requires one { IsSmall run.now }
    requires few { count ≤ 2 ^ 56 }
    ensures { result ≡ least_tried per kind count apart runs.now shadows.now run.now }
{
    let mut least = None;
    for shadow in shadows {
        let lsn = tried(per, kind, count, apart, runs, run, shadow);
        least = lesser(least, lsn);
    }
    least
}

// The same, of shadows that stand by rising first sector.
fn least_in_run(
    per: ClusterSize,
    kind: BlockKind,
    count: u64,
    apart: bool,
    runs: &[Run],
    run: &Run,
    sorted: &[Shadow],
) -> Option<u64>
    requires small { AreSmall runs.now }
    requires one { IsSmall run.now }
    requires few { count ≤ 2 ^ 56 }
    requires rising { IsNonDecreasingBy (λ (s : a_shadow). s.block.first) sorted.now }
    ensures { result ≡ least_tried per kind count apart runs.now sorted.now run.now }
{
    let shadows = shadows_in(per, run, sorted);
    least_among(per, kind, count, apart, runs, run, shadows)
}

// ---- a stream

// The least LSN of the shadows that are blocks of a stream with these runs, among its first so many.
fn least_in_runs(
    per: ClusterSize,
    kind: BlockKind,
    count: u64,
    apart: bool,
    runs: &[Run],
    sorted: &[Shadow],
) -> Option<u64>
    requires small { AreSmall runs.now }
    requires few { count ≤ 2 ^ 56 }
    requires rising { IsNonDecreasingBy (λ (s : a_shadow). s.block.first) sorted.now }
    ensures { result ≡ least_of (least_tried per kind count apart runs.now sorted.now) runs.now }
{
    let mut least = None;
    for run in runs {
        let lsn = least_in_run(per, kind, count, apart, runs, run, sorted);
        least = lesser(least, lsn);
    }
    least
}

// The least LSN that is said of a block of a stream with these runs, of the first so many.
fn least_in_blocks(
    per: ClusterSize,
    kind: BlockKind,
    count: u64,
    runs: &[Run],
    sorted: &[Shadow],
) -> Option<u64>
    requires small { AreSmall runs.now }
    requires some { 0 < per }
    requires few { count ≤ 2 ^ 56 }
    requires rising { IsNonDecreasingBy (λ (s : a_shadow). s.block.first) sorted.now }
    ensures { result ≡ least_of (least_lsn sorted.now) (filter_map (block_at per runs.now kind) (range_with_len 0 count)) }
{
    let apart = stand_apart(runs);
    least_in_runs(per, kind, count, apart, runs, sorted)
}

/// The least LSN that these shadows, which stand by rising first sector, say of a block of this kind
/// that isn't wholly past a stream's initialised size. It takes time logarithmic in the shadows for
/// each run, linear in those that lie in the stream, and for each of these linear in the runs where
/// they don't stand in order.
#[tactic(auto, unfolding(crate::specs::Live::blocks_in))]
pub fn least_in_stream(
    per: ClusterSize,
    kind: BlockKind,
    stream: &Option<Stream>,
    sorted: &[Shadow],
) -> Option<u64>
    requires rising { IsNonDecreasingBy (λ (s : a_shadow). s.block.first) sorted.now }
    ensures { result ≡ least_of (least_lsn sorted.now) (blocks_in per kind stream.now) }
{
    match stream {
        Some(Stream::Placed(extents)) => {
            let count = begun(kind, extents.initialised);
            least_in_blocks(per, kind, count, extents.runs.as_slice(), sorted)
        }
        Some(Stream::Held(_)) => None,
        None => None,
    }
}
