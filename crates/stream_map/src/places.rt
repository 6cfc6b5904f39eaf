ghost use Rattle.std.specs.Prelude.{not, is_some, ◌≡◌, ◌+◌, ◌-◌, ◌*◌, ◌^◌, ◌<◌, ◌≤◌, Some, IfSome, find};
ghost use Rattle.std.specs.List.{list_any};
ghost use Rattle.disk_model.specs.Sectors.{sectors};
ghost use Rattle.state_model.specs.Streams.{holds, lcn_in, block_at, is_inside_block, cuts_block, has_cut_block};
ghost use Rattle.record_model.specs.Runs.{IsSmall, AreSmall};

use disk_model::{Block, BlockKind};
use record_model::Run;
use state_model::ClusterSize;

/// Whether a run is sparse (Linux-NTFS documentation, "Data runs").
pub fn is_hole(run: &Run) -> bool
    ensures value { result ≡ not (is_some run.now.lcn) }
{
    run.lcn.is_none()
}

fn sectors(kind: BlockKind) -> u64
    ensures value { result ≡ sectors kind }
    ensures some { 0 < result }
    ensures most { result ≤ 8 }
{
    match kind {
        BlockKind::Plain => 1,
        BlockKind::FileRec => 2,
        BlockKind::Index => 8,
    }
}

/// Whether a run holds the VCNs from the first to the last one.
fn holds(first: u64, last: u64, run: &Run) -> bool
    requires { first ≤ last }
    ensures { result ≡ holds first last run.now }
{
    run.vcn <= first && last - run.vcn < run.len
}

/// Where a VCN lies that a run holds.
fn lcn_of(vcn: u64, run: &Run) -> Option<u64>
    requires begun { run.now.vcn ≤ vcn }
    requires within { vcn < run.now.vcn + run.now.len }
    requires small { IsSmall run.now }
    ensures value { result ≡ lcn_in vcn (Some run.now) }
    ensures small { IfSome result (λ lcn. lcn < 2 ^ 33) }
{
    Some(run.lcn? + (vcn - run.vcn))
}

/// Where the first of these VCNs lies in the first run that holds them all.
fn lcn_in(first: u64, last: u64, runs: &[Run]) -> Option<u64>
    requires order { first ≤ last }
    requires small { AreSmall runs.now }
    ensures value { result ≡ lcn_in first (find (holds first last) runs.now) }
    ensures small { IfSome result (λ lcn. lcn < 2 ^ 33) }
{
    for run in runs {
        if holds(first, last, run) {
            return lcn_of(first, run);
        }
    }
    None
}

/// The block of this kind that begins at a stream's `n`-th place of its size, in a volume of `per`
/// sectors a cluster (Linux-NTFS documentation, "Data runs"). It lies in the first run that holds
/// all its clusters; there is none where no run does, and in a sparse run. Linear in the runs.
#[tactic(auto, unfolding(state_model::specs::Streams::block_at))]
pub fn block_at(per: ClusterSize, runs: &[Run], kind: BlockKind, n: u64) -> Option<Block>
    requires small { AreSmall runs.now }
    requires place { n < 2 ^ 56 }
    ensures { result ≡ block_at per runs.now kind n }
{
    let per = per.sectors();
    let size = sectors(kind);
    let first = size * n;
    let vcn = first / per;
    let last = (first + size - 1) / per;
    let lcn = lcn_in(vcn, last, runs)?;
    Some(Block {
        first: lcn * per + first % per,
        kind,
    })
}

/// Whether a place in sectors lies inside a block of this kind below so many.
fn is_inside_block(kind: BlockKind, count: u64, place: u128) -> bool
    ensures { result ≡ is_inside_block kind count place }
{
    let size = u128::from(sectors(kind));
    place % size != 0 && place / size < u128::from(count)
}

/// Whether a run begins or ends inside one of a stream's first `count` blocks of this kind.
fn cuts_block(per: ClusterSize, kind: BlockKind, count: u64, run: &Run) -> bool
    ensures { result ≡ cuts_block per kind count run.now }
{
    let (vcn, len, per) = (
        u128::from(run.vcn),
        u128::from(run.len),
        u128::from(per.sectors()),
    );
    is_inside_block(kind, count, vcn * per) || is_inside_block(kind, count, (vcn + len) * per)
}

/// Whether one of a stream's first `count` blocks of this kind lies in two runs: a run begins or
/// ends inside it, in a volume of `per` sectors a cluster. Linear in the runs.
#[tactic(auto, unfolding(state_model::specs::Streams::has_cut_block))]
pub fn has_cut_block(per: ClusterSize, kind: BlockKind, count: u64, runs: &[Run]) -> bool
    ensures { result ≡ has_cut_block per kind count runs.now }
{
    for run in runs {
        if cuts_block(per, kind, count, run) {
            return true;
        }
    }
    false
}
