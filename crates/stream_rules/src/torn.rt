//! Blocks that must not be torn.
ghost use Rattle.std.specs.Prelude.{◌≡◌, ◌==◌, ◌+◌, ◌*◌, ◌^◌, ◌<◌, ◌≤◌, ◌||◌, ℕ, nat_le, not, [], length, drop, find, Some, IfOk, IfSome};
ghost use Rattle.std.specs.List.{list_any, range_with_len};
ghost use Rattle.disk_model.specs.declared.block.BlockKind.TheVariants.{FileRec as file_kind, Index as index_kind};
ghost use Rattle.disk_model.specs.Sectors.{sectors};
ghost use Rattle.stream_map.specs.record_model.Constants.{data_type, names_index, index_allocation};
ghost use Rattle.state_model.specs.Files.{is_directory_record};
ghost use Rattle.state_model.specs.Rules.{implies};
ghost use Rattle.state_model.specs.Streams.{holds, block_at, stream_of};
ghost use Rattle.stream_map.specs.record_model.Runs.{AreSmall};
ghost use Rattle.stream_rules.specs.Errors.{sizes_cause};
ghost use Rattle.block_view.specs.Views.{AsksView};
ghost use Rattle.volume_model.specs.Sizes.{is_torn_at, begun, stream_has_torn, keeps_untorn};
ghost use Rattle.volume_model.specs.Volumes.{table_file, mirror_file};

use crate::fault::SizesFault;
use crate::whole::{MIRROR, TABLE, is_directory};
use block_view::View;
use disk_model::{BlockKind, Body};
use file_record::FileRec;
use state_model::{Attr, ClusterSize, DATA, INDEX_ALLOCATION, NAMES_INDEX, Run, Stream};
use std::alloc::Global;
use stream_map::{block_at, stream_of};

fn sectors(kind: BlockKind) -> u64
    ensures value { result ≡ sectors kind }
    ensures most { result ≤ 8 }
{
    match kind {
        BlockKind::Plain => 1,
        BlockKind::FileRec => 2,
        BlockKind::Index => 8,
    }
}

fn ends_by(vcn: u64, run: &Run) -> bool
    ensures { result ≡ nat_le (run.now.vcn + run.now.len) vcn }
{
    u128::from(run.vcn) + u128::from(run.len) <= u128::from(vcn)
}

// How many of the first runs end at or before a VCN: none of these holds it or one behind it.
fn passed(vcn: u64, runs: &[Run]) -> usize
    ensures within { result ≤ length runs.now }
    ensures same { (first last : ℕ) → vcn ≤ last → find (holds first last) (drop result runs.now) ≡ find (holds first last) runs.now }
{
    for (i, run) in runs.iter().enumerate() {
        if !ends_by(vcn, run) {
            return i;
        }
    }
    runs.len()
}

// The runs in which the blocks from the n-th on may lie.
fn runs_from(per: ClusterSize, runs: &[Run], kind: BlockKind, n: u64) -> &[Run]
    requires small { AreSmall runs.now }
    requires place { n < 2 ^ 56 }
    ensures small { AreSmall result.now }
    ensures same { (k : ℕ) → n ≤ k → block_at per result.now kind k ≡ block_at per runs.now kind k }
{
    let per = per.sectors();
    let vcn = sectors(kind) * n / per;
    let begin = passed(vcn, runs);
    &runs[begin..]
}

// Whether the n-th block of this kind lies in one run, and is torn.
fn is_torn_at<V: View>(
    view: &mut V,
    per: ClusterSize,
    runs: &[Run],
    kind: BlockKind,
    n: u64,
    body: &mut Body,
) -> Result<bool, SizesFault>
    requires small { AreSmall runs.now }
    requires place { n < 2 ^ 56 }
    ensures value { IfSome (V.content view.old) (λ c. IfOk result (λ torn. torn ≡ is_torn_at c (block_at per runs.now kind n))) }
    ensures kept { AsksView V.content V.kept V.faults sizes_cause view.old view.new result }
{
    match block_at(per, runs, kind, n) {
        None => Ok(false),
        Some(block) => {
            view.body(block, body)?;
            Ok(body.torn())
        }
    }
}

// Whether one of the first so many is torn.
fn has_torn_below<V: View>(
    view: &mut V,
    per: ClusterSize,
    runs: &[Run],
    kind: BlockKind,
    count: u64,
    body: &mut Body,
) -> Result<bool, SizesFault>
    requires small { AreSmall runs.now }
    requires places { count ≤ 2 ^ 56 }
    ensures value { IfSome (V.content view.old) (λ c. IfOk result (λ torn. torn ≡ list_any (λ n. is_torn_at c (block_at per runs.now kind n)) (range_with_len 0 count))) }
    ensures kept { AsksView V.content V.kept V.faults sizes_cause view.old view.new result }
{
    let mut rest = runs;
    for n in 0..count {
        rest = runs_from(per, rest, kind, n);
        if is_torn_at(view, per, rest, kind, n, body)? {
            return Ok(true);
        }
    }
    Ok(false)
}

// How many blocks of this kind begin below an initialised size.
fn begun(kind: BlockKind, initialised: u64) -> u64
    ensures value { result ≡ begun (512 * sectors kind) initialised }
    ensures few { result ≤ 2 ^ 56 }
{
    let size = u128::from(initialised);
    match kind {
        BlockKind::Plain => ((size + 511) / 512) as u64,
        BlockKind::FileRec => ((size + 1023) / 1024) as u64,
        BlockKind::Index => ((size + 4095) / 4096) as u64,
    }
}

// Whether a block of this kind that begins below the initialised size of a stream is torn.
fn has_torn<V: View>(
    view: &mut V,
    per: ClusterSize,
    kind: BlockKind,
    stream: &Stream,
    body: &mut Body,
) -> Result<bool, SizesFault>
    ensures value { IfSome (V.content view.old) (λ c. IfOk result (λ torn. torn ≡ stream_has_torn c per kind (512 * sectors kind) (Some stream.now))) }
    ensures kept { AsksView V.content V.kept V.faults sizes_cause view.old view.new result }
{
    match stream {
        Stream::Held(_) => Ok(false),
        Stream::Placed(extents) => {
            let count = begun(kind, extents.initialised);
            has_torn_below(view, per, extents.runs.as_slice(), kind, count, body)
        }
    }
}

// The same; there is none where there is no stream.
fn stream_has_torn<V: View>(
    view: &mut V,
    per: ClusterSize,
    kind: BlockKind,
    stream: &Option<Stream>,
    body: &mut Body,
) -> Result<bool, SizesFault>
    ensures value { IfSome (V.content view.old) (λ c. IfOk result (λ torn. torn ≡ stream_has_torn c per kind (512 * sectors kind) stream.now)) }
    ensures kept { AsksView V.content V.kept V.faults sizes_cause view.old view.new result }
{
    match stream {
        None => Ok(false),
        Some(stream) => has_torn(view, per, kind, stream, body),
    }
}

// Whether no block of this kind of the stream with this type and name is torn.
fn is_untorn<V: View>(
    alloc: Global,
    view: &mut V,
    per: ClusterSize,
    block: BlockKind,
    kind: u32,
    name: &[u16],
    attrs: &[Attr],
    body: &mut Body,
) -> Result<bool, SizesFault>
    ensures value { IfSome (V.content view.old) (λ c. IfOk result (λ untorn. untorn ≡ not (stream_has_torn c per block (512 * sectors block) (stream_of kind name.now attrs.now)))) }
    ensures kept { AsksView V.content V.kept V.faults sizes_cause view.old view.new result }
{
    let stream = stream_of(alloc, kind, name, attrs)?;
    let torn = stream_has_torn(view, per, block, &stream, body)?;
    Ok(!torn)
}

fn keeps_records<V: View>(
    alloc: Global,
    view: &mut V,
    per: ClusterSize,
    number: u64,
    attrs: &[Attr],
    body: &mut Body,
) -> Result<bool, SizesFault>
    ensures value { IfSome (V.content view.old) (λ c. IfOk result (λ keeps. keeps ≡ implies ((number == table_file) || (number == mirror_file)) (not (stream_has_torn c per file_kind 1024 (stream_of data_type [] attrs.now))))) }
    ensures kept { AsksView V.content V.kept V.faults sizes_cause view.old view.new result }
{
    if number != TABLE && number != MIRROR {
        return Ok(true);
    }
    is_untorn(alloc, view, per, BlockKind::FileRec, DATA, &[], attrs, body)
}

fn keeps_blocks<V: View>(
    alloc: Global,
    view: &mut V,
    per: ClusterSize,
    file: &FileRec,
    body: &mut Body,
) -> Result<bool, SizesFault>
    ensures value { IfSome (V.content view.old) (λ c. IfOk result (λ keeps. keeps ≡ implies (is_directory_record file.now) (not (stream_has_torn c per index_kind 4096 (stream_of index_allocation names_index file.now.attrs))))) }
    ensures kept { AsksView V.content V.kept V.faults sizes_cause view.old view.new result }
{
    if !is_directory(file) {
        return Ok(true);
    }
    let attrs = file.attrs().as_slice();
    is_untorn(
        alloc,
        view,
        per,
        BlockKind::Index,
        INDEX_ALLOCATION,
        &NAMES_INDEX,
        attrs,
        body,
    )
}

/// Whether no file record of the unnamed data of `$MFT` or `$MFTMirr`, and no block of a
/// directory's `$I30`, is torn: one that lies in one run and begins below its stream's initialised
/// size. It reads each such block once, up to the first that is torn, and goes along the runs with
/// them: where the runs stand by rising VCN and no block lies in two of them, that is one pass; a
/// block in two runs, or in none, takes one pass over the runs behind it. A volume has `per`
/// sectors a cluster; `body` is room for a body.
#[tactic(auto, unfolding(volume_model::specs::Sizes::keeps_untorn))]
pub fn keeps_untorn<V: View>(
    alloc: Global,
    view: &mut V,
    per: ClusterSize,
    number: u64,
    file: &FileRec,
    body: &mut Body,
) -> Result<bool, SizesFault>
    ensures value { IfSome (V.content view.old) (λ c. IfOk result (λ keeps. keeps ≡ keeps_untorn c per number file.now)) }
    ensures kept { AsksView V.content V.kept V.faults sizes_cause view.old view.new result }
{
    if !keeps_records(alloc, view, per, number, file.attrs().as_slice(), body)? {
        return Ok(false);
    }
    keeps_blocks(alloc, view, per, file, body)
}
