//! File records as they are now in a draft.
ghost use Rattle.std.specs.Prelude.{◌≡◌, ◌*◌, ◌<◌, ◌≤◌, ◌^◌, IfOk, IfSome, length};
ghost use Rattle.plan_draft.specs.block_view.Views.{AsksView};
ghost use Rattle.state_model.specs.Loads.{table_extents};
ghost use Rattle.plan_draft.specs.Drafts.{drafted};
ghost use Rattle.plan_draft.specs.Faults.{fault_cause};
ghost use Rattle.resized_streams.specs.record_streams.Fitting.{FitsButRoom};
ghost use Rattle.draft_records.specs.Records.{is_past, read_in, file_of, written_bytes};

use crate::records::record_of;
use plan_draft::{Block, BlockKind, Body, Draft, View, ViewFault};
use record_model::DATA;
use resized_streams::{FileRec, Memory, block_at, no_extents, stream_of};
use state_model::{ClusterSize, Extents, Stream};
use std::alloc::Global;

/// Whether a record lies wholly past the initialised size of these extents; in constant time.
pub fn is_past(records: &Extents, number: u64) -> bool
    requires { number < 2 ^ 48 }
    ensures { result ≡ is_past records.now number }
{
    records.initialised <= 1024 * number
}

// The record of this block.
fn read_in<V: View>(
    draft: &mut Draft<'_, V>,
    alloc: Global,
    block: Block,
) -> Result<Option<FileRec>, ViewFault>
    requires { block.kind ≡ BlockKind.FileRec }
    ensures file { IfSome (V.content draft.old.view.now) (λ c. IfOk result (λ file. file ≡ read_in (drafted draft.old.touched.items c) block)) }
    ensures fits { IfOk result (λ file. IfSome file FitsButRoom) }
    ensures short { IfOk result (λ file. IfSome file (λ r. written_bytes r ≤ 102500)) }
    ensures touched { draft.new.touched.items ≡ draft.old.touched.items }
    ensures asks { AsksView V.content V.kept V.faults fault_cause draft.old.view.now draft.new.view.now result }
    ensures reference { draft.new.view.ghost_name ≡ draft.old.view.ghost_name }
{
    let mut body = Body::empty(alloc)?;
    draft.body(block, &mut body)?;
    Ok(record_of(alloc, &body)?)
}

/// The record of that number as it is now in the draft, in a file table of these extents and of
/// `per` sectors a cluster; none where it isn't in use, breaks one of the rules 1 to 6 and 8, or
/// lies wholly past the table's initialised size. What the table has as a record in use is read, as
/// [`reads_the_table`](crate::reads_the_table) says; it has a spelling but for its room, so that a
/// stream of it can be placed, and it can be put again; as it is written it may use more than the 1,024
/// bytes of its block, but not more than a hundred times as many.
///
/// - [`ViewFault::Fault`]: the view failed, which is asked where the record wasn't touched.
/// - [`ViewFault::Memory`]: want of memory.
///
/// It reads one block at most, and takes time and memory linear in it, with one pass over the runs.
pub fn file<V: View>(
    draft: &mut Draft<'_, V>,
    alloc: Global,
    per: ClusterSize,
    table: &Extents,
    number: u64,
) -> Result<Option<FileRec>, ViewFault>
    requires number { number < 2 ^ 48 }
    ensures file { IfSome (V.content draft.old.view.now) (λ c. IfOk result (λ file. file ≡ file_of (drafted draft.old.touched.items c) per table.now number)) }
    ensures fits { IfOk result (λ file. IfSome file FitsButRoom) }
    ensures short { IfOk result (λ file. IfSome file (λ r. written_bytes r ≤ 102500)) }
    ensures touched { draft.new.touched.items ≡ draft.old.touched.items }
    ensures asks { AsksView V.content V.kept V.faults fault_cause draft.old.view.now draft.new.view.now result }
    ensures reference { draft.new.view.ghost_name ≡ draft.old.view.ghost_name }
{
    if is_past(table, number) {
        return Ok(None);
    }
    match block_at(per, table.runs.as_slice(), BlockKind::FileRec, number) {
        None => Ok(None),
        Some(block) => read_in(draft, alloc, block),
    }
}

/// The clusters and sizes of a record's unnamed data, as of the file table in record 0 and of its
/// mirror in record 1; no clusters where it stands in the record, or where there is none. The error
/// is want of memory. It takes time linear in the attributes and runs where the attributes stand by
/// rising first VCN.
#[tactic(auto, unfolding(state_model::specs::Loads::table_extents, state_model::specs::Loads::data_stream))]
pub fn data_extents(alloc: Global, file: &FileRec) -> Result<Extents, Memory>
    ensures value { IfOk result (λ e. e ≡ table_extents file.now) }
{
    let stream = stream_of(alloc, DATA, &[], file.attrs().as_slice())?;
    match stream {
        Some(Stream::Placed(extents)) => Ok(extents),
        _ => Ok(no_extents(alloc)),
    }
}
