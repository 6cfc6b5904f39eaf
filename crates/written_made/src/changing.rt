//! A file without unnamed data that is written or cut.
ghost use Rattle.std.specs.Prelude.{◌≡◌, ◌<◌, ◌^◌, false, length};
ghost use Rattle.block_view.specs.Views.{AsksView};
ghost use Rattle.file_changes.specs.record_streams.Fitting.{FitsButRoom};
ghost use Rattle.made_data.specs.Made.{made_record, has_data, record_with_data};
ghost use Rattle.file_changes.specs.file_writes.Faults.{write_cause};
ghost use Rattle.file_changes.specs.file_writes.Writing.{MayWrite};
ghost use Rattle.file_changes.specs.Changes.{ChangesFile};

use crate::laws::{made_is_done, made_is_step};
use block_view::View;
use file_changes::{
    FileRec, VolumeStreams, WriteFault, bare_is_enough, change_file, changes_are_steps,
    files_are_ready, write_file,
};
use file_tree::Node;
use made_data::{has_data, made_is_counted, make_data};
use plan_draft::Draft;
use plan_space::FreeBits;
use state_model::ClusterSize;
use std::alloc::Global;
use tree_model::Op;

// Writes or cuts the file by its record with empty data.
fn change_made<V: View, B: FreeBits>(
    draft: &mut Draft<'_, V>,
    alloc: Global,
    per: ClusterSize,
    bits: &mut B,
    streams: &VolumeStreams,
    file: &FileRec,
    made: &FileRec,
    op: &Op,
    node: &Node,
    stamp: u64,
) -> Result<(), WriteFault>
    requires per { per ≡ 8 }
    requires none { has_data file.now ≡ false }
    requires fits { FitsButRoom file.now }
    requires attrs { length file.now.attrs < 2 ^ 10 }
    requires made { made.now ≡ made_record file.now }
    requires may { MayWrite (length (B.bits bits.old)) node.now.number streams.now (made_record file.now) op.now node.now }
    ensures changes { ChangesFile (V.content draft.old.view.now) streams.now op.now node.now stamp file.now (made_record file.now) (B.bits bits.old) (B.bits bits.new) draft.old.touched.items draft.new.touched.items result }
    ensures asks { AsksView V.content V.kept V.faults write_cause draft.old.view.now draft.new.view.now result }
    ensures reference { draft.new.view.ghost_name ≡ draft.old.view.ghost_name }
{
    made_is_done();
    made_is_step();
    made_is_counted();
    changes_are_steps();
    bare_is_enough();
    files_are_ready();
    write_file(
        draft,
        alloc,
        per,
        bits,
        streams,
        node.number,
        made,
        op,
        node,
        stamp,
    )
}

/// Writes or cuts the file that an operation was found to change
/// ([`change_found`](change_lookup::change_found)) where its record has no unnamed data, as
/// [`has_data`](made_data::has_data) tells, in a draft that touched nothing before (Linux-NTFS
/// documentation, "FILE Record", "$DATA"): as [`change_file`](file_changes::change_file) does it with
/// a file that has data, with its errors and its costs, by the record with empty data that
/// [`make_data`] gives. `file` is the record of the node, as it was read, which has a spelling but for
/// its room and fewer than 1,024 attributes, and `bits` are those of the volume's clusters. Where the
/// view's content is a state, the draft stands for the content that the step of the operation leaves,
/// and what it put is what comes of the empty data, and leads there as the bodies of a plan do: the
/// file has unnamed data then, in its record or in clusters.
pub fn change_without_data<V: View, B: FreeBits>(
    draft: &mut Draft<'_, V>,
    alloc: Global,
    per: ClusterSize,
    bits: &mut B,
    streams: &VolumeStreams,
    file: &FileRec,
    op: &Op,
    node: &Node,
    stamp: u64,
) -> Result<(), WriteFault>
    requires per { per ≡ 8 }
    requires none { has_data file.now ≡ false }
    requires fits { FitsButRoom file.now }
    requires attrs { length file.now.attrs < 2 ^ 10 }
    requires may { MayWrite (length (B.bits bits.old)) node.now.number streams.now (made_record file.now) op.now node.now }
    ensures changes { ChangesFile (V.content draft.old.view.now) streams.now op.now node.now stamp file.now (made_record file.now) (B.bits bits.old) (B.bits bits.new) draft.old.touched.items draft.new.touched.items result }
    ensures asks { AsksView V.content V.kept V.faults write_cause draft.old.view.now draft.new.view.now result }
    ensures reference { draft.new.view.ghost_name ≡ draft.old.view.ghost_name }
{
    changes_are_steps();
    let Ok(made) = make_data(alloc, file) else {
        return Err(WriteFault::Memory);
    };
    change_made(
        draft, alloc, per, bits, streams, file, &made, op, node, stamp,
    )
}

/// Writes or cuts the file that an operation was found to change
/// ([`change_found`](change_lookup::change_found)), whether its record has unnamed data or not
/// (Linux-NTFS documentation, "FILE Record", "$DATA"), in a draft that touched nothing before: as
/// [`change_file`] does it where the file has data, and as [`change_without_data`] where it has none,
/// with their errors and costs. `file` is the record of the node, as it was read, which has a spelling
/// but for its room and fewer than 1,024 attributes.
pub fn change_any_file<V: View, B: FreeBits>(
    draft: &mut Draft<'_, V>,
    alloc: Global,
    per: ClusterSize,
    bits: &mut B,
    streams: &VolumeStreams,
    file: &FileRec,
    op: &Op,
    node: &Node,
    stamp: u64,
) -> Result<(), WriteFault>
    requires per { per ≡ 8 }
    requires fits { FitsButRoom file.now }
    requires attrs { length file.now.attrs < 2 ^ 10 }
    requires may { MayWrite (length (B.bits bits.old)) node.now.number streams.now (record_with_data file.now) op.now node.now }
    ensures changes { ChangesFile (V.content draft.old.view.now) streams.now op.now node.now stamp file.now (record_with_data file.now) (B.bits bits.old) (B.bits bits.new) draft.old.touched.items draft.new.touched.items result }
    ensures asks { AsksView V.content V.kept V.faults write_cause draft.old.view.now draft.new.view.now result }
    ensures reference { draft.new.view.ghost_name ≡ draft.old.view.ghost_name }
{
    if has_data(file) {
        return change_file(draft, alloc, per, bits, streams, file, op, node, stamp);
    }
    change_without_data(draft, alloc, per, bits, streams, file, op, node, stamp)
}
