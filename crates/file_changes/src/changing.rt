//! A file that is written or cut.
ghost use Rattle.std.specs.Prelude.{◌≡◌, length};
ghost use Rattle.block_view.specs.Views.{AsksView};
ghost use Rattle.file_writes.specs.Faults.{write_cause};
ghost use Rattle.file_writes.specs.Writing.{MayWrite};
ghost use Rattle.file_changes.specs.Changes.{ChangesFile};

use crate::laws::{writes_are_done, writes_are_steps};
use block_view::View;
use file_tree::Node;
use file_writes::{FileRec, VolumeStreams, WriteFault, write_file};
use plan_draft::Draft;
use plan_space::FreeBits;
use state_model::ClusterSize;
use std::alloc::Global;
use tree_model::Op;
use written_clusters::{bare_is_enough, changes_are_steps, files_are_ready};

/// Writes or cuts the file that an operation was found to change
/// ([`change_found`](change_lookup::change_found)), in a draft that touched nothing before
/// (Linux-NTFS documentation, "FILE Record", "$DATA"): as [`write_file`] does it, with its errors,
/// conditions and costs. `file` is the record of the node, as it was read, and `bits` are those of
/// the volume's clusters. Where the view's content is a state, the draft stands for the content that
/// the step of the operation leaves, of which the reply is how many bytes were written, or the size.
/// What it put is what comes of the data of this record, and leads there as the bodies of a plan do,
/// none of which is of a rival of an owned block. After [`WriteFault::Full`] the step is that the
/// record is too full, and after a failure or want of memory that it was given up.
/// [`WriteFault::Short`] doesn't come there, since an operation for which clusters lack isn't found
/// to change the file.
pub fn change_file<V: View, B: FreeBits>(
    draft: &mut Draft<'_, V>,
    alloc: Global,
    per: ClusterSize,
    bits: &mut B,
    streams: &VolumeStreams,
    file: &FileRec,
    op: &Op,
    node: &Node,
    stamp: u64,
) -> Result<(), WriteFault>
    requires per { per ≡ 8 }
    requires may { MayWrite (length (B.bits bits.old)) node.now.number streams.now file.now op.now node.now }
    ensures changes { ChangesFile (V.content draft.old.view.now) streams.now op.now node.now stamp file.now file.now (B.bits bits.old) (B.bits bits.new) draft.old.touched.items draft.new.touched.items result }
    ensures asks { AsksView V.content V.kept V.faults write_cause draft.old.view.now draft.new.view.now result }
    ensures reference { draft.new.view.ghost_name ≡ draft.old.view.ghost_name }
{
    writes_are_done();
    writes_are_steps();
    changes_are_steps();
    bare_is_enough();
    files_are_ready();
    write_file(
        draft,
        alloc,
        per,
        bits,
        streams,
        node.number,
        file,
        op,
        node,
        stamp,
    )
}
