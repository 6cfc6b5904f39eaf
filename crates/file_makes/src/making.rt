//! A file that is made.
ghost use Rattle.std.specs.Prelude.{◌≡◌, ◌<◌, ◌≤◌, ◌^◌, IfErr, IfOk, IfSome, OnOk};
ghost use Rattle.utf16_name.specs.Lawful.{IsName};
ghost use Rattle.block_view.specs.Views.{AsksView};
ghost use Rattle.index_node.specs.Roots.{HaveSpelling, root_spelling};
ghost use Rattle.file_puts.specs.index_change.Plans.{clusters_of};
ghost use Rattle.file_puts.specs.index_tree.Places.{place_of};
ghost use Rattle.file_puts.specs.record_writer.NormalLaws.{FitsByRoom};
ghost use Rattle.plan_draft.specs.Faults.{fault_cause};
ghost use Rattle.file_puts.specs.draft_records.Faults.{draft_cause};
ghost use Rattle.file_puts.specs.draft_records.Records.{written_bytes, StaysWhereFull};
ghost use Rattle.new_files.specs.NewFiles.{new_record};
ghost use Rattle.file_puts.specs.Puts.{PutsFileRecord};
ghost use Rattle.file_makes.specs.Making.{rooted_record, rooted_bytes, AreWhole, PutsBehind, PutsMade, HasRoom, IsFullBy};

use crate::lsn::lsn_at;
use crate::newfile::NewFile;
use crate::nodes::{laid_out, put_nodes};
use crate::puts::put_record;
use block_view::{Change, View, ViewFault};
use draft_numbers::{DraftFault, put_bits, put_file, spelled_fits_by_room};
use file_puts::{DirPlace, DirPlan, NodesPlan, VolumeStreams, placed_fits, valued_record};
use host_base::{Bytes, FileRef};
use new_files::{FileRec, new_file_reads, new_record};
use plan_draft::Draft;
use record_model::{INDEX_ROOT, NAMES_INDEX};
use state_model::{ClusterSize, Extents};
use std::alloc::{AllocError, Global};
use utf16_name::Name;

// A name keeps the rules of names.
fn names_are_lawful(name: &Name)
    ensures { IsName name.now }
{
    name.units();
}

// The record of the new file.
fn made_record(
    alloc: Global,
    lsn: u64,
    file: FileRef,
    parent: FileRef,
    name: &Name,
    stamp: u64,
) -> Result<FileRec, AllocError>
    requires number { file.number < 2 ^ 32 }
    requires directory { parent.number < 2 ^ 48 }
    ensures value { IfOk result (λ r. r ≡ new_record lsn file parent name.now stamp) }
    ensures fits { IfOk result FitsByRoom }
    ensures room { IfOk result (λ r. written_bytes r ≤ 1024) }
    ensures lsn { lsn < 2 ^ 64 }
{
    names_are_lawful(name);
    new_file_reads();
    spelled_fits_by_room();
    new_record(alloc, lsn, file, parent, name, stamp)
}

// The directory's record with this value of the root of its index.
fn with_root(alloc: Global, root: &Bytes, directory: &FileRec) -> Result<FileRec, AllocError>
    requires room { HasRoom directory.now }
    ensures value { IfOk result (λ r. r ≡ rooted_record root.now directory.now) }
    ensures fits { IfOk result FitsByRoom }
{
    placed_fits();
    if root.len() > 0x1_0000 {
        return Err(AllocError);
    }
    let Ok(new) = valued_record(alloc, INDEX_ROOT, &NAMES_INDEX, root.as_slice(), directory) else {
        return Err(AllocError);
    };
    Ok(new)
}

// Puts the nodes, the file's record behind them, and the bit of its number.
fn put_behind<V: View>(
    draft: &mut Draft<'_, V>,
    alloc: Global,
    per: ClusterSize,
    streams: &VolumeStreams,
    numbers: &Extents,
    number: u64,
    file: &FileRec,
    changes: &[Change],
) -> Result<(), ViewFault>
    requires per { per ≡ 8 }
    requires size { numbers.now.initialised < 2 ^ 63 }
    requires number { number < 2 ^ 32 }
    requires fits { FitsByRoom file.now }
    requires room { written_bytes file.now ≤ 1024 }
    requires whole { AreWhole changes.now }
    ensures put { OnOk result (IfSome (V.content draft.old.view.now) (λ c. PutsBehind c streams.now numbers.now number file.now changes.now draft.old.touched.items draft.new.touched.items)) }
    ensures asks { AsksView V.content V.kept V.faults fault_cause draft.old.view.now draft.new.view.now result }
    ensures reference { draft.new.view.ghost_name ≡ draft.old.view.ghost_name }
{
    put_nodes(draft, alloc, changes)?;
    put_record(draft, alloc, per, streams, number, file)?;
    put_bits(draft, alloc, per, numbers, number, 1, true)?;
    Ok(())
}

// Puts the directory's record with this root.
fn put_root<V: View>(
    draft: &mut Draft<'_, V>,
    alloc: Global,
    per: ClusterSize,
    streams: &VolumeStreams,
    number: u64,
    directory: &FileRec,
    root: &Bytes,
) -> Result<(), DraftFault>
    requires per { per ≡ 8 }
    requires number { number < 2 ^ 48 }
    requires room { HasRoom directory.now }
    ensures put { OnOk result (IfSome (V.content draft.old.view.now) (λ c. PutsFileRecord c streams.now number (rooted_record root.now directory.now) draft.old.touched.items draft.new.touched.items)) }
    ensures full { IsFullBy (written_bytes (rooted_record root.now directory.now)) result }
    ensures refused { IfErr result (StaysWhereFull draft.old.touched.items draft.new.touched.items) }
    ensures asks { AsksView V.content V.kept V.faults draft_cause draft.old.view.now draft.new.view.now result }
    ensures reference { draft.new.view.ghost_name ≡ draft.old.view.ghost_name }
{
    let rooted = with_root(alloc, root, directory)?;
    let (table, mirror) = (&streams.table, &streams.mirror);
    put_file(draft, alloc, per, table, mirror, number, &rooted)
}

/// Puts a file that is made in a directory (Linux-NTFS documentation, "FILE Record", "$INDEX_ROOT",
/// "Index Record", "$Bitmap"): the directory's record with the root of its index that a plan of
/// nodes has; these nodes, laid out in the blocks of `dir`; the new file's record, with one name and
/// no bytes; and the bit of its number in the bitmap of `$MFT`, which lies in the clusters of
/// `numbers`. `directory` is the directory's record as it is in the draft, and `dir` the place of its
/// index there, for whose root `nodes` were planned; the plan has the key of
/// [`new_key`](new_files::new_key), and the number is spare. The volume has `per` sectors a cluster.
/// The times of the directory are put before that.
///
/// - [`DraftFault::Full`]: the directory's record would use so many bytes with the root, which are
///   above 1,024. The draft is as it was.
/// - [`DraftFault::Fault`]: the view failed, which is asked where a block wasn't touched.
/// - [`DraftFault::Memory`]: want of memory. This comes too where a node has no block.
///
/// After the last two some of it is put: the draft is of no more use. It takes time and memory
/// linear in the two records and the nodes, and a pass over the runs for each block of them.
pub fn make_file<V: View>(
    draft: &mut Draft<'_, V>,
    alloc: Global,
    per: ClusterSize,
    streams: &VolumeStreams,
    numbers: &Extents,
    made: &NewFile,
    directory: &FileRec,
    dir: &DirPlace,
    nodes: NodesPlan,
) -> Result<(), DraftFault>
    requires per { per ≡ 8 }
    requires size { numbers.now.initialised < 2 ^ 63 }
    requires number { made.now.file.number < 2 ^ 32 }
    requires parent { made.now.parent.number < 2 ^ 48 }
    requires room { HasRoom directory.now }
    ensures put { OnOk result (IfSome (V.content draft.old.view.now) (λ c. PutsMade c streams.now numbers.now made.now directory.now (place_of dir.now) dir.now.root nodes draft.old.touched.items draft.new.touched.items)) }
    ensures full { IsFullBy (rooted_bytes dir.now.root nodes.root directory.now) result }
    ensures refused { IfErr result (StaysWhereFull draft.old.touched.items draft.new.touched.items) }
    ensures asks { AsksView V.content V.kept V.faults draft_cause draft.old.view.now draft.new.view.now result }
    ensures reference { draft.new.view.ghost_name ≡ draft.old.view.ghost_name }
{
    let (number, parent) = (made.file.number, made.parent.number);
    let lsn = lsn_at(draft, alloc, per, &streams.table, number)?;
    let file = made_record(alloc, lsn, made.file, made.parent, &made.name, made.stamp)?;
    let DirPlan { root, changes, .. } = laid_out(draft, alloc, dir, nodes)?;
    put_root(draft, alloc, per, streams, parent, directory, &root)?;
    put_behind(draft, alloc, per, streams, numbers, number, &file, &changes)?;
    Ok(())
}
