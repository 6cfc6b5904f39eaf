//! The files of a volume.
ghost use Rattle.std.specs.Prelude.{◌≡◌, ◌*◌, ◌^◌, ◌<◌, ◌≤◌, map, length, IfOk, IfSome};
ghost use Rattle.volume_model.specs.host_base.Answers.{Gives, GivesOrFails};
ghost use Rattle.stream_map.specs.disk_model.declared.block.BlockKind.TheVariants.{FileRec as file_kind};
ghost use Rattle.state_model.specs.Streams.{has_cut_block};
ghost use Rattle.state_model.specs.Loads.{table_in, most_records, record_count, files_in, loaded};
ghost use Rattle.volume_map.specs.Errors.{map_cause};
ghost use Rattle.volume_map.specs.Heads.{table_heads};
ghost use Rattle.volume_map.specs.Lists.{read_of, judged_files};
ghost use Rattle.stream_map.specs.block_view.Views.{AsksView};

use crate::extras::extras_of;
use crate::fault::MapFault;
use crate::head::Head;
use crate::holding::tens_of;
use crate::joining::join_files;
use crate::judging::check_rules;
use crate::list_read::ListRead;
use crate::lists::read_lists;
use crate::table::table_of;
use crate::walk::{Walk, walk_table};
use file_record::FileRec;
use state_model::{ClusterSize, Extents, Geometry};
use std::alloc::Global;
use stream_map::{BlockKind, Body, View, has_cut_block};

// Makes the records the files, by the rules of 1 to 8 that the records break and the lists of
// files; refuses the first record that breaks a rule.
fn check_files(
    alloc: Global,
    per: ClusterSize,
    extents: &Extents,
    records: &mut [Option<FileRec>],
    rules: &[Option<u32>],
    lists: &[ListRead],
) -> Result<(), MapFault>
    requires rules { length rules.now ≡ length records.old }
    requires lists { length lists.now ≡ length records.old }
    ensures { Gives (λ _. records.new) map_cause result (judged_files per extents.now records.old rules.now (map read_of lists.now)) }
{
    let tens = tens_of(alloc, records, lists)?;
    let extras = extras_of(alloc, records, lists)?;
    join_files(records, &extras)?;
    let cut = has_cut_block(
        per,
        BlockKind::FileRec,
        records.len() as u64,
        extents.runs.as_slice(),
    );
    check_rules(alloc, per, cut, rules, &tens, records)
}

/// What a file table says of all its records.
#[derive(Debug, Drop)]
pub struct TableRead {
    /// The files by number, as [`load`] answers them.
    pub files: Vec<Option<FileRec>>,
    /// The head of each record, by number.
    pub heads: Vec<Head>,
}

// The files by a walk over the table, and the lists of files.
fn judged_files(
    alloc: Global,
    per: ClusterSize,
    extents: &Extents,
    walk: Walk,
    lists: &[ListRead],
) -> Result<TableRead, MapFault>
    requires rules { length walk.rules.items ≡ length walk.records.items }
    requires lists { length lists.now ≡ length walk.records.items }
    ensures answer { Gives (λ read. read.files.items) map_cause result (judged_files per extents.now walk.records.items walk.rules.items (map read_of lists.now)) }
    ensures heads { IfOk result (λ read. read.heads.items ≡ walk.heads.items) }
{
    let Walk {
        mut records,
        rules,
        heads,
    } = walk;
    check_files(alloc, per, extents, records.as_mut_slice(), &rules, lists)?;
    Ok(TableRead {
        files: records,
        heads,
    })
}

/// The files and the heads of a table with these clusters, by number; `body` is room for a body,
/// and `per` the sectors of a cluster.
///
/// The errors are a failure of the view, want of memory, and the first refusal that applies: the
/// first record that is torn; the first record that breaks a rule, and the least one that it
/// breaks. It reads each record once, for both, and costs what `load` does.
pub fn read_table<V: View>(
    alloc: Global,
    view: &mut V,
    per: ClusterSize,
    extents: &Extents,
    body: &mut Body,
) -> Result<TableRead, MapFault>
    requires records { record_count extents.now ≤ most_records }
    ensures answer { IfSome (V.content view.old) (λ c. GivesOrFails (λ read. read.files.items) map_cause result (files_in c per extents.now)) }
    ensures heads { IfSome (V.content view.old) (λ c. IfOk result (λ read. read.heads.items ≡ table_heads c per extents.now (length read.files.items))) }
    ensures kept { AsksView V.content V.kept V.faults map_cause view.old view.new result }
{
    let walk = walk_table(alloc, view, per, extents, body)?;
    let lists = read_lists(alloc, view, per, &walk.records, body)?;
    judged_files(alloc, per, extents, walk, &lists)
}

/// The files of a table with these clusters, by number, as [`load`] answers them; `body` is room
/// for a body, and `per` the sectors of a cluster.
///
/// The errors are a failure of the view, want of memory, and the first refusal that applies: the
/// first record that is torn; the first record that breaks a rule, and the least one that it
/// breaks. It reads no bitmap, and costs what `load` does.
pub fn files_in<V: View>(
    alloc: Global,
    view: &mut V,
    per: ClusterSize,
    extents: &Extents,
    body: &mut Body,
) -> Result<Vec<Option<FileRec>>, MapFault>
    requires records { record_count extents.now ≤ most_records }
    ensures answer { IfSome (V.content view.old) (λ c. GivesOrFails (λ files. files.items) map_cause result (files_in c per extents.now)) }
    ensures kept { AsksView V.content V.kept V.faults map_cause view.old view.new result }
{
    let read = read_table(alloc, view, per, extents, body)?;
    Ok(read.files)
}

/// The files of the volume that a view's content is, by number: the base records in use of its file
/// table, each with the attributes of other records that its attribute list names behind its own,
/// by the numbers of these records. There is none at the number of another record.
///
/// The errors are a failure of the view, want of memory, and the first refusal that applies: record
/// 0 where the boot sector says that the table begins is torn, or breaks one of the rules 1 to 6
/// and 8; it has an attribute list; it gives the table too many records; its mapping pairs are at
/// fault; the first record that is torn; the first record that breaks a rule, and the least one
/// that it breaks.
///
/// It reads each record once, and then each attribute list, and no bitmap. Its time is linear in
/// the records of the table, for each of them in the runs of the table, which stand in record 0,
/// and in the entries of lists, for each attribute of a record that refers to a file in the entries
/// of that file's list. Its memory is linear in the records and in these entries.
pub fn load<V: View>(
    alloc: Global,
    view: &mut V,
    geometry: &Geometry,
) -> Result<Vec<Option<FileRec>>, MapFault>
    requires place { geometry.now.mft * geometry.now.per_cluster < 2 ^ 62 }
    ensures answer { IfSome (V.content view.old) (λ c. GivesOrFails (λ files. files.items) map_cause result (loaded c geometry.now)) }
    ensures kept { AsksView V.content V.kept V.faults map_cause view.old view.new result }
{
    let mut body = Body::empty(alloc)?;
    let extents = table_of(alloc, view, geometry, &mut body)?;
    files_in(alloc, view, geometry.per_cluster, &extents, &mut body)
}
