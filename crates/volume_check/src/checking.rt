//! The check.
ghost use Rattle.std.specs.Prelude.{◌≡◌, IfSome};
ghost use Rattle.host_base.specs.Answers.{GivesOrFails};
ghost use Rattle.volume_tree.specs.volume_map.Maps.{volume_in, IsMapOf};
ghost use Rattle.block_view.specs.Views.{AsksView};
ghost use Rattle.volume_state.specs.Trees.{checked};
ghost use Rattle.volume_check.specs.Errors.{check_cause};
ghost use Rattle.volume_check.specs.Parts.{AreParts};

use crate::fault::CheckFault;
use crate::report::report;
use crate::rules::from_1;
use block_view::View;
use disk_model::Body;
use file_tree::Tree;
use std::alloc::Global;
use system_files::upper_table;
use volume_model::Upcase;
use volume_tree::{NamedVolume, Names, VolumeMap};

// The same, by the volume's table of upper-case units.
fn check_ordered<V: View>(
    alloc: Global,
    view: &mut V,
    volume: &NamedVolume,
    upper: &Upcase,
    body: &mut Body,
) -> Result<Tree, CheckFault>
    ensures value { IfSome (V.content view.old) (λ c. AreParts c volume.now.map.now upper.now → GivesOrFails (λ tree. tree) check_cause result (checked c (volume_in volume.now.map.now))) }
    ensures kept { AsksView V.content V.kept V.faults check_cause view.old view.new result }
{
    match from_1(alloc, view, volume, upper, body)? {
        Some(broken) => Err(CheckFault::Broken(broken)),
        None => report(alloc, view, volume, upper, body),
    }
}

// The same, by the names of the volume.
fn check_named<V: View>(
    alloc: Global,
    view: &mut V,
    volume: &NamedVolume,
) -> Result<Tree, CheckFault>
    ensures value { IfSome (V.content view.old) (λ c. IsMapOf c volume.now.map.now → GivesOrFails (λ tree. tree) check_cause result (checked c (volume_in volume.now.map.now))) }
    ensures kept { AsksView V.content V.kept V.faults check_cause view.old view.new result }
{
    let mut body = Body::empty(alloc)?;
    let upper = upper_table(alloc, view, volume.map, &mut body)?;
    check_ordered(alloc, view, volume, &upper, &mut body)
}

/// The tree that a loaded volume stands for, without the bytes of its nodes and the records of its
/// journal. A volume stands for a tree exactly where it breaks none of its nine rules (Linux-NTFS
/// documentation, "FILE Record", "$FILE_NAME", "$INDEX_ROOT", "Data runs", "$Bitmap", "$UsnJrnl").
///
/// - [`CheckFault::Broken`]: the first rule that the volume breaks, with the least number at which
///   it does. Rules 1 to 4, 7 and 8 are broken at a record: 1 the names of a file, 2 the directory
///   of each name, 3 the index of a directory, 4 the pieces, places and sizes of streams, and at
///   record 0 a file table that doesn't begin where the boot sector says, 7 a record that is in use
///   and not marked, 8 the way up of a directory. Rules 5 and 6 are broken at a cluster: 5 one that
///   is owned twice, 6 one that is owned and not marked. Rule 9, the change journal, is broken at
///   an offset in `$J`.
/// - [`CheckFault::View`]: the view failed.
/// - [`CheckFault::Memory`]: want of memory.
///
/// The tree is that of the view's content where the map was loaded of it: the heads of the records
/// and the bits of the bitmaps are taken from the map, and not read again. It reads the table of
/// upper-case units and `$J` once, each block of an index that a node lies in twice, for its names
/// and for whether it is torn, and each record of the file table and of its mirror once, for
/// whether it is torn. It takes time linear in the records and the names, in the bytes of the
/// indexes' nodes and in the clusters' bits, and n log n in the runs and the nodes; memory is
/// linear in the records, the names and the runs. Blocks of an index that no node lies in cost
/// nothing.
pub fn check<V: View>(alloc: Global, view: &mut V, map: &VolumeMap) -> Result<Tree, CheckFault>
    ensures value { IfSome (V.content view.old) (λ c. IsMapOf c map.now → GivesOrFails (λ tree. tree) check_cause result (checked c (volume_in map.now))) }
    ensures kept { AsksView V.content V.kept V.faults check_cause view.old view.new result }
{
    let names = Names::new(alloc, &map.files)?;
    let volume = NamedVolume::new(map, &names);
    check_named(alloc, view, &volume)
}
