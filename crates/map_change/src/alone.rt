//! Records that stand alone.
ghost use Rattle.std.specs.Prelude.{◌≡◌, false, Some, IfOk, IfSome};
ghost use Rattle.volume_map.specs.record_model.Constants.{attribute_list};
ghost use Rattle.volume_map.specs.state_model.Files.{has_type, only_base};
ghost use Rattle.volume_map.specs.Slots.{seen};
ghost use Rattle.map_change.specs.Reading.{IsAlone};

use crate::change::RecordChange;
use host_base::Memory;
use std::alloc::Global;
use volume_map::{
    ATTRIBUTE_LIST, ClusterSize, FileRec, Found, Head, Slot, cuts_index, has_type, is_base_record,
};

// The file that a record is by itself: none where it belongs to another one.
fn only_base(file: FileRec) -> Option<FileRec>
    ensures { result ≡ only_base (Some file) }
{
    if is_base_record(&file) {
        Some(file)
    } else {
        None
    }
}

// The change of a record in use without an attribute list.
fn base_change(number: u64, file: FileRec, head: Head) -> RecordChange
    requires { has_type attribute_list file ≡ false }
    ensures number { result.number ≡ number }
    ensures file { result.file ≡ only_base (Some file) }
    ensures head { result.head ≡ head }
{
    RecordChange {
        number,
        file: only_base(file),
        head,
    }
}

// The change of a record in use that breaks no rule by itself; none where it has an attribute list
// or an index block in two runs.
fn used_alone(
    alloc: Global,
    per: ClusterSize,
    number: u64,
    file: FileRec,
    head: Head,
) -> Result<Option<RecordChange>, Memory>
    ensures { IfOk result (λ found. IfSome found (IsAlone per number (Slot.Used file) head)) }
{
    let listed = has_type(&file, ATTRIBUTE_LIST);
    let cut = cuts_index(alloc, per, &file)?;
    if listed || cut {
        return Ok(None);
    }
    Ok(Some(base_change(number, file, head)))
}

/// The change of a record that was found, where it isn't in use, or stands alone: it breaks no rule
/// by itself, has no attribute list and no index block in two runs. Else none.
pub fn alone(
    alloc: Global,
    per: ClusterSize,
    number: u64,
    found: Found,
) -> Result<Option<RecordChange>, Memory>
    ensures { IfOk result (λ change. IfSome change (IsAlone per number found.slot found.head)) }
{
    let Found { slot, head } = found;
    match slot {
        Slot::Free => Ok(Some(RecordChange {
            number,
            file: None,
            head,
        })),
        Slot::Used(file) => used_alone(alloc, per, number, file, head),
        Slot::Torn => Ok(None),
        Slot::Broken { .. } => Ok(None),
    }
}
