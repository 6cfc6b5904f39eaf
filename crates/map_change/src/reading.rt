//! The records that stand after changes.
ghost use Rattle.std.specs.Prelude.{◌≡◌, ◌++◌, ◌∷◌, [], IfOk, IfSome, OnOk};
ghost use Rattle.volume_map.specs.block_view.Views.{AsksView};
ghost use Rattle.volume_map.specs.Errors.{map_cause, NeverRefused};
ghost use Rattle.map_change.specs.Reading.{IsRead, AreRead};

use crate::alone::alone;
use crate::change::RecordChange;
use disk_model::Body;
use std::alloc::{AllocError, Global};
use volume_map::{ClusterSize, Extents, MapFault, View, table_found};

const MOST_RECORDS: u64 = 1_048_576;

// The change of the record with this number to what it is in the view, where it stands alone there.
fn read_one<V: View>(
    alloc: Global,
    view: &mut V,
    per: ClusterSize,
    extents: &Extents,
    number: u64,
    body: &mut Body,
) -> Result<Option<RecordChange>, MapFault>
    ensures value { IfSome (V.content view.old) (λ d. IfOk result (λ change. IfSome change (IsRead d per extents.now number))) }
    ensures kept { AsksView V.content V.kept V.faults map_cause view.old view.new result }
    ensures certain { NeverRefused result }
{
    if number >= MOST_RECORDS {
        return Ok(None);
    }
    match table_found(alloc, view, per, extents, number, body) {
        Ok(found) => Ok(alone(alloc, per, number, found)?),
        Err(MapFault::View) => Err(MapFault::View),
        Err(MapFault::Memory) => Err(MapFault::Memory),
        // No record is refused where it is only read.
        Err(MapFault::Refused(_)) => Ok(None),
    }
}

fn push(records: &mut Vec<RecordChange>, change: RecordChange) -> Result<(), AllocError>
    ensures { OnOk result (records.new.items ≡ records.old.items ++ change ∷ []) }
{
    records.push(change)?;
    Ok(())
}

/// The changes of the records with these numbers to what they are in the view, where each of them
/// stands alone there; else none. `body` is room for a body. It reads each of these records once.
pub fn read_records<V: View>(
    alloc: Global,
    view: &mut V,
    per: ClusterSize,
    extents: &Extents,
    numbers: &[u64],
    body: &mut Body,
) -> Result<Option<Vec<RecordChange>>, MapFault>
    ensures value { IfSome (V.content view.old) (λ d. IfOk result (λ found. IfSome found (λ records. AreRead d per extents.now numbers.now records.items))) }
    ensures kept { AsksView V.content V.kept V.faults map_cause view.old view.new result }
    ensures certain { NeverRefused result }
{
    let mut records = Vec::new(alloc);
    for number in numbers {
        let found = read_one(alloc, view, per, extents, *number, body)?;
        match found {
            Some(change) => push(&mut records, change)?,
            None => return Ok(None),
        }
    }
    Ok(Some(records))
}
