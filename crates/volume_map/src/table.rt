//! The file table, by record 0.
ghost use Rattle.std.specs.Prelude.{◌≡◌, ◌+◌, ◌*◌, ◌^◌, ◌<◌, ◌≤◌, Ok, IfOk, IfSome, OnOk, length};
ghost use Rattle.volume_model.specs.host_base.Answers.{Gives, GivesOrFails};
ghost use Rattle.record_model.specs.Records.{record_at};
ghost use Rattle.state_model.specs.Files.{has_type};
ghost use Rattle.state_model.specs.Loads.{boot_block, judged, most_records, extents_or, record_count, table_extents, extents_in, table_of, slot_by, slot_of};
ghost use Rattle.volume_map.specs.Errors.{map_cause};
ghost use Rattle.volume_map.specs.Slots.{seen};
ghost use Rattle.stream_map.specs.block_view.Views.{AsksView};

use crate::fault::MapFault;
use crate::record::has_all_pairs;
use crate::slot::{Slot, own_slot_of, slot_of};
use file_record::FileRec;
use record_model::{ATTRIBUTE_LIST, DATA};
use state_model::{Extents, Geometry, MapRefusal, Stream};
use std::alloc::Global;
use stream_map::{Block, BlockKind, Body, View, no_extents, stream_of};
use volume_model::Memory;

const MOST_RECORDS: u64 = 1_048_576;

/// What the file record of a block is, by the rules 1 to 8; `body` is room for it.
pub fn read_slot<V: View>(
    alloc: Global,
    view: &mut V,
    block: Block,
    body: &mut Body,
) -> Result<Slot, MapFault>
    requires { block.kind ≡ BlockKind.FileRec }
    ensures answer { IfSome (V.content view.old) (λ c. GivesOrFails seen map_cause result (Ok (slot_of (c block)))) }
    ensures kept { AsksView V.content V.kept V.faults map_cause view.old view.new result }
{
    view.body(block, body)?;
    Ok(slot_of(alloc, body)?)
}

// The same by the rules 1 to 6 and 8.
fn read_own_slot<V: View>(
    alloc: Global,
    view: &mut V,
    block: Block,
    body: &mut Body,
) -> Result<Slot, MapFault>
    requires { block.kind ≡ BlockKind.FileRec }
    ensures answer { IfSome (V.content view.old) (λ c. GivesOrFails seen map_cause result (Ok (slot_by record_at (c block)))) }
    ensures kept { AsksView V.content V.kept V.faults map_cause view.old view.new result }
{
    view.body(block, body)?;
    Ok(own_slot_of(alloc, body)?)
}

/// Where the record of that number lies, by the place that the boot sector gives the table, whose
/// records stand one behind the other there (Linux-NTFS documentation, "$Boot", "$MFT").
pub fn boot_block(geometry: &Geometry, number: u64) -> Block
    requires place { geometry.now.mft * geometry.now.per_cluster < 2 ^ 62 }
    requires number { number < most_records }
    ensures value { result ≡ boot_block geometry.now number }
    ensures kind { result.kind ≡ BlockKind.FileRec }
{
    Block {
        first: geometry.mft * geometry.per_cluster.sectors() + 2 * number,
        kind: BlockKind::FileRec,
    }
}

/// The record of a slot that is read alone: torn, or breaking a rule, it is refused.
pub fn judged(number: u64, slot: Slot) -> Result<Option<FileRec>, MapFault>
    ensures { Gives (λ file. file) map_cause result (judged number (seen slot)) }
{
    match slot {
        Slot::Torn => Err(MapFault::Refused(MapRefusal::BadFixup { number })),
        Slot::Free => Ok(None),
        Slot::Broken { rule } => Err(MapFault::Refused(MapRefusal::BadRecord { number, rule })),
        Slot::Used(file) => Ok(Some(file)),
    }
}

/// Whether the record has an attribute of this type.
#[tactic(auto, unfolding(state_model::specs::Files::has_type))]
pub fn has_type(file: &FileRec, kind: u32) -> bool
    ensures { result ≡ has_type kind file.now }
{
    file.attrs()
        .as_slice()
        .iter()
        .any(|attr| attr.head.kind == kind)
}

// The clusters of a stream; a value in a record is too short for records.
fn extents_or(alloc: Global, stream: Option<Stream>) -> Extents
    ensures value { result ≡ extents_or stream }
{
    match stream {
        Some(Stream::Placed(extents)) => extents,
        _ => no_extents(alloc),
    }
}

// The clusters of the record's unnamed data.
#[tactic(auto, unfolding(state_model::specs::Loads::table_extents, state_model::specs::Loads::data_stream))]
fn table_extents(alloc: Global, file: &FileRec) -> Result<Extents, Memory>
    ensures value { IfOk result (λ e. e ≡ table_extents file.now) }
{
    let stream = stream_of(alloc, DATA, &[], file.attrs().as_slice())?;
    match stream {
        Some(Stream::Placed(extents)) => Ok(extents),
        _ => Ok(no_extents(alloc)),
    }
}

// The clusters of the table by record 0, or what refuses it.
#[tactic(auto, unfolding(state_model::specs::Loads::extents_in))]
fn extents_in(alloc: Global, file: Option<FileRec>) -> Result<Extents, MapFault>
    ensures value { Gives (λ e. e) map_cause result (extents_in file) }
    ensures few { IfOk result (λ e. record_count e ≤ most_records) }
{
    let Some(file) = file else {
        return Ok(no_extents(alloc));
    };
    if has_type(&file, ATTRIBUTE_LIST) {
        return Err(MapFault::Refused(MapRefusal::MftList));
    }
    let extents = table_extents(alloc, &file)?;
    let records = extents.real / 1024;
    if records > MOST_RECORDS {
        return Err(MapFault::Refused(MapRefusal::MftLarge { records }));
    }
    if !has_all_pairs(alloc, &file)? {
        return Err(MapFault::Refused(MapRefusal::BadRecord { number: 0, rule: 7 }));
    }
    Ok(extents)
}

/// The clusters of the file table, by record 0 where the boot sector says that the table begins, or
/// what refuses it; `body` is room for a body. It reads that record alone, and takes time linear in
/// it.
///
/// The errors are a failure of the view, want of memory, and the first of [`load`]'s refusals that
/// record 0 alone tells.
///
/// [`load`]: crate::load
pub fn table_of<V: View>(
    alloc: Global,
    view: &mut V,
    geometry: &Geometry,
    body: &mut Body,
) -> Result<Extents, MapFault>
    requires { geometry.now.mft * geometry.now.per_cluster < 2 ^ 62 }
    ensures answer { IfSome (V.content view.old) (λ c. GivesOrFails (λ e. e) map_cause result (table_of c geometry.now)) }
    ensures few { IfOk result (λ e. record_count e ≤ most_records) }
    ensures kept { AsksView V.content V.kept V.faults map_cause view.old view.new result }
{
    let slot = read_own_slot(alloc, view, boot_block(geometry, 0), body)?;
    let file = judged(0, slot)?;
    extents_in(alloc, file)
}

/// The record of that number, where the boot sector says that the table begins, by the rules 1 to
/// 8; none where it isn't in use. One that is torn, or breaks a rule, is refused. `body` is room
/// for a body.
pub fn boot_record<V: View>(
    alloc: Global,
    view: &mut V,
    geometry: &Geometry,
    number: u64,
    body: &mut Body,
) -> Result<Option<FileRec>, MapFault>
    requires place { geometry.now.mft * geometry.now.per_cluster < 2 ^ 62 }
    requires number { number < most_records }
    ensures answer { IfSome (V.content view.old) (λ c. GivesOrFails (λ file. file) map_cause result (judged number (slot_of (c (boot_block geometry.now number))))) }
    ensures kept { AsksView V.content V.kept V.faults map_cause view.old view.new result }
{
    let slot = read_slot(alloc, view, boot_block(geometry, number), body)?;
    judged(number, slot)
}
