//! What a file record is, by its body.
ghost use Rattle.std.specs.Prelude.{◌≡◌, ◌*◌, length, IfOk};
ghost use Rattle.stream_map.specs.disk_model.declared.block.BlockKind.TheVariants.{FileRec as file_kind};
ghost use Rattle.stream_map.specs.disk_model.Content.{is_signed};
ghost use Rattle.record_model.specs.Records.{record_at};
ghost use Rattle.state_model.specs.Loads.{slot_by, slot_in, slot_of, is_used, whole_record};
ghost use Rattle.volume_map.specs.Slots.{seen, IsRead};

use crate::record::whole_record;
use file_record::{FileRec, RecFault};
use record_model::RecordFlags;
use std::alloc::Global;
use stream_map::{Body, u16_at};
use volume_model::Memory;

/// A file record as it stands on a volume.
#[derive(Debug, Drop)]
pub enum Slot {
    /// Its update sequence fails.
    Torn,
    /// It doesn't begin `FILE`, or isn't in use.
    Free,
    /// It breaks this rule, and no lower one.
    Broken { rule: u32 },
    /// A record in use.
    Used(FileRec),
}

fn is_signed(bytes: &[u8]) -> bool
    ensures { result ≡ is_signed file_kind bytes.now }
{
    bytes.starts_with(b"FILE")
}

/// Whether the body of a file record begins `FILE` and is flagged as in use.
#[tactic(auto, unfolding(record_model::specs::Records::has_in_use_flag))]
pub fn is_used(body: &[u8]) -> bool
    requires { length body.now ≡ 1024 }
    ensures { result ≡ is_used body.now }
{
    is_signed(body) && RecordFlags::has_in_use(u16_at(body, 0x16))
}

// What a record that was read is.
fn slot_read(read: Result<FileRec, RecFault>) -> Result<Slot, Memory>
    ensures { IfOk result (λ slot. IsRead read slot) }
{
    match read {
        Ok(file) => Ok(Slot::Used(file)),
        Err(RecFault::Rule { rule }) => Ok(Slot::Broken { rule }),
        Err(RecFault::Memory) => Err(Memory),
    }
}

/// What the body of a file record is, by the rules 1 to 8; linear in the body.
#[tactic(auto, unfolding(state_model::specs::Loads::slot_of))]
pub fn slot_of(alloc: Global, body: &Body) -> Result<Slot, Memory>
    requires { length body.now.bytes ≡ 1024 }
    ensures { IfOk result (λ slot. seen slot ≡ slot_of body.now) }
{
    if body.torn() {
        return Ok(Slot::Torn);
    }
    if !is_used(body.bytes()) {
        return Ok(Slot::Free);
    }
    slot_read(whole_record(alloc, body.bytes()))
}

/// What the body of a file record is, by the rules 1 to 6 and 8; linear in the body.
pub fn own_slot_of(alloc: Global, body: &Body) -> Result<Slot, Memory>
    requires { length body.now.bytes ≡ 1024 }
    ensures { IfOk result (λ slot. seen slot ≡ slot_by record_at body.now) }
{
    if body.torn() {
        return Ok(Slot::Torn);
    }
    if !is_used(body.bytes()) {
        return Ok(Slot::Free);
    }
    slot_read(FileRec::read(alloc, body.bytes()))
}
