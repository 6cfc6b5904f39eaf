//! File records as a plan reads and writes them.
ghost use Rattle.std.specs.Prelude.{◌≡◌, ◌*◌, ◌<◌, ◌≤◌, ◌^◌, [], ◌∷◌, map, IfOk, IfSome, OnOk, OnErr, IfErr, length};
ghost use Rattle.record_model.specs.disk_model.declared.block.BlockKind.TheVariants.{FileRec as file_kind};
ghost use Rattle.record_model.specs.disk_model.Content.{is_signed};
ghost use Rattle.record_model.specs.Records.{record_at, record_spelling, FitsRecord};
ghost use Rattle.resized_streams.specs.record_writer.NormalLaws.{FitsByRoom};
ghost use Rattle.resized_streams.specs.record_streams.Fitting.{FitsButRoom};
ghost use Rattle.resized_streams.specs.record_writer.Faults.{room_cause};
ghost use Rattle.resized_streams.specs.host_base.Answers.{Gives};
ghost use Rattle.state_model.specs.Loads.{slot_by, slot_in, used_record, is_used};
ghost use Rattle.draft_records.specs.Records.{name_count, with_links, with_normal, written_bytes, written_in_room, body_of_record};

use plan_draft::{Body, u16_at};
use record_model::{Attr, FILE_NAME, RecHead, RecordFlags};
use resized_streams::{Bytes, FileRec, RecFault, RoomFault, WrittenRecord, normal_attr};
use std::alloc::{AllocError, Global};

// The bytes of a record.
const RECORD_BYTES: u32 = 1024;

fn is_signed(bytes: &[u8]) -> bool
    ensures { result ≡ is_signed file_kind bytes.now }
{
    bytes.starts_with(b"FILE")
}

// Whether the body of a record begins `FILE` and is flagged as in use.
#[tactic(auto, unfolding(record_model::specs::Records::has_in_use_flag))]
fn is_used(body: &[u8]) -> bool
    requires { length body.now ≡ 1024 }
    ensures { result ≡ is_used body.now }
{
    is_signed(body) && RecordFlags::has_in_use(u16_at(body, 0x16))
}

// The record that these bytes spell, if they do.
fn read_record(alloc: Global, body: &[u8]) -> Result<Option<FileRec>, AllocError>
    requires { length body.now ≡ 1024 }
    ensures file { IfOk result (λ file. file ≡ used_record (slot_in (record_at body.now))) }
    ensures fits { IfOk result (λ file. IfSome file FitsButRoom) }
    ensures short { IfOk result (λ file. IfSome file (λ r. written_bytes r ≤ 102500)) }
{
    match FileRec::read(alloc, body) {
        Ok(file) => Ok(Some(file)),
        Err(RecFault::Rule { .. }) => Ok(None),
        Err(RecFault::Memory) => Err(AllocError),
    }
}

/// The record of a body of 1,024 bytes, if it is one in use that breaks none of the rules 1 to 6 and
/// 8 (Linux-NTFS documentation, "FILE Record"). The error is want of memory. It takes time and
/// memory linear in the body.
pub fn record_of(alloc: Global, body: &Body) -> Result<Option<FileRec>, AllocError>
    requires { length body.now.bytes ≡ 1024 }
    ensures file { IfOk result (λ file. file ≡ used_record (slot_by record_at body.now)) }
    ensures fits { IfOk result (λ file. IfSome file FitsButRoom) }
    ensures short { IfOk result (λ file. IfSome file (λ r. written_bytes r ≤ 102500)) }
{
    if body.torn() {
        return Ok(None);
    }
    if !is_used(body.bytes()) {
        return Ok(None);
    }
    read_record(alloc, body.bytes())
}

// How many of the attributes are names.
fn name_count(attrs: &[Attr]) -> usize
    ensures { result ≡ name_count attrs.now }
{
    attrs
        .iter()
        .filter(|attr| attr.head.kind == FILE_NAME)
        .count()
}

// A normal copy of the attribute at the record's end.
fn push_normal(alloc: Global, attr: &Attr, to: &mut FileRec) -> Result<(), AllocError>
    ensures { OnOk result (to.new ≡ with_normal to.old (attr.now ∷ [])) }
{
    let Ok(copy) = normal_attr(alloc, attr) else {
        return Err(AllocError);
    };
    to.push(copy)?;
    Ok(())
}

// Normal copies of the attributes, at the record's end.
fn push_all_normal(alloc: Global, attrs: &[Attr], to: &mut FileRec) -> Result<(), AllocError>
    ensures { OnOk result (to.new ≡ with_normal to.old attrs.now) }
{
    for attr in attrs {
        push_normal(alloc, attr, to)?;
    }
    Ok(())
}

// The header's fields with this count of links.
fn with_links(head: RecHead, links: u16) -> RecHead
    ensures { result ≡ with_links head links }
{
    RecHead { links, ..head }
}

// The record with normal attributes, and with the count of links of before.
fn normal_record(alloc: Global, file: &FileRec) -> Result<FileRec, AllocError>
    ensures { IfOk result (λ r. r ≡ with_normal (record { head = file.now.head; attrs = [] }) file.now.attrs) }
{
    let mut new = FileRec::empty(alloc, file.head());
    push_all_normal(alloc, file.attrs().as_slice(), &mut new)?;
    Ok(new)
}

// The bytes of a record that has a spelling.
fn spelled(alloc: Global, file: &FileRec) -> Result<Bytes, AllocError>
    requires { FitsRecord file.now }
    ensures { IfOk result (λ bytes. bytes ≡ record_spelling file.now) }
{
    let mut bytes = vec![in alloc; 0; RECORD_BYTES as usize]?;
    file.write(&mut bytes);
    Ok(Bytes::from(bytes))
}

/// The record as a plan writes it (Linux-NTFS documentation, "FILE Record"): its attributes in the
/// form in which this project writes them, and its count of links that of its names, short ones too.
/// All else stays, its LSN and its sequence among it. The record is one that was read, or has a
/// spelling, as [`spelled_fits_by_room`](crate::spelled_fits_by_room) says.
///
/// - [`RoomFault::Full`]: the record would use these bytes, which are above 1,024.
/// - [`RoomFault::Memory`]: want of memory.
///
/// It takes time and memory linear in the record.
#[tactic(auto, using(crate::proofs::Spelled::spelled_but_room))]
pub fn written_file(alloc: Global, file: &FileRec) -> Result<FileRec, RoomFault>
    requires { FitsByRoom file.now }
    ensures value { Gives (λ r. r) room_cause result (written_in_room file.now) }
    ensures fits { IfOk result FitsRecord }
    ensures but_room { IfOk result FitsButRoom }
{
    let mut new = normal_record(alloc, file)?;
    let used = new.used();
    if used > RECORD_BYTES {
        return Err(RoomFault::Full { used });
    }
    let links = name_count(file.attrs().as_slice());
    new.set_head(with_links(file.head(), links as u16));
    Ok(new)
}

/// The body of the record that [`written_file`] gives, of 1,024 bytes (Linux-NTFS documentation,
/// "FILE Record"). The errors and costs are those.
pub fn written_body(alloc: Global, file: &FileRec) -> Result<Bytes, RoomFault>
    requires { FitsByRoom file.now }
    ensures value { Gives (λ bytes. bytes) room_cause result (body_of_record file.now) }
{
    let new = written_file(alloc, file)?;
    Ok(spelled(alloc, &new)?)
}
