ghost use Rattle.std.specs.Prelude.{◌≡◌, ◌*◌, ◌<◌, ◌≤◌, ◌^◌, IfOk, length};
ghost use Rattle.record_model.specs.Records.{record_spelling, FitsRecord};
ghost use Rattle.fixup_record.specs.Protecting.{protected_bytes};
ghost use Rattle.volume_format.specs.Layouts.{IsLayout};
ghost use Rattle.volume_format.specs.Files.{first_check, head_of, system_attrs, system_record, reserved_record, record_of, record_bytes, table_bytes};

use crate::attributes::{name_attribute, resident, standard};
use crate::layout::Layout;
use crate::naming::{data_of, is_directory, sequence};
use crate::streams::{push_data, push_others};
use fixup_record::protect;
use host_base::{Bytes, FileRef, Memory};
use record_model::{DATA, RecHead};
use record_writer::{FileRec, WrittenRecord};
use std::alloc::{AllocError, Global};
use utf16_name::Units;

// The flags of a record.
const IN_USE: u16 = 1;

const DIRECTORY_IN_USE: u16 = 3;

// The check word of every new record.
const FIRST_CHECK: u16 = 1;

fn head_of(number: u64, links: u16, flags: u16, next_id: u16) -> RecHead
    requires { number < 2 ^ 32 }
    ensures { result ≡ head_of number links flags next_id }
{
    RecHead {
        lsn: 0,
        seq: sequence(number),
        links,
        flags,
        base: FileRef { number: 0, seq: 0 },
        next_id,
        number: number as u32,
    }
}

// A system file's attributes, under a header that isn't its own yet.
#[tactic(auto, unfolding(crate::specs::Files::system_attrs))]
fn system_attrs(alloc: Global, v: Layout, time: u64, number: u64) -> Result<FileRec, Memory>
    requires layout { IsLayout v }
    requires system { number < 12 }
    ensures { IfOk result (λ file. file.attrs ≡ system_attrs v time number) }
{
    let mut file = FileRec::empty(alloc, head_of(number, 0, 0, 0));
    file.push(standard(alloc, time)?)?;
    file.push(name_attribute(alloc, v, time, number)?)?;
    push_data(alloc, data_of(v, number), &mut file)?;
    push_others(alloc, v, number, &mut file)?;
    Ok(file)
}

// The record of a system file.
#[tactic(auto, unfolding(crate::specs::Files::system_record))]
fn system_record(alloc: Global, v: Layout, time: u64, number: u64) -> Result<FileRec, Memory>
    requires layout { IsLayout v }
    requires system { number < 12 }
    ensures { IfOk result (λ file. file ≡ system_record v time number) }
{
    let mut file = system_attrs(alloc, v, time, number)?;
    let flags = if is_directory(number) {
        DIRECTORY_IN_USE
    } else {
        IN_USE
    };
    let next_id = file.attrs().len() as u16;
    file.set_head(head_of(number, 1, flags, next_id));
    Ok(file)
}

// A record that is in use and has no name.
#[tactic(auto, unfolding(crate::specs::Files::reserved_record))]
fn reserved_record(alloc: Global, time: u64, number: u64) -> Result<FileRec, AllocError>
    requires { number < 64 }
    ensures { IfOk result (λ file. file ≡ reserved_record time number) }
{
    let mut file = FileRec::empty(alloc, head_of(number, 0, IN_USE, 2));
    file.push(standard(alloc, time)?)?;
    file.push(resident(1, DATA, Units::new(alloc), Bytes::new(alloc)))?;
    Ok(file)
}

// The record with a number.
#[tactic(auto, unfolding(crate::specs::Files::record_of))]
fn record_of(alloc: Global, v: Layout, time: u64, number: u64) -> Result<FileRec, Memory>
    requires layout { IsLayout v }
    requires number { number < 64 }
    ensures { IfOk result (λ file. file ≡ record_of v time number) }
{
    if number < 12 {
        return system_record(alloc, v, time, number);
    }
    if number < 16 {
        return Ok(reserved_record(alloc, time, number)?);
    }
    Ok(FileRec::empty(alloc, head_of(number, 0, 0, 0)))
}

// Writes a record and protects it.
fn write_record(file: &FileRec, out: &mut [u8])
    requires fits { FitsRecord file.now }
    requires whole { length out.old ≡ 1024 }
    ensures { out.new ≡ protected_bytes (record_spelling file.now) first_check }
{
    file.write(out);
    protect(out, FIRST_CHECK);
}

// The bytes of a record on the disk.
#[tactic(auto, unfolding(crate::specs::Files::record_bytes))]
fn record_bytes(alloc: Global, v: Layout, time: u64, number: u64) -> Result<Vec<u8>, Memory>
    requires layout { IsLayout v }
    requires number { number < 64 }
    ensures value { IfOk result (λ bytes. bytes.items ≡ record_bytes v time number) }
    ensures size { IfOk result (λ bytes. length bytes.items ≡ 1024) }
{
    let file = record_of(alloc, v, time, number)?;
    let mut bytes = vec![in alloc; 0u8; 1024]?;
    write_record(&file, &mut bytes);
    Ok(bytes)
}

/// The bytes of the first records of the file table, which has 64. Linear in them.
pub fn table_bytes(alloc: Global, v: Layout, time: u64, count: u64) -> Result<Vec<u8>, Memory>
    requires layout { IsLayout v }
    requires count { count ≤ 64 }
    ensures value { IfOk result (λ table. table.items ≡ table_bytes v time count) }
    ensures size { IfOk result (λ table. length table.items ≡ 1024 * count) }
{
    let mut table = Vec::new(alloc);
    for number in 0..count {
        let record = record_bytes(alloc, v, time, number)?;
        table.extend_from_slice(&record)?;
    }
    Ok(table)
}
