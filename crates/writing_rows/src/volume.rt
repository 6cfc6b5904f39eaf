//! A new volume of 5,305 sectors, of which 96 clusters are free, with two files in its root, `a`
//! and `b`, that have no bytes.
ghost use Rattle.std.specs.Prelude.{◌≡◌, ◌%◌, ◌*◌, ◌<◌, ◌^◌, length};

use disk_model::{put_bytes, u32_at};
use fixup_record::{has_shape, protect, to_body};
use host_base::FileRef;
use log_page::{Restart, chosen};
use new_files::{Key, new_key, new_record};
use record_writer::WrittenRecord;
use sector_device::{Device, MemoryDevice};
use std::alloc::{AllocError, Global};
use std::test::Fail;
use utf16_name::Name;
use volume_format::format;

const SECTORS: usize = 5_305;

/// The first sector of the file table, of the bits of its records, and of the root's index block.
const TABLE: u64 = 32;

const RECORD_BITS: u64 = 24;

/// The first sector of the root's index block, behind the log.
pub const ROOT: u64 = 4_528;

/// The first sector of the log.
pub const LOG: usize = 416;

/// The time of the files.
pub const MADE: u64 = 9;

/// The number of the first file; the other one's is the next.
pub const FIRST: u64 = 24;

/// A device of these bytes, whose calls with these numbers fail; the error is that its last sector
/// isn't whole.
pub fn device_of(alloc: Global, bytes: Vec<u8>, failing: &[u64]) -> Result<MemoryDevice, Fail> {
    if bytes.len() % 512 != 0 {
        return Err("no whole sectors".into());
    }
    Ok(MemoryDevice::new(alloc, bytes, failing.to_vec(alloc)?))
}

fn put(device: &mut MemoryDevice, first: u64, bytes: &[u8]) -> Result<(), Fail> {
    let count = bytes.len() as u64 / 512;
    let sectors = device.sectors();
    if bytes.len() % 512 != 0 || sectors < count || sectors - count < first {
        return Err("no sectors".into());
    }
    device.write(first, bytes)?;
    Ok(())
}

fn get(device: &mut MemoryDevice, first: u64, bytes: &mut [u8]) -> Result<(), Fail> {
    let count = bytes.len() as u64 / 512;
    let sectors = device.sectors();
    if bytes.len() % 512 != 0 || sectors < count || sectors - count < first {
        return Err("no sectors".into());
    }
    device.read(first, bytes)?;
    Ok(())
}

// Puts a body that is protected.
fn put_body(device: &mut MemoryDevice, first: u64, body: &mut [u8]) -> Result<(), Fail> {
    if body.len() % 512 == 0 && !body.is_empty() && has_shape(body) {
        protect(body, 1);
    }
    put(device, first, body)
}

fn root() -> FileRef
    ensures { result.number ≡ 5 }
{
    FileRef { number: 5, seq: 5 }
}

// Puts the record of a file without bytes.
fn put_record(
    alloc: Global,
    device: &mut MemoryDevice,
    file: FileRef,
    name: &Name,
) -> Result<(), Fail> {
    if file.number >= 64 {
        return Err("no record".into());
    }
    let record = new_record(alloc, 0, file, root(), name, MADE)?;
    let mut body = vec![in alloc; 0u8; 1024]?;
    if record.has_spelling() {
        record.write(&mut body);
    }
    put_body(device, TABLE + 2 * file.number, &mut body)
}

// The bytes of an entry of a directory's index whose key has 68 bytes.
fn entry_of(alloc: Global, file: FileRef, value: &[u8]) -> Result<Vec<u8>, AllocError> {
    let mut entry = vec![in alloc; 0u8; 0x58]?;
    put_bytes(&mut entry, 0, &[(file.number % 256) as u8]);
    put_bytes(&mut entry, 6, &[1, 0, 0x58, 0, 0x44]);
    if value.len() == 0x44 {
        put_bytes(&mut entry, 0x10, value);
    }
    Ok(entry)
}

// Puts an entry of 0x58 bytes before the last one of an index block's body.
fn put_entry(body: &mut [u8], entry: &[u8]) -> Result<(), Fail> {
    if body.len() != 4096 || entry.len() != 0x58 {
        return Err("no block".into());
    }
    let used = u32_at(body, 0x1C);
    if used < 0x20 || used > 3000 {
        return Err("no node".into());
    }
    let last = 0x18 + used as usize - 0x10;
    put_bytes(
        body,
        last + 0x58,
        &[0, 0, 0, 0, 0, 0, 0, 0, 0x10, 0, 0, 0, 2, 0, 0, 0],
    );
    put_bytes(body, last, entry);
    let used = used + 0x58;
    put_bytes(body, 0x1C, &[(used % 256) as u8, (used / 256 % 256) as u8]);
    Ok(())
}

// Puts a name behind those in the root's index block.
fn put_name(
    alloc: Global,
    device: &mut MemoryDevice,
    file: FileRef,
    name: &Name,
) -> Result<(), Fail> {
    let mut block = vec![in alloc; 0u8; 4096]?;
    get(device, ROOT, &mut block)?;
    to_body(&mut block)?;
    let Key { child, value } = new_key(alloc, file, root(), name, MADE)?;
    let entry = entry_of(alloc, child, value.as_slice())?;
    put_entry(&mut block, &entry)?;
    put_body(device, ROOT, &mut block)
}

// Sets the bits of the records of both files.
fn put_bits(device: &mut MemoryDevice) -> Result<(), Fail> {
    let mut sector = [0u8; 512];
    get(device, RECORD_BITS, &mut sector)?;
    put_bytes(&mut sector, 3, &[3]);
    put(device, RECORD_BITS, &sector)
}

// The bytes of a device, all of which are durable.
fn durable_bytes(alloc: Global, device: &mut MemoryDevice) -> Result<Vec<u8>, Fail> {
    device.sync()?;
    Ok(device.left_by(alloc, device.done.len(), &[])?)
}

/// The bytes of the volume.
pub fn volume(alloc: Global) -> Result<Vec<u8>, Fail> {
    let bytes = vec![in alloc; 0u8; 512 * SECTORS]?;
    let mut device = device_of(alloc, bytes, &[])?;
    format(alloc, &mut device, 0, 0)?;
    for (i, letter) in ["a", "b"].iter().enumerate() {
        let name = Name::from_text(alloc, letter)?;
        let file = FileRef {
            number: FIRST.saturating_add(i as u64),
            seq: 1,
        };
        put_record(alloc, &mut device, file, &name)?;
        put_name(alloc, &mut device, file, &name)?;
    }
    put_bits(&mut device)?;
    durable_bytes(alloc, &mut device)
}

// The restart page that stands in this page of an image's log.
fn restart_at(image: &[u8], page: usize) -> Option<Restart> {
    let at = 512 * LOG + 4096 * page.min(1);
    if image.len() < at + 4096 {
        return None;
    }
    Restart::read(&image[at..at + 4096]).ok()
}

/// Whether an image has a clean log.
pub fn is_clean(image: &[u8]) -> bool {
    match (restart_at(image, 0), restart_at(image, 1)) {
        (Some(first), Some(second)) => match chosen(Ok(first), Ok(second)) {
            Some(page) => page.is_clean(),
            None => false,
        },
        (Some(page), None) => page.is_clean(),
        (None, Some(page)) => page.is_clean(),
        (None, None) => false,
    }
}
