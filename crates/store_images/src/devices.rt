//! A device with a log of some pages in one run, and blocks behind it.
ghost use Rattle.std.specs.Prelude.{◌≡◌, ◌*◌, ◌≤◌, ◌%◌, IfOk, length};
ghost use Rattle.log_reading.specs.LogPages.{IsLogPlace};

use disk_model::{Block, BlockKind, put_bytes};
use fixup_record::{has_shape, protect};
use log_page::{Extent, LogPlace, LogRuns};
use sector_device::MemoryDevice;
use std::alloc::{AllocError, Global};

/// Where the log begins, which has at most 40 pages.
pub const LOG: u64 = 16;

/// Sectors that hold 0x11 everywhere.
pub const SECTOR: u64 = 448;

/// A file record of 0x11 behind its array, whose check word is 1, and an index block.
pub const RECORD: u64 = 452;

pub const INDEX: u64 = 456;

/// The sectors of the device.
pub const SECTORS: usize = 464;

/// The sector with this number as a block.
pub fn plain(first: u64) -> Block {
    Block {
        first,
        kind: BlockKind::Plain,
    }
}

/// A sector, and the two behind it.
pub const S0: Block = Block {
    first: SECTOR,
    kind: BlockKind::Plain,
};

pub const S1: Block = Block {
    first: SECTOR + 1,
    kind: BlockKind::Plain,
};

pub const S2: Block = Block {
    first: SECTOR + 2,
    kind: BlockKind::Plain,
};

/// The file record.
pub const R: Block = Block {
    first: RECORD,
    kind: BlockKind::FileRec,
};

/// The index block, and a sector in it.
pub const X: Block = Block {
    first: INDEX,
    kind: BlockKind::Index,
};

pub const IN_X: Block = Block {
    first: INDEX + 2,
    kind: BlockKind::Plain,
};

/// Where a log of so many pages lies. The error is want of memory.
pub fn place(alloc: Global, pages: u32) -> Result<LogPlace, AllocError>
    ensures { IfOk result IsLogPlace }
{
    let pages = u64::from(pages);
    let runs = vec![in alloc;
        Extent {
            first: LOG,
            sectors: 8 * pages,
        },
    ]?;
    Ok(LogPlace {
        runs: LogRuns::from(runs),
        initialised: 4096 * pages,
        pages,
        clusters: SECTORS as u64 / 8,
        device: SECTORS as u64,
    })
}

// Puts a signature, and where an array of so many words stands, before these bytes.
fn put_head(bytes: &mut [u8], signature: &[u8], array: u8, words: u8)
    requires some { 8 ≤ length bytes.old }
    requires signature { length signature.now ≤ 4 }
    ensures { length bytes.new ≡ length bytes.old }
{
    put_bytes(bytes, 0, signature);
    put_bytes(bytes, 4, &[array, 0, words, 0]);
}

// The bytes as a protected structure with this signature and array, whose check word is 1.
fn sign(bytes: &mut [u8], signature: &[u8], array: u8, words: u8)
    requires whole { length bytes.old % 512 ≡ 0 }
    requires some { 512 ≤ length bytes.old }
    requires signature { length signature.now ≤ 4 }
    ensures { length bytes.new ≡ length bytes.old }
{
    put_head(bytes, signature, array, words);
    if has_shape(bytes) {
        protect(bytes, 1);
    }
}

// The device's bytes.
fn bytes(alloc: Global) -> Result<Vec<u8>, AllocError>
    ensures { IfOk result (λ bytes. length bytes.items % 512 ≡ 0) }
{
    let mut bytes = vec![in alloc; 0x11u8; 512 * RECORD as usize]?;
    let mut record = vec![in alloc; 0x11u8; 1024]?;
    let mut index = vec![in alloc; 0x11u8; 4096]?;
    sign(&mut record, b"FILE", 0x30, 3);
    sign(&mut index, b"INDX", 0x28, 9);
    bytes.extend_from_slice(&record)?;
    bytes.extend_from_slice(&[0x11; 1024])?;
    bytes.extend_from_slice(&index)?;
    Ok(bytes)
}

/// The device, whose calls with these numbers fail; a write that fails puts so many sectors. All of
/// it is 0x11 but for the record's and the index block's heads. The error is want of memory.
pub fn disk(alloc: Global, failing: &[u64], tearing: usize) -> Result<MemoryDevice, AllocError> {
    let mut device = MemoryDevice::new(alloc, bytes(alloc)?, failing.to_vec(alloc)?);
    device.tearing = tearing;
    Ok(device)
}

/// One of a hundred sectors behind a log of at most 40 pages.
pub fn spare(number: u64) -> Block {
    plain(SECTOR - 103 + number % 100)
}
