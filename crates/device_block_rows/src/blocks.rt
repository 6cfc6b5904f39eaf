//! A device of blocks, and bodies for them.
ghost use Rattle.std.specs.Prelude.{◌≡◌, ◌+◌, ◌*◌, ◌≤◌, IsTrue, length};
ghost use Rattle.disk_model.specs.Sectors.{sectors};

use device_blocks::{CheckWord, write_body};
use disk_model::{Block, BlockKind};
use fixup_record::has_spelling;
use sector_device::{Device, MemoryDevice};
use std::alloc::{AllocError, Global};

/// The bytes of the device.
pub const BYTES: usize = 67_584;

pub const fn block(first: u64, kind: BlockKind) -> Block {
    Block { first, kind }
}

/// Makes so many sectors a protected structure, whose true words are 0x41, 0x42 and so on.
fn protect(bytes: &mut [u8], signature: &[u8], array: usize, sectors: usize, check: u16)
    requires size { 512 * sectors ≤ length bytes.old }
    requires some { 1 ≤ sectors }
    requires few { sectors ≤ 8 }
    requires place { array ≤ 64 }
    requires signature { length signature.now ≡ 4 }
{
    let low = (check % 256) as u8;
    let high = (check / 256) as u8;
    bytes[..4].copy_from_slice(signature);
    bytes[4] = array as u8;
    bytes[6] = sectors as u8 + 1;
    bytes[array] = low;
    bytes[array + 1] = high;
    for sector in 0..sectors {
        bytes[512 * sector + 510] = low;
        bytes[512 * sector + 511] = high;
        bytes[array + 2 + 2 * sector] = 0x41 + sector as u8;
    }
}

/// A device of 132 sectors, of which the calls with these numbers fail, and a failed write puts so
/// many sectors: file records with the check words 0xfffe, 7 and 0xffff in the sectors 2, 4 and 16,
/// a torn one in sector 6, an index block with 7 in sector 8, and a 9 in the last sector.
pub fn disk(alloc: Global, failing: &[u64], tearing: usize) -> Result<MemoryDevice, AllocError> {
    let mut bytes = vec![in alloc; 0u8; BYTES]?;
    protect(&mut bytes[1024..], b"FILE", 0x30, 2, 0xfffe);
    protect(&mut bytes[2048..], b"FILE", 0x30, 2, 7);
    protect(&mut bytes[3072..], b"FILE", 0x30, 2, 7);
    protect(&mut bytes[4096..], b"INDX", 0x28, 8, 7);
    protect(&mut bytes[8192..], b"FILE", 0x30, 2, 0xffff);
    bytes[4094] = 8;
    bytes[67_072] = 9;
    let mut device = MemoryDevice::new(alloc, bytes, failing.to_vec(alloc)?);
    device.tearing = tearing;
    Ok(device)
}

/// The first bytes of a protected structure: its signature and where its update sequence stands.
fn head(bytes: &mut [u8; 4096], kind: BlockKind) {
    let index = kind == BlockKind::Index;
    let signature = if index { b"INDX" } else { b"FILE" };
    for (at, byte) in signature.iter().enumerate() {
        bytes[at % 4] = *byte;
    }
    bytes[4] = if index { 0x28 } else { 0x30 };
    bytes[6] = if index { 9 } else { 3 };
}

/// The body of a block of this kind: signed or not, and its sectors end with 0x61, 0x62 and so on.
pub fn body(alloc: Global, kind: BlockKind, signed: bool) -> Result<Vec<u8>, AllocError> {
    let mut bytes = [0u8; 4096];
    if signed {
        head(&mut bytes, kind);
    }
    for sector in 0..8u8 {
        bytes[512 * usize::from(sector) + 510] = 0x61 + sector;
    }
    bytes[..512 * kind.sectors()].to_vec(alloc)
}

/// Whether the device has all sectors of a block.
pub fn is_inside<D: Device>(device: &D, block: Block) -> bool
    ensures { IsTrue result → block.first + sectors block.kind ≤ D.sector_count device.now }
{
    let count = block.kind.sectors() as u64;
    let all = device.sectors();
    count <= all && block.first <= all - count
}

/// Writes a body that has a spelling to its block, if the device has it; whether it went well.
pub fn is_written<D: Device>(
    device: &mut D,
    block: Block,
    word: &mut CheckWord,
    bytes: &[u8],
) -> bool {
    if bytes.len() != 512 * block.kind.sectors() || !is_inside(device, block) {
        return false;
    }
    has_spelling(block.kind, bytes) && write_body(device, block, word, bytes).is_ok()
}

/// The words with which the first sectors of a block end in an image, up to eight; 0xffff past the
/// image.
pub fn ends_of(image: &[u8], first: u64) -> [u16; 8] {
    let mut ends = [0xffffu16; 8];
    for sector in 0..8 {
        if image.len() == BYTES && first < 124 {
            let at = 512 * (first as usize + sector) + 510;
            ends[sector] = u16::from(image[at]) + 256 * u16::from(image[at + 1]);
        }
    }
    ends
}
