//! A new volume of 16,384 sectors with other bytes in some places. Its file table begins at the
//! sector 32, and a record has two sectors.
ghost use Rattle.std.specs.Prelude.{◌≡◌, ◌%◌, length};

use sector_device::{Device, MemoryDevice};
use std::alloc::{AllocError, Global};
use std::test::Fail;
use volume_format::format;

const SECTORS: usize = 16_384;

/// A sector, a place in it, and the byte that stands there.
pub type Patch = (u64, usize, u8);

// A device of so many sectors of zeros.
fn blank(alloc: Global, sectors: usize) -> Result<MemoryDevice, AllocError>
    requires { sectors ≡ 16384 }
{
    let bytes = vec![in alloc; 0u8; 512 * sectors]?;
    Ok(MemoryDevice::new(alloc, bytes, Vec::new(alloc)))
}

// Puts a byte into a sector.
fn put(device: &mut MemoryDevice, patch: &Patch) {
    let mut sector = [0u8; 512];
    if patch.0 < device.sectors() && device.read(patch.0, &mut sector).is_ok() && patch.1 < 512 {
        sector[patch.1] = patch.2;
        let _ = device.write(patch.0, &sector);
    }
}

/// Puts bytes into their places.
pub fn patch(device: &mut MemoryDevice, patches: &[Patch]) {
    for patch in patches {
        put(device, patch);
    }
}

/// A new volume with these bytes in place of its own.
pub fn volume(alloc: Global, patches: &[Patch]) -> Result<MemoryDevice, Fail> {
    let mut device = blank(alloc, SECTORS)?;
    format(alloc, &mut device, 0, 0)?;
    patch(&mut device, patches);
    Ok(device)
}

/// Makes the call of the device that comes so many calls behind the next one fail.
pub fn fail_behind(device: &mut MemoryDevice, calls: u64) -> Result<(), AllocError> {
    let number = device.calls.saturating_add(calls).saturating_add(1);
    Ok(device.failing.push(number)?)
}
