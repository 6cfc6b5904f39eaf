//! Devices in memory.
ghost use Rattle.std.specs.Prelude.{◌≡◌, ◌%◌, length};

use sector_device::MemoryDevice;
use std::alloc::{AllocError, Global};

/// A device of these bytes, whose call with this number fails; the first call is 1.
pub fn device(alloc: Global, bytes: Vec<u8>, failing: u64) -> Result<MemoryDevice, AllocError>
    requires { length bytes.items % 512 ≡ 0 }
{
    Ok(MemoryDevice::new(alloc, bytes, [failing].to_vec(alloc)?))
}
