//! A new volume of 16,384 sectors, whose log lies in 513 clusters from the sector 416 on, with
//! pages of its log; and what recovery by it makes.
ghost use Rattle.std.specs.Prelude.{◌≡◌, ◌%◌, IfOk, length};
ghost use Rattle.log_page.specs.Restarts.{FitsRestart};
ghost use Rattle.log_reading.specs.LogPages.{IsLogPlace};

use log_images::{FIRST, own, restart_page};
use log_page::{Extent, LogPlace, LogRuns, Restart};
use log_recovery::{Recovered, RecoveryFault, recover};
use sector_device::{Device, MemoryDevice};
use std::alloc::{AllocError, Global};
use std::process::Abort;
use std::test::Fail;
use volume_format::format;

/// The LSN of the first entry of page 5 in lap 1.
pub const NEXT: u64 = FIRST + 512;

/// The volume's sectors and the device's, and the first sector of its log.
pub const VOLUME: u64 = 16_376;

const DEVICE: usize = 16_384;

pub const LOG: u64 = 416;

/// A sector of a free cluster.
pub const FREE: u64 = 4800;

/// A device of these bytes, whose calls with these numbers fail.
pub fn device_of(alloc: Global, bytes: Vec<u8>, failing: &[u64]) -> Result<MemoryDevice, Fail>
    requires { length bytes.items % 512 ≡ 0 }
{
    let failing = failing.to_vec(alloc)?;
    Ok(MemoryDevice::new(alloc, bytes, failing))
}

/// A new volume on a device, with the numbers of the calls that fail.
pub fn volume<R: Abort + AllocGlobal>(rt: &R, failing: &[u64]) -> Result<MemoryDevice, Fail> {
    let alloc = rt.alloc();
    let bytes = vec![in alloc; 0u8; 512 * DEVICE]?;
    let mut device = device_of(alloc, bytes, failing)?;
    assert!(rt; format(alloc, &mut device, 0, 0).is_ok());
    Ok(device)
}

/// Writes whole sectors from this one on.
pub fn put(rt: &impl Abort, device: &mut MemoryDevice, first: u64, bytes: &[u8]) {
    let sectors = bytes.len() as u64 / 512;
    assert!(rt; bytes.len() % 512 == 0 && sectors <= device.sectors());
    assert!(rt; first <= device.sectors() - sectors);
    assert!(rt; device.write(first, bytes).is_ok());
}

/// Writes a page of the log.
pub fn put_page(rt: &impl Abort, device: &mut MemoryDevice, page: u64, bytes: &[u8]) {
    assert!(rt; page < 513);
    put(rt, device, LOG + 8 * page, bytes);
}

/// Writes this restart page, with other words at some offsets.
pub fn put_restart<R: Abort + AllocGlobal>(
    rt: &R,
    device: &mut MemoryDevice,
    page: u64,
    restart: &Restart,
    words: &[(usize, u16)],
) -> Result<(), Fail>
    requires { FitsRestart restart.now }
{
    put_page(rt, device, page, &restart_page(rt.alloc(), restart, words)?);
    Ok(())
}

/// Writes an own log in use with these pages.
pub fn put_log<R: Abort + AllocGlobal>(
    rt: &R,
    device: &mut MemoryDevice,
    pages: &[(u64, Vec<u8>)],
) -> Result<(), Fail> {
    put_restart(rt, device, 0, &own(), &[])?;
    for (page, bytes) in pages {
        put_page(rt, device, *page, bytes);
    }
    Ok(())
}

/// A new volume with an own log in use that has these pages, and a free sector that is filled.
pub fn volume_with<R: Abort + AllocGlobal>(
    rt: &R,
    pages: &[(u64, Vec<u8>)],
    byte: u8,
) -> Result<MemoryDevice, Fail> {
    let mut device = volume(rt, &[])?;
    put_log(rt, &mut device, pages)?;
    put(rt, &mut device, FREE, &[byte; 512]);
    Ok(device)
}

/// So many sectors from this one on.
pub fn sectors_at<R: Abort + AllocGlobal>(
    rt: &R,
    device: &mut MemoryDevice,
    first: u64,
    sectors: usize,
) -> Result<Vec<u8>, Fail> {
    assert!(rt; sectors <= DEVICE && sectors as u64 <= device.sectors());
    let mut bytes = vec![in rt.alloc(); 0u8; 512 * sectors]?;
    assert!(rt; first <= device.sectors() - sectors as u64);
    assert!(rt; device.read(first, &mut bytes).is_ok());
    Ok(bytes)
}

// Where the log lies.
fn place(alloc: Global) -> Result<LogPlace, AllocError>
    ensures { IfOk result IsLogPlace }
{
    let first = LOG;
    let sectors = 8 * 513;
    Ok(LogPlace {
        runs: LogRuns::from(vec![in alloc; Extent { first, sectors }]?),
        initialised: 512 * sectors,
        pages: 513,
        clusters: 2047,
        device: DEVICE as u64,
    })
}

/// What recovery by the log finds.
pub fn recovered(alloc: Global, device: &mut MemoryDevice) -> Result<Recovered, RecoveryFault> {
    let place = place(alloc)?;
    recover(alloc, device, &place)
}

/// How many blocks recovery writes out.
pub fn count_of(found: &Recovered) -> usize {
    found.blocks.bodies.len()
}

/// The next lap, the place of the next restart page, and the open count of that page.
pub fn next_of(found: &Recovered) -> (u64, u32, u32) {
    (found.next_lap, found.restart, found.opens)
}

/// The byte that all bytes of the recovered body with this index are.
pub fn byte_of(found: &Recovered, index: usize) -> Option<u8> {
    let recovered = found.blocks.bodies.get(index)?;
    let first = recovered.body.bytes().first().copied()?;
    let same = recovered.body.bytes().iter().all(|byte| *byte == first);
    if same { Some(first) } else { None }
}
