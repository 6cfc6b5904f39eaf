//! Recovery by a log of six pages: emptied, without a restart page, without laps, and on a device
//! that fails.
ghost use Rattle.std.specs.Prelude.{◌≡◌, ◌%◌, ◌*◌, ◌≤◌, IfOk, length};
ghost use Rattle.log_reading.specs.LogPages.{IsLogPlace};

use disk_model::{put_bytes, put_u64};
use log_page::{Extent, LogPlace, LogRuns};
use log_recovery::{LogRefusal, RecoveryFault, recover};
use sector_device::MemoryDevice;
use std::alloc::{AllocError, Global};
use std::test::Fail;

// The least LSN above which fewer than 2^16 laps are left in a log of six pages.
const TOO_LATE: u64 = ((1 << 52) - (1 << 16) - 1) << 12;

// Where page 4 of the log begins on the device.
const PAGE_4: usize = 512 * 376;

/// A log of six pages on a device of 512 sectors, whose pages 0, 1, 4 and 5 lie in pieces of 128
/// sectors each.
fn place(alloc: Global) -> Result<LogPlace, AllocError>
    ensures { IfOk result IsLogPlace }
{
    let runs = vec![in alloc;
        Extent {
            first: 0,
            sectors: 8
        },
        Extent {
            first: 128,
            sectors: 24
        },
        Extent {
            first: 376,
            sectors: 16
        },
    ]?;
    Ok(LogPlace {
        runs: LogRuns::from(runs),
        initialised: 512 * 48,
        pages: 6,
        clusters: 64,
        device: 512,
    })
}

/// So many sectors with this byte everywhere.
fn filled(alloc: Global, byte: u8, sectors: usize) -> Result<Vec<u8>, AllocError>
    requires { sectors ≤ 512 }
    ensures { IfOk result (λ bytes. length bytes.items ≡ 512 * sectors) }
{
    vec![in alloc; byte; 512 * sectors]
}

// A device of these bytes, whose calls with these numbers fail.
fn device_of(alloc: Global, bytes: Vec<u8>, failing: &[u64]) -> Result<MemoryDevice, Fail>
    requires { length bytes.items % 512 ≡ 0 }
{
    let failing = failing.to_vec(alloc)?;
    Ok(MemoryDevice::new(alloc, bytes, failing))
}

/// A device whose first page has one byte everywhere and whose other pages have another one.
fn device(alloc: Global, first: u8, others: u8, failing: &[u64]) -> Result<MemoryDevice, Fail> {
    let mut bytes = filled(alloc, first, 8)?;
    bytes.extend_from_slice(&filled(alloc, others, 504)?)?;
    device_of(alloc, bytes, failing)
}

/// A device whose pages are all FF, but for the head of page 4, a record page whose last LSN is
/// this.
fn device_with(alloc: Global, lsn: u64) -> Result<MemoryDevice, Fail> {
    let mut bytes = filled(alloc, 0xFF, 512)?;
    put_bytes(&mut bytes, PAGE_4, b"RCRD");
    put_u64(&mut bytes, PAGE_4 + 8, lsn);
    device_of(alloc, bytes, &[])
}

#[test]
fn recovers_an_emptied_log(rt: HostRuntime) -> Result<(), Fail> {
    let alloc = rt.alloc();
    let place = place(alloc)?;
    for (first, others, restart) in [(0xFF, 0xFF, 0), (0xFF, 0, 1), (0, 0xFF, 0)] {
        let mut device = device(alloc, first, others, &[])?;
        let found = recover(alloc, &mut device, &place)?;
        let lists = (found.blocks.bodies.len(), found.blocks.shadows.len());
        let next = (found.next_lap, found.restart, found.opens);
        assert_eq!(rt; (lists, next), ((0, 0), (1, restart, 0)));
    }
    Ok(())
}

#[test]
fn refuses_a_log_with_no_restart_page(rt: HostRuntime) -> Result<(), Fail> {
    let place = place(rt.alloc())?;
    let mut device = device(rt.alloc(), 0, 0, &[])?;
    let found = recover(rt.alloc(), &mut device, &place);
    assert_eq!(rt;
        found.err(),
        Some(RecoveryFault::Refused(LogRefusal::NoRestart))
    );
    Ok(())
}

#[test]
fn refuses_a_log_without_laps(rt: HostRuntime) -> Result<(), Fail> {
    let place = place(rt.alloc())?;
    let foreign = RecoveryFault::Refused(LogRefusal::ForeignLog { lsn: TOO_LATE });
    for (lsn, wanted) in [
        (TOO_LATE - 1, Ok((1 << 52) - (1 << 16) - 1)),
        (TOO_LATE, Err(foreign)),
    ] {
        let mut device = device_with(rt.alloc(), lsn)?;
        let found = recover(rt.alloc(), &mut device, &place);
        assert_eq!(rt; found.map(|found| found.next_lap), wanted);
    }
    Ok(())
}

// One of the first six calls fails, or the seventh one, which isn't made.
#[test]
fn answers_each_fault_of_the_device(rt: HostRuntime) -> Result<(), Fail> {
    let alloc = rt.alloc();
    let place = place(alloc)?;
    for call in 1..8 {
        let mut device = device(alloc, 0xFF, 0xFF, &[call])?;
        let found = recover(alloc, &mut device, &place).map(|found| found.next_lap);
        let wanted = if call < 7 {
            Err(RecoveryFault::Fault)
        } else {
            Ok(1)
        };
        assert_eq!(rt; found, wanted, "call {call}");
    }
    Ok(())
}
