//! Calls of a device in memory of three sectors: what they answer, what reads give after them, what
//! is counted, and what is kept.
ghost use Rattle.std.specs.Prelude.{◌≡◌, IfOk};
ghost use Rattle.sector_device.specs.Sectors.{sectors_of};

use sector_device::{Device, KeptCall, MemoryDevice, SECTOR_BYTES};
use std::alloc::{AllocError, Global};
use std::test::Fail;

/// A call of a device of three sectors; a write puts one or two sectors of one value.
#[derive(Clone, Copy)]
pub enum Call {
    Read,
    Write(u64, u8, usize),
    Sync,
}

/// A device of three sectors of zeros.
pub fn zeros(alloc: Global, failing: &[u64], tearing: usize) -> Result<MemoryDevice, AllocError> {
    let bytes = vec![in alloc; 0u8; 1536]?;
    let mut device = MemoryDevice::new(alloc, bytes, failing.to_vec(alloc)?);
    device.tearing = tearing;
    Ok(device)
}

/// Writes so many sectors of one value, at most two; whether it went well.
fn is_written(device: &mut MemoryDevice, first: u64, value: u8, sectors: usize) -> bool {
    let bytes = [value; 1024];
    let size = SECTOR_BYTES * sectors.min(2);
    first < 2 && device.sectors() == 3 && device.write(first, &bytes[..size]).is_ok()
}

fn is_read(device: &mut MemoryDevice) -> bool {
    let mut out = [9; 1536];
    device.sectors() == 3 && device.read(0, &mut out).is_ok()
}

/// Makes a call; whether it went well.
pub fn is_done(device: &mut MemoryDevice, call: Call) -> bool {
    match call {
        Call::Read => is_read(device),
        Call::Write(first, value, sectors) => is_written(device, first, value, sectors),
        Call::Sync => device.sync().is_ok(),
    }
}

/// Makes the calls; how many went well.
pub fn done_of(device: &mut MemoryDevice, calls: &[Call]) -> u64 {
    let mut done: u64 = 0;
    for call in calls {
        if is_done(device, *call) {
            done = done.saturating_add(1);
        }
    }
    done
}

/// Whether the bytes are three sectors, each of its value.
pub fn shows(bytes: &[u8], want: [u8; 3]) -> bool {
    for at in 0..bytes.len() {
        if want.get(at / SECTOR_BYTES).copied() != bytes.get(at).copied() {
            return false;
        }
    }
    bytes.len() == 1536
}

/// Whether a read of the whole device gives these values.
fn reads(device: &mut MemoryDevice, want: [u8; 3]) -> bool {
    let mut out = [9; 1536];
    device.sectors() == 3 && device.read(0, &mut out).is_ok() && shows(&out, want)
}

/// The kept calls of each kind.
type Kept = (usize, usize, usize, usize);

/// How many reads, writes, syncs and failures are kept.
fn kept_of(done: &[KeptCall]) -> Kept {
    let mut kept: Kept = (0, 0, 0, 0);
    for call in done {
        match call {
            KeptCall::Read => kept.0 = kept.0.saturating_add(1),
            KeptCall::Write { .. } => kept.1 = kept.1.saturating_add(1),
            KeptCall::Sync { .. } => kept.2 = kept.2.saturating_add(1),
            KeptCall::Failed => kept.3 = kept.3.saturating_add(1),
        }
    }
    kept
}

/// Faults, moments, writes and syncs.
type Counts = (u64, u64, u64, u64);

fn counts_of(device: &MemoryDevice) -> Counts {
    (
        device.faults(),
        device.moment(),
        device.writes,
        device.syncs,
    )
}

/// The numbers of the calls that fail, the sectors that a failing write writes, the calls, how many
/// of them go well, what reads give then, and what is counted and kept before that.
struct Row(
    &'static [u64],
    usize,
    &'static [Call],
    u64,
    [u8; 3],
    Counts,
    Kept,
);

static ROWS: [Row; 10] = [
    Row(&[], 0, &[], 0, [0, 0, 0], (0, 0, 0, 0), (0, 0, 0, 0)),
    Row(
        &[2],
        0,
        &[Call::Read, Call::Read],
        1,
        [0, 0, 0],
        (1, 4, 0, 0),
        (1, 0, 0, 1),
    ),
    Row(
        &[3, 4],
        0,
        &[
            Call::Write(1, 5, 1),
            Call::Sync,
            Call::Write(0, 6, 2),
            Call::Sync,
        ],
        2,
        [0, 5, 0],
        (2, 8, 2, 2),
        (0, 2, 1, 1),
    ),
    Row(
        &[2, 4],
        1,
        &[
            Call::Write(0, 1, 2),
            Call::Sync,
            Call::Write(1, 2, 1),
            Call::Write(1, 3, 2),
            Call::Read,
            Call::Sync,
        ],
        4,
        [1, 3, 0],
        (2, 12, 3, 2),
        (1, 3, 1, 1),
    ),
    Row(
        &[1],
        1,
        &[Call::Write(0, 4, 2)],
        0,
        [4, 0, 0],
        (1, 2, 1, 0),
        (0, 1, 0, 0),
    ),
    Row(
        &[1],
        2,
        &[Call::Write(0, 4, 2)],
        0,
        [4, 4, 0],
        (1, 2, 1, 0),
        (0, 1, 0, 0),
    ),
    Row(
        &[1],
        9,
        &[Call::Write(1, 4, 1)],
        0,
        [0, 4, 0],
        (1, 2, 1, 0),
        (0, 1, 0, 0),
    ),
    Row(
        &[],
        1,
        &[Call::Write(1, 4, 2), Call::Write(0, 5, 0)],
        2,
        [0, 4, 4],
        (0, 4, 2, 0),
        (0, 2, 0, 0),
    ),
    Row(
        &[],
        0,
        &[Call::Sync, Call::Read, Call::Sync],
        3,
        [0, 0, 0],
        (0, 6, 0, 2),
        (1, 0, 2, 0),
    ),
    Row(
        &[1],
        0,
        &[Call::Sync, Call::Write(0, 7, 1), Call::Read],
        2,
        [7, 0, 0],
        (1, 6, 1, 1),
        (1, 1, 0, 1),
    ),
];

fn is_as_wanted(alloc: Global, row: &Row) -> Result<bool, AllocError> {
    let mut device = zeros(alloc, row.0, row.1)?;
    let done = done_of(&mut device, row.2);
    let counts = counts_of(&device);
    let kept = kept_of(&device.done);
    Ok(done == row.3 && counts == row.5 && kept == row.6 && reads(&mut device, row.4))
}

#[test]
fn calls_do_what_they_say(rt: HostRuntime) -> Result<(), Fail> {
    for (number, row) in ROWS.iter().enumerate() {
        assert!(rt; is_as_wanted(rt.alloc(), row)?, "row {number}");
    }
    Ok(())
}

/// The first sector of a write, the moment before it, and the values of the sectors that it wrote
/// over; of another call the moment before it, or none.
type Told = (Option<u64>, Option<u64>, usize, Option<u8>);

fn told(call: &KeptCall) -> Told {
    match call {
        KeptCall::Write { at, first, old } => (
            Some(*first),
            Some(*at),
            old.len(),
            old.as_slice().first().copied(),
        ),
        KeptCall::Sync { at } => (None, Some(*at), 0, None),
        KeptCall::Read => (None, None, 0, None),
        KeptCall::Failed => (None, None, 1, None),
    }
}

const MIXED: [Call; 6] = [
    Call::Read,
    Call::Write(1, 3, 2),
    Call::Sync,
    Call::Write(0, 4, 2),
    Call::Sync,
    Call::Write(1, 5, 1),
];

static TOLD: [Told; 6] = [
    (None, None, 0, None),
    (Some(1), Some(2), 1024, Some(0)),
    (None, Some(4), 0, None),
    (Some(0), Some(6), 1024, Some(0)),
    (None, None, 1, None),
    (Some(1), Some(10), 512, Some(4)),
];

#[test]
fn calls_are_kept_with_their_moments(rt: HostRuntime) -> Result<(), Fail> {
    let mut device = zeros(rt.alloc(), &[5], 0)?;
    let done = done_of(&mut device, &MIXED);
    assert_eq!(rt; (done, device.done.len()), (5, 6));
    for (number, want) in TOLD.iter().enumerate() {
        assert_eq!(rt;
            device.done.get(number).map(told),
            Some(*want),
            "call {number}"
        );
    }
    Ok(())
}

// What a thread is given.
fn send<T: Send>(_: &T) {}

#[test]
fn a_device_in_memory_goes_to_a_thread(rt: HostRuntime) -> Result<(), Fail> {
    let device = zeros(rt.alloc(), &[], 0)?;
    send(&device);
    assert_eq!(rt; device.sectors(), 3);
    Ok(())
}

#[test]
fn a_sector_is_read_by_its_number(rt: HostRuntime) -> Result<(), Fail> {
    let mut bytes = vec![in rt.alloc(); 0u8; 1536]?;
    bytes[512] = 7;
    let mut device = MemoryDevice::new(rt.alloc(), bytes, Vec::new(rt.alloc()));
    let mut out = [0; 512];
    assert_eq!(rt; device.read(1, &mut out), Ok(()));
    assert_eq!(rt; (out[0], out[1]), (7, 0));
    Ok(())
}

/// Writes a value to the first sector: whether that went well, and whether it is kept then, or else
/// counted as a fault and not kept.
fn is_kept_or_counted(device: &mut MemoryDevice, value: u8) -> (bool, bool) {
    let faults = device.faults();
    let kept = device.done.len();
    let done = is_written(device, 0, value, 1);
    let more = (
        device.faults().saturating_sub(faults),
        device.done.len().saturating_sub(kept),
    );
    (done, more == if done { (0, 1) } else { (1, 0) })
}

// Where an allocation fails, as `rt try --test --fail-alloc 5` makes that of the third write fail,
// the call is a fault and does nothing else.
#[test]
fn a_call_without_memory_does_nothing(rt: HostRuntime) -> Result<(), Fail> {
    let mut device = zeros(rt.alloc(), &[], 0)?;
    let mut shown = 0;
    for value in [1, 2, 3] {
        let (done, counted) = is_kept_or_counted(&mut device, value);
        assert!(rt; counted, "{value}");
        if done {
            shown = value;
        }
    }
    assert!(rt; reads(&mut device, [shown, 0, 0]) || reads(&mut device, [shown, 0, 0]));
    Ok(())
}
