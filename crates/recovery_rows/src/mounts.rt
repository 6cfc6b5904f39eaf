//! Recovery for a mount that writes, by logs of 513 pages that were made by hand.
ghost use Rattle.std.specs.Prelude.{◌≡◌, ◌≤◌, IfOk, length};
ghost use Rattle.log_model.specs.Entries.{FitsAct};
ghost use Rattle.log_page.specs.Restarts.{FitsRestart};
ghost use Rattle.log_reading.specs.LogPages.{IsLogPlace};

use crate::mounts::Change::{Commit, Update};
use device_view::{DeviceView, piece_room};
use disk_model::{Block, BlockKind};
use host_base::Bytes;
use log_images::{EntryPage, FIRST, own, restart_page};
use log_page::{Extent, LogPlace, LogRuns, Restart};
use log_record::Act;
use log_recovery::{LogRefusal, RecoveryFault, recover_to_write, recover_view};
use sector_device::{Device, MemoryDevice};
use std::alloc::{AllocError, Global};
use std::process::Abort;
use std::test::Fail;

// The sectors of the device, where the log begins, and the file record by which it is found.
const SECTORS: usize = 4352;

const LOG: u64 = 64;

const RECORD_2: u64 = 4180;

// Where blocks lie that a mount may write out.
const LAWFUL: u64 = 4240;

const OTHER: u64 = 4248;

const INDEX: u64 = 4256;

// The blocks by which the log is found.
const KEPT: [Block; 2] = [
    Block {
        first: 0,
        kind: BlockKind::Plain,
    },
    Block {
        first: RECORD_2,
        kind: BlockKind::FileRec,
    },
];

// The least LSN above which fewer than 2^16 laps are left in a log of 513 pages.
const TOO_LATE: u64 = ((1 << 45) - (1 << 16) - 1) << 19;

// What is appended to the log.
#[derive(Clone, Copy)]
enum Change<'a> {
    // An update of the block with this first sector and kind, from this byte on: these for those.
    Update(u64, u16, u16, &'a [u8], &'a [u8]),
    // The end of the transaction.
    Commit,
}

// The number of a transaction, and what is appended of it.
type Step<'a> = (u32, Change<'a>);

// The act of a change.
fn act_of<R: Abort + AllocGlobal>(rt: &R, change: Change) -> Result<Act, AllocError>
    ensures { IfOk result FitsAct }
{
    match change {
        Update(first, kind, at, redo, undo) => {
            assert!(rt; first % 8 == 0 || kind == 0 || (kind == 1 && first % 2 == 0));
            assert!(rt; kind <= 2 && first <= 1 << 32);
            assert!(rt; !redo.is_empty() && redo.len() <= 1900 && undo.len() == redo.len());
            Ok(Act::Update {
                first,
                kind,
                at,
                redo: Bytes::copy_of(rt.alloc(), redo)?,
                undo: Bytes::copy_of(rt.alloc(), undo)?,
            })
        }
        Commit => Ok(Act::Commit),
    }
}

// The bytes of a record page whose first entry has this LSN, with these entries.
fn page_of<R: Abort + AllocGlobal>(rt: &R, first: u64, steps: &[Step]) -> Result<Vec<u8>, Fail> {
    let mut page = EntryPage::new(rt.alloc(), first);
    for (tx, change) in steps {
        let act = act_of(rt, *change)?;
        assert!(rt; 1 <= *tx);
        page.append(*tx, act)?;
    }
    Ok(page.bytes(rt.alloc())?)
}

// Writes whole sectors from this one on.
fn put(rt: &impl Abort, device: &mut MemoryDevice, first: u64, bytes: &[u8]) {
    let sectors = bytes.len() as u64 / 512;
    assert!(rt; bytes.len() % 512 == 0 && sectors <= device.sectors());
    assert!(rt; first <= device.sectors() - sectors);
    assert!(rt; device.write(first, bytes).is_ok());
}

// A device of zeros with a log that has this restart page, and these entries in its first page.
fn device_with<R: Abort + AllocGlobal>(
    rt: &R,
    restart: &Restart,
    steps: &[Step],
) -> Result<MemoryDevice, Fail>
    requires { FitsRestart restart.now }
{
    let alloc = rt.alloc();
    let bytes = vec![in alloc; 0u8; 512 * SECTORS]?;
    let mut device = MemoryDevice::new(alloc, bytes, Vec::new(alloc));
    put(rt, &mut device, LOG, &restart_page(alloc, restart, &[])?);
    put(rt, &mut device, LOG + 32, &page_of(rt, FIRST, steps)?);
    Ok(device)
}

// Where the log lies: in two runs, the first of 40 sectors.
fn place(alloc: Global) -> Result<LogPlace, AllocError>
    ensures { IfOk result IsLogPlace }
{
    let runs = vec![in alloc;
        Extent {
            first: LOG,
            sectors: 40
        },
        Extent {
            first: LOG + 40,
            sectors: 4064
        },
    ]?;
    Ok(LogPlace {
        runs: LogRuns::from(runs),
        initialised: 512 * 4104,
        pages: 513,
        clusters: 544,
        device: SECTORS as u64,
    })
}

// How many blocks recovery makes on this device for reading; and for a mount how many, and the
// places of those that it writes out.
type Read = Result<usize, RecoveryFault>;

type Mounted = Result<(usize, Vec<usize>), RecoveryFault>;

fn read(alloc: Global, device: &mut MemoryDevice) -> Read {
    let place = place(alloc)?;
    let mut room = piece_room(alloc)?;
    let mut view = DeviceView::new(&mut room, device);
    let found = recover_view(alloc, &mut view, &place)?;
    Ok(found.blocks.bodies.len())
}

fn mounted(alloc: Global, device: &mut MemoryDevice) -> Mounted {
    let place = place(alloc)?;
    let mut room = piece_room(alloc)?;
    let mut view = DeviceView::new(&mut room, device);
    let found = recover_to_write(alloc, &mut view, &place, &KEPT)?;
    Ok((found.recovered.blocks.bodies.len(), found.written))
}

// A block that a mount may not write out: its first sector and the number of its kind, and those of
// another block that has a sector of it.
type Barred = ((u64, u16), (u64, u16));

// A sector of the log's page 7, the boot sector, record 2, and a file record that is given a body
// whose update sequence array isn't zeros.
static BARRED: [Barred; 4] = [
    ((LOG + 57, 0), (LOG + 56, 1)),
    ((0, 0), (0, 1)),
    ((RECORD_2, 1), (RECORD_2, 0)),
    ((OTHER, 1), (OTHER, 0)),
];

// The LSN of the first update of such a block behind one of a lawful sector, which takes 139 units.
const NAMED: RecoveryFault = RecoveryFault::Refused(LogRefusal::ForeignLog { lsn: FIRST + 139 });

// The body that a block of this kind is given. That of the file record `OTHER` begins as an update
// sequence in shape, which fails at its first sector.
fn body_for(alloc: Global, block: (u64, u16)) -> Result<Vec<u8>, AllocError>
    ensures { IfOk result (λ bytes. length bytes.items ≤ 1024) }
{
    let (first, kind) = block;
    let size = if kind == 0 { 512 } else { 1024 };
    let mut bytes = vec![in alloc; 0x33u8; size]?;
    if first == OTHER {
        put_front(&mut bytes, b"FILE\x30\0\x03\0");
        put_last(&mut bytes);
    }
    Ok(bytes)
}

// Puts these bytes over the first ones.
fn put_front(bytes: &mut [u8], front: &[u8])
    ensures { length bytes.new ≡ length bytes.old }
{
    for (cell, byte) in bytes.iter_mut().zip(front) {
        *cell = *byte;
    }
}

// Puts another byte over one of the first sector's last two.
fn put_last(bytes: &mut [u8])
    ensures { length bytes.new ≡ length bytes.old }
{
    if let Some(cell) = bytes.get_mut(510) {
        *cell = 9;
    }
}

// A device with a log that puts a lawful sector and then this block, both ended, and then a byte
// of a rival, if there is one.
fn device_of<R: Abort + AllocGlobal>(
    rt: &R,
    restart: &Restart,
    block: (u64, u16),
    rival: Option<(u64, u16)>,
) -> Result<MemoryDevice, Fail>
    requires { FitsRestart restart.now }
{
    let body = body_for(rt.alloc(), block)?;
    let zeros = vec![in rt.alloc(); 0u8; body.len()]?;
    let (sector, one, zero) = ([0x22; 512], [1], [0; 512]);
    let (first, kind) = block;
    let mut steps = vec![in rt.alloc();
        (1, Update(LAWFUL, 0, 0, &sector, &zero)),
        (1, Update(first, kind, 0, &body, &zeros)),
        (1, Commit),
    ]?;
    if let Some((other, other_kind)) = rival {
        steps.push((2, Update(other, other_kind, 0, &one, &zero[..1])))?;
    }
    device_with(rt, restart, &steps)
}

#[test]
fn a_mount_refuses_what_it_may_not_write(rt: HostRuntime) -> Result<(), Fail> {
    for (block, _) in &BARRED {
        let mut device = device_of(&rt, &own(), *block, None)?;
        let reading = read(rt.alloc(), &mut device);
        let mount = mounted(rt.alloc(), &mut device);
        assert_eq!(rt; (reading, mount), (Ok(2), Err(NAMED)), "block {block:?}");
    }
    Ok(())
}

// The block's body stands on the disk already. Only that of the last block is made again, since it
// is torn there; it stays torn.
#[test]
fn a_mount_takes_what_stands_there(rt: HostRuntime) -> Result<(), Fail> {
    for (block, _) in &BARRED {
        let mut device = device_of(&rt, &own(), *block, None)?;
        put(&rt, &mut device, block.0, &body_for(rt.alloc(), *block)?);
        let made = if block.0 == OTHER { 2 } else { 1 };
        let reading = read(rt.alloc(), &mut device);
        let mount = mounted(rt.alloc(), &mut device)?;
        assert_eq!(rt; (reading, mount.0), (Ok(made), made), "block {block:?}");
        assert_eq!(rt; mount.1.as_slice(), [0].as_slice());
    }
    Ok(())
}

// An update of another kind of block that shares a sector with it stands behind it.
#[test]
fn a_mount_takes_what_is_shadowed(rt: HostRuntime) -> Result<(), Fail> {
    for (block, rival) in &BARRED {
        let mut device = device_of(&rt, &own(), *block, Some(*rival))?;
        let reading = read(rt.alloc(), &mut device);
        let mount = mounted(rt.alloc(), &mut device)?;
        assert_eq!(rt; (reading, mount.0), (Ok(1), 1), "block {block:?}");
        assert_eq!(rt; mount.1.as_slice(), [0].as_slice());
    }
    Ok(())
}

#[test]
fn the_lap_is_tried_before(rt: HostRuntime) -> Result<(), Fail> {
    let mut restart = own();
    restart.current = TOO_LATE;
    let refused = RecoveryFault::Refused(LogRefusal::ForeignLog { lsn: TOO_LATE });
    for (block, _) in &BARRED {
        let mut device = device_of(&rt, &restart, *block, None)?;
        let reading = read(rt.alloc(), &mut device);
        let mount = mounted(rt.alloc(), &mut device);
        assert_eq!(rt; (reading, mount), (Err(refused), Err(refused)));
    }
    Ok(())
}

// Four pages of the log, each with an update of a quarter of an index block, whose old bytes are
// the disk's: they begin INDX and are torn.
#[test]
fn torn_sectors_that_a_loser_covers_stay(rt: HostRuntime) -> Result<(), Fail> {
    let mut device = device_with(&rt, &own(), &[])?;
    let mut sectors = vec![in rt.alloc(); 0x5Au8; 4096]?;
    put_front(&mut sectors, b"INDX");
    put(&rt, &mut device, INDEX, &sectors);
    for quarter in 0..4 {
        let from = 1024 * quarter;
        let undo = &sectors[from..from + 1024];
        let update = Update(INDEX, 2, from as u16, &[0; 1024], undo);
        let page = page_of(&rt, FIRST + 512 * quarter as u64, &[(1, update)])?;
        put(&rt, &mut device, LOG + 32 + 8 * quarter as u64, &page);
    }
    let reading = read(rt.alloc(), &mut device);
    let mount = mounted(rt.alloc(), &mut device)?;
    assert_eq!(rt; (reading, mount.0, mount.1.len()), (Ok(1), 1, 0));
    Ok(())
}
