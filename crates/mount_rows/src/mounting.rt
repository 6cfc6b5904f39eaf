//! Stores in memory that are mounted, and closed.
use disk_model::Block;
use log_page::lap_of;
use log_reading::is_ring_place;
use sector_device::{Device, MemoryDevice};
use std::alloc::{AllocError, Global};
use store_images::{BlindDevice, place};
use txn_close::{CloseFault, close};
use txn_mount::{Mounted, StoreFault, mount};

/// The pages of the log.
pub const PAGES: u32 = 16;

/// A session that a mount opened: its lap, the open count of its next restart page, and how many
/// blocks the log shadowed.
#[derive(Clone, Copy, Debug, PartialEq, Eq)]
pub struct Session {
    pub lap: u64,
    pub opens: u32,
    pub shadows: usize,
}

/// What a mount comes to, and the device behind it.
#[derive(Drop)]
pub struct Outcome {
    pub result: Result<Session, StoreFault>,
    pub device: MemoryDevice,
}

/// What a mount and then a close come to, and the device behind both.
#[derive(Drop)]
pub struct Ended {
    pub session: Session,
    pub result: Result<(), CloseFault>,
    pub device: MemoryDevice,
}

type Blind = BlindDevice<MemoryDevice>;

type Begun = Result<Mounted<Blind>, (StoreFault, Blind)>;

/// Mounts a store, whose log is found by these blocks; none where the device is too small.
fn begin(alloc: Global, memory: MemoryDevice, kept: &[Block]) -> Result<Option<Begun>, AllocError> {
    let place = place(alloc, PAGES)?;
    let device = BlindDevice { device: memory };
    let count = device.sectors();
    if !is_ring_place(alloc, &place)? || count < place.device || count / 8 < place.clusters {
        return Ok(None);
    }
    let kept = kept.to_vec(alloc)?;
    Ok(Some(mount(alloc, device, place, kept)))
}

/// The session of a store that was mounted.
fn session_of(mounted: &Mounted<Blind>) -> Session {
    let log = mounted.store.state().log();
    Session {
        lap: lap_of(u64::from(PAGES), log.next(0x58)),
        opens: log.opens(),
        shadows: mounted.shadows.len(),
    }
}

/// Mounts a store, whose log is found by these blocks, and leaves it as it is then; none where the
/// device is too small. The error is want of memory before the mount.
pub fn mount_log(
    alloc: Global,
    memory: MemoryDevice,
    kept: &[Block],
) -> Result<Option<Outcome>, AllocError> {
    Ok(match begin(alloc, memory, kept)? {
        None => None,
        Some(Ok(mounted)) => {
            let result = Ok(session_of(&mounted));
            let BlindDevice { device } = mounted.store.into_device();
            Some(Outcome { result, device })
        }
        Some(Err((fault, blind))) => {
            let result = Err(fault);
            let BlindDevice { device } = blind;
            Some(Outcome { result, device })
        }
    })
}

/// Mounts a store and closes it; none where it isn't mounted. The error is want of memory before
/// the mount.
pub fn mount_and_close(alloc: Global, memory: MemoryDevice) -> Result<Option<Ended>, AllocError> {
    let Some(Ok(mounted)) = begin(alloc, memory, &[])? else {
        return Ok(None);
    };
    let session = session_of(&mounted);
    let (result, BlindDevice { device }) = close(mounted.store);
    Ok(Some(Ended {
        session,
        result,
        device,
    }))
}

/// A device with these bytes, whose calls with these numbers fail, and of whose writes that fail so
/// many sectors are put; none where its last sector isn't whole. The error is want of memory.
pub fn device_of(
    alloc: Global,
    image: Vec<u8>,
    failing: &[u64],
    tearing: usize,
) -> Result<Option<MemoryDevice>, AllocError> {
    if image.len() % 512 != 0 {
        return Ok(None);
    }
    let mut device = MemoryDevice::new(alloc, image, failing.to_vec(alloc)?);
    device.tearing = tearing;
    Ok(Some(device))
}

/// Mounts a store on a device with these bytes, as [`device_of`] makes it. The error is want of
/// memory before the mount.
pub fn mount_image(
    alloc: Global,
    image: Vec<u8>,
    failing: &[u64],
    tearing: usize,
) -> Result<Option<Outcome>, AllocError> {
    match device_of(alloc, image, failing, tearing)? {
        Some(memory) => mount_log(alloc, memory, &[]),
        None => Ok(None),
    }
}
