//! Mounts that are stopped at each of their calls, and mounted again.
use crate::logs::Change::{Commit, Fill};
use crate::logs::{Log, image_of};
use crate::mounting::{Outcome, PAGES, mount_image};
use disk_model::{Block, BlockKind};
use log_recovery::RecoveryFault;
use sector_device::{KeptCall, MemoryDevice};
use std::alloc::{AllocError, Global};
use std::test::Fail;
use store_images::{R, S0, S1, Sight, Watch, X, images_after, recovered};

/// So many images are tried by a seed behind each write.
const IMAGES: u64 = 3;

/// A log, what is watched, and what is seen of it once it is recovered.
pub struct Row {
    pub log: Log,
    pub watched: &'static [Watch],
    pub seen: &'static [Sight],
}

const OLD: Sight = Some(0x11);

const NEW: Sight = Some(0x22);

/// The second sector of the file record.
const IN_R: Block = Block {
    first: R.first + 1,
    kind: BlockKind::Plain,
};

const SECTORS: &[Watch] = &[Watch(S0, 0, 512), Watch(S1, 0, 512)];

/// A transaction that hasn't ended, whose block was written out; one that has; several blocks, behind
/// which one is changed by a transaction that hasn't ended; a sector of a file record that is changed
/// behind the record; and an index block on three pages, which is torn.
pub static ROWS: [Row; 5] = [
    Row {
        log: Log {
            pages: &[&[(1, Fill(S0, 0, 512, 0x22, 0x11))]],
            stands: 0x22,
            torn: false,
        },
        watched: SECTORS,
        seen: &[OLD, OLD],
    },
    Row {
        log: Log {
            pages: &[&[(1, Fill(S0, 0, 512, 0x22, 0x11)), (1, Commit)]],
            stands: 0x22,
            torn: false,
        },
        watched: SECTORS,
        seen: &[NEW, OLD],
    },
    Row {
        log: Log {
            pages: &[&[
                (1, Fill(S0, 0, 512, 0x22, 0x11)),
                (1, Fill(R, 0, 1024, 0x22, 0x11)),
                (1, Commit),
                (2, Fill(S1, 0, 64, 0x22, 0x11)),
            ]],
            stands: 0x11,
            torn: false,
        },
        watched: &[Watch(S0, 0, 512), Watch(S1, 0, 512), Watch(R, 0, 1024)],
        seen: &[NEW, OLD, NEW],
    },
    Row {
        log: Log {
            pages: &[&[
                (1, Fill(R, 0, 1024, 0x33, 0x11)),
                (1, Commit),
                (2, Fill(IN_R, 0, 512, 0x22, 0x33)),
                (2, Commit),
            ]],
            stands: 0x11,
            torn: false,
        },
        watched: &[Watch(IN_R, 0, 512), Watch(S0, 0, 512)],
        seen: &[NEW, OLD],
    },
    Row {
        log: Log {
            pages: &[
                &[(1, Fill(X, 0, 1366, 0x22, 0x11))],
                &[(1, Fill(X, 1366, 1366, 0x22, 0x11))],
                &[(1, Fill(X, 2732, 1364, 0x22, 0x11)), (1, Commit)],
            ],
            stands: 0x11,
            torn: true,
        },
        watched: &[Watch(X, 0, 4096), Watch(S0, 0, 512)],
        seen: &[NEW, OLD],
    },
];

/// Some images that a crash may leave behind each write of a device, and behind its last call.
fn images_of(alloc: Global, device: &MemoryDevice) -> Result<Vec<Vec<u8>>, AllocError> {
    let mut all = Vec::new(alloc);
    for (number, call) in device.done.iter().enumerate() {
        if let KeptCall::Write { .. } = call {
            for image in images_after(alloc, device, number.saturating_add(1), IMAGES)? {
                all.push(image)?;
            }
        }
    }
    for image in images_after(alloc, device, device.done.len(), 1)? {
        all.push(image)?;
    }
    Ok(all)
}

/// Those inside a mount of an image; none where it isn't mounted.
fn images_inside(alloc: Global, image: Vec<u8>) -> Result<Option<Vec<Vec<u8>>>, AllocError> {
    match mount_image(alloc, image, &[], 0)? {
        Some(
            Outcome {
                result: Ok(_),
                device,
            },
        ) => Ok(Some(images_of(alloc, &device)?)),
        _ => Ok(None),
    }
}

/// Whether of an image is seen what a row says.
pub fn is_seen(alloc: Global, image: &[u8], row: &Row) -> Result<bool, RecoveryFault> {
    let found = recovered(alloc, PAGES, image.to_vec(alloc)?, row.watched)?;
    Ok(found.as_slice() == row.seen)
}

/// The images inside the mount of this one, where of each is seen what a row says.
fn is_seen_inside(
    alloc: Global,
    image: &[u8],
    row: &Row,
) -> Result<Option<Vec<Vec<u8>>>, RecoveryFault> {
    let Some(images) = images_inside(alloc, image.to_vec(alloc)?)? else {
        return Ok(None);
    };
    for inside in &images {
        if !is_seen(alloc, inside, row)? {
            return Ok(None);
        }
    }
    Ok(Some(images))
}

/// The number of the first image inside a mount of which something else is seen, or inside whose
/// own mount that is so; the error is that the first one isn't mounted, or shows something else.
fn first_wrong(
    alloc: Global,
    image: &[u8],
    row: &Row,
) -> Result<Result<Option<usize>, ()>, RecoveryFault> {
    let Some(images) = is_seen_inside(alloc, image, row)? else {
        return Ok(Err(()));
    };
    for (number, inside) in images.iter().enumerate() {
        if is_seen_inside(alloc, inside, row)?.is_none() {
            return Ok(Ok(Some(number)));
        }
    }
    Ok(Ok(None))
}

#[test]
fn a_mount_that_is_stopped_is_mounted_again(rt: HostRuntime) -> Result<(), Fail> {
    for (number, row) in ROWS.iter().enumerate() {
        let image = image_of(&rt, &row.log)?;
        let wrong = first_wrong(rt.alloc(), &image, row)?;
        assert_eq!(rt; wrong, Ok(None), "row {number}");
    }
    Ok(())
}
