//! Mounts of which each call of the device fails in turn, and that are mounted again.
use crate::logs::image_of;
use crate::mounting::{Outcome, mount_image, mount_log};
use crate::stopping::{ROWS, Row, is_seen};
use log_recovery::RecoveryFault;
use sector_device::MemoryDevice;
use std::alloc::{AllocError, Global};
use std::test::Fail;
use store_images::{SECTORS, bytes_at, images_after};
use txn_mount::StoreFault;

/// Why an image isn't mounted; none where its device is too small.
type Unmounted = Option<StoreFault>;

/// So many images are tried by a seed behind a call that failed.
const IMAGES: u64 = 2;

/// How many calls of the device a mount of this image makes, or why it isn't mounted.
fn calls_of(alloc: Global, image: &[u8]) -> Result<Result<u64, Unmounted>, AllocError> {
    Ok(match mount_image(alloc, image.to_vec(alloc)?, &[], 0)? {
        Some(Outcome { result, device }) => match result {
            Ok(_) => Ok(device.calls),
            Err(fault) => Err(Some(fault)),
        },
        None => Err(None),
    })
}

/// Whether this is seen of each of some images that a crash may leave now.
fn are_seen(alloc: Global, device: &MemoryDevice, row: &Row) -> Result<bool, RecoveryFault> {
    for image in images_after(alloc, device, device.done.len(), IMAGES)? {
        if !is_seen(alloc, &image, row)? {
            return Ok(false);
        }
    }
    Ok(true)
}

/// Whether a device is mounted behind which this is seen, and on which it stands.
fn is_mounted(alloc: Global, device: MemoryDevice, row: &Row) -> Result<bool, RecoveryFault> {
    let Some(outcome) = mount_log(alloc, device, &[])? else {
        return Ok(false);
    };
    let bytes = bytes_at(alloc, &outcome.device, 0, SECTORS)?;
    Ok(
        outcome.result.is_ok()
            && are_seen(alloc, &outcome.device, row)?
            && is_seen(alloc, &bytes, row)?,
    )
}

/// Whether a mount fails with this call, of which one sector is put where it writes, and the device
/// is mounted then.
fn fails_and_mounts(
    alloc: Global,
    image: &[u8],
    call: u64,
    row: &Row,
) -> Result<bool, RecoveryFault> {
    match mount_image(alloc, image.to_vec(alloc)?, &[call], 1)? {
        Some(
            Outcome {
                result: Err(StoreFault::Fault),
                device,
            },
        ) => Ok(are_seen(alloc, &device, row)? && is_mounted(alloc, device, row)?),
        _ => Ok(false),
    }
}

/// The first call of a mount behind whose failure something else is seen; none where there is none;
/// the error is why the image isn't mounted at all.
fn first_lost(
    alloc: Global,
    image: &[u8],
    row: &Row,
) -> Result<Result<Option<u64>, Unmounted>, RecoveryFault> {
    let calls = match calls_of(alloc, image)? {
        Ok(calls) => calls,
        Err(why) => return Ok(Err(why)),
    };
    for call in 1..=calls {
        if !fails_and_mounts(alloc, image, call, row)? {
            return Ok(Ok(Some(call)));
        }
    }
    Ok(Ok(None))
}

#[test]
fn each_call_of_a_mount_fails_in_turn(rt: HostRuntime) -> Result<(), Fail> {
    for (number, row) in ROWS.iter().enumerate() {
        let image = image_of(&rt, &row.log)?;
        let lost = first_lost(rt.alloc(), &image, row)?;
        assert_eq!(rt; lost, Ok(None), "row {number}");
    }
    Ok(())
}
