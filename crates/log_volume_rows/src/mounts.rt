//! Mounts of a new volume by a log in use, whose updates shadow blocks of other kinds.
use crate::scans::bodies;
use crate::steps::Change::{Fill, Record};
use crate::steps::{Step, page_of};
use crate::volume::*;
use log_images::FIRST;
use sector_device::MemoryDevice;
use std::process::Abort;
use std::test::Fail;
use volume_mount::{MountFault, Refusal, mount};

// The first sectors of a record of the file table and of its mirror, of the one index block of the
// root, and of the bitmap of the clusters, which has 256 bytes in a cluster of its own.
const RECORD_1: u64 = 34;

const MIRROR: u64 = 16;

const ROOT: u64 = 4528;

const BITS: u64 = 4520;

// Whether this refuses a mount by a log with these entries, none of whose transactions has ended.
fn is_answered<R: Abort + AllocGlobal>(
    rt: &R,
    device: &mut MemoryDevice,
    steps: &[Step],
    wanted: Option<MountFault>,
) -> Result<bool, Fail> {
    put_log(rt, device, &[(4, page_of(rt, FIRST, steps)?)])?;
    Ok(mount(rt.alloc(), device).err() == wanted)
}

// The refusals by the first entry, and by one behind an update of a sector.
const BY_FIRST: MountFault = MountFault::Refused(Refusal::ForeignLog { lsn: FIRST });

const BY_SECOND: MountFault = MountFault::Refused(Refusal::ForeignLog { lsn: FIRST + 139 });

// The sectors of two updates of plain bytes, and what refuses the mount. A sector of the bitmap past
// the bits, or a free one, is no part of a record or of an index block.
static FILLED: [(u64, u64, Option<MountFault>); 5] = [
    (FREE, BITS + 7, None),
    (ROOT + 7, FREE, Some(BY_FIRST)),
    (RECORD_1 + 1, FREE, Some(BY_FIRST)),
    (FREE, MIRROR + 1, Some(BY_SECOND)),
    (RECORD_1, ROOT, Some(BY_FIRST)),
];

#[test]
fn a_shadowed_record_or_index_block_is_foreign(rt: HostRuntime) -> Result<(), Fail> {
    let mut device = volume(&rt, &[])?;
    for (first, second, wanted) in &FILLED {
        let steps = [
            (1, Fill(*first, 0x22, 0x11)),
            (1, Fill(*second, 0x22, 0x11)),
        ];
        assert!(rt;
            is_answered(&rt, &mut device, &steps, *wanted)?,
            "sectors {first} and {second}"
        );
    }
    Ok(())
}

// An update of a file record over plain sectors: of the bitmap, where its bits stand, and past them.
#[test]
fn a_sector_past_a_stream_may_be_shadowed(rt: HostRuntime) -> Result<(), Fail> {
    let mut device = volume(&rt, &[])?;
    let both = bodies(&rt, &mut device)?;
    let (old, new) = both.split_at(1024);
    for (first, wanted) in [(BITS, Some(BY_FIRST)), (BITS + 2, None)] {
        let steps = [(1, Record(first, 0, new, old))];
        assert!(rt;
            is_answered(&rt, &mut device, &steps, wanted)?,
            "sector {first}"
        );
    }
    Ok(())
}
