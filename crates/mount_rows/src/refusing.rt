//! Logs that a mount refuses, and writes nothing.
use crate::logs::Change::{Commit, Fill, Sign};
use crate::logs::{FIRST, Log, Step, image_of};
use crate::mounting::{Outcome, device_of, mount_log};
use disk_model::{Block, BlockKind};
use log_recovery::LogRefusal;
use std::alloc::{AllocError, Global};
use std::test::Fail;
use store_images::{LOG, R, S0};
use txn_mount::StoreFault;

/// The blocks by which the log is found: the first sector, and a file record.
const BOOT: Block = Block {
    first: 0,
    kind: BlockKind::Plain,
};

const RECORD: Block = Block {
    first: 440,
    kind: BlockKind::FileRec,
};

const KEPT: [Block; 2] = [BOOT, RECORD];

/// An update of a lawful sector, which takes 139 LSNs.
const LAWFUL: Step = (1, Fill(S0, 0, 512, 0x22, 0x11));

/// Blocks that a mount may not write out, each behind a lawful one: a sector of the log's page 7,
/// the first sector, the file record by which the log is found, and a file record whose body
/// wouldn't have zeros where its array stands.
static REFUSED: [&[&[Step]]; 4] = [
    &[&[LAWFUL, (1, Fill(IN_LOG, 0, 512, 0x33, 0)), (1, Commit)]],
    &[&[LAWFUL, (1, Fill(BOOT, 0, 512, 0x33, 0x11)), (1, Commit)]],
    &[&[LAWFUL, (1, Fill(RECORD, 0, 1024, 0x33, 0x11)), (1, Commit)]],
    &[&[LAWFUL, (1, Sign(R, 0x33, 0x11)), (1, Commit)]],
];

const IN_LOG: Block = Block {
    first: LOG + 57,
    kind: BlockKind::Plain,
};

/// What a mount answers, and how often it writes and syncs; none where it isn't tried.
type Answer = Option<(Option<StoreFault>, u64, u64)>;

fn answer_of(alloc: Global, image: Vec<u8>) -> Result<Answer, AllocError> {
    let Some(memory) = device_of(alloc, image, &[], 0)? else {
        return Ok(None);
    };
    Ok(match mount_log(alloc, memory, &KEPT)? {
        Some(Outcome { result, device }) => Some((result.err(), device.writes, device.syncs)),
        None => None,
    })
}

#[test]
fn a_refused_log_stays_as_it_is(rt: HostRuntime) -> Result<(), Fail> {
    let named = StoreFault::Refused(LogRefusal::ForeignLog { lsn: FIRST + 139 });
    for (number, pages) in REFUSED.iter().enumerate() {
        let log = Log {
            pages,
            stands: 0x11,
            torn: false,
        };
        let answer = answer_of(rt.alloc(), image_of(&rt, &log)?)?;
        assert_eq!(rt; answer, Some((Some(named), 0, 0)), "row {number}");
    }
    Ok(())
}
