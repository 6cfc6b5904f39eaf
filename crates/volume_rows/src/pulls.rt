//! Records of a change journal from a position on.
ghost use Rattle.std.specs.Prelude.{◌≤◌, ◌<◌, ◌^◌, IfOk, IfSome};
ghost use Rattle.volume_state.specs.Journals.{journal_first};

use block_view::{Block, View, ViewFault};
use disk_model::Body;
use record_model::Runs;
use state_model::Extents;
use std::alloc::{AllocError, Global};
use std::test::Fail;
use usn_journal::{PullFault, PullRefusal, read_from};
use volume_images::{per_cluster, run};

// File 26/1 in 25/1 with the name `f` was created and closed; its record stands at 0.
static RECORD: [u8; 0x40] = [
    0x40, 0, 0, 0, 2, 0, 0, 0, 0x1A, 0, 0, 0, 0, 0, 1, 0, 0x19, 0, 0, 0, 0, 0, 1, 0, 0, 0, 0, 0, 0,
    0, 0, 0, 0xea, 3, 0, 0, 0, 0, 0, 0, 0, 1, 0, 0x80, 0, 0, 0, 0, 0, 0, 0, 0, 0x20, 0, 0, 0, 2, 0,
    0x3c, 0, 0x66, 0, 0, 0,
];

// A view that claims no content, with the record in the sector 16 and zeros elsewhere; it counts
// what is read.
#[derive(Drop)]
struct Sectors {
    read: u64,
}

impl View for Sectors {
    ghost use Rattle.std.specs.Prelude.{None};

    ghost content = { λ _. None };

    ghost faults = { λ _. 0 };

    ghost Kept = { Unit {0} };

    ghost kept = { λ _. tt };

    fn body(&mut self, block: Block, out: &mut Body) -> Result<(), ViewFault> {
        self.read = self.read.saturating_add(1);
        out.set_zeros(512 * block.kind.sectors());
        if block.first == 16 {
            out.put(0, &RECORD);
        }
        Ok(())
    }

    ghost sized = { λ _. tt };
}

// A pull: whether the journal's one run has clusters, from sector 16 on; its sectors and real size;
// from which byte and for how many records at most; how many records come and where the last one
// ends, or the refusal; and how many sectors are read.
struct Row(
    bool,
    (u32, u64),
    (u64, u32),
    Result<(usize, u64), PullFault>,
    Option<u64>,
);

static PULLS: [Row; 6] = [
    Row(true, (8, 64), (0, 9), Ok((1, 64)), None),
    Row(true, (8, 64), (1, 9), Ok((0, 64)), None),
    // places outside the journal
    Row(
        true,
        (8, 64),
        (65, 9),
        Err(PullFault::Refused(PullRefusal::Ahead { next: 64 })),
        None,
    ),
    Row(
        false,
        (8, 4096),
        (0, 9),
        Err(PullFault::Refused(PullRefusal::Trimmed { first: 4096 })),
        None,
    ),
    // pages that are not needed are not read
    Row(true, (24, 12288), (0, 1), Ok((1, 64)), Some(8)),
    Row(true, (24, 12288), (8192, 1), Ok((0, 12288)), Some(8)),
];

// A journal of so many sectors in one run.
#[tactic(auto, unfolding(volume_state::specs::Journals::journal_first))]
fn journal_in(
    alloc: Global,
    lcn: Option<u64>,
    sectors: u32,
    real: u64,
) -> Result<Extents, AllocError>
    requires { IfSome lcn (λ lcn. lcn < 2 ^ 32) }
    ensures left { IfOk result (λ e. journal_first 1 e ≤ e.real) }
{
    let mut runs = Runs::new(alloc);
    runs.push(run(0, lcn, u64::from(sectors)))?;
    Ok(Extents {
        runs,
        allocated: 512 * u64::from(sectors),
        real,
        initialised: real,
    })
}

fn is_as_wanted(alloc: Global, row: &Row) -> Result<bool, AllocError> {
    let mut view = Sectors { read: 0 };
    let mut body = Body::empty(alloc)?;
    let lcn = if row.0 { Some(16) } else { None };
    let journal = journal_in(alloc, lcn, row.1.0, row.1.1)?;
    let found = match read_from(
        alloc,
        &mut view,
        per_cluster(1),
        &journal,
        row.2.0,
        row.2.1,
        &mut body,
    ) {
        Ok(pulled) => Ok((pulled.entries.as_slice().len(), pulled.end)),
        Err(fault) => Err(fault),
    };
    Ok(found == row.3 && row.4.unwrap_or(view.read) == view.read)
}

#[test]
fn records_are_pulled(rt: HostRuntime) -> Result<(), Fail> {
    for (number, row) in PULLS.iter().enumerate() {
        assert!(rt; is_as_wanted(rt.alloc(), row)?, "row {number}");
    }
    Ok(())
}
