//! A map that follows, beside a load of the volume.
ghost use Rattle.std.specs.Prelude.{◌≡◌};

use crate::disks::Disk;
use crate::layouts::Layout;
use crate::seeds::Seed;
use crate::steps::{FRONT_RUNS, Step, USUAL_RUNS, any_block, any_step, first_step, table_step};
use bit_set::BitSet;
use file_record::FileRec;
use map_change::{LiveMap, MapChange, MapFault, MapRefusal, VolumeMap, apply, load_live, prepare};
use std::alloc::Global;
use std::test::Fail;

// How many steps came to changes of parts of the map, to a load, and to a refusal; and how many to
// anything else than a load of the volume gives.
#[derive(Clone, Copy, Debug, PartialEq)]
struct Counts {
    parts: u32,
    loads: u32,
    refused: u32,
    other: u32,
}

fn same_file(one: &Option<FileRec>, other: &Option<FileRec>) -> bool {
    match (one, other) {
        (Some(one), Some(other)) => {
            one.head() == other.head() && one.attrs().as_slice() == other.attrs().as_slice()
        }
        (None, None) => true,
        _ => false,
    }
}

fn same_files(some: &[Option<FileRec>], others: &[Option<FileRec>]) -> bool {
    for (one, other) in some.iter().zip(others.iter()) {
        if !same_file(one, other) {
            return false;
        }
    }
    some.len() == others.len()
}

fn same_bits(some: &BitSet, others: &BitSet) -> bool {
    for number in 0..some.bits() {
        if some.test(number) != others.test(number) {
            return false;
        }
    }
    some.bits() == others.bits() && some.count_clear() == others.count_clear()
}

fn same_table(one: &VolumeMap, other: &VolumeMap) -> bool {
    one.table.runs.as_slice() == other.table.runs.as_slice()
        && one.table.allocated == other.table.allocated
        && one.table.real == other.table.real
        && one.table.initialised == other.table.initialised
}

fn same_map(one: &VolumeMap, other: &VolumeMap) -> bool {
    one.per_cluster == other.per_cluster
        && one.clusters == other.clusters
        && one.mft == other.mft
        && same_table(one, other)
        && same_files(&one.files, &other.files)
        && one.heads.as_slice() == other.heads.as_slice()
        && same_bits(&one.record_bits, &other.record_bits)
        && same_bits(&one.cluster_bits, &other.cluster_bits)
}

// A volume in memory, its map, and what came of its steps.
#[derive(Drop)]
struct Followed {
    layout: Layout,
    disk: Disk,
    live: LiveMap,
    counts: Counts,
}

fn begin(alloc: Global, layout: Layout) -> Result<Followed, Fail> {
    let mut disk = Disk::empty(alloc);
    let first = first_step(alloc, layout)?;
    disk.put_all(alloc, &first.changes)?;
    let live = load_live(alloc, &mut disk, &layout.geometry(), layout.count())?;
    Ok(Followed {
        layout,
        disk,
        live,
        counts: Counts {
            parts: 0,
            loads: 0,
            refused: 0,
            other: 0,
        },
    })
}

// What refuses a load.
fn refusal_of(loaded: &Result<LiveMap, MapFault>) -> Option<MapRefusal> {
    match loaded {
        Err(MapFault::Refused(refusal)) => Some(*refusal),
        _ => None,
    }
}

fn count(counter: &mut u32) {
    *counter = counter.saturating_add(1);
}

// How a map came to follow its volume.
#[derive(Clone, Copy)]
enum Way {
    Parts,
    Load,
}

fn way_of(change: &MapChange) -> Way {
    match change {
        MapChange::Parts(_) => Way::Parts,
        MapChange::Anew(_) => Way::Load,
    }
}

// Changes are prepared and put in place.
fn put(alloc: Global, live: &mut LiveMap, disk: &mut Disk, step: &Step) -> Result<Way, MapFault> {
    let change = prepare(alloc, live, disk, &step.changes)?;
    let way = way_of(&change);
    apply(live, change);
    Ok(way)
}

impl Followed {
    // A block is torn, where the map stays as it is.
    fn tear(&mut self, alloc: Global, seed: &mut Seed) -> Result<(), Fail> {
        let mut torn = self.disk.copy(alloc)?;
        torn.tear(alloc, any_block(seed))?;
        let layout = self.layout;
        let loaded = load_live(alloc, &mut torn, &layout.geometry(), layout.count());
        if let Ok(loaded) = loaded {
            if same_map(&loaded.map, &self.live.map) {
                self.disk = torn;
            }
        }
        Ok(())
    }

    // What was put in place is beside what a load gives.
    fn compare(&mut self, way: Way, after: Disk, fresh: &LiveMap) {
        match way {
            Way::Parts => count(&mut self.counts.parts),
            Way::Load => count(&mut self.counts.loads),
        }
        self.disk = after;
        if !same_map(&self.live.map, &fresh.map) {
            count(&mut self.counts.other);
        }
    }

    // The changes are followed, or refused as a load refuses the volume after them.
    fn follow(&mut self, alloc: Global, step: &Step) -> Result<(), Fail> {
        let mut after = self.disk.copy(alloc)?;
        after.put_all(alloc, &step.changes)?;
        let layout = self.layout;
        let put = put(alloc, &mut self.live, &mut self.disk, step);
        let fresh = load_live(alloc, &mut after, &layout.geometry(), layout.count());
        let refusal = refusal_of(&fresh);
        match put {
            Ok(way) => match fresh {
                Ok(fresh) => self.compare(way, after, &fresh),
                Err(_) => count(&mut self.counts.other),
            },
            Err(MapFault::Refused(fault)) if refusal == Some(fault) => {
                count(&mut self.counts.refused);
            }
            Err(_) => count(&mut self.counts.other),
        }
        Ok(())
    }
}

fn counts_of(alloc: Global, layout: Layout, state: u64, steps: u16) -> Result<Counts, Fail> {
    let mut seed = Seed { state };
    let mut followed = begin(alloc, layout)?;
    for _ in 0..steps {
        if seed.is_one_of(8) {
            followed.tear(alloc, &mut seed)?;
        }
        let step = any_step(alloc, layout, &mut seed)?;
        followed.follow(alloc, &step)?;
    }
    Ok(followed.counts)
}

// A run of steps, and how many of them come at least to each kind.
struct Row {
    // The sectors of a cluster.
    per: u8,
    // Whether files may get attribute lists.
    lists: bool,
    seed: u64,
    steps: u16,
    parts: u32,
    loads: u32,
    refused: u32,
}

static ROWS: [Row; 4] = [
    Row {
        per: 1,
        lists: false,
        seed: 1,
        steps: 2000,
        parts: 1500,
        loads: 0,
        refused: 100,
    },
    Row {
        per: 8,
        lists: false,
        seed: 2,
        steps: 2000,
        parts: 1500,
        loads: 0,
        refused: 100,
    },
    Row {
        per: 1,
        lists: true,
        seed: 3,
        steps: 2000,
        parts: 1400,
        loads: 20,
        refused: 100,
    },
    Row {
        per: 8,
        lists: true,
        seed: 4,
        steps: 2000,
        parts: 1400,
        loads: 20,
        refused: 100,
    },
];

// Whether all steps came to what a load gives, and enough of them to each kind.
fn are_followed(counts: Counts, row: &Row) -> bool {
    counts.other == 0
        && row.parts <= counts.parts
        && row.loads <= counts.loads
        && row.refused <= counts.refused
}

#[test]
fn a_map_follows_its_volume(rt: HostRuntime) -> Result<(), Fail> {
    for row in &ROWS {
        let layout = Layout {
            per: row.per,
            lists: row.lists,
        };
        let counts = counts_of(rt.alloc(), layout, row.seed, row.steps)?;
        assert!(rt; are_followed(counts, row), "seed {}: {counts:?}", row.seed);
    }
    Ok(())
}

// How many records a table has, and in which runs.
struct Table {
    records: u16,
    runs: u16,
}

static TABLES: [Table; 7] = [
    Table {
        records: 28,
        runs: USUAL_RUNS,
    },
    Table {
        records: 28,
        runs: FRONT_RUNS,
    },
    Table {
        records: 32,
        runs: FRONT_RUNS,
    },
    Table {
        records: 36,
        runs: USUAL_RUNS,
    },
    Table {
        records: 48,
        runs: USUAL_RUNS,
    },
    Table {
        records: 20,
        runs: FRONT_RUNS,
    },
    Table {
        records: 40,
        runs: USUAL_RUNS,
    },
];

fn table_counts(alloc: Global, layout: Layout) -> Result<Counts, Fail> {
    let mut followed = begin(alloc, layout)?;
    for table in &TABLES {
        let step = table_step(alloc, layout, table.records, table.runs)?;
        followed.follow(alloc, &step)?;
    }
    Ok(followed.counts)
}

// A table that gets more records and runs, and fewer, is followed without a load.
#[test]
fn a_table_that_grows_is_followed(rt: HostRuntime) -> Result<(), Fail> {
    for per in [1, 8] {
        let layout = Layout { per, lists: false };
        let counts = table_counts(rt.alloc(), layout)?;
        assert!(rt;
            counts.parts == 7 && counts.other == 0,
            "per {per}: {counts:?}"
        );
    }
    Ok(())
}
