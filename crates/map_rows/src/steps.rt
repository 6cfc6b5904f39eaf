//! Changes that a seed chooses.
ghost use Rattle.std.specs.Prelude.{All, [], ◌≡◌};
ghost use Rattle.block_view.specs.Changes.{Fits};

use crate::bodies::{
    Named, Placed, bare, directory, entry, in_clusters, resident, spelled, with_data,
    with_far_list, with_list,
};
use crate::layouts::{
    BITMAP_PIECE, INDEX_PIECE, LIST_PIECE, Layout, MARKS_PIECE, record_block, sector_block,
    sector_of,
};
use crate::seeds::Seed;
use block_view::{Block, BlockKind, Change};
use file_record::FileRec;
use host_base::Bytes;
use std::alloc::{AllocError, Global};

/// Changes of one step.
#[derive(Drop)]
pub struct Step {
    /// Each of them lies inside its block.
    pub changes: Vec<Change>,
    pub ghost fits: { All Fits changes.items },
}

impl Step {
    /// No changes.
    pub fn empty(alloc: Global) -> Step {
        Step {
            changes: Vec::new(alloc),
        }
    }

    /// One change more, where it lies inside its block.
    pub fn put(
        &mut self,
        alloc: Global,
        block: Block,
        offset: u16,
        new: &[u8],
    ) -> Result<(), AllocError> {
        let at = usize::from(offset);
        let size = 512 * block.kind.sectors();
        if size < at || size - at < new.len() {
            return Ok(());
        }
        let old = Bytes::from(vec![in alloc; 0u8; new.len()]?);
        self.changes.push(Change {
            block,
            offset: u32::from(offset),
            old,
            new: Bytes::copy_of(alloc, new)?,
        })?;
        Ok(())
    }

    // The body of a record.
    fn put_record(&mut self, alloc: Global, number: u16, file: &FileRec) -> Result<(), AllocError> {
        let body = spelled(alloc, file)?;
        self.put(alloc, record_block(number), 0, &body)
    }
}

// What record 0 says of the table.
#[derive(Drop)]
struct Shape {
    // How many records the table has.
    records: u16,
    // How many of them lie before its initialised size.
    initialised: u16,
    // Its runs, by their number.
    runs: u16,
}

/// The number of the runs that a table has most often: room for 32 records, and for 16 behind them.
pub const USUAL_RUNS: u16 = 9;

/// The number of runs with a hole behind the room for 32 records.
pub const FRONT_RUNS: u16 = 1;

// Runs of the file table by a number: its first place, that with more behind, less of it with more
// behind, with a hole behind, the second place alone, and one cluster less in front of more.
fn runs_by(layout: Layout, way: u16) -> [(u16, Option<u16>); 2] {
    let (first, second) = (layout.clusters(2), layout.clusters(16));
    let (whole, more) = (layout.clusters(8), layout.clusters(4));
    let front = (whole, Some(first));
    match way {
        0 => [
            (layout.clusters(6), Some(first)),
            (layout.clusters(6), Some(second)),
        ],
        1 => [front, (more, None)],
        2 => [(more, Some(second)), (more, Some(layout.clusters(22)))],
        3 => [(whole.saturating_sub(1), Some(first)), (more, Some(second))],
        4 => [front, (more, Some(layout.clusters(22)))],
        _ => [front, (more, Some(second))],
    }
}

// Record 0: its data, and its bitmap in the record or in clusters.
fn table_record(
    alloc: Global,
    layout: Layout,
    shape: &Shape,
    marks: Option<&[u8]>,
) -> Result<FileRec, AllocError> {
    let named = Named {
        number: 0,
        flags: 1,
        base: 0,
    };
    let runs = runs_by(layout, shape.runs);
    let mut file = bare(alloc, named);
    file.push(in_clusters(
        alloc,
        layout,
        &Placed {
            kind: 0x80,
            name: &[],
            runs: &runs,
            sizes: (
                u64::from(shape.records).saturating_mul(1024),
                u64::from(shape.initialised).saturating_mul(1024),
            ),
        },
    )?)?;
    file.push(match marks {
        Some(bytes) => resident(alloc, 0xb0, bytes)?,
        None => in_clusters(
            alloc,
            layout,
            &Placed {
                kind: 0xb0,
                name: &[],
                runs: &[(1, Some(layout.clusters(MARKS_PIECE)))],
                sizes: (6, 6),
            },
        )?,
    })?;
    Ok(file)
}

/// Record 6, whose data are the bits of the clusters, from a cluster behind the bitmap's first one.
fn bitmap_record(
    alloc: Global,
    layout: Layout,
    moved: u16,
    real: u16,
) -> Result<FileRec, AllocError> {
    let named = Named {
        number: 6,
        flags: 1,
        base: 0,
    };
    let size = u64::from(real);
    let first = layout.clusters(BITMAP_PIECE).saturating_add(moved);
    let mut file = bare(alloc, named);
    file.push(in_clusters(
        alloc,
        layout,
        &Placed {
            kind: 0x80,
            name: &[],
            runs: &[(1, Some(first))],
            sizes: (size, size),
        },
    )?)?;
    Ok(file)
}

/// The volume as it begins: record 0 with 24 records, the bitmaps, and some files.
pub fn first_step(alloc: Global, layout: Layout) -> Result<Step, AllocError> {
    let mut step = Step::empty(alloc);
    let shape = Shape {
        records: 24,
        initialised: 24,
        runs: USUAL_RUNS,
    };
    let table = table_record(alloc, layout, &shape, None)?;
    step.put_record(alloc, 0, &table)?;
    step.put_record(alloc, 6, &bitmap_record(alloc, layout, 0, 40)?)?;
    for number in 8..20u16 {
        let named = Named {
            number,
            flags: 1,
            base: 0,
        };
        step.put_record(alloc, number, &with_data(alloc, named, &[1, 2, 3])?)?;
    }
    step.put(alloc, sector_block(MARKS_PIECE), 0, &[0x7f, 0xff, 0x0f])?;
    step.put(alloc, sector_block(BITMAP_PIECE), 0, &[0xff, 0x0f])?;
    Ok(step)
}

/// Record 0 with so many records in these runs, and the last of them with a file.
pub fn table_step(
    alloc: Global,
    layout: Layout,
    records: u16,
    runs: u16,
) -> Result<Step, AllocError> {
    let mut step = Step::empty(alloc);
    let shape = Shape {
        records,
        initialised: records,
        runs,
    };
    let named = Named {
        number: records.saturating_sub(1),
        flags: 1,
        base: 0,
    };
    let table = table_record(alloc, layout, &shape, None)?;
    step.put_record(alloc, 0, &table)?;
    step.put_record(alloc, named.number, &with_data(alloc, named, &[6])?)?;
    step.put(alloc, sector_block(MARKS_PIECE), 3, &[0xff, 0x80])?;
    Ok(step)
}

// Some bytes.
fn any_bytes(seed: &mut Seed) -> [u8; 6] {
    let mut bytes = [0; 6];
    for byte in bytes.iter_mut() {
        *byte = seed.below(256).to_le_bytes()[0];
    }
    bytes
}

// The number of a record that may change: most are of users, some past the table's end.
fn any_number(seed: &mut Seed) -> u16 {
    match seed.below(16) {
        0 => seed.below(8),
        1 | 2 => seed.below(24).saturating_add(24),
        _ => seed.below(16).saturating_add(8),
    }
}

// How many records a table has: most often what it has at first, or some more.
fn any_count(seed: &mut Seed) -> u16 {
    match seed.below(8) {
        0 => seed.below(49),
        1 | 2 => 28,
        3 => 32,
        4 => 36,
        _ => 24,
    }
}

// Record 0.
fn change_table(
    alloc: Global,
    layout: Layout,
    seed: &mut Seed,
    step: &mut Step,
) -> Result<(), AllocError> {
    let count = any_count(seed);
    let less = if seed.is_one_of(6) { seed.below(8) } else { 0 };
    let shape = Shape {
        records: if seed.is_one_of(24) { u16::MAX } else { count },
        initialised: count.saturating_sub(less),
        runs: if seed.is_one_of(3) {
            seed.below(6)
        } else {
            USUAL_RUNS
        },
    };
    let bytes = any_bytes(seed);
    let marks = if seed.is_one_of(2) {
        Some(bytes.as_slice())
    } else {
        None
    };
    let table = table_record(alloc, layout, &shape, marks)?;
    step.put_record(alloc, 0, &table)
}

// Record 6.
fn change_bitmap(
    alloc: Global,
    layout: Layout,
    seed: &mut Seed,
    step: &mut Step,
) -> Result<(), AllocError> {
    let moved = if seed.is_one_of(4) { 1 } else { 0 };
    let real = if seed.is_one_of(4) {
        seed.below(41)
    } else {
        40
    };
    let bitmap = bitmap_record(alloc, layout, moved, real)?;
    step.put_record(alloc, 6, &bitmap)
}

// A base record, and another one that holds what its list names.
fn change_pair(
    alloc: Global,
    seed: &mut Seed,
    step: &mut Step,
    number: u16,
) -> Result<(), AllocError> {
    let holder = any_number(seed);
    let base = Named {
        number,
        flags: 1,
        base: 0,
    };
    let held = Named {
        number: holder,
        flags: 1,
        base: if seed.is_one_of(8) { 9 } else { number },
    };
    step.put_record(alloc, number, &with_list(alloc, base, holder)?)?;
    if !seed.is_one_of(6) {
        step.put_record(alloc, holder, &with_data(alloc, held, &[4])?)?;
    }
    Ok(())
}

// A record that is spelled as it says.
fn plain_record(
    alloc: Global,
    layout: Layout,
    seed: &mut Seed,
    number: u16,
) -> Result<FileRec, AllocError> {
    let flags = if seed.is_one_of(6) { 0 } else { 1 };
    let named = Named {
        number,
        flags,
        base: 0,
    };
    match seed.below(8) {
        0 => {
            let base = seed.below(24);
            with_data(alloc, Named { base, ..named }, &[5])
        }
        1 => {
            let cut = seed.is_one_of(2);
            directory(alloc, layout, Named { flags: 3, ..named }, cut)
        }
        2 => Ok(bare(alloc, named)),
        _ => with_data(alloc, named, &any_bytes(seed)),
    }
}

// One record, also one with a list.
fn change_record(
    alloc: Global,
    layout: Layout,
    seed: &mut Seed,
    step: &mut Step,
    number: u16,
) -> Result<(), AllocError> {
    let named = Named {
        number,
        flags: 1,
        base: 0,
    };
    if layout.lists && seed.is_one_of(8) {
        return change_pair(alloc, seed, step, number);
    }
    if layout.lists && seed.is_one_of(16) {
        return step.put_record(alloc, number, &with_far_list(alloc, layout, named)?);
    }
    if seed.is_one_of(12) {
        return step.put(alloc, record_block(number), 0, &[0; 1024]);
    }
    let file = plain_record(alloc, layout, seed, number)?;
    step.put_record(alloc, number, &file)
}

// Some bytes of a sector that bitmaps, a list or an index lies in.
fn change_sector(alloc: Global, seed: &mut Seed, step: &mut Step) -> Result<(), AllocError> {
    let piece = seed.below(4).saturating_add(BITMAP_PIECE);
    if piece == LIST_PIECE {
        let bytes = entry(any_number(seed));
        return step.put(alloc, sector_block(piece), 0, &bytes);
    }
    let bytes = any_bytes(seed);
    let offset = seed.below(40);
    step.put(alloc, sector_block(piece), offset, &bytes)
}

// A block where none of the volume is: a record off the grid, a record's sector by itself, an index
// block over records.
fn change_elsewhere(alloc: Global, seed: &mut Seed, step: &mut Step) -> Result<(), AllocError> {
    let first = sector_of(seed.below(8).saturating_add(2)).saturating_add(1);
    let kind = match seed.below(3) {
        0 => BlockKind::Plain,
        1 => BlockKind::Index,
        _ => BlockKind::FileRec,
    };
    let bytes = any_bytes(seed);
    step.put(alloc, Block { first, kind }, 0, &bytes)?;
    let other = Block {
        first: sector_of(INDEX_PIECE),
        kind: BlockKind::Index,
    };
    step.put(alloc, other, 8, &bytes)
}

// Some bytes of a record: its LSN, its sequence, its flags, or what breaks it.
fn change_bytes(
    alloc: Global,
    seed: &mut Seed,
    step: &mut Step,
    number: u16,
) -> Result<(), AllocError> {
    let bytes = any_bytes(seed);
    let block = record_block(number);
    match seed.below(8) {
        0 => step.put(alloc, block, 0x16, &[seed.below(4).to_le_bytes()[0]]),
        1 => step.put(alloc, block, 0x10, &bytes[0..2]),
        2 => step.put(alloc, block, 0x18, &bytes[0..2]),
        3 => step.put(alloc, block, 0x38, &bytes),
        _ => step.put(alloc, block, 0x08, &bytes),
    }
}

// One of the changes of a step.
fn change_one(
    alloc: Global,
    layout: Layout,
    seed: &mut Seed,
    step: &mut Step,
) -> Result<(), AllocError> {
    let number = any_number(seed);
    match seed.below(16) {
        0 | 1 => change_table(alloc, layout, seed, step),
        2 => change_bitmap(alloc, layout, seed, step),
        3 | 4 | 5 => change_sector(alloc, seed, step),
        6 => change_elsewhere(alloc, seed, step),
        7 => change_bytes(alloc, seed, step, number),
        8 => change_bytes(alloc, seed, step, 0),
        9 => change_bytes(alloc, seed, step, 6),
        _ => change_record(alloc, layout, seed, step, number),
    }
}

/// The changes of a step, one to three or a few more.
pub fn any_step(alloc: Global, layout: Layout, seed: &mut Seed) -> Result<Step, AllocError> {
    let mut step = Step::empty(alloc);
    for _ in 0..seed.below(3).saturating_add(1) {
        change_one(alloc, layout, seed, &mut step)?;
    }
    Ok(step)
}

/// A block that may be torn.
pub fn any_block(seed: &mut Seed) -> Block {
    record_block(any_number(seed))
}
