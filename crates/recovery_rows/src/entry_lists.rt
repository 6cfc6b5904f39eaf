//! What recovery by a list of entries makes of a disk.
ghost use Rattle.std.specs.Prelude.{All, IfOk};
ghost use Rattle.log_model.specs.Logs.{AreLevel, IsLevel};
ghost use Rattle.log_recovery.specs.Recovering.{IsSized};

use crate::entry_lists::Change::{Commit, Update};
use block_view::{Block, BlockKind, Body, Held, MemoryView, View};
use host_base::Bytes;
use log_model::{Act, Entry};
use log_recovery::{
    LogRefusal, RecoveredBlocks, RecoveredView, RecoveryFault, Shadow, places_of, recover_entries,
};
use std::alloc::{AllocError, Global};
use std::test::Fail;

const SECTOR: Block = Block {
    first: 16,
    kind: BlockKind::Plain,
};

// The LSN of an entry, its transaction, and what it is.
type Row = (u64, u32, Change);

#[derive(Clone, Copy)]
enum Change {
    // An update of the block with this first sector and kind: so many bytes of the first value for
    // bytes of the second one.
    Update(u64, u16, usize, u8, u8),
    // The end of the transaction.
    Commit,
}

// The act of an update.
fn update(
    alloc: Global,
    place: (u64, u16),
    len: usize,
    redo: u8,
    undo: u8,
) -> Result<Act, AllocError>
    ensures { IfOk result AreLevel }
{
    let (first, kind) = place;
    let redo = Bytes::from(vec![in alloc; redo; len]?);
    let undo = Bytes::from(vec![in alloc; undo; len]?);
    Ok(Act::Update {
        first,
        kind,
        at: 0,
        redo,
        undo,
    })
}

fn entry(alloc: Global, row: Row) -> Result<Entry, AllocError>
    ensures { IfOk result IsLevel }
{
    let (lsn, tx, change) = row;
    let act = match change {
        Update(first, kind, len, redo, undo) => update(alloc, (first, kind), len, redo, undo)?,
        Commit => Act::Commit,
    };
    let previous = 0;
    Ok(Entry {
        lsn,
        previous,
        tx,
        act,
    })
}

// The entries of these rows.
fn listed(alloc: Global, rows: &[Row]) -> Result<Vec<Entry>, AllocError>
    ensures { IfOk result (λ entries. All IsLevel entries.items) }
{
    let mut entries = Vec::new(alloc);
    for row in rows {
        entries.push(entry(alloc, *row)?)?;
    }
    Ok(entries)
}

// Sector 16 with this byte everywhere.
fn disk(alloc: Global, byte: u8) -> Result<MemoryView, AllocError> {
    let mut held = Vec::new(alloc);
    held.push(Held {
        block: SECTOR,
        bytes: Bytes::from(vec![in alloc; byte; 512]?),
        torn: false,
    })?;
    Ok(MemoryView::new(held, Vec::new(alloc)))
}

// What recovery by these entries finds on a volume of so many clusters, whose sector 16 has this
// byte everywhere.
fn found_by(
    alloc: Global,
    byte: u8,
    rows: &[Row],
    clusters: u64,
) -> Result<RecoveredBlocks, RecoveryFault> {
    let mut view = disk(alloc, byte)?;
    let entries = listed(alloc, rows)?;
    recover_entries(alloc, &mut view, &entries, clusters)
}

// Sector 16 of a view after recovery.
fn sector_after(alloc: Global, view: &mut MemoryView, found: &RecoveredBlocks) -> Result<Body, Fail>
    requires { All IsSized found.now.bodies.items }
{
    let mut body = Body::empty(alloc)?;
    let places = places_of(alloc, found.bodies.as_slice())?;
    let mut after = RecoveredView::new(view, found.bodies.as_slice(), &places);
    after.body(SECTOR, &mut body)?;
    Ok(body)
}

// The first byte and another one of sector 16, which has one byte everywhere, after recovery by
// these entries.
fn bytes_after(alloc: Global, byte: u8, rows: &[Row], at: usize) -> Result<[Option<u8>; 2], Fail> {
    let mut view = disk(alloc, byte)?;
    let entries = listed(alloc, rows)?;
    let found = recover_entries(alloc, &mut view, &entries, 3)?;
    let body = sector_after(alloc, &mut view, &found)?;
    let bytes = body.bytes();
    Ok([bytes.first().copied(), bytes.get(at).copied()])
}

#[test]
fn a_loser_is_undone(rt: HostRuntime) -> Result<(), Fail> {
    let rows = [(100, 1, Update(16, 0, 512, 0x22, 0x11))];
    let found = found_by(rt.alloc(), 0x22, &rows, 3)?;
    assert_eq!(rt; found.bodies.len(), 1);
    let bytes = bytes_after(rt.alloc(), 0x22, &rows, 511)?;
    assert_eq!(rt; bytes, [Some(0x11); 2]);
    Ok(())
}

#[test]
fn an_ended_update_after_a_loser_counts(rt: HostRuntime) -> Result<(), Fail> {
    let rows = [
        (100, 1, Update(16, 0, 1, 9, 0)),
        (113, 2, Update(16, 0, 1, 5, 0)),
        (126, 2, Commit),
    ];
    let bytes = bytes_after(rt.alloc(), 9, &rows, 1)?;
    assert_eq!(rt; bytes, [Some(5), Some(9)]);
    Ok(())
}

// Three entries that are refused, and one whose sectors have numbers of more than 64 bits.
#[test]
fn foreign_entries_are_named(rt: HostRuntime) -> Result<(), Fail> {
    let foreign = |lsn| RecoveryFault::Refused(LogRefusal::ForeignLog { lsn });
    for (lsn, change, clusters, fault) in [
        (100, Update(16, 0, 1, 1, 0), 2, foreign(100)),
        (101, Update(16, 0, 513, 1, 0), 3, foreign(101)),
        (102, Update(16, 1, 1, 1, 7), 3, foreign(102)),
        (
            1,
            Update(u64::MAX, 1, 1024, 1, 0),
            1 << 62,
            RecoveryFault::Memory,
        ),
    ] {
        let found = found_by(rt.alloc(), 0x22, &[(lsn, 1, change)], clusters);
        assert_eq!(rt; found.err(), Some(fault));
    }
    Ok(())
}

// The block from this sector on, shadowed by a rival whose first update has this LSN.
fn shadow(first: u64, kind: BlockKind, lsn: u64) -> Shadow {
    Shadow {
        block: Block { first, kind },
        lsn,
    }
}

#[test]
fn an_ended_update_stays(rt: HostRuntime) -> Result<(), Fail> {
    let rows = [(100, 1, Update(16, 0, 512, 0x22, 0x11)), (239, 1, Commit)];
    let found = found_by(rt.alloc(), 0x22, &rows, 3)?;
    let around = [
        shadow(16, BlockKind::FileRec, 100),
        shadow(16, BlockKind::Index, 100),
    ];
    assert_eq!(rt; found.bodies.len(), 0);
    assert_eq!(rt; found.shadows.as_slice(), around.as_slice());
    Ok(())
}

#[test]
fn a_rival_after_shadows_a_block(rt: HostRuntime) -> Result<(), Fail> {
    let rows = [
        (100, 1, Update(16, 0, 512, 0x33, 0x22)),
        (239, 1, Commit),
        (250, 2, Update(16, 1, 1024, 0x44, 0)),
        (519, 2, Commit),
    ];
    let found = found_by(rt.alloc(), 0x22, &rows, 3)?;
    let shadows = [
        shadow(16, BlockKind::Plain, 250),
        shadow(16, BlockKind::Index, 100),
        shadow(17, BlockKind::Plain, 250),
    ];
    assert_eq!(rt; found.bodies.len(), 1);
    assert_eq!(rt; found.shadows.as_slice(), shadows.as_slice());
    Ok(())
}

// The first sector and the last byte of the body with this index.
fn made_at(found: &RecoveredBlocks, index: usize) -> Option<(u64, u8)> {
    let made = found.bodies.get(index)?;
    let last = made.body.bytes().last().copied()?;
    Some((made.block.first, last))
}

// Updates of blocks of two clusters.
static CLUSTERS: [Row; 8] = [
    (1, 1, Update(16, 0, 512, 0x33, 0x22)),
    (2, 1, Update(17, 0, 512, 0x44, 0)),
    (3, 1, Update(18, 1, 1024, 0x55, 0)),
    (4, 1, Update(24, 0, 512, 0x66, 0)),
    (5, 1, Commit),
    (6, 2, Update(23, 1, 1024, 0x77, 0)),
    (7, 2, Update(16, 0, 512, 0x88, 0x33)),
    (8, 2, Commit),
];

#[test]
fn blocks_of_a_cluster_keep_apart(rt: HostRuntime) -> Result<(), Fail> {
    let found = found_by(rt.alloc(), 0x22, &CLUSTERS, 4)?;
    let shadows = [
        shadow(16, BlockKind::FileRec, 1),
        shadow(16, BlockKind::Index, 1),
        shadow(18, BlockKind::Plain, 3),
        shadow(19, BlockKind::Plain, 3),
        shadow(23, BlockKind::Plain, 6),
        shadow(24, BlockKind::Plain, 6),
        shadow(24, BlockKind::FileRec, 4),
        shadow(24, BlockKind::Index, 4),
    ];
    assert_eq!(rt; found.shadows.as_slice(), shadows.as_slice());
    assert_eq!(rt; found.bodies.len(), 4);
    for (index, made) in [
        (0, (16, 0x88)),
        (1, (17, 0x44)),
        (2, (18, 0x55)),
        (3, (23, 0x77)),
    ] {
        assert_eq!(rt; made_at(&found, index), Some(made));
    }
    Ok(())
}

#[test]
fn an_index_block_shadows_what_begins_in_it(rt: HostRuntime) -> Result<(), Fail> {
    let rows = [
        (7, 1, Update(8, 2, 4096, 0x11, 0)),
        (8, 1, Update(8, 2, 4096, 0x22, 0x11)),
        (9, 1, Commit),
    ];
    let found = found_by(rt.alloc(), 0, &rows, 2)?;
    assert_eq!(rt; (found.bodies.len(), found.shadows.len()), (1, 12));
    for first in 8..16 {
        let plain = shadow(first, BlockKind::Plain, 7);
        let file_record = shadow(first, BlockKind::FileRec, 7);
        let held = (
            found.shadows.contains(&plain),
            found.shadows.contains(&file_record),
        );
        assert_eq!(rt; held, (true, first % 2 == 0), "sector {first}");
    }
    Ok(())
}
