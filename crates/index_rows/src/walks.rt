//! Walks over an index and searches in it.
use crate::few_names::{self, Key, NO, Part, Spot, files};
use block_view::MemoryView;
use file_tree::LinkList;
use index_tree::{DirPlace, TreeFault, ViewFault, find, walk};
use std::alloc::{AllocError, Global};
use std::test::Fail;
use upcase_order::Upcase;
use utf16_name::Name;

// The VCN by which a fault names the root.
const ROOT: u64 = u64::MAX;

// The root and the blocks of an index, two VCNs each, and the node and the rule that are broken.
struct Row(Spot, &'static [Part], u64, u32);

// `b` in the root, with `a` in the block below it, and `c` in the one below the last entry.
static TREE: Row = Row(
    Spot(&[Key(25, 0x62, 0)], 2),
    &[
        Part(0, false, Spot(&[Key(24, 0x61, NO)], NO)),
        Part(2, false, Spot(&[Key(26, 0x63, NO)], NO)),
    ],
    0,
    0,
);

// `a` and `b` in the root; `B` in the block below `b`, and `b` and `c` in the one below the last
// entry.
static SAME: Row = Row(
    Spot(&[Key(24, 0x61, 0), Key(26, 0x62, 2)], 4),
    &[
        Part(0, false, Spot(&[], NO)),
        Part(2, false, Spot(&[Key(25, 0x42, NO)], NO)),
        Part(4, false, Spot(&[Key(27, 0x62, NO), Key(28, 0x63, NO)], NO)),
    ],
    0,
    0,
);

static FAULTS: [Row; 9] = [
    // a block whose child VCN is its own
    Row(
        Spot(&[], 2),
        &[Part(0, false, Spot(&[], NO)), Part(2, false, Spot(&[], 2))],
        2,
        7,
    ),
    // a torn block, and one with another VCN
    Row(Spot(&[], 0), &[Part(0, true, Spot(&[], NO))], 0, 1),
    Row(Spot(&[], 0), &[Part(2, false, Spot(&[], NO))], 0, 2),
    // VCNs outside the allocation: between blocks, and behind them
    Row(Spot(&[], 1), &[Part(0, false, Spot(&[], NO))], ROOT, 7),
    Row(Spot(&[], 2), &[Part(0, false, Spot(&[], NO))], ROOT, 7),
    // a block below two entries of the root
    Row(
        Spot(&[Key(24, 0x61, 0)], 0),
        &[Part(0, false, Spot(&[], NO))],
        ROOT,
        7,
    ),
    // keys out of order, in one node and from one to the next; upper-case units come first
    Row(
        Spot(&[Key(24, 0x62, NO), Key(25, 0x41, NO)], NO),
        &[],
        ROOT,
        8,
    ),
    Row(Spot(&[Key(24, 0x61, NO), Key(25, 0x42, NO)], NO), &[], 0, 0),
    Row(
        Spot(&[Key(24, 0x62, 0)], 2),
        &[
            Part(0, false, Spot(&[Key(25, 0x63, NO)], NO)),
            Part(2, false, Spot(&[], NO)),
        ],
        ROOT,
        8,
    ),
];

// The view of an index whose call with this number fails.
fn view_of(alloc: Global, row: &Row, failing: u64) -> Result<MemoryView, AllocError> {
    few_names::view_of(alloc, row.1, failing)
}

fn place_of(alloc: Global, row: &Row) -> Result<DirPlace, AllocError> {
    few_names::place_of(alloc, &row.0, row.1.len())
}

// The links of an index over a view, or those of the name of this unit.
fn links_over(
    alloc: Global,
    view: &mut MemoryView,
    dir: &DirPlace,
    unit: Option<u16>,
) -> Result<LinkList, Fail> {
    let up = Upcase::standard(alloc)?;
    let Some(unit) = unit else {
        return Ok(walk(alloc, view, dir, &up)?);
    };
    let name = Name::checked(alloc, &[unit])?;
    Ok(find(alloc, view, dir, &up, &name)?)
}

// The files of those links.
fn files_of(alloc: Global, row: &Row, unit: Option<u16>) -> Result<Vec<u64>, Fail> {
    let dir = place_of(alloc, row)?;
    let mut view = view_of(alloc, row, 0)?;
    let links = links_over(alloc, &mut view, &dir, unit)?;
    Ok(files(alloc, &links)?)
}

// The unit that is looked for, if any, and the files that there are.
struct Asked(Option<u16>, &'static [u64]);

static OF_TREE: [Asked; 3] = [
    Asked(None, &[24, 25, 26]),
    Asked(Some(0x63), &[26]),
    Asked(Some(0x64), &[]),
];

static OF_SAME: [Asked; 2] = [
    Asked(None, &[24, 25, 26, 27, 28]),
    Asked(Some(0x62), &[25, 26, 27]),
];

#[test]
fn walks_and_finds(rt: HostRuntime) -> Result<(), Fail> {
    for (row, Asked(unit, want)) in OF_TREE.iter().enumerate() {
        let files = files_of(rt.alloc(), &TREE, *unit)?;
        assert_eq!(rt; files.as_slice(), *want, "row {row}");
    }
    Ok(())
}

#[test]
fn finds_each_same_name(rt: HostRuntime) -> Result<(), Fail> {
    for (row, Asked(unit, want)) in OF_SAME.iter().enumerate() {
        let files = files_of(rt.alloc(), &SAME, *unit)?;
        assert_eq!(rt; files.as_slice(), *want, "row {row}");
    }
    Ok(())
}

// What refuses a walk over an index whose call with this number fails.
fn fault_of(
    alloc: Global,
    up: &Upcase,
    row: &Row,
    failing: u64,
) -> Result<Option<TreeFault>, AllocError> {
    let dir = place_of(alloc, row)?;
    let mut view = view_of(alloc, row, failing)?;
    Ok(walk(alloc, &mut view, &dir, up).err())
}

// The node and the rule that a walk names, where one is broken.
fn broken(row: &Row) -> Option<TreeFault> {
    if row.3 == 0 {
        return None;
    }
    Some(TreeFault::Node {
        vcn: row.2,
        rule: row.3,
    })
}

#[test]
fn names_the_node_at_fault(rt: HostRuntime) -> Result<(), Fail> {
    let up = Upcase::standard(rt.alloc())?;
    for (i, row) in FAULTS.iter().enumerate() {
        assert_eq!(rt; fault_of(rt.alloc(), &up, row, 0)?, broken(row), "row {i}");
    }
    Ok(())
}

#[test]
fn tells_that_the_view_failed(rt: HostRuntime) -> Result<(), Fail> {
    let up = Upcase::standard(rt.alloc())?;
    let fault = fault_of(rt.alloc(), &up, &TREE, 2)?;
    assert_eq!(rt; fault, Some(TreeFault::View(ViewFault::Fault)));
    Ok(())
}
