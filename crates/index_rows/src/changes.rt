//! Plans that put a name into an index over a view, or take one out of it.
ghost use Rattle.std.specs.Prelude.{All, IfOk, IfSome};
ghost use Rattle.block_view.specs.Changes.{Fits};

use crate::few_names::{self, Key, NO, Part, Spot, block, files, put};
use block_view::{MemoryView, Overlay, View};
use host_base::{Bytes, FileRef};
use index_change::{
    DirPlace, DirPlan, NodesPlan, TreeFault, ViewFault, lay_out, plan_insert, plan_level,
    plan_nodes, plan_remove,
};
use index_tree::walk;
use record_model::Entry;
use std::alloc::{AllocError, Global};
use std::test::Fail;
use std_values::is_file_name;
use upcase_order::Upcase;

// The root and the blocks of an index, two VCNs each.
struct Row(Spot, &'static [Part]);

// `b` in the root, with `a` in the block below it, and `c` in the one below the last entry.
static TREE: Row = Row(
    Spot(&[Key(25, 0x62, 0)], 2),
    &[
        Part(0, false, Spot(&[Key(24, 0x61, NO)], NO)),
        Part(2, false, Spot(&[Key(26, 0x63, NO)], NO)),
    ],
);

// A block whose child VCN is its own.
static LOOP: Row = Row(
    Spot(&[], 2),
    &[Part(0, false, Spot(&[], NO)), Part(2, false, Spot(&[], 2))],
);

// `b` in the root alone, and a torn block that isn't in use.
static ALONE: Row = Row(
    Spot(&[Key(25, 0x62, NO)], NO),
    &[Part(0, true, Spot(&[], NO))],
);

// A root without a key, over a block with `c`.
static KEYLESS: Row = Row(
    Spot(&[], 0),
    &[Part(0, false, Spot(&[Key(26, 0x63, NO)], NO))],
);

// `b` in the root, with fifteen blocks below it, each below the one before.
static DEEP: Row = Row(
    Spot(&[Key(25, 0x62, 0)], 30),
    &[
        Part(0, false, Spot(&[], 2)),
        Part(2, false, Spot(&[], 4)),
        Part(4, false, Spot(&[], 6)),
        Part(6, false, Spot(&[], 8)),
        Part(8, false, Spot(&[], 10)),
        Part(10, false, Spot(&[], 12)),
        Part(12, false, Spot(&[], 14)),
        Part(14, false, Spot(&[], 16)),
        Part(16, false, Spot(&[], 18)),
        Part(18, false, Spot(&[], 20)),
        Part(20, false, Spot(&[], 22)),
        Part(22, false, Spot(&[], 24)),
        Part(24, false, Spot(&[], 26)),
        Part(26, false, Spot(&[], 28)),
        Part(28, false, Spot(&[], NO)),
        Part(30, false, Spot(&[], NO)),
    ],
);

// The view of an index whose call with this number fails.
fn view_of(alloc: Global, row: &Row, failing: u64) -> Result<MemoryView, AllocError> {
    few_names::view_of(alloc, row.1, failing)
}

fn place_of(alloc: Global, row: &Row) -> Result<DirPlace, AllocError> {
    few_names::place_of(alloc, &row.0, row.1.len())
}

// An entry of the file with this number, with a name of one unit in directory 5/5.
fn entry(alloc: Global, number: u64, unit: u8) -> Result<Entry, AllocError> {
    let mut key = vec![in alloc; 0u8; 0x44]?;
    put(&mut key, 0, &[5, 0, 0, 0, 0, 0, 5]);
    put(&mut key, 0x40, &[1, 0, unit]);
    Ok(Entry {
        child: FileRef { number, seq: 1 },
        key: Bytes::from(key),
        down: None,
    })
}

// The place of an index, with seventeen blocks behind those in use.
fn place_with_fresh(alloc: Global, row: &Row) -> Result<DirPlace, AllocError> {
    let mut dir = place_of(alloc, row)?;
    for i in 0..17 {
        dir.blocks.push(block(row.1.len() + i))?;
    }
    Ok(dir)
}

// The VCNs of seventeen blocks from the one at this place on.
fn vcns_from(alloc: Global, first: usize) -> Result<Vec<u64>, AllocError> {
    let mut fresh = Vec::new(alloc);
    for i in 0..17u64 {
        fresh.push((first as u64).wrapping_add(i).wrapping_mul(2))?;
    }
    Ok(fresh)
}

// The VCNs of the blocks behind those in use.
fn fresh_of(alloc: Global, row: &Row) -> Result<Vec<u64>, AllocError> {
    vcns_from(alloc, row.1.len())
}

// The files of an index over a view, in its order.
fn files_over<V: View>(alloc: Global, view: &mut V, dir: &DirPlace) -> Result<Vec<u64>, Fail> {
    let up = Upcase::standard(alloc)?;
    let links = walk(alloc, view, dir, &up)?;
    Ok(files(alloc, &links)?)
}

// The files of an index after a plan.
fn files_after(alloc: Global, row: &Row, plan: DirPlan) -> Result<Vec<u64>, Fail>
    requires { All Fits plan.changes.items }
{
    let mut view = view_of(alloc, row, 0)?;
    let DirPlace { blocks, .. } = place_with_fresh(alloc, row)?;
    let DirPlan { root, changes, .. } = plan;
    let after = DirPlace {
        root,
        blocks,
        step: 2,
        used: 0,
    };
    let mut over = Overlay {
        view: &mut view,
        changes: &changes,
    };
    files_over(alloc, &mut over, &after)
}

// The plan that puts an entry into an index, or takes it out, over a view whose call with this
// number fails.
fn planned_failing(
    alloc: Global,
    row: &Row,
    key: &Entry,
    puts: bool,
    failing: u64,
) -> Result<DirPlan, TreeFault>
    ensures { IfOk result (λ plan. All Fits plan.changes.items) }
{
    let up = Upcase::standard(alloc).map_err(|_| TreeFault::View(ViewFault::Memory))?;
    let dir = place_with_fresh(alloc, row)?;
    let fresh = fresh_of(alloc, row)?;
    let mut view = view_of(alloc, row, failing)?;
    if !is_file_name(key.key.as_slice()) || fresh.len() < 17 {
        return Err(TreeFault::View(ViewFault::Memory));
    }
    if puts {
        return plan_insert(alloc, &mut view, &dir, &up, key, &fresh);
    }
    plan_remove(alloc, &mut view, &dir, &up, key, &fresh)
}

fn planned(alloc: Global, row: &Row, key: &Entry, puts: bool) -> Result<DirPlan, TreeFault>
    ensures { IfOk result (λ plan. All Fits plan.changes.items) }
{
    planned_failing(alloc, row, key, puts, 0)
}

// The plan that puts a name into `TREE`, or takes it out: how many blocks it changes, takes and
// frees, and the files of the index after it.
fn files_planned(
    alloc: Global,
    number: u64,
    unit: u8,
    puts: bool,
) -> Result<((usize, usize, usize), Vec<u64>), Fail> {
    let key = entry(alloc, number, unit)?;
    let plan = planned(alloc, &TREE, &key, puts)?;
    let counts = (plan.changes.len(), plan.taken.len(), plan.freed.len());
    Ok((counts, files_after(alloc, &TREE, plan)?))
}

#[test]
fn puts_a_name_in(rt: HostRuntime) -> Result<(), Fail> {
    let (counts, left) = files_planned(rt.alloc(), 27, 0x64, true)?;
    assert_eq!(rt; counts, (1, 0, 0));
    assert_eq!(rt; left.as_slice(), [24, 25, 26, 27].as_slice());
    Ok(())
}

// The name in the root: the one before it comes up in its place.
#[test]
fn takes_a_name_out(rt: HostRuntime) -> Result<(), Fail> {
    let (counts, left) = files_planned(rt.alloc(), 25, 0x62, false)?;
    assert_eq!(rt; counts, (1, 0, 0));
    assert_eq!(rt; left.as_slice(), [24, 26].as_slice());
    Ok(())
}

// What refuses the plan for the name of this unit of a file.
fn fault_planned(
    alloc: Global,
    row: &Row,
    number: u64,
    unit: u8,
    puts: bool,
) -> Result<Option<TreeFault>, AllocError> {
    let key = entry(alloc, number, unit)?;
    Ok(planned(alloc, row, &key, puts).err())
}

#[test]
fn tells_what_is_there(rt: HostRuntime) -> Result<(), Fail> {
    for (puts, want) in [(true, TreeFault::Present), (false, TreeFault::Absent)] {
        let fault = fault_planned(rt.alloc(), &TREE, 26, 0x43, puts)?;
        assert_eq!(rt; fault, Some(want), "puts {puts}");
    }
    Ok(())
}

#[test]
fn plans_nothing_over_a_fault(rt: HostRuntime) -> Result<(), Fail> {
    let broken = TreeFault::Node { vcn: 2, rule: 7 };
    for puts in [true, false] {
        let fault = fault_planned(rt.alloc(), &LOOP, 27, 0x64, puts)?;
        assert_eq!(rt; fault, Some(broken), "puts {puts}");
    }
    Ok(())
}

// The first node is read three times, to find the name, to hold the node and to change it; the way
// to the name in the root has two nodes, and one more is read to see that the index has another
// name.
#[test]
fn tells_that_the_view_failed(rt: HostRuntime) -> Result<(), Fail> {
    let fault = Some(TreeFault::View(ViewFault::Fault));
    for (number, unit, puts, calls) in [(27, 0x64, true, 3u64), (25, 0x62, false, 6u64)] {
        let key = entry(rt.alloc(), number, unit)?;
        for call in 1..calls + 2 {
            let want = if call <= calls { fault } else { None };
            let told = planned_failing(rt.alloc(), &TREE, &key, puts, call).err();
            assert_eq!(rt; told, want, "call {call}");
        }
    }
    Ok(())
}

// The place of `ALONE` with so many blocks, in a record without room.
fn full_place(alloc: Global, count: usize) -> Result<DirPlace, AllocError> {
    let mut dir = few_names::place_of(alloc, &ALONE.0, count)?;
    dir.used = 1024;
    Ok(dir)
}

// The plan of the nodes that puts `d` into `ALONE`, while no block is there.
fn nodes_planned(alloc: Global) -> Result<NodesPlan, TreeFault> {
    let up = Upcase::standard(alloc).map_err(|_| TreeFault::View(ViewFault::Memory))?;
    let dir = full_place(alloc, 0)?;
    let key = entry(alloc, 27, 0x64)?;
    let fresh = vcns_from(alloc, 0)?;
    let mut view = few_names::view_of(alloc, &[], 0)?;
    if !is_file_name(key.key.as_slice()) || fresh.len() < 17 {
        return Err(TreeFault::View(ViewFault::Memory));
    }
    plan_nodes(alloc, &mut view, &dir, &up, &key, &fresh)
}

// The plan of the directory with so many blocks.
fn laid_out(alloc: Global, nodes: NodesPlan, count: usize) -> Result<DirPlan, ViewFault>
    ensures { IfOk result (λ plan. All Fits plan.changes.items) }
{
    let dir = full_place(alloc, count)?;
    let mut view = view_of(alloc, &ALONE, 0)?;
    lay_out(alloc, &mut view, &dir, nodes)
}

#[test]
fn lays_out_once_there_is_a_block(rt: HostRuntime) -> Result<(), Fail> {
    let nodes = nodes_planned(rt.alloc())?;
    assert_eq!(rt; nodes.taken.as_slice(), [0].as_slice());
    let plan = laid_out(rt.alloc(), nodes, 1)?;
    assert_eq!(rt; plan.taken.as_slice(), [0].as_slice());
    let left = files_after(rt.alloc(), &ALONE, plan)?;
    assert_eq!(rt; left.as_slice(), [25, 27].as_slice());
    Ok(())
}

#[test]
fn lays_nothing_out_without_a_block(rt: HostRuntime) -> Result<(), Fail> {
    let nodes = nodes_planned(rt.alloc())?;
    let fault = laid_out(rt.alloc(), nodes, 0).err();
    assert_eq!(rt; fault, Some(ViewFault::Memory));
    Ok(())
}

// The plan of one level more, into the block behind those in use.
fn raised(alloc: Global, row: &Row) -> Result<Option<DirPlan>, TreeFault>
    ensures { IfOk result (λ o. IfSome o (λ plan. All Fits plan.changes.items)) }
{
    let up = Upcase::standard(alloc).map_err(|_| TreeFault::View(ViewFault::Memory))?;
    let dir = place_with_fresh(alloc, row)?;
    let mut view = view_of(alloc, row, 0)?;
    let fresh = (row.1.len() as u64).wrapping_mul(2);
    plan_level(alloc, &mut view, &dir, &up, fresh)
}

// The files of an index after a level more; none where it gets none.
fn files_raised(alloc: Global, row: &Row) -> Result<Vec<u64>, Fail> {
    match raised(alloc, row)? {
        None => Ok(Vec::new(alloc)),
        Some(plan) => files_after(alloc, row, plan),
    }
}

#[test]
fn puts_a_level_on(rt: HostRuntime) -> Result<(), Fail> {
    for (row, want) in [(&TREE, [24, 25, 26].as_slice()), (&KEYLESS, [].as_slice())] {
        let left = files_raised(rt.alloc(), row)?;
        assert_eq!(rt; left.as_slice(), want);
    }
    Ok(())
}

#[test]
fn puts_no_level_on(rt: HostRuntime) -> Result<(), Fail> {
    let broken = TreeFault::Node { vcn: 2, rule: 7 };
    for (row, want) in [(&LOOP, broken), (&DEEP, TreeFault::Deep { height: 16 })] {
        let fault = raised(rt.alloc(), row).err();
        assert_eq!(rt; fault, Some(want));
    }
    Ok(())
}
