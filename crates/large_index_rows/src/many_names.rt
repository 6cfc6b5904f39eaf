//! Indexes of many names, in blocks of memory that are changed in place.
ghost use Rattle.std.specs.Prelude.{◌≡◌, ◌*◌, ◌<◌, length, IfErr, IfOk, OnOk};
ghost use Rattle.block_view.specs.declared.fault.ViewFault.TheVariants.{Fault as fault};
ghost use Rattle.disk_model.specs.Sectors.{sectors};
ghost use Rattle.index_node.specs.Roots.{HaveSpelling};
ghost use Rattle.record_model.specs.Runs.{IsSmall};

use disk_model::Body;
use host_base::{Bytes, FileRef};
use index_change::{
    Block, BlockKind, DirPlace, DirPlan, TreeFault, View, ViewFault, plan_insert, plan_remove,
};
use index_node::{Node, have_spelling, write_root};
use index_tree::{BlockList, walk};
use record_model::{Entry, EntryList, Run, Runs};
use state_model::{ClusterSize, Extents};
use std::alloc::{AllocError, Global};
use std::process::Abort;
use std::test::Fail;
use std_values::is_file_name;
use upcase_order::Upcase;

#[derive(Drop)]
struct Disk {
    bodies: Vec<Bytes>,
    faults: u64,
}

fn number_of(block: Block) -> usize {
    (block.first / 8) as usize
}

fn give(bodies: &[Bytes], block: Block, out: &mut Body) -> Result<(), ViewFault>
    ensures size { OnOk result (length out.new.bytes ≡ 512 * sectors block.kind) }
    ensures fault { IfErr result (λ e. e ≡ fault) }
{
    let Some(bytes) = bodies.get(number_of(block)) else {
        return Err(ViewFault::Fault);
    };
    if bytes.len() != 512 * block.kind.sectors() {
        return Err(ViewFault::Fault);
    }
    out.set(bytes.as_slice(), false);
    Ok(())
}

impl View for Disk {
    ghost use Rattle.std.specs.Prelude.{None};

    ghost content = { λ _. None };

    ghost faults = { λ d. d.faults };

    ghost Kept = { Unit {0} };

    ghost kept = { λ _. tt };

    fn body(&mut self, block: Block, out: &mut Body) -> Result<(), ViewFault> {
        match give(&self.bodies, block, out) {
            Ok(()) => Ok(()),
            Err(cause) => {
                self.faults = self.faults.saturating_add(1);
                Err(cause)
            }
        }
    }

    ghost sized = { λ _. tt };
}

// An index, and the VCNs of its blocks that aren't in use.
#[derive(Drop)]
struct Index {
    disk: Disk,
    dir: DirPlace,
    free: Vec<u64>,
}

// The value of a root without entries.
static BARE: [u8; 0x30] = [
    0x30, 0, 0, 0, 1, 0, 0, 0, 0, 0x10, 0, 0, 8, 0, 0, 0, // the root's header
    0x10, 0, 0, 0, 0x20, 0, 0, 0, 0x20, 0, 0, 0, 0, 0, 0, 0, // the node's header
    0, 0, 0, 0, 0, 0, 0, 0, 0x10, 0, 0, 0, 2, 0, 0, 0, // the last entry
];

// The last entry of a node.
fn last(alloc: Global, down: Option<u64>) -> Entry {
    Entry {
        child: FileRef { number: 0, seq: 0 },
        key: Bytes::new(alloc),
        down,
    }
}

// The bytes of a node in a block.
#[tactic(auto, using(index_node::proofs::RootSpelled::each_block))]
fn node_bytes(alloc: Global, vcn: u64, entries: EntryList) -> Result<Bytes, AllocError>
    requires { HaveSpelling entries }
{
    let mut bytes = vec![in alloc; 0u8; 4096]?;
    Node::new(vcn, entries).write(&mut bytes);
    Ok(Bytes::from(bytes))
}

// The value of a root with these entries, over blocks of 8 clusters.
fn root_value(alloc: Global, root: EntryList) -> Result<Bytes, AllocError> {
    if !have_spelling(&root) {
        return Err(AllocError);
    }
    write_root(alloc, 8, root)
}

fn node(alloc: Global, vcn: u64, entries: EntryList) -> Result<Bytes, Fail> {
    if !have_spelling(&entries) {
        return Err(Fail::from(AllocError));
    }
    Ok(node_bytes(alloc, vcn, entries)?)
}

// The bytes of a node without entries.
fn bare_node(alloc: Global, vcn: u64) -> Result<Bytes, Fail> {
    let mut entries = EntryList::new(alloc);
    entries.push(last(alloc, None))?;
    node(alloc, vcn, entries)
}

// An index without entries over so many blocks, in a record with 400 other used bytes.
fn index_over(
    alloc: Global,
    bodies: Vec<Bytes>,
    blocks: BlockList,
    count: u64,
) -> Result<Index, Fail> {
    let mut free = Vec::new(alloc);
    for vcn in 0..count {
        free.push(vcn)?;
    }
    Ok(Index {
        disk: Disk { bodies, faults: 0 },
        dir: DirPlace {
            root: Bytes::copy_of(alloc, &BARE)?,
            blocks,
            step: 1,
            used: 448,
        },
        free,
    })
}

// An index without entries over so many blocks, one behind the other on the disk.
fn bare(alloc: Global, blocks: u64) -> Result<Index, Fail> {
    let mut bodies = Vec::new(alloc);
    let mut places = Vec::new(alloc);
    for vcn in 0..blocks {
        bodies.push(bare_node(alloc, vcn)?)?;
        places.push(Block {
            first: vcn.wrapping_mul(8),
            kind: BlockKind::Index,
        })?;
    }
    index_over(alloc, bodies, BlockList::of_blocks(alloc, places), blocks)
}

// The runs of a scattered allocation.
const SCATTERED: u64 = 500;

// One of runs of one block each, the last VCN first on the disk; counted by their VCNs, or by their
// places on the disk.
fn one_block(i: u64, turned: bool) -> Run
    requires { i < 500 }
    ensures { IsSmall result }
{
    let other = SCATTERED - 1 - i;
    let (vcn, lcn) = if turned { (other, i) } else { (i, other) };
    Run {
        vcn,
        lcn: Some(lcn),
        len: 1,
    }
}

// Those runs in their order, or the last one first.
fn scattered_runs(alloc: Global, turned: bool) -> Result<Runs, AllocError> {
    let mut runs = Runs::new(alloc);
    for i in 0..SCATTERED {
        runs.push(one_block(i, turned))?;
    }
    Ok(runs)
}

// An index without entries over an allocation in those runs.
fn scattered(alloc: Global, turned: bool) -> Result<Index, Fail> {
    let mut bodies = Vec::new(alloc);
    for lcn in 0..SCATTERED {
        bodies.push(bare_node(alloc, SCATTERED - 1 - lcn)?)?;
    }
    let Some(per) = ClusterSize::new(8) else {
        return Err(Fail::from(AllocError));
    };
    let extents = Extents {
        runs: scattered_runs(alloc, turned)?,
        allocated: 4096 * SCATTERED,
        real: 4096 * SCATTERED,
        initialised: 4096 * SCATTERED,
    };
    let blocks = BlockList::of_extents(alloc, per, extents);
    index_over(alloc, bodies, blocks, SCATTERED)
}

// Puts bytes from this place on, as far as there is room.
fn put(bytes: &mut [u8], from: usize, new: &[u8]) {
    for (i, byte) in new.iter().enumerate() {
        if i < bytes.len() && from < bytes.len() - i {
            bytes[from + i] = *byte;
        }
    }
}

// The key of the file with this number: a name of so many units, which stands by its number.
fn key(alloc: Global, number: u64, units: u8) -> Result<Entry, AllocError> {
    let mut key = vec![in alloc; 0u8; 0x42 + 2 * usize::from(units)]?;
    for unit in 0..usize::from(units) {
        put(&mut key, 0x42 + 2 * unit, &[0x61, 0]);
    }
    put(&mut key, 0, &[5, 0, 0, 0, 0, 0, 5]);
    let low = (number % 256) as u8;
    let high = (number / 256 % 8) as u8;
    put(&mut key, 0x40, &[units, 0, low, 0x40 + high]);
    Ok(Entry {
        child: FileRef { number, seq: 1 },
        key: Bytes::from(key),
        down: None,
    })
}

// Makes the changes of a plan.
fn make(index: &mut Index, plan: DirPlan) -> Result<(), Fail> {
    let DirPlan {
        root,
        changes,
        taken,
        freed,
    } = plan;
    for change in changes {
        if let Some(body) = index.disk.bodies.get_mut(number_of(change.block)) {
            *body = change.new;
        }
    }
    index.free.retain(|vcn| !taken.contains(vcn));
    for vcn in freed {
        index.free.push(vcn)?;
    }
    index.dir.used = 400 + (root.len() % 1024) as u32;
    index.dir.root = root;
    Ok(())
}

// Puts an entry in, or takes it out.
fn change(
    alloc: Global,
    index: &mut Index,
    up: &Upcase,
    key: &Entry,
    puts: bool,
) -> Result<(), Fail> {
    if index.free.len() < 17 || !is_file_name(key.key.as_slice()) {
        return Err(Fail::from(AllocError));
    }
    let fresh = Vec::from_slice(alloc, index.free.as_slice().split_at(17).0)?;
    if fresh.len() < 17 {
        return Err(Fail::from(AllocError));
    }
    let plan = if puts {
        plan_insert(alloc, &mut index.disk, &index.dir, up, key, &fresh)?
    } else {
        plan_remove(alloc, &mut index.disk, &index.dir, up, key, &fresh)?
    };
    make(index, plan)
}

// The files of the index in its order.
fn walked(alloc: Global, index: &mut Index, up: &Upcase) -> Result<Vec<u64>, Fail> {
    let links = walk(alloc, &mut index.disk, &index.dir, up)?;
    let mut numbers = Vec::new(alloc);
    for link in links.as_slice() {
        numbers.push(link.child.number)?;
    }
    Ok(numbers)
}

const MANY: u64 = 2000;

// Puts each name of four units in, from the last one down, or takes it out, from the first one up;
// the files of the index then.
fn walked_after(
    alloc: Global,
    index: &mut Index,
    up: &Upcase,
    puts: bool,
) -> Result<Vec<u64>, Fail> {
    for i in 0..MANY {
        let number = if puts { MANY - 1 - i } else { i };
        let key = key(alloc, number, 4)?;
        change(alloc, index, up, &key, puts)?;
    }
    walked(alloc, index, up)
}

// Whether these are the numbers from 0 on below `MANY`.
fn are_all(numbers: &[u64]) -> bool {
    for (i, number) in numbers.iter().enumerate() {
        if *number != i as u64 {
            return false;
        }
    }
    numbers.len() == MANY as usize
}

#[test]
fn takes_names_in_falling_order(rt: HostRuntime) -> Result<(), Fail> {
    let up = Upcase::standard(rt.alloc())?;
    let mut index = bare(rt.alloc(), 300)?;
    let numbers = walked_after(rt.alloc(), &mut index, &up, true)?;
    assert!(rt; are_all(numbers.as_slice()));
    let left = walked_after(rt.alloc(), &mut index, &up, false)?;
    assert_eq!(rt;
        (left.len(), index.free.len(), index.dir.root.as_slice()),
        (0, 300, BARE.as_slice())
    );
    Ok(())
}

#[test]
fn takes_names_in_scattered_blocks(rt: HostRuntime) -> Result<(), Fail> {
    let up = Upcase::standard(rt.alloc())?;
    for turned in [false, true] {
        let mut index = scattered(rt.alloc(), turned)?;
        let numbers = walked_after(rt.alloc(), &mut index, &up, true)?;
        assert!(rt; are_all(numbers.as_slice()), "turned {turned}");
    }
    Ok(())
}

// The numbers in another order, by a fixed generator.
fn shuffled(alloc: Global, seed: u64) -> Result<Vec<u64>, AllocError> {
    let mut numbers = Vec::new(alloc);
    for i in 0..MANY {
        numbers.push(i)?;
    }
    let mut state = seed;
    for i in 0..numbers.len() {
        state = state
            .wrapping_mul(6364136223846793005)
            .wrapping_add(1442695040888963407);
        let j = (state / 4294967296 % (i as u64 + 1)) as usize;
        if i < numbers.len() && j < numbers.len() {
            numbers.as_mut_slice().swap(i, j);
        }
    }
    Ok(numbers)
}

// How many units the name of a number has: 1 to 255.
fn units_of(number: u64) -> u8 {
    (number.wrapping_mul(7919) % 255) as u8 + 1
}

// The numbers that are there, rising.
fn numbers_there(alloc: Global, there: &[bool]) -> Result<Vec<u64>, AllocError> {
    let mut numbers = Vec::new(alloc);
    for (i, is) in there.iter().enumerate() {
        if *is {
            numbers.push(i as u64)?;
        }
    }
    Ok(numbers)
}

// Puts the name of a number in, or takes it out.
fn change_one(
    alloc: Global,
    index: &mut Index,
    up: &Upcase,
    number: u64,
    puts: bool,
) -> Result<(), Fail> {
    let key = key(alloc, number, units_of(number % MANY))?;
    change(alloc, index, up, &key, puts)
}

// Whether the walk gives the numbers that are there.
fn is_walked(alloc: Global, index: &mut Index, up: &Upcase, there: &[bool]) -> Result<bool, Fail> {
    let numbers = numbers_there(alloc, there)?;
    Ok(walked(alloc, index, up)?.as_slice() == numbers.as_slice())
}

// Puts all names in or takes them out, in another order, and compares the walk after each
// hundredth one. How many files the index has then.
fn change_all<R: Abort + AllocGlobal>(
    rt: &R,
    index: &mut Index,
    up: &Upcase,
    seed: u64,
    puts: bool,
) -> Result<usize, Fail> {
    let alloc = rt.alloc();
    let mut there = vec![in alloc; !puts; MANY as usize]?;
    for (i, number) in shuffled(alloc, seed)?.iter().enumerate() {
        change_one(alloc, index, up, *number, puts)?;
        if let Some(is) = there.get_mut(*number as usize) {
            *is = puts;
        }
        if i % 100 == 99 {
            assert!(rt; is_walked(alloc, index, up, &there)?, "after {i}");
        }
    }
    Ok(walked(alloc, index, up)?.len())
}

#[test]
fn takes_names_in_any_order(rt: HostRuntime) -> Result<(), Fail> {
    let up = Upcase::standard(rt.alloc())?;
    let mut index = bare(rt.alloc(), 600)?;
    let count = change_all(&rt, &mut index, &up, 1, true)?;
    assert_eq!(rt; count, MANY as usize);
    let left = change_all(&rt, &mut index, &up, 2, false)?;
    assert_eq!(rt;
        (left, index.free.len(), index.dir.root.as_slice()),
        (0, 600, BARE.as_slice())
    );
    Ok(())
}

// Six keys of 255 units, above nodes from `down` on.
fn full(alloc: Global, first: u64, down: Option<u64>) -> Result<EntryList, AllocError> {
    let mut entries = EntryList::new(alloc);
    for i in 0..6u64 {
        let mut entry = key(alloc, first.wrapping_add(i), 255)?;
        entry.down = down.map(|vcn| vcn.wrapping_add(i));
        entries.push(entry)?;
    }
    entries.push(last(alloc, down.map(|vcn| vcn.wrapping_add(6))))?;
    Ok(entries)
}

// An index of sixteen levels: below the root fifteen full nodes, each below the last entry of the
// one above it, beside empty ones.
fn deep(alloc: Global) -> Result<Index, Fail> {
    let mut index = bare(alloc, 120)?;
    for level in 0..15u64 {
        let down = if level == 14 {
            None
        } else {
            Some(7 * level + 1)
        };
        let body = node(alloc, 7 * level, full(alloc, 6 * level, down)?)?;
        if let Some(place) = index.disk.bodies.get_mut(7 * level as usize) {
            *place = body;
        }
    }
    let mut root = EntryList::new(alloc);
    root.push(last(alloc, Some(0)))?;
    index.dir.root = root_value(alloc, root)?;
    index.dir.used = 600;
    index.free.retain(|vcn| 98 < *vcn);
    Ok(index)
}

// What refuses one more name of 255 units.
fn refused(alloc: Global, index: &mut Index, up: &Upcase) -> Result<Option<TreeFault>, Fail> {
    let key = key(alloc, 1000, 255)?;
    if !is_file_name(key.key.as_slice()) || index.free.len() < 17 {
        return Ok(None);
    }
    Ok(plan_insert(alloc, &mut index.disk, &index.dir, up, &key, &index.free).err())
}

// How many files a walk gives, and what refuses one more name.
fn walked_and_refused(
    alloc: Global,
    index: &mut Index,
    up: &Upcase,
) -> Result<(usize, Option<TreeFault>), Fail> {
    let count = walked(alloc, index, up)?.len();
    Ok((count, refused(alloc, index, up)?))
}

#[test]
fn has_no_level_more_than_sixteen(rt: HostRuntime) -> Result<(), Fail> {
    let up = Upcase::standard(rt.alloc())?;
    let mut index = deep(rt.alloc())?;
    let (count, fault) = walked_and_refused(rt.alloc(), &mut index, &up)?;
    assert_eq!(rt; count, 90);
    assert_eq!(rt; fault, Some(TreeFault::Deep { height: 16 }));
    Ok(())
}
