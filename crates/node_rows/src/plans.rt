//! Plans of insertions and removals, over nodes in memory.
ghost use Rattle.std.specs.Prelude.{◌≡◌, ◌<◌, ◌≤◌, OnOk, IfOk, length, true};
ghost use Rattle.index_plan.specs.Room.{Sized};

use host_base::{Bytes, FileRef};
use index_model::{Key, ROOT_VCN};
use index_plan::{
    Draft, KeySide, Nodes, Numbers, PlanFault, ReadFault, Rooted, Target, Test, Write, is_sized,
    plan_insert, plan_remove,
};
use record_model::{Entry, EntryList};
use std::alloc::{AllocError, Global};
use std::test::Fail;

// A node of a last entry with this child.
fn last_node(alloc: Global, down: Option<u64>) -> Result<EntryList, AllocError> {
    let mut node = EntryList::new(alloc);
    node.push(Entry {
        child: FileRef { number: 0, seq: 0 },
        key: Bytes::new(alloc),
        down,
    })?;
    Ok(node)
}

// Nodes in memory; the place of one is its VCN.
#[derive(Drop)]
struct Store {
    nodes: Vec<EntryList>,
    faults: u64,
}

fn copy_of(alloc: Global, node: &EntryList) -> Result<EntryList, AllocError> {
    let mut copy = EntryList::new(alloc);
    for entry in node.as_slice() {
        copy.push(entry.clone()?)?;
    }
    Ok(copy)
}

impl Nodes for Store {
    ghost use Rattle.std.specs.Prelude.{None};

    ghost reads = { λ _. None };

    ghost faults = { λ s. s.faults };

    fn read(&mut self, alloc: Global, vcn: u64) -> Result<EntryList, ReadFault> {
        let Some(node) = self.nodes.get(vcn as usize) else {
            return Err(ReadFault::Rule { rule: 7 });
        };
        match copy_of(alloc, node) {
            Err(_) => Err(ReadFault::Memory),
            Ok(copy) => {
                if copy.len() > 0 && is_sized(&copy) {
                    return Ok(copy);
                }
                self.faults = self.faults.saturating_add(1);
                Err(ReadFault::Failed)
            }
        }
    }
}

// A number that stands before the greater numbers.
#[derive(Drop)]
struct Number(u64);

impl Test for Number {
    ghost use Rattle.std.specs.Prelude.{nat_lt};

    ghost goes = { λ s k. nat_lt s.0 k.child.number };

    fn goes_before(&self, entry: &Entry) -> bool {
        self.0 < entry.child.number
    }
}

impl Target for Number {
    ghost use Rattle.std.specs.Prelude.{nat_lt, if◌then◌else◌};
    ghost use Rattle.index_plan.specs.declared.side.KeySide.TheVariants.{Behind, Here, Before};

    ghost side = { λ s k. if nat_lt k.child.number s.0 then Behind else (if nat_lt s.0 k.child.number then Before else Here) };

    fn side(&self, entry: &Entry) -> KeySide {
        if entry.child.number < self.0 {
            return KeySide::Behind;
        }
        if self.0 < entry.child.number {
            return KeySide::Before;
        }
        KeySide::Here
    }
}

// A directory's index: its nodes, the root, and VCNs that aren't in use.
#[derive(Drop)]
struct Index {
    store: Store,
    root: EntryList,
    free: Vec<u64>,
}

impl Index {
    fn new(alloc: Global, blocks: u64) -> Result<Index, Fail> {
        let mut nodes = Vec::new(alloc);
        let mut free = Vec::new(alloc);
        for vcn in 0..blocks {
            nodes.push(EntryList::new(alloc))?;
            free.push(vcn)?;
        }
        Ok(Index {
            store: Store { nodes, faults: 0 },
            root: last_node(alloc, None)?,
            free,
        })
    }

    // Seventeen VCNs, taken from the free ones.
    fn fresh(&mut self, alloc: Global) -> Result<Vec<u64>, Fail> {
        let mut fresh = Vec::new(alloc);
        for _ in 0..17 {
            if let Some(vcn) = self.free.pop() {
                fresh.push(vcn)?;
            }
        }
        Ok(fresh)
    }

    // Makes the writes of a plan.
    fn take(&mut self, rooted: Rooted) -> Result<(), Fail> {
        let Rooted { root, plan } = rooted;
        let (writes, fresh) = plan.into_parts();
        for write in writes {
            let Write { vcn, entries } = write;
            if let Some(node) = self.store.nodes.get_mut(vcn as usize) {
                *node = entries;
            }
        }
        for vcn in fresh {
            self.free.push(vcn)?;
        }
        self.root = root;
        Ok(())
    }

    // The plan that puts a number in, with a key of so many bytes, where the index has so many
    // levels.
    fn plan_with(
        &mut self,
        alloc: Global,
        number: u64,
        bytes: usize,
        fresh: Vec<u64>,
        height: u32,
    ) -> Result<Rooted, PlanFault> {
        let root = copy_of(alloc, &self.root)?;
        if root.len() == 0 || fresh.len() < 17 {
            return Err(PlanFault::Memory);
        }
        let key = Key {
            child: FileRef { number, seq: 1 },
            value: Bytes::from(vec![in alloc; 7u8; bytes]?),
        };
        let draft = Draft::new(alloc, fresh);
        plan_insert(
            &mut self.store,
            alloc,
            &Number(number),
            root,
            key,
            draft,
            600,
            height,
        )
    }

    fn insert(&mut self, alloc: Global, number: u64, bytes: usize) -> Result<(), Fail> {
        let fresh = self.fresh(alloc)?;
        let rooted = self.plan_with(alloc, number, bytes, fresh, 3)?;
        self.take(rooted)
    }

    // The plan that takes a number out.
    fn plan_without(
        &mut self,
        alloc: Global,
        number: u64,
        fresh: Vec<u64>,
    ) -> Result<(Rooted, Numbers), PlanFault> {
        if fresh.len() < 17 {
            return Err(PlanFault::Memory);
        }
        let root = copy_of(alloc, &self.root)?;
        let draft = Draft::new(alloc, fresh);
        plan_remove(&mut self.store, alloc, &Number(number), root, draft, 600, 3)
    }

    fn remove(&mut self, alloc: Global, number: u64) -> Result<(), Fail> {
        let fresh = self.fresh(alloc)?;
        let (rooted, freed) = self.plan_without(alloc, number, fresh)?;
        self.take(rooted)?;
        for vcn in freed.into_vec() {
            self.free.push(vcn)?;
        }
        Ok(())
    }

    // The numbers in the order of the walk, from these entries down, on so many levels.
    fn walk(&self, node: &EntryList, levels: u32, numbers: &mut Vec<u64>) -> Result<(), Fail> {
        for (i, entry) in node.as_slice().iter().enumerate() {
            if let Some(vcn) = entry.down {
                if levels > 0 {
                    if let Some(below) = self.store.nodes.get(vcn as usize) {
                        self.walk(below, levels - 1, numbers)?;
                    }
                }
            }
            if i != node.len() - 1 {
                numbers.push(entry.child.number)?;
            }
        }
        Ok(())
    }

    fn numbers(&self, alloc: Global) -> Result<Vec<u64>, Fail> {
        let mut numbers = Vec::new(alloc);
        self.walk(&self.root, 16, &mut numbers)?;
        Ok(numbers)
    }

    // What refuses a plan that puts 1 in, where the index has so many levels.
    fn refused_with(&mut self, alloc: Global, height: u32) -> Result<Option<PlanFault>, Fail> {
        let fresh = self.fresh(alloc)?;
        Ok(self.plan_with(alloc, 1, 500, fresh, height).err())
    }

    // What refuses a plan that takes a number out.
    fn refused_without(&mut self, alloc: Global, number: u64) -> Result<Option<PlanFault>, Fail> {
        let fresh = self.fresh(alloc)?;
        Ok(self.plan_without(alloc, number, fresh).err())
    }
}

// An index of so many keys, put in from the last one down.
fn filled(alloc: Global, keys: u64) -> Result<Index, Fail> {
    let mut index = Index::new(alloc, 120)?;
    for number in (0..keys).rev() {
        index.insert(alloc, number, 500)?;
    }
    Ok(index)
}

#[test]
fn puts_two_hundred_keys_in(rt: HostRuntime) -> Result<(), Fail> {
    let index = filled(rt.alloc(), 200)?;
    let numbers = index.numbers(rt.alloc())?;
    assert_eq!(rt; numbers.len(), 200);
    for (i, number) in numbers.iter().enumerate() {
        assert_eq!(rt; *number, i as u64, "at {i}");
    }
    Ok(())
}

#[test]
fn takes_two_hundred_keys_out(rt: HostRuntime) -> Result<(), Fail> {
    let mut index = filled(rt.alloc(), 200)?;
    for number in 0..200u64 {
        index.remove(rt.alloc(), number * 77 % 200)?;
        let left = index.numbers(rt.alloc())?.len() as u64;
        assert_eq!(rt; left, 199 - number, "after {number}");
    }
    let absent = index.refused_without(rt.alloc(), 5)?;
    assert_eq!(rt; absent, Some(PlanFault::Absent));
    Ok(())
}

// An index of the key 2.
fn with_a_key(alloc: Global) -> Result<Index, Fail> {
    let mut index = Index::new(alloc, 120)?;
    index.insert(alloc, 2, 500)?;
    Ok(index)
}

#[test]
fn refuses_a_level_too_many(rt: HostRuntime) -> Result<(), Fail> {
    let mut index = with_a_key(rt.alloc())?;
    let deep = index.refused_with(rt.alloc(), 16)?;
    assert_eq!(rt; deep, Some(PlanFault::Deep { height: 16 }));
    Ok(())
}

#[test]
fn names_the_node_of_a_child_outside(rt: HostRuntime) -> Result<(), Fail> {
    let mut index = with_a_key(rt.alloc())?;
    index.root = last_node(rt.alloc(), Some(120))?;
    let broken = Some(PlanFault::Node {
        vcn: ROOT_VCN,
        rule: 7,
    });
    assert_eq!(rt; index.refused_with(rt.alloc(), 3)?, broken);
    assert_eq!(rt; index.refused_without(rt.alloc(), 1)?, broken);
    Ok(())
}
