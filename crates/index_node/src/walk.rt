ghost use Rattle.std.specs.Prelude.{◌≡◌, ◌+◌, ◌*◌, ◌≤◌, true, length, IfOk, OnOk};
ghost use Rattle.disk_model.specs.host_base.Answers.{Gives};
ghost use Rattle.disk_model.specs.Numbers.{field};
ghost use Rattle.record_model.specs.Nodes.{child_flag, has_key};
ghost use Rattle.index_node.specs.Faults.{rule_cause};
ghost use Rattle.index_node.specs.Walks.{next_of, nothing_found, with_found, verdict_of, entries_at};

use crate::entries::{child_flag, entry_of, has_entry, is_last};
use crate::fault::NodeFault;
use disk_model::u16_at;
use record_model::EntryList;
use std::alloc::{AllocError, Global};

// What stands at the front of the bytes that are left.
enum Next {
    // An entry of this length before the last one.
    Inner { length: usize },
    Last { length: usize },
    // There is no room for an entry.
    Short,
    // An entry whose length or key is at fault.
    Faulty,
}

// What the entries so far come to.
#[derive(Drop)]
struct Found {
    entries: EntryList,
    // Whether each child flag is that of the node.
    same: bool,
}

#[tactic(auto, unfolding(crate::specs::Walks::next_of))]
fn next_of(alloc: Global, bytes: &[u8]) -> Result<Next, AllocError>
    ensures { IfOk result (λ next. next ≡ next_of bytes.now) }
{
    if bytes.len() < 0x10 {
        return Ok(Next::Short);
    }
    if !has_entry(alloc, bytes)? {
        return Ok(Next::Faulty);
    }
    let length = usize::from(u16_at(bytes, 0x08));
    if is_last(bytes) {
        return Ok(Next::Last { length });
    }
    Ok(Next::Inner { length })
}

impl Found {
    // Before the first entry.
    fn new(alloc: Global) -> Self
        ensures { result ≡ nothing_found }
    {
        Found {
            entries: EntryList::new(alloc),
            same: true,
        }
    }

    // One entry more, in a node with this flag.
    #[tactic(auto, unfolding(crate::specs::Walks::with_found))]
    fn add(&mut self, alloc: Global, flag: u16, piece: &[u8]) -> Result<(), AllocError>
        requires front { 0x10 ≤ length piece.now }
        requires own_length { field 0x08 2 piece.now ≡ length piece.now }
        requires key { has_key piece.now ≡ true }
        ensures { OnOk result (self.new ≡ with_found flag self.old piece.now) }
    {
        let entry = entry_of(alloc, piece)?;
        self.same = self.same && child_flag(piece) == flag;
        self.entries.push(entry)?;
        Ok(())
    }

    // The entries, or rule 6.
    fn verdict(self) -> Result<EntryList, NodeFault>
        ensures { Gives (λ entries. entries) rule_cause result (verdict_of self) }
    {
        if !self.same {
            return Err(NodeFault::Rule { rule: 6 });
        }
        Ok(self.entries)
    }
}

/// The entries in these bytes up to the last one, in a node with this flag, in one walk. `Rule` has
/// the least rule from 4 on that they break; a length or a key at fault ends the walk.
#[tactic(auto, using(crate::proofs::Walking::next))]
pub fn entries_at(alloc: Global, flag: u16, bytes: &[u8]) -> Result<EntryList, NodeFault>
    ensures { Gives (λ entries. entries) rule_cause result (entries_at flag bytes.now) }
{
    let mut found = Found::new(alloc);
    let mut rest = bytes;
    for _ in 0..bytes.len() / 0x10 + 1 {
        match next_of(alloc, rest)? {
            Next::Inner { length } => {
                let (piece, later) = rest.split_at(length);
                found.add(alloc, flag, piece)?;
                rest = later;
            }
            Next::Last { length } => {
                found.add(alloc, flag, rest.split_at(length).0)?;
                return found.verdict();
            }
            Next::Short => return Err(NodeFault::Rule { rule: 5 }),
            Next::Faulty => return Err(NodeFault::Rule { rule: 4 }),
        }
    }
    Err(NodeFault::Rule { rule: 5 })
}
