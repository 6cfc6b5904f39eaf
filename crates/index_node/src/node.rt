ghost use Rattle.std.specs.Prelude.{◌≡◌, ◌+◌, ◌<◌, ◌≤◌, true, OnOk, OnErr, IfOk, length};
ghost use Rattle.disk_model.specs.host_base.Answers.{Gives};
ghost use Rattle.disk_model.specs.Content.{is_signed};
ghost use Rattle.disk_model.specs.declared.block.BlockKind.TheVariants.{Index as index_block};
ghost use Rattle.record_model.specs.Values.{is_file_name};
ghost use Rattle.record_model.specs.Nodes.{node_used, node_at, root_at, node_spelling, FitsNode};
ghost use Rattle.index_node.specs.Faults.{rule_cause, full_cause};
ghost use Rattle.index_node.specs.Edits.{inserted, without_entry, left_entries, left_half, right_half};

use crate::fault::NodeFault;
use crate::header::{has_root_header, node_entries};
use crate::room::{named_length, node_used};
use crate::writing::{children_of, put_block_head, put_entries, put_zeros};
use disk_model::{Bytes, FileRef, Memory, u64_at};
use record_model::{Entry, EntryList};
use std::alloc::Global;
use std::marker::Model;

// The bytes of a block from its node header on.
const ROOM: usize = 4072;

/// A node in an index block: its own VCN, its LSN, and its entries in order, of which the last one
/// has no key.
#[derive(Debug, Drop)]
pub struct Node {
    vcn: u64,
    lsn: u64,
    entries: EntryList,
}

impl Model for Node {
    ghost use Rattle.std.specs.Prelude.{◌≤◌};
    ghost use Rattle.record_model.specs.Nodes.{Node as NodeOf, node_used};

    ghost Value = { NodeOf };

    ghost view = { λ n. record { vcn = n.vcn; lsn = n.lsn; entries = n.entries } };

    ghost invariant = { λ n. node_used n.entries ≤ 8192 };
}

// Whether an index block begins `INDX`.
fn is_signed(body: &[u8]) -> bool
    ensures { result ≡ is_signed index_block body.now }
{
    body.starts_with(b"INDX")
}

/// The entries of an index root's value (Linux-NTFS documentation, "$INDEX_ROOT"). `Rule` has the
/// least rule that its bytes break, and `Memory` is want of memory. It takes time and memory linear
/// in the bytes.
#[tactic(auto, using(crate::proofs::Whole::root_answers))]
pub fn read_root(alloc: Global, value: &[u8]) -> Result<EntryList, NodeFault>
    ensures value { Gives (λ entries. entries) rule_cause result (root_at value.now) }
{
    if !has_root_header(value) {
        return Err(NodeFault::Rule { rule: 3 });
    }
    node_entries(alloc, value.split_at(0x10).1)
}

impl Node {
    /// The node of an index block's 4,096 bytes, whose update sequence is undone (Linux-NTFS
    /// documentation, "Index Record"). `Rule` has the least rule that they break, and `Memory` is
    /// want of memory. It takes time and memory linear in the bytes.
    #[tactic(auto, using(crate::proofs::Whole::block_answers))]
    pub fn read(alloc: Global, body: &[u8]) -> Result<Node, NodeFault>
        requires { length body.now ≡ 4096 }
        ensures value { Gives (λ n. n) rule_cause result (node_at body.now) }
    {
        if !is_signed(body) {
            return Err(NodeFault::Rule { rule: 1 });
        }
        let entries = node_entries(alloc, body.split_at(0x18).1)?;
        Ok(Node {
            vcn: u64_at(body, 0x10),
            lsn: u64_at(body, 0x08),
            entries,
        })
    }

    /// A node of these entries, of which the last one has no key, under this VCN, in a block that
    /// was never written: its LSN is 0. The entries take at most 8,152 bytes.
    pub fn new(vcn: u64, entries: EntryList) -> Node
        requires { node_used entries ≤ 8192 }
        ensures { result ≡ record { vcn = vcn; lsn = 0; entries = entries } }
    {
        Node {
            vcn,
            lsn: 0,
            entries,
        }
    }

    /// The node's own VCN.
    pub fn vcn(&self) -> u64
        ensures { result ≡ self.now.vcn }
    {
        self.vcn
    }

    /// The LSN of its block.
    pub fn lsn(&self) -> u64
        ensures { result ≡ self.now.lsn }
    {
        self.lsn
    }

    /// Gives the node this VCN.
    pub fn set_vcn(&mut self, vcn: u64)
        ensures { self.new ≡ record { vcn = vcn; lsn = self.old.lsn; entries = self.old.entries } }
    {
        self.vcn = vcn;
    }

    /// The used bytes of the node's block, counted from its node header as it is written; above
    /// 4,072 they have no room. Linear in the entries.
    pub fn used(&self) -> u32
        ensures { result ≡ node_used self.now.entries }
    {
        node_used(self.entries.as_slice()) as u32
    }

    /// The entries in order, the last one among them.
    pub fn entries(&self) -> &EntryList
        ensures value { result.now ≡ self.now.entries }
    {
        &self.entries
    }

    /// Writes the node as the 4,096 bytes of an index block, with the array of the update sequence
    /// as zeros; bytes that nothing names are zeros. The node's used bytes are at most 4,072.
    /// Linear in the bytes.
    pub fn write(&self, out: &mut [u8])
        requires fits { FitsNode self.now }
        requires whole { length out.old ≡ 4096 }
        ensures { out.new ≡ node_spelling self.now }
    {
        let entries = self.entries.as_slice();
        let used = node_used(entries) as u32;
        put_block_head(out, self.lsn, self.vcn, used, children_of(entries));
        let end = put_entries(out, entries);
        put_zeros(out, end, out.len() - end);
    }

    /// Puts a copy of an entry before the one at `at`, and so before the last entry. Its key is a
    /// file-name value, and it has a child where the node's entries have. `Full` comes exactly
    /// where the used bytes, counted from the node header as it is written, would be above 4,072;
    /// `Memory` is want of memory. After either the node is as before. Linear in the entries.
    #[tactic(auto, using(crate::proofs::Sizes::used_inserted))]
    pub fn insert(&mut self, at: u32, entry: &Entry) -> Result<(), NodeFault>
        requires place { at < length self.old.entries }
        requires key { is_file_name entry.now.key ≡ true }
        ensures value { Gives (λ _. self.new) full_cause result (inserted self.old at entry.now) }
        ensures unchanged { OnErr result (self.new ≡ self.old) }
    {
        let used = node_used(self.entries.as_slice()) + named_length(entry);
        if used > ROOM {
            return Err(NodeFault::Full { used: used as u32 });
        }
        let copy = entry.clone()?;
        self.entries.insert(at as usize, copy)?;
        Ok(())
    }

    /// Takes the entry at `at` out, which is not the last one. Linear in the entries behind it.
    pub fn remove(&mut self, at: u32)
        requires { at + 1 < length self.old.entries }
        ensures { self.new ≡ without_entry self.old at }
    {
        let _ = self.entries.remove(at as usize);
    }

    /// Cuts the node in two at the entry at `at`, which is not the last one and goes up: it stands
    /// in neither half, so copy it before. The entries before it are answered as a node of their
    /// own, whose last entry has its child; that node has no block yet, and VCN and LSN 0. The
    /// entries after it stay in this node, under its VCN. The error is want of memory, and leaves
    /// the node. Linear in the entries.
    pub fn split(&mut self, at: u32) -> Result<Node, Memory>
        requires { at + 1 < length self.old.entries }
        ensures left { IfOk result (λ left. left ≡ left_half self.old at) }
        ensures right { OnOk result (self.new ≡ right_half self.old at) }
        ensures unchanged { OnErr result (self.new ≡ self.old) }
    {
        let right = self.entries.split_off(at as usize + 1)?;
        let mut left = std::mem::replace(&mut self.entries, right);
        end_at(&mut left, at as usize);
        Ok(Node {
            vcn: 0,
            lsn: 0,
            entries: left,
        })
    }
}

// Makes the final entry, at `at`, the last one of a node, with the child that it has.
fn end_at(entries: &mut EntryList, at: usize)
    requires { length entries.old ≡ at + 1 }
    ensures { entries.new ≡ left_entries entries.old at }
{
    let last = Entry {
        child: FileRef { number: 0, seq: 0 },
        key: Bytes::new(entries.allocator()),
        down: entries.as_slice()[at].down,
    };
    let _ = entries.replace(at, last);
}
