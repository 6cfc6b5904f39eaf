ghost use Rattle.std.specs.Prelude.{◌≡◌, ◌<◌, ◌≤◌, [], ◌∷◌, ◌++◌, OnOk, OnErr, IfOk, insert, remove, set, slice_get, take, drop, length};
ghost use Rattle.record_model.specs.Nodes.{last_entry};

use disk_model::{Bytes, FileRef};
use std::alloc::{AllocError, Global};
use std::marker::Model;

/// An entry of an index node (Linux-NTFS documentation, "Index Entry").
#[derive(Debug, PartialEq, Eq, Drop)]
pub struct Entry {
    /// The file that the entry names; number 0 and sequence 0 in the last entry of a node.
    pub child: FileRef,
    /// The key, a file-name value; the last entry of a node has none.
    pub key: Bytes,
    /// The VCN of the node whose entries stand before this one, where there is one.
    pub down: Option<u64>,
}

impl Clone for Entry {
    fn clone(&self) -> Result<Self, AllocError>
        ensures { IfOk result (λ entry. entry ≡ self.now) }
    {
        Ok(Entry {
            child: self.child,
            key: self.key.clone()?,
            down: self.down,
        })
    }
}

/// The last entry of an index node, with this child behind the other entries (Linux-NTFS
/// documentation, "Index Entry").
pub fn last_entry(alloc: Global, down: Option<u64>) -> Entry
    ensures { result ≡ last_entry down }
{
    Entry {
        child: FileRef { number: 0, seq: 0 },
        key: Bytes::new(alloc),
        down,
    }
}

/// The entries of an index node, which contracts see as a list. The last one has an empty key.
#[derive(Debug, Drop)]
pub struct EntryList {
    items: Vec<Entry>,
}

impl Model for EntryList {
    ghost use Rattle.std.specs.Prelude.{List};
    ghost use Rattle.record_model.specs.declared.entry.Entry.{Entry};

    ghost Value = { List Entry };

    ghost view = { λ l. l.items.items };
}

impl EntryList {
    /// No entry; this takes no memory.
    pub fn new(alloc: Global) -> Self
        ensures { result ≡ [] }
    {
        EntryList {
            items: Vec::new(alloc),
        }
    }

    /// One entry more at the end. The error is want of memory, and leaves the list.
    pub fn push(&mut self, entry: Entry) -> Result<(), AllocError>
        ensures ok { OnOk result (self.new ≡ self.old ++ entry ∷ []) }
        ensures err { OnErr result (self.new ≡ self.old) }
    {
        self.items.push(entry)?;
        Ok(())
    }

    /// The entries in the node's order.
    pub fn as_slice(&self) -> &[Entry]
        ensures { result.now ≡ self.now }
    {
        &self.items
    }

    /// The allocator that the list has its memory from.
    pub fn allocator(&self) -> Global {
        *self.items.allocator()
    }

    /// How many entries there are.
    pub fn len(&self) -> usize
        ensures { result ≡ length self.now }
    {
        self.items.len()
    }

    /// Puts an entry before the one at `at`, or at the end. Linear in the entries behind it. The
    /// error is want of memory, and leaves the list.
    pub fn insert(&mut self, at: usize, entry: Entry) -> Result<(), AllocError>
        requires { at ≤ length self.old }
        ensures ok { OnOk result (self.new ≡ insert self.old at entry) }
        ensures err { OnErr result (self.new ≡ self.old) }
    {
        self.items.insert(at, entry)?;
        Ok(())
    }

    /// Takes the entry at `at` out. Linear in the entries behind it.
    pub fn remove(&mut self, at: usize) -> Entry
        requires { at < length self.old }
        ensures rest { self.new ≡ remove self.old at }
        ensures entry { self.old ≡ insert self.new at result }
    {
        self.items.remove(at)
    }

    /// Puts an entry in the place of the one at `at`, which it answers.
    pub fn replace(&mut self, at: usize, entry: Entry) -> Entry
        requires { at < length self.old }
        ensures list { self.new ≡ set self.old at entry }
        ensures entry { Some result ≡ slice_get self.old at }
    {
        std::mem::replace(&mut self.items[at], entry)
    }

    /// Takes the entries from `at` on out. The error is want of memory, and leaves the list.
    pub fn split_off(&mut self, at: usize) -> Result<EntryList, AllocError>
        requires { at ≤ length self.old }
        ensures ok { OnOk result (self.new ≡ take at self.old) }
        ensures later { IfOk result (λ l. l ≡ drop at self.old) }
        ensures err { OnErr result (self.new ≡ self.old) }
    {
        Ok(EntryList {
            items: self.items.split_off(at)?,
        })
    }
}
