ghost use Rattle.std.specs.Prelude.{◌≡◌, [], ◌∷◌, ◌++◌, IfOk, OnOk, OnErr};

use std::alloc::{AllocError, Global};
use std::marker::Model;
use utf16_name::{FileRef, Name};

/// A record of the change journal (Microsoft's reference, "USN_RECORD_V2").
#[derive(Debug, PartialEq, Eq, Drop)]
pub struct Usn {
    /// Where the record begins in the journal, in bytes.
    pub usn: u64,
    pub child: FileRef,
    pub parent: FileRef,
    pub reason: u32,
    /// The file's attributes.
    pub flags: u32,
    pub time: i64,
    pub source: u32,
    pub security: u32,
    pub name: Name,
}

impl Clone for Usn {
    fn clone(&self) -> Result<Self, AllocError>
        ensures { IfOk result (λ u. u ≡ self.now) }
    {
        Ok(Usn {
            usn: self.usn,
            child: self.child,
            parent: self.parent,
            reason: self.reason,
            flags: self.flags,
            time: self.time,
            source: self.source,
            security: self.security,
            name: self.name.clone()?,
        })
    }
}

/// Records of a journal, which contracts see as a list.
#[derive(Debug, Drop)]
pub struct UsnList {
    items: Vec<Usn>,
}

impl Model for UsnList {
    ghost use Rattle.std.specs.Prelude.{List};
    ghost use Rattle.file_tree.specs.declared.journal.Usn.{Usn};

    ghost Value = { List Usn };

    ghost view = { λ l. l.items.items };
}

impl From<Vec<Usn>> for UsnList {
    ghost from_gives = { λ items list. list ≡ items.items };

    fn from(items: Vec<Usn>) -> Self {
        UsnList { items }
    }
}

impl UsnList {
    /// No record; this takes no memory.
    pub fn new(alloc: Global) -> Self
        ensures { result ≡ [] }
    {
        UsnList {
            items: Vec::new(alloc),
        }
    }

    /// One record more at the end. The error is want of memory, and leaves the list.
    pub fn push(&mut self, entry: Usn) -> Result<(), AllocError>
        ensures ok { OnOk result (self.new ≡ self.old ++ entry ∷ []) }
        ensures err { OnErr result (self.new ≡ self.old) }
    {
        self.items.push(entry)?;
        Ok(())
    }

    /// The records in order.
    pub fn as_slice(&self) -> &[Usn]
        ensures { result.now ≡ self.now }
    {
        &self.items
    }
}

impl Clone for UsnList {
    fn clone(&self) -> Result<Self, AllocError>
        ensures { IfOk result (λ l. l ≡ self.now) }
    {
        let mut copy = UsnList::new(*self.items.allocator());
        for entry in &self.items {
            copy.push(entry.clone()?)?;
        }
        Ok(copy)
    }
}

/// The change journal of a volume. Places and sizes count bytes.
#[derive(Debug, Drop)]
pub struct Journal {
    /// The maximum size and the allocation delta.
    pub max: u64,
    pub delta: u64,
    /// Where the journal begins, and where its next record goes.
    pub first: u64,
    pub next: u64,
    /// The allocated size.
    pub reach: u64,
    /// Whether a record owns the bytes before `next` in its page; no where `next` begins a page.
    pub owned: bool,
    pub entries: UsnList,
}

impl Clone for Journal {
    fn clone(&self) -> Result<Self, AllocError>
        ensures { IfOk result (λ j. j ≡ self.now) }
    {
        Ok(Journal {
            max: self.max,
            delta: self.delta,
            first: self.first,
            next: self.next,
            reach: self.reach,
            owned: self.owned,
            entries: self.entries.clone()?,
        })
    }
}
