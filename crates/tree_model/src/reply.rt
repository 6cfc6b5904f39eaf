ghost use Rattle.std.specs.Prelude.{◌≡◌, [], ◌∷◌, ◌++◌, IfOk, OnOk, OnErr};

use file_tree::{Bytes, Kind, Name, UsnList, Why};
use std::alloc::{AllocError, Global};
use std::marker::Model;

/// Names, which contracts see as a list of lists of units.
#[derive(Debug, Drop)]
pub struct NameList {
    items: Vec<Name>,
}

impl Model for NameList {
    ghost use Rattle.std.specs.Prelude.{List};
    ghost use Rattle.std.specs.Prelude.{ℕ};

    ghost Value = { List (List ℕ) };

    ghost view = { λ l. l.items.items };
}

impl From<Vec<Name>> for NameList {
    ghost from_gives = { λ items list. list ≡ items.items };

    fn from(items: Vec<Name>) -> Self {
        NameList { items }
    }
}

impl NameList {
    /// No name; this takes no memory.
    pub fn new(alloc: Global) -> Self
        ensures { result ≡ [] }
    {
        NameList {
            items: Vec::new(alloc),
        }
    }

    /// One name more at the end. The error is want of memory, and leaves the list.
    pub fn push(&mut self, name: Name) -> Result<(), AllocError>
        ensures ok { OnOk result (self.new ≡ self.old ++ name ∷ []) }
        ensures err { OnErr result (self.new ≡ self.old) }
    {
        self.items.push(name)?;
        Ok(())
    }

    /// The names in order.
    pub fn as_slice(&self) -> &[Name]
        ensures { result.now ≡ self.now }
    {
        &self.items
    }
}

impl Clone for NameList {
    fn clone(&self) -> Result<Self, AllocError>
        ensures { IfOk result (λ l. l ≡ self.now) }
    {
        let mut copy = NameList::new(*self.items.allocator());
        for name in &self.items {
            copy.push(name.clone()?)?;
        }
        Ok(copy)
    }
}

/// What is found of a name: the file's number, and the names of a path to it from the root on.
#[derive(Debug, Drop)]
pub struct Hit {
    pub child: u64,
    pub path: NameList,
}

/// What is found, which contracts see as a list.
#[derive(Debug, Drop)]
pub struct HitList {
    items: Vec<Hit>,
}

impl Model for HitList {
    ghost use Rattle.std.specs.Prelude.{List};
    ghost use Rattle.tree_model.specs.declared.reply.Hit.{Hit};

    ghost Value = { List Hit };

    ghost view = { λ l. l.items.items };
}

impl From<Vec<Hit>> for HitList {
    ghost from_gives = { λ items list. list ≡ items.items };

    fn from(items: Vec<Hit>) -> Self {
        HitList { items }
    }
}

impl HitList {
    /// Nothing; this takes no memory.
    pub fn new(alloc: Global) -> Self
        ensures { result ≡ [] }
    {
        HitList {
            items: Vec::new(alloc),
        }
    }

    /// One more at the end. The error is want of memory, and leaves the list.
    pub fn push(&mut self, hit: Hit) -> Result<(), AllocError>
        ensures ok { OnOk result (self.new ≡ self.old ++ hit ∷ []) }
        ensures err { OnErr result (self.new ≡ self.old) }
    {
        self.items.push(hit)?;
        Ok(())
    }

    /// What is found, in order.
    pub fn as_slice(&self) -> &[Hit]
        ensures { result.now ≡ self.now }
    {
        &self.items
    }
}

/// What is answered to an operation or a find.
#[derive(Debug, Drop)]
pub enum Reply {
    /// A file was made: its number and sequence.
    Created {
        number: u64,
        seq: u16,
    },
    /// So many bytes were written.
    Wrote {
        count: u64,
    },
    /// A file has this size in bytes.
    Size {
        size: u64,
    },
    /// Bytes of a file.
    Bytes {
        bytes: Bytes,
    },
    /// A file: its number, sequence and kind, how many long names it has, its size in bytes and in
    /// clusters, and its four times.
    Stat {
        number: u64,
        seq: u16,
        kind: Kind,
        links: u64,
        size: u64,
        clusters: u64,
        created: u64,
        modified: u64,
        changed: u64,
        read_at: u64,
    },
    /// The long names of a directory, in order.
    Names {
        names: NameList,
    },
    /// A file has one name more.
    Linked,
    /// A file has another name.
    Renamed,
    /// A name of a file is gone.
    Removed,
    /// What so many turns changed is on the disk.
    Synced {
        turns: u64,
    },
    /// The name index stands at this USN.
    Index {
        usn: u64,
    },
    /// What was found of a name.
    Found {
        hits: HitList,
    },
    /// Records of the change journal, and the USN behind them.
    Journal {
        next: u64,
        entries: UsnList,
    },
    /// A part of a path is no name, or no new one.
    BadName,
    /// The walk finds no file for this part; 0 is the root.
    NotFound {
        part: u64,
    },
    /// The file that this part names must be a directory and isn't; 0 is the root.
    NotDirectory {
        part: u64,
    },
    /// The file is a directory.
    IsDirectory,
    /// The file or the directory is one of the volume itself.
    System,
    /// The file isn't read or changed, and why.
    FixedBy {
        why: Why,
    },
    /// The directory has such a name.
    Exists,
    /// The directory has names.
    NotEmpty,
    /// The directory would come into itself.
    IntoItself,
    /// Too many bytes would have to be written for the file to end there.
    TooLong {
        end: u64,
    },
    /// The file table has so many records, and can't have more.
    MftFull {
        records: u64,
    },
    /// So many clusters are free, and so many are needed.
    NoSpace {
        room: u64,
        needed: u64,
    },
    /// A file record would have so many bytes in use.
    RecordFull {
        used: u64,
    },
    /// An index of this height would need another level.
    IndexDeep {
        height: u64,
    },
    /// The journal begins behind the position that was asked for, at this USN.
    Trimmed {
        first: u64,
    },
    /// The journal's next record goes to this USN, before the position that was asked for.
    Ahead {
        next: u64,
    },
    /// A call of the device failed.
    Fault,
    /// Memory was wanting.
    Memory,
}
