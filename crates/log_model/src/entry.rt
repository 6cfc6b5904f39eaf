ghost use Rattle.std.specs.Prelude.{◌≡◌, ◌≤◌, ◌<◌, ◌^◌, length};
ghost use Rattle.disk_model.specs.Bytes.{up8};
ghost use Rattle.log_model.specs.Entries.{act_size, entry_size, FitsAct, FitsEntry};

use disk_model::Bytes;

/// What an entry does.
#[derive(Debug, PartialEq, Eq, Drop)]
pub enum Act {
    /// New bytes over old ones in the body of a block.
    Update {
        /// The block's first sector.
        first: u64,
        /// 0 for a sector of plain bytes, 1 for a file record, 2 for an index block.
        kind: u16,
        /// The first byte in the body.
        at: u16,
        /// The new bytes, and as many old ones: 1 to 1,900.
        redo: Bytes,
        undo: Bytes,
    },
    /// The transaction has ended.
    Commit,
}

/// An entry of the log (Linux-NTFS documentation, "$LogFile").
#[derive(Debug, PartialEq, Eq, Drop)]
pub struct Entry {
    /// The LSN, which tells the entry's place.
    pub lsn: u64,
    /// That of the transaction's entry before, or 0.
    pub previous: u64,
    /// The transaction, at least 1.
    pub tx: u32,
    pub act: Act,
}

// The least multiple of 8 that isn't below n.
fn up8(n: usize) -> usize
    requires { n < 2 ^ 32 }
    ensures { result ≡ up8 n }
{
    8 * ((n + 7) / 8)
}

impl Act {
    fn size(&self) -> usize
        requires { FitsAct self.now }
        ensures { result ≡ act_size self.now }
    {
        match self {
            Act::Update { redo, .. } => 0x58 + 2 * up8(redo.len()),
            Act::Commit => 0x58,
        }
    }
}

impl Entry {
    /// How many bytes the entry has in the log.
    pub fn size(&self) -> usize
        requires { FitsEntry self.now }
        ensures { result ≡ entry_size self.now }
    {
        self.act.size()
    }
}
