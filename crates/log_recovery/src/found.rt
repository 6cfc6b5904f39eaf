ghost use Rattle.std.specs.Prelude.{◌≡◌, IfOk};

use host_base::Bytes;
use log_reading::{Block, Body};
use std::alloc::{AllocError, Global};
use std::marker::Model;

/// A body that recovery made, which takes no more room than its bytes: of a log that was made for
/// it there may be as many as it has entries.
#[derive(Debug, Drop)]
pub struct RecoveredBody {
    bytes: Bytes,
    torn: bool,
}

impl Model for RecoveredBody {
    ghost use Rattle.log_reading.specs.disk_model.Bodies.{BodyOf};

    ghost Value = { BodyOf };

    ghost view = { λ b. record { bytes = b.bytes; torn = b.torn } };
}

impl RecoveredBody {
    ghost use Rattle.log_reading.specs.disk_model.Bodies.{BodyOf};

    /// A copy of a body, in time and memory linear in its bytes. The error is want of memory.
    pub fn copy_of(alloc: Global, body: &Body) -> Result<RecoveredBody, AllocError>
        ensures { IfOk result (λ copy. copy ≡ body.now) }
    {
        Ok(RecoveredBody {
            bytes: Bytes::copy_of(alloc, body.bytes())?,
            torn: body.torn(),
        })
    }

    /// The bytes.
    pub fn bytes(&self) -> &[u8]
        ensures { result.now ≡ self.now.bytes }
    {
        self.bytes.as_slice()
    }

    /// Whether the block is torn.
    pub fn torn(&self) -> bool
        ensures { result ≡ self.now.torn }
    {
        self.torn
    }
}

/// A block that recovery writes out, with its recovered body.
#[derive(Debug, Drop)]
pub struct RecoveredBlock {
    pub block: Block,
    pub body: RecoveredBody,
}

/// A shadowed block, with the LSN of the first update of a rival.
#[derive(Clone, Copy, Debug, PartialEq, Eq)]
pub struct Shadow {
    pub block: Block,
    pub lsn: u64,
}

/// What recovery finds.
#[derive(Debug, Drop)]
pub struct RecoveredBlocks {
    /// The blocks that recovery writes out, each once.
    pub bodies: Vec<RecoveredBlock>,
    /// The shadowed blocks, each once, of those that an entry may update: a file record begins in
    /// an even sector, an index block in the first of eight. They may have no update of their own.
    pub shadows: Vec<Shadow>,
}

/// What is found of a block.
#[derive(Drop)]
pub enum Judged {
    /// It is shadowed.
    Shadowed,
    /// It is changed, has an update sequence and isn't covered whole.
    Partial,
    /// It stays as it is.
    Kept,
    /// It is written out with this body.
    Made { body: RecoveredBody },
}
