//! The blocks of a volume in memory.
ghost use Rattle.std.specs.Prelude.{◌≡◌, ◌*◌, length};
ghost use Rattle.disk_model.specs.Sectors.{sectors};

use block_view::{Block, Body, Change, View, ViewFault};
use disk_model::put_bytes;
use std::alloc::{AllocError, Global};

/// A block with its body, as bytes and as torn or not.
#[derive(Drop)]
struct Kept {
    block: Block,
    bytes: Vec<u8>,
    torn: bool,
}

/// Bodies of blocks, and zeros in other blocks.
#[derive(Drop)]
pub struct Disk {
    kept: Vec<Kept>,
}

impl View for Disk {
    ghost use Rattle.std.specs.Prelude.{None};

    ghost content = { λ _. None };

    ghost faults = { λ _. 0 };

    ghost Kept = { Unit {0} };

    ghost kept = { λ _. tt };

    fn body(&mut self, block: Block, out: &mut Body) -> Result<(), ViewFault> {
        give(&self.kept, block, out);
        Ok(())
    }

    ghost sized = { λ _. tt };
}

// Gives the body of a block that has one of its size, and zeros for another.
#[tactic(auto, using(crate::proofs::Zeros::zeros_long))]
fn give(kept: &[Kept], block: Block, out: &mut Body)
    ensures { length out.new.bytes ≡ 512 * sectors block.kind }
{
    for one in kept {
        if one.block == block && one.bytes.len() == 512 * block.kind.sectors() {
            out.set(&one.bytes, one.torn);
            return;
        }
    }
    out.set_zeros(512 * block.kind.sectors());
}

// Puts bytes over others, where they have room.
fn put_over(bytes: &mut Vec<u8>, at: usize, new: &[u8]) {
    if at <= bytes.len() && new.len() <= bytes.len() - at {
        put_bytes(bytes, at, new);
    }
}

impl Disk {
    /// No bodies.
    pub fn empty(alloc: Global) -> Disk {
        Disk {
            kept: Vec::new(alloc),
        }
    }

    /// The same bodies.
    pub fn copy(&self, alloc: Global) -> Result<Disk, AllocError> {
        let mut kept = Vec::new(alloc);
        for one in &self.kept {
            kept.push(Kept {
                block: one.block,
                bytes: Vec::from_slice(alloc, one.bytes.as_slice())?,
                torn: one.torn,
            })?;
        }
        Ok(Disk { kept })
    }

    // Keeps a body of zeros for a block that has none.
    fn begin(&mut self, alloc: Global, block: Block) -> Result<(), AllocError> {
        for one in &self.kept {
            if one.block == block {
                return Ok(());
            }
        }
        self.kept.push(Kept {
            block,
            bytes: vec![in alloc; 0u8; 512 * block.kind.sectors()]?,
            torn: false,
        })?;
        Ok(())
    }

    /// Makes a change; a body that is put whole isn't torn.
    pub fn put(&mut self, alloc: Global, change: &Change) -> Result<(), AllocError> {
        self.begin(alloc, change.block)?;
        for one in self.kept.iter_mut() {
            if one.block == change.block {
                put_over(
                    &mut one.bytes,
                    change.offset as usize,
                    change.new.as_slice(),
                );
                one.torn = one.torn && change.new.len() < one.bytes.len();
            }
        }
        Ok(())
    }

    /// Makes changes.
    pub fn put_all(&mut self, alloc: Global, changes: &[Change]) -> Result<(), AllocError> {
        for change in changes {
            self.put(alloc, change)?;
        }
        Ok(())
    }

    /// Tears a block.
    pub fn tear(&mut self, alloc: Global, block: Block) -> Result<(), AllocError> {
        self.begin(alloc, block)?;
        for one in self.kept.iter_mut() {
            if one.block == block {
                one.torn = true;
            }
        }
        Ok(())
    }
}
